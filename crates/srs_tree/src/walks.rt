// The walk through a tree in preorder.
ghost use Rattle.std.specs.Prelude.{◌≡◌, ◌<◌, [], ◌∷◌, ◌++◌, length, slice_get, Some, OnOk};
ghost use Rattle.std.specs.Arc.{arc_value};
ghost use Rattle.srs_tree.specs.Nodes.{Spot, AreSpots, entries_of};
ghost use Rattle.srs_tree.specs.Preorder.{event_of, preorder_below};

use crate::Journal;
use crate::nodes::{Nodes, shared};
use srs_num::NoMemory;
use srs_path::{Event, Outcome, Path, Side};
use std::sync::Arc;

// Appends the outcome of the cell at the place `i`, and then those below it. An `Err` is want of memory.
pub(crate) fn walk(nodes: &Nodes, i: usize, journal: &mut Journal) -> Result<(), NoMemory>
    requires spots { AreSpots nodes.now }
    requires there { i < length nodes.now }
    ensures { OnOk result
        ((x : Spot) → slice_get nodes.now i ≡ Some x → journal.new ≡
        journal.old ++ preorder_below (entries_of nodes.now) x.path) }
{
    let node = nodes.get(i);
    let Some(outcome) = node.outcome() else {
        return Ok(());
    };
    let path = node.path();
    // Paths have at most 48 sides, and so the calls end.
    let _ = path.len();
    append(journal, path, outcome)?;
    let Some(ge) = node.part(Side::Ge) else {
        return Ok(());
    };
    walk(nodes, ge, journal)?;
    walk(nodes, ge + 1, journal)
}

// Appends the outcome at the path. An `Err` is want of memory.
fn append(journal: &mut Journal, path: Path, outcome: &Arc<Outcome>) -> Result<(), NoMemory>
    ensures { OnOk result
        (journal.new ≡ journal.old ++ event_of (path, arc_value outcome.now) ∷ []) }
{
    let event = Event {
        path,
        outcome: shared(outcome)?,
    };
    match journal.push(event) {
        Ok(()) => Ok(()),
        Err(_) => Err(NoMemory),
    }
}
