// The version of a certificate.
ghost use Rattle.std.specs.Arc.{arc_value};
ghost use Rattle.std.specs.Prelude.{◌≡◌, map, IfOk, OnOk};
ghost use Rattle.srs_path.specs.declared.outcomes.Outcome.TheVariants.{Left};
ghost use Rattle.srs_path.specs.declared.outcomes.Cause.TheVariants.{Memory};
ghost use Rattle.srs_tree.specs.Growth.{IsProvedOf, IsOpenIn, IsShortCut};
ghost use Rattle.srs_tree.specs.Queue.{cell_in, cells_from};
ghost use Rattle.srs_tree.specs.Rounds.{parts_by};
ghost use Rattle.srs_tree.specs.Tree.{region_at};
ghost use Rattle.srs_tree.specs.Snapshots.{tree_of, with_entry};
ghost use Rattle.srs_check.specs.Builds.{as_built, IsBuiltFrom};

use crate::checks::root_of;
use crate::nodes::check_node;
use crate::tally::{node_count, tally_of};
use crate::waiting::Waiting;
use crate::{Counts, Fault};
use srs_cell::Cell;
use srs_cert::Cert;
use srs_num::NoMemory;
use srs_path::{Cause, Event, Finding, Outcome};
use srs_tree::{Pending, TreeBuilder, Version};
use std::alloc::Global;
use std::sync::Arc;

/// What a build answers: each node proves itself, with the version of the tree and the counts; or
/// the line and the fault of the first node that doesn't.
#[derive(Drop)]
pub enum Built {
    Valid(Version, Counts),
    Bad(u32, Fault),
}

/// The version that has what the certificate has, but each cell that is left without its cause,
/// which no check tests. `Bad` comes as for `check`. It is one walk: each node is tested, and then
/// entered. An `Err` is want of memory.
pub fn build(alloc: Global, c: &Cert) -> Result<Built, NoMemory>
    ensures { IfOk result (IsBuiltFrom c.now) }
{
    let nodes = node_count(c);
    let tally = tally_of(c);
    let limits = c.limits();
    let left = Arc::new(alloc, Outcome::Left(Cause::Memory))?;
    let mut tree = TreeBuilder::start(alloc, root_of(alloc, c)?)?;
    let mut waiting = Waiting::of(alloc, tree.root()?);
    for i in 0..nodes {
        let Some(next) = waiting.take() else {
            unreachable!()
        };
        let event = c.events().get(i as u64);
        let depth = event.path.len();
        if let Err(fault) = check_node(
            &limits,
            &tally.rows,
            &next.cell,
            depth,
            event.outcome.as_ref(),
        ) {
            return Ok(Built::Bad(c.line(i), fault));
        }
        if let Some((ge, lt)) = enter(alloc, &mut tree, event, next.place, &next.cell, &left)? {
            waiting.divide(ge, lt);
        }
    }
    Ok(Built::Valid(tree.finish(), tally.counts))
}

// The event comes to the cell at its path, which is open and stands at this place, and the cells
// that it makes are given. All cells that are left have one outcome.
fn enter(
    alloc: Global,
    tree: &mut TreeBuilder,
    event: &Event,
    place: usize,
    cell: &Cell,
    left: &Arc<Outcome>,
) -> Result<Option<(Pending, Pending)>, NoMemory>
    requires left { arc_value left.now ≡ Left Memory }
    requires is_open { IsOpenIn (tree_of tree.old) event.now.path }
    requires same { cell.now ≡ region_at tree.old.region (tree_of tree.old) event.now.path }
    requires short { IsShortCut event.now.path event.now.outcome }
    requires proved { IsProvedOf cell.now event.now.outcome }
    ensures entered { OnOk result
        (tree.new ≡ with_entry tree.old event.now.path (as_built event.now.outcome)) }
    ensures parts { IfOk result
        (λ parts. cells_from parts ≡
        map (cell_in tree.new) (parts_by event.now.path (as_built event.now.outcome))) }
{
    let found = finding(alloc, cell, &event.outcome, left)?;
    tree.add(alloc, place, event.path, found)
}

// The finding of an outcome that is proved of the cell.
fn finding(
    alloc: Global,
    cell: &Cell,
    outcome: &Arc<Outcome>,
    left: &Arc<Outcome>,
) -> Result<Finding, NoMemory>
    requires left { arc_value left.now ≡ Left Memory }
    requires proved { IsProvedOf cell.now (arc_value outcome.now) }
    ensures region { IfOk result (λ f. f.region ≡ cell.now) }
    ensures outcome { IfOk result (λ f. f.outcome ≡ as_built (arc_value outcome.now)) }
{
    let region = cell.region().copy(alloc)?;
    match outcome.as_ref() {
        Outcome::Left(_) => Ok(Finding::sharing(region, 0, Arc::try_clone(left)?)),
        Outcome::Inside(_) | Outcome::Outside(_) | Outcome::Cut(_) => {
            Ok(Finding::sharing(region, 0, Arc::try_clone(outcome)?))
        }
    }
}
