// One cell.
ghost use Rattle.std.specs.Prelude.{OnOk, IsSome};
ghost use Rattle.srs_turn.specs.Prefixes.{Begins};
ghost use Rattle.srs_turn.specs.Passes.{IsPassOf};
ghost use Rattle.srs_tree.specs.Tree.{outcome_at};
ghost use Rattle.srs_atlas.specs.Books.{IsLawful};
ghost use Rattle.srs_crew.specs.Rounds.{IsWork};

use srs_atlas::{Atlas, AtlasPass, Commit};
use srs_num::NoMemory;
use srs_path::Last;
use srs_refine::Refiner;
use srs_session::Gate;
use srs_tree::Pending;
use std::alloc::Global;
use std::sync::Wait;

// Refines the cell, goes through the gate, and commits what was found. An `Err` is want of memory.
// With `Ok` the cell has an event.
pub(crate) fn settle<R: Wait, G: Gate>(
    rt: &R,
    alloc: Global,
    atlas: &Atlas,
    pass: &mut AtlasPass,
    refiner: &mut Refiner,
    cell: &Pending,
    last: Option<Last>,
    gate: &G,
    who: u32,
    piece: u64,
) -> Result<(), NoMemory>
    requires own { IsPassOf atlas.now pass.old }
    requires lawful { IsLawful atlas.now.fixed pass.old.seen }
    requires work { IsWork atlas.now.fixed pass.old.seen last cell.now }
    ensures own { IsPassOf atlas.now pass.new }
    ensures seen { Begins pass.old.seen pass.new.seen }
    ensures lawful { IsLawful atlas.now.fixed pass.new.seen }
    ensures done { OnOk result (IsSome (outcome_at pass.new.seen cell.now.path)) }
{
    let found = refiner.refine_or_leave(alloc, &cell.cell, last, atlas.w())?;
    gate.turn(rt, who, piece);
    match atlas.commit_at(rt, alloc, pass, cell, found) {
        Commit::Done(_) => Ok(()),
        Commit::Late(_) => Ok(()),
        Commit::NoMemory(_) => Err(NoMemory),
        Commit::NotThere(_) => unreachable!(),
        Commit::OtherCell(_) => unreachable!(),
    }
}
