// The rounds: all cells on paths of one length are refined before those on longer paths.
ghost use Rattle.std.specs.Prelude.{◌≡◌, ◌+◌, ◌<◌, ◌≤◌, ◌++◌, [], ◌∷◌, length, vec_len, None, IfOk, OnOk};
ghost use Rattle.srs_tree.specs.Tree.{region_at};
ghost use Rattle.srs_tree.specs.Snapshots.{tree_of};
ghost use Rattle.srs_tree.specs.Growth.{IsOpenIn};
ghost use Rattle.srs_rounds.specs.Refined.{IsRefined, StartsRound, GetsOutcome};

use srs_cell::Cell;
use srs_num::NoMemory;
use srs_path::{Last, Limits};
use srs_refine::Refiner;
use srs_tree::{Pending, TreeBuilder, Version};
use std::alloc::Global;

/// The tree of the cell, which has at most 16 halves: round by round, each cell has the outcome of its
/// region, or is left where there was no memory for it, and a limit is spent for all cells of a round
/// or for none. An `Err` is want of memory for the tree.
pub fn rounds(alloc: Global, cell: Cell, limits: &Limits) -> Result<Version, NoMemory>
    requires { length cell ≤ 16 }
    ensures { IfOk result (IsRefined cell limits.now) }
{
    let mut tree = TreeBuilder::start(alloc, cell)?;
    let mut refiner = Refiner::new(alloc, limits.wits())?;
    let mut waiting = Vec::new(alloc);
    waiting.push(tree.root()?)?;
    let mut cells = 1;
    for number in 0..limits.depth() + 1 {
        if waiting.is_empty() {
            return Ok(tree.finish());
        }
        waiting = refine_round(
            alloc,
            &mut refiner,
            limits,
            number,
            cells,
            &mut tree,
            &waiting,
        )?;
        cells += waiting.len() as u64;
    }
    Ok(tree.finish())
}

// Refines the cells of a round, where the tree has so many cells, and gives those of the next.
fn refine_round(
    alloc: Global,
    refiner: &mut Refiner,
    limits: &Limits,
    number: u32,
    cells: u64,
    tree: &mut TreeBuilder,
    waiting: &[Pending],
) -> Result<Vec<Pending>, NoMemory>
    requires start { StartsRound tree.old.region limits.now number cells tree.old waiting.now }
    requires shallow { number ≤ limits.now.depth }
    ensures next { IfOk result
        (λ next. StartsRound tree.old.region limits.now (number + 1)
        (cells + vec_len next) tree.new next.items) }
{
    let wits = limits.wits();
    let last = limits.last(number, cells, waiting.len() as u64);
    let mut next = Vec::new(alloc);
    for pending in waiting {
        refine_cell(alloc, refiner, wits, last, tree, pending, &mut next)?;
    }
    Ok(next)
}

// Refines one cell that waits, and adds its outcome.
fn refine_cell(
    alloc: Global,
    refiner: &mut Refiner,
    wits: u32,
    last: Option<Last>,
    tree: &mut TreeBuilder,
    pending: &Pending,
    next: &mut Vec<Pending>,
) -> Result<(), NoMemory>
    requires some { 1 ≤ wits }
    requires bounded { wits ≤ 16384 }
    requires waits { IsOpenIn (tree_of tree.old) pending.now.path }
    requires region { pending.now.region ≡
        region_at tree.old.region (tree_of tree.old) pending.now.path }
    requires short { last ≡ None → length pending.now.path < 48 }
    ensures { OnOk result
        (GetsOutcome last wits tree.old tree.new pending.now next.old.items next.new.items) }
{
    let finding = refiner.refine_or_leave(alloc, &pending.cell, last, wits)?;
    if let Some((ge, lt)) = tree.add(alloc, pending.place, pending.path, finding)? {
        next.push(ge)?;
        next.push(lt)?;
    }
    Ok(())
}
