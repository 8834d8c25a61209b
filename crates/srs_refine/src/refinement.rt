// The outcome of one cell, by the first row of the table that applies.
ghost use Rattle.std.specs.Prelude.{◌≡◌, ◌≤◌, ℕ, Some, IfOk};
ghost use Rattle.srs_plane.specs.Regions.{Area};
ghost use Rattle.srs_path.specs.Witnesses.{IsSmall};
ghost use Rattle.srs_path.specs.ChosenCycle.{IsChosen};
ghost use Rattle.srs_path.specs.Refinement.{StaysOpen, Refines};
ghost use Rattle.srs_wit.specs.Listing.{AreAllWitnesses};
ghost use Rattle.srs_refine.specs.Found.{IsFoundOf};
ghost use Rattle.srs_path.specs.declared.limits.TheConstants.{MOST_WITNESSES};

use srs_cell::Cell;
use srs_cut::{Judged, judge};
use srs_graph::Graph;
use srs_grid::line;
use srs_num::NoMemory;
use srs_path::{Cause, Cycle, Finding, Last, Outcome, Why};
use srs_wit::{Searcher, WitSet};
use std::alloc::Global;

/// Memory for the outcomes of cells, which is kept from one to the next.
#[derive(Drop)]
pub struct Refiner {
    searcher: Searcher,
}

impl Refiner {
    /// Its room is that for cells with a bound of `w` on their witnesses.
    pub fn new(alloc: Global, w: u32) -> Result<Refiner, NoMemory> {
        let searcher = Searcher::new(alloc, w)?;
        Ok(Refiner { searcher })
    }

    /// As the function of this name, for one cell after another. After an `Err` too it may be used
    /// for other cells.
    pub fn refine(
        &mut self,
        alloc: Global,
        cell: &Cell,
        last: Option<Last>,
        w: u32,
    ) -> Result<Finding, NoMemory>
        requires some { 1 ≤ w }
        requires few { w ≤ MOST_WITNESSES }
        ensures region { IfOk result (λ finding. finding.region ≡ cell.now) }
        ensures w { IfOk result (λ finding. finding.w ≡ w) }
        ensures outcome { IfOk result (λ finding. Refines cell.now last w finding.outcome) }
    {
        let outcome = outcome_of(alloc, &mut self.searcher, cell, last, w)?;
        let region = cell.region().copy(alloc)?;
        Ok(Finding::found(region, w, outcome))
    }

    /// As `refine`, but a cell for whose outcome there is no memory is left for that. Its region is
    /// copied first: an `Err` is want of memory for the copy alone.
    pub fn refine_or_leave(
        &mut self,
        alloc: Global,
        cell: &Cell,
        last: Option<Last>,
        w: u32,
    ) -> Result<Finding, NoMemory>
        requires some { 1 ≤ w }
        requires few { w ≤ MOST_WITNESSES }
        ensures region { IfOk result (λ finding. finding.region ≡ cell.now) }
        ensures w { IfOk result (λ finding. finding.w ≡ w) }
        ensures outcome { IfOk result (λ finding. IsFoundOf cell.now last w finding.outcome) }
    {
        let region = cell.region().copy(alloc)?;
        match outcome_of(alloc, &mut self.searcher, cell, last, w) {
            Ok(outcome) => Ok(Finding::found(region, w, outcome)),
            Err(NoMemory) => Ok(Finding::unfound(region, w)),
        }
    }
}

/// The outcome of the cell, for a bound `w` from 1 to `MOST_WITNESSES` on its witnesses, where
/// `last` is the limit that is spent.
///
/// A small cell is inside where its core is empty, and outside where its chosen cycle covers it.
/// Any other cell is left where a limit is spent. Else a small one is cut by the first form of its
/// cutout that divides it, and one that isn't small by its first grid line; with no such line it is
/// left as thin. An `Err` is want of memory.
pub fn refine(alloc: Global, cell: &Cell, last: Option<Last>, w: u32) -> Result<Finding, NoMemory>
    requires some { 1 ≤ w }
    requires few { w ≤ MOST_WITNESSES }
    ensures region { IfOk result (λ finding. finding.region ≡ cell.now) }
    ensures w { IfOk result (λ finding. finding.w ≡ w) }
    ensures outcome { IfOk result (λ finding. Refines cell.now last w finding.outcome) }
{
    let mut refiner = Refiner::new(alloc, w)?;
    refiner.refine(alloc, cell, last, w)
}

// The outcome of the cell.
fn outcome_of(
    alloc: Global,
    searcher: &mut Searcher,
    cell: &Cell,
    last: Option<Last>,
    w: u32,
) -> Result<Outcome, NoMemory>
    requires some { 1 ≤ w }
    requires few { w ≤ MOST_WITNESSES }
    ensures { IfOk result (Refines cell.now last w) }
{
    match searcher.small_witnesses(alloc, cell, w)? {
        Some(set) => of_small(alloc, cell, &set, last),
        None => Ok(of_large(cell, last)),
    }
}

// The outcome of a small cell with these witnesses.
fn of_small(
    alloc: Global,
    cell: &Cell,
    set: &WitSet,
    last: Option<Last>,
) -> Result<Outcome, NoMemory>
    requires small { IsSmall cell.now MOST_WITNESSES }
    requires all { AreAllWitnesses cell.now set.now }
    ensures { (W : ℕ) → IsSmall cell.now W → IfOk result (Refines cell.now last W) }
{
    let graph = Graph::of(alloc, cell, set)?;
    if let Some(ranks) = graph.ranks(alloc)? {
        return Ok(Outcome::Inside(ranks));
    }
    let Some(cycle) = graph.cycle(alloc)? else {
        unreachable!()
    };
    Ok(of_cycle(cell, cycle, last))
}

// The outcome of a small cell with this chosen cycle. Each edge of the cycle is taken at some point
// of the cell, so where the cycle doesn't cover the cell, a form of its cutout divides it.
fn of_cycle(cell: &Cell, cycle: Cycle, last: Option<Last>) -> Outcome
    requires { IsChosen cell.now cycle }
    ensures { (W : ℕ) → IsSmall cell.now W → Refines cell.now last W result }
{
    let Judged::Fails { divides, .. } = judge(cell, &cycle) else {
        return Outcome::Outside(cycle);
    };
    match (last, divides) {
        (Some(limit), _) => left(limit, Why::Cycle),
        (None, Some(form)) => Outcome::Cut(form),
        (None, None) => unreachable!(),
    }
}

// The outcome of a cell that isn't small.
fn of_large(cell: &Cell, last: Option<Last>) -> Outcome
    ensures { (W : ℕ) → (IsSmall cell.now W → ⊥) → Refines cell.now last W result }
{
    if let Some(limit) = last {
        return left(limit, Why::Witness);
    }
    match line(cell) {
        Some(form) => Outcome::Cut(form),
        None => Outcome::Left(Cause::Thin),
    }
}

// The outcome of a cell that stays open where the limit is spent.
fn left(limit: Last, why: Why) -> Outcome
    ensures { (R : Area) (W : ℕ) → StaysOpen R W why → Refines R (Some limit) W result }
{
    match limit {
        Last::Depth => Outcome::Left(Cause::Depth(why)),
        Last::Cells => Outcome::Left(Cause::Cells(why)),
    }
}
