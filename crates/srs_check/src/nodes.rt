// The test of one node.
ghost use Rattle.std.specs.Prelude.{◌≡◌, ◌<◌, ℕ, length, IfOk, IfErr, OnOk};
ghost use Rattle.srs_path.specs.Views.{Budget};
ghost use Rattle.srs_plane.specs.Regions.{Divides};
ghost use Rattle.srs_path.specs.declared.outcomes.Outcome.TheVariants.{Inside, Outside, Left};
ghost use Rattle.srs_path.specs.Cutout.{Covers};
ghost use Rattle.srs_tree.specs.Tree.{History};
ghost use Rattle.srs_tree.specs.Growth.{IsProvedOf};
ghost use Rattle.srs_check.specs.Budgets.{CountsRows};
ghost use Rattle.srs_check.specs.Proving.{Proves};
ghost use Rattle.srs_check.specs.Faults.{Fails, IsCycleFault};
ghost use Rattle.srs_check.specs.Tested.{IsTested, IsDivision};
ghost use Rattle.srs_check.specs.declared.faults.Fault.TheVariants.{NotProper};

use crate::Fault;
use crate::listed::check_inside;
use crate::tally::{Rows, spends_cells};
use srs_cell::{Cell, Parts, divides};
use srs_cut::{Judged, judge};
use srs_grid::line;
use srs_num::{Form, NoMemory};
use srs_path::{Cause, Cycle, Limits, Outcome, Ranks};
use std::alloc::Global;

// What the test of a node tells: a leaf that proves itself; the two parts of a cut; a leaf that
// proves itself where the number of cells is spent, which all nodes decide; or a fault.
#[derive(Drop)]
pub(crate) enum Tested {
    Leaf,
    Divided(Cell, Cell),
    Unsettled,
    Wrong(Fault),
}

// The test of a node of this depth, which has this cell. A cut is tested by making its parts.
pub(crate) fn test_node(
    alloc: Global,
    limits: &Limits,
    cell: &Cell,
    depth: u32,
    outcome: &Outcome,
) -> Result<Tested, NoMemory>
    requires few { length cell.now < 80 }
    ensures { IfOk result (IsTested cell.now limits.now depth outcome.now) }
{
    match outcome {
        Outcome::Inside(ranks) => Ok(test_inside(cell, ranks)),
        Outcome::Outside(cycle) => Ok(test_outside(cell, cycle)),
        Outcome::Left(cause) => Ok(test_left(limits, cell, depth, *cause)),
        Outcome::Cut(h) => check_cut(alloc, cell, h),
    }
}

fn test_inside(cell: &Cell, ranks: &Ranks) -> Tested
    ensures { (L : Budget) (k : ℕ) → IsTested cell.now L k (Inside ranks.now) result }
{
    match check_inside(cell, ranks) {
        Ok(()) => Tested::Leaf,
        Err(fault) => Tested::Wrong(fault),
    }
}

fn test_outside(cell: &Cell, cycle: &Cycle) -> Tested
    ensures { (L : Budget) (k : ℕ) → IsTested cell.now L k (Outside cycle.now) result }
{
    match check_outside(cell, cycle) {
        Ok(()) => Tested::Leaf,
        Err(fault) => Tested::Wrong(fault),
    }
}

// Whether the depth is the greatest, or there is no grid line.
fn test_left(limits: &Limits, cell: &Cell, depth: u32, cause: Cause) -> Tested
    ensures { IsTested cell.now limits.now depth (Left cause) result }
{
    match cause {
        Cause::Depth(_) => {
            if depth == limits.depth() {
                Tested::Leaf
            } else {
                Tested::Wrong(Fault::NoBudget)
            }
        }
        Cause::Cells(_) => Tested::Unsettled,
        Cause::Thin => match line(cell) {
            None => Tested::Leaf,
            Some(_) => Tested::Wrong(Fault::NoBudget),
        },
        Cause::Memory => Tested::Leaf,
    }
}

// Whether a node of this depth, which has this cell, proves itself among the nodes that were
// counted. No part is made.
pub(crate) fn check_node(
    limits: &Limits,
    rows: &Rows,
    cell: &Cell,
    depth: u32,
    outcome: &Outcome,
) -> Result<(), Fault>
    ensures ok { OnOk result ((H : History) → CountsRows H rows.now →
        Proves cell.now limits.now H depth outcome.now) }
    ensures sound { OnOk result (IsProvedOf cell.now outcome.now) }
    ensures err { IfErr result (λ fault. (H : History) → CountsRows H rows.now →
        Fails cell.now limits.now H depth outcome.now fault) }
{
    match outcome {
        Outcome::Inside(ranks) => check_inside(cell, ranks),
        Outcome::Outside(cycle) => check_outside(cell, cycle),
        Outcome::Left(cause) => check_left(limits, rows, cell, depth, *cause),
        Outcome::Cut(h) => check_proper(cell, h),
    }
}

// Whether the cycle covers the cell.
fn check_outside(cell: &Cell, cycle: &Cycle) -> Result<(), Fault>
    ensures ok { OnOk result (Covers cell.now cycle.now) }
    ensures sound { OnOk result (IsProvedOf cell.now (Outside cycle.now)) }
    ensures err { IfErr result (IsCycleFault cell.now cycle.now) }
{
    // A cycle has an entry, and its first pair isn't (0,0).
    let _ = cycle.len();
    match judge(cell, cycle) {
        Judged::Covers => Ok(()),
        Judged::Fails { at, .. } => Err(Fault::NotCycle(at)),
    }
}

// Whether the form divides the cell.
fn check_proper(cell: &Cell, h: &Form) -> Result<(), Fault>
    ensures ok { OnOk result (Divides cell.now h.now) }
    ensures err { IfErr result (λ fault. (fault ≡ NotProper) × (Divides cell.now h.now → ⊥)) }
{
    if divides(cell, h) {
        Ok(())
    } else {
        Err(Fault::NotProper)
    }
}

// The two parts of the cell.
fn check_cut(alloc: Global, cell: &Cell, h: &Form) -> Result<Tested, NoMemory>
    requires { length cell.now < 80 }
    ensures { IfOk result (IsDivision cell.now h.now) }
{
    match cell.cut(alloc, h)? {
        Parts::Both(ge, lt) => Ok(Tested::Divided(ge, lt)),
        Parts::AllGe | Parts::AllLt => Ok(Tested::Wrong(Fault::NotProper)),
    }
}

// Whether the budget is spent, or there is no grid line.
fn check_left(
    limits: &Limits,
    rows: &Rows,
    cell: &Cell,
    depth: u32,
    cause: Cause,
) -> Result<(), Fault>
    ensures ok { OnOk result ((H : History) → CountsRows H rows.now →
        Proves cell.now limits.now H depth (Left cause)) }
    ensures err { IfErr result (λ fault. (H : History) → CountsRows H rows.now →
        Fails cell.now limits.now H depth (Left cause) fault) }
{
    match test_left(limits, cell, depth, cause) {
        Tested::Leaf => Ok(()),
        Tested::Unsettled => {
            if spends_cells(limits, rows, depth) {
                Ok(())
            } else {
                Err(Fault::NoBudget)
            }
        }
        Tested::Wrong(fault) => Err(fault),
        Tested::Divided(_, _) => unreachable!(),
    }
}
