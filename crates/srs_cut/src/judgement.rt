// Whether a cycle covers a cell.
ghost use Rattle.std.specs.Prelude.{◌≤◌, ◌<◌, ℕ, length, MatchBool};
ghost use Rattle.srs_path.specs.Cutout.{cutout_of, Breaks};
ghost use Rattle.srs_cut.specs.Judgement.{HoldsThrough, IsJudged, IsFirstDivision, IsDivisionAt};

use crate::forms::{lower_form, upper_form};
use srs_cell::{Cell, divides, is_above, is_below};
use srs_num::Form;
use srs_path::Cycle;

/// What a cycle does at the points of a cell.
#[derive(Clone, Copy, Debug, PartialEq, Eq, Drop)]
pub enum Judged {
    /// At each point it holds.
    Covers,
    /// `at` is the least place at which some point breaks it. `divides` is the first form of its
    /// cutout that divides the cell, `None` where none does.
    Fails { at: u32, divides: Option<Form> },
}

/// Whether the cycle covers the cell, and if not, where it breaks and which form of it divides the
/// cell. It takes no memory. It costs up to four bounds for each entry of the cycle.
pub fn judge(cell: &Cell, c: &Cycle) -> Judged
    ensures { IsJudged cell.now c.now result }
{
    for at in 0..c.len() {
        if !holds(cell, c, at) {
            let divides = first_division(cell, c, at);
            return Judged::Fails { at, divides };
        }
    }
    Judged::Covers
}

// Whether the cycle holds at its place `i` at each point of the cell.
fn holds(cell: &Cell, c: &Cycle, i: u32) -> bool
    requires { i < length c.now }
    ensures { MatchBool result (HoldsThrough cell.now c.now i) (Breaks cell.now c.now i) }
{
    is_above(cell, &lower_form(c, i)) && is_below(cell, &upper_form(c, i))
}

// The first form of the cutout that divides the cell, where the cycle holds at each place before
// `from`: a form that is on one side of the cell doesn't divide it.
fn first_division(cell: &Cell, c: &Cycle, from: u32) -> Option<Form>
    requires from { from ≤ length c.now }
    requires before { (j : ℕ) → j < from → HoldsThrough cell.now c.now j }
    ensures { IsFirstDivision cell.now (cutout_of c.now) result }
{
    for i in from..c.len() {
        if let Some(form) = division_at(cell, c, i) {
            return Some(form);
        }
    }
    None
}

// The first of the two forms at the place `i` that divides the cell.
fn division_at(cell: &Cell, c: &Cycle, i: u32) -> Option<Form>
    requires { i < length c.now }
    ensures { IsDivisionAt cell.now c.now i result }
{
    let lower = lower_form(c, i);
    if divides(cell, &lower) {
        return Some(lower);
    }
    let upper = upper_form(c, i);
    if divides(cell, &upper) {
        return Some(upper);
    }
    None
}
