// On which side of a form a cell is.
ghost use Rattle.std.specs.Prelude.{◌↔◌, IsTrue, MatchBool};
ghost use Rattle.srs_plane.specs.Regions.{Divides};
ghost use Rattle.srs_cell.specs.Sides.{StaysAbove, StaysBelow, ReachesAbove, ReachesBelow};

use crate::Cell;
use srs_num::Form;

/// Whether the form is at least 0 at each point of the cell. It goes over the corners once.
pub fn is_above(cell: &Cell, form: &Form) -> bool
    ensures { MatchBool result (StaysAbove cell.now form.now) (ReachesBelow cell.now form.now) }
{
    cell.corners.tally(form).below == 0
}

/// Whether the form is below 0 at each point of the cell. It goes over the corners once; where the
/// greatest value at a corner is 0, it costs what `Cell::high` does.
pub fn is_below(cell: &Cell, form: &Form) -> bool
    ensures { MatchBool result (StaysBelow cell.now form.now) (ReachesAbove cell.now form.now) }
{
    let tally = cell.corners.tally(form);
    if tally.above > 0 {
        return false;
    }
    if tally.on == 0 {
        return true;
    }
    is_below_by_bound(cell, form)
}

// The same, by the supremum.
fn is_below_by_bound(cell: &Cell, form: &Form) -> bool
    ensures { MatchBool result (StaysBelow cell.now form.now) (ReachesAbove cell.now form.now) }
{
    let high = cell.high(form);
    if high.num == 0 {
        return !high.attained;
    }
    high.num < 0
}

/// Whether the form divides the cell: some point has it at least 0, and some point has it below 0.
pub fn divides(cell: &Cell, form: &Form) -> bool
    ensures { IsTrue result ↔ Divides cell.now form.now }
{
    !is_above(cell, form) && !is_below(cell, form)
}
