// Cutting a cell in two.
ghost use Rattle.std.specs.Prelude.{◌≡◌, ◌<◌, ◌≤◌, ◌+◌, [], ◌∷◌, ◌++◌, IfOk, IsSome, MatchOption, length};
ghost use Rattle.srs_num.specs.Points.{Point};
ghost use Rattle.srs_plane.specs.Regions.{HasPoint};
ghost use Rattle.srs_cell.specs.Corners.{boxed, IsCell};
ghost use Rattle.srs_cell.specs.Cutting.{IsSection};
ghost use Rattle.srs_cell.specs.Parts.{AreParts};
ghost use Rattle.srs_cell.specs.Tallies.{IsTally};
ghost use Rattle.srs_plane.specs.declared.regions.TheConstants.{MOST_HALVES};

use crate::Cell;
use crate::cells::inhabited;
use crate::corners::part_corners;
use crate::ends::Section;
use crate::floors::CornerList;
use crate::tallies::Tally;
use srs_num::{Form, NoMemory};
use srs_plane::{Half, Kind, Region};
use std::alloc::Global;

/// What a form makes of a cell.
#[derive(Drop)]
pub enum Parts {
    /// The cell where the form is at least 0, and the cell where it is below 0.
    Both(Cell, Cell),
    /// The form is at least 0 at every point.
    AllGe,
    /// The form is below 0 at every point.
    AllLt,
}

impl Cell {
    /// Cuts the cell by the form, for a cell of fewer than `MOST_HALVES` halves. A part may be a
    /// segment or a single point. An `Err` is want of memory: no part is given.
    // Where a side has no point, the answer is the other side's: so `AllGe` comes exactly where the
    // form is at least 0 at every point, and `AllLt` exactly where it is below 0 at every point,
    // since `Both` has a point on each side.
    pub fn cut(&self, alloc: Global, h: &Form) -> Result<Parts, NoMemory>
        requires { length self.now < MOST_HALVES }
        ensures { IfOk result (AreParts self.now h.now) }
    {
        let tally = self.corners.tally(h);
        if tally.below == 0 {
            return Ok(Parts::AllGe);
        }
        if tally.above == 0 && tally.on == 0 {
            return Ok(Parts::AllLt);
        }
        cut_in_two(alloc, &self.region, &self.corners, h, tally)
    }
}

// Cuts the cell by a form that is below 0 at some corners, and isn't at others.
fn cut_in_two(
    alloc: Global,
    region: &Region,
    corners: &CornerList,
    h: &Form,
    tally: Tally,
) -> Result<Parts, NoMemory>
    requires cell { (sample : Point) × IsCell region.now corners.now sample }
    requires few { length region.now < MOST_HALVES }
    requires tally { IsTally h.now corners.now tally }
    requires below { 1 ≤ tally.below }
    requires not_below { 1 ≤ tally.above + tally.on }
    ensures { IfOk result (AreParts region.now h.now) }
{
    let section = Section::within(region, h);
    let ge_side = Half {
        form: *h,
        kind: Kind::Ge,
    };
    let Some(above) = part(alloc, region, corners, ge_side, &section, tally)? else {
        return Ok(Parts::AllLt);
    };
    let lt_side = Half {
        form: h.opposite(),
        kind: Kind::Gt,
    };
    let turned = section.turned();
    let Some(below) = part(alloc, region, corners, lt_side, &turned, tally.turned())? else {
        return Ok(Parts::AllGe);
    };
    Ok(Parts::Both(above, below))
}

// The cell with the half appended, whose section this is, from the corners of this one, some of
// which are in that half. `None` exactly where it has no point: where a corner is strictly within
// the half, it has one.
fn part(
    alloc: Global,
    region: &Region,
    corners: &CornerList,
    half: Half,
    section: &Section,
    tally: Tally,
) -> Result<Option<Cell>, NoMemory>
    requires cell { (sample : Point) × IsCell region.now corners.now sample }
    requires few { length region.now < MOST_HALVES }
    requires line { section.now.line ≡ half.form }
    requires section { IsSection (boxed region.now) section.now }
    requires tally { IsTally half.form corners.now tally }
    requires some { 1 ≤ tally.above + tally.on }
    ensures part { IfOk result (λ found. MatchOption found (HasPoint (region.now ++ half ∷ []) → ⊥)
        (λ cell. cell ≡ region.now ++ half ∷ [])) }
    ensures point { IfOk result (λ found. IsSome found → HasPoint (region.now ++ half ∷ [])) }
{
    let part = part_corners(alloc, corners, section, tally)?;
    let longer = region.with(alloc, half)?;
    if tally.above == 0 {
        return Ok(inhabited(longer, part));
    }
    Ok(Some(Cell {
        region: longer,
        corners: CornerList::new(part),
    }))
}
