// Cutting the corners of a region by a form.
ghost use Rattle.std.specs.Prelude.{◌≡◌, ◌≤◌, ◌^◌, ◌↔◌, ◌+◌, ◌∷◌, ◌++◌, [], IsTrue, IfOk};
ghost use Rattle.std.specs.Prelude.{MatchOption, All, List, length, take};
ghost use Rattle.srs_num.specs.Points.{Point, IsNear, IsPointWithin};
ghost use Rattle.srs_plane.specs.declared.halves.Half.{Half};
ghost use Rattle.srs_plane.specs.Regions.{IsIn};
ghost use Rattle.srs_cell.specs.Hull.{IsInHalves, IsAbove, IsBelow, IsHull};
ghost use Rattle.srs_cell.specs.Corners.{box, boxed, AreCorners};
ghost use Rattle.srs_cell.specs.Cutting.{IsKept, IsLeft, IsSection};
ghost use Rattle.srs_cell.specs.Tallies.{IsTally};
ghost use Rattle.srs_plane.specs.declared.regions.TheConstants.{MOST_HALVES};

use crate::doubles::{add_corner, join_corner};
use crate::ends::{Section, side};
use crate::floors::CornerList;
use crate::tallies::Tally;
use crate::values::value_of;
use srs_num::{Corner, Form, NoMemory, crossing_of};
use srs_plane::Region;
use std::alloc::Global;

// What a form leaves of some corners.
#[derive(Drop)]
pub(crate) enum Remains {
    // They are all on its side.
    Whole,
    // None of them is.
    Nothing,
    // These are the corners of the part on its side.
    Part(Vec<Corner>),
}

// Whether the line's form is at least 0 at each of the corners.
fn all_above(corners: &[Corner], line: &Form) -> bool
    ensures { IsTrue result ↔ IsAbove line.now corners.now }
{
    for corner in corners {
        if line.at_corner(corner) < 0 {
            return false;
        }
    }
    true
}

// Whether the line's form is below 0 at each of the corners.
fn all_below(corners: &[Corner], line: &Form) -> bool
    ensures { IsTrue result ↔ IsBelow line.now corners.now }
{
    for corner in corners {
        if line.at_corner(corner) >= 0 {
            return false;
        }
    }
    true
}

// The corners at which the line's form is at least 0, with room for so many.
pub(crate) fn keep_above(
    alloc: Global,
    corners: &[Corner],
    short: bool,
    line: &Form,
    room: usize,
) -> Result<Vec<Corner>, NoMemory>
    requires short { IsTrue short → All (IsPointWithin (2 ^ 38)) corners.now }
    ensures { IfOk result (λ kept. IsKept line.now corners.now kept.items) }
{
    let mut kept = Vec::with_capacity(alloc, room)?;
    for corner in corners {
        if value_of(line, corner, short) >= 0 {
            add_corner(&mut kept, *corner)?;
        }
    }
    Ok(kept)
}

// What the section's line leaves of the halves whose corners these are. It takes memory only for a part.
pub(crate) fn clip_corners(
    alloc: Global,
    corners: &[Corner],
    section: &Section,
) -> Result<Remains, NoMemory>
    requires sized { All (IsPointWithin (2 ^ 77)) corners.now }
    requires section { (R : List Half) × IsHull (boxed R) corners.now × IsSection (boxed R)
        section.now }
    ensures { (R : List Half) → IsHull (boxed R) corners.now → IsSection (boxed R) section.now
        → IfOk result (IsLeft (boxed R) corners.now section.now.line) }
{
    if all_above(corners, &section.line) {
        return Ok(Remains::Whole);
    }
    if all_below(corners, &section.line) {
        return Ok(Remains::Nothing);
    }
    let mut part = keep_above(alloc, corners, false, &section.line, corners.len())?;
    let Some(first) = section.first else {
        unreachable!()
    };
    let Some(second) = section.second else {
        unreachable!()
    };
    join_corner(&mut part, first, true)?;
    join_corner(&mut part, second, true)?;
    Ok(Remains::Part(part))
}

// The corners of the box |x| <= 4, |y| <= 4.
fn box_corners(alloc: Global) -> Result<Vec<Corner>, NoMemory>
    ensures { IfOk result (λ corners. AreCorners [] corners.items) }
{
    let right = side(1, 0);
    let top = side(0, 1);
    let left = side(-1, 0);
    let bottom = side(0, -1);
    let corners = [
        crossing_of(&right, &top),
        crossing_of(&top, &left),
        crossing_of(&left, &bottom),
        crossing_of(&bottom, &right),
    ];
    copied(alloc, &corners)
}

// The same corners, in memory of their own.
pub(crate) fn copied(alloc: Global, corners: &[Corner]) -> Result<Vec<Corner>, NoMemory>
    ensures { IfOk result (λ copy. copy.items ≡ corners.now) }
{
    Ok(Vec::from_slice(alloc, corners)?)
}

// The corners of the region's halves, where open edges count as closed. `None`: these have no point.
pub(crate) fn corners_of(alloc: Global, region: &Region) -> Result<Option<Vec<Corner>>, NoMemory>
    ensures count { length region.now ≤ MOST_HALVES }
    ensures near { (r : Point) → IsIn region.now r → IsNear r }
    ensures found { IfOk result (λ found. MatchOption found
        ((z : Point) → IsInHalves (boxed region.now) z → ⊥)
        (λ corners. AreCorners region.now corners.items)) }
{
    let count = region.len();
    let mut corners = box_corners(alloc)?;
    for i in 0..count {
        let half = region.half(i);
        let section = Section::of(region, i, &half.form);
        match clip_corners(alloc, &corners, &section)? {
            Remains::Whole => {}
            Remains::Nothing => return Ok(None),
            Remains::Part(part) => corners = part,
        }
    }
    Ok(Some(corners))
}

// The corners of a region with a half of the section's line appended, from those of the region,
// where some of these are in that half.
pub(crate) fn part_corners(
    alloc: Global,
    corners: &CornerList,
    section: &Section,
    tally: Tally,
) -> Result<Vec<Corner>, NoMemory>
    requires section { (R : List Half) × AreCorners R corners.now × IsSection (boxed R)
        section.now × (length R ≤ MOST_HALVES) }
    requires tally { IsTally section.now.line corners.now tally }
    requires some { 1 ≤ tally.above + tally.on }
    ensures { (R : List Half) → AreCorners R corners.now → IsSection (boxed R) section.now
        → IfOk result (λ part. (h : Half) → h.form ≡ section.now.line → AreCorners (R ++ h ∷ [])
        part.items) }
{
    if tally.below == 0 {
        let copy = copied(alloc, corners.as_slice())?;
        return Ok(copy);
    }
    // A corner on the line is one of the two ends.
    let room = tally.above + tally.on.max(2);
    let short = corners.is_short();
    let mut part = keep_above(alloc, corners.as_slice(), short, &section.line, room)?;
    let Some(first) = section.first else {
        unreachable!()
    };
    let Some(second) = section.second else {
        unreachable!()
    };
    let may_double = tally.may_double();
    join_corner(&mut part, first, may_double)?;
    join_corner(&mut part, second, may_double)?;
    Ok(part)
}
