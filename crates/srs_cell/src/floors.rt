// The least floors of the value of a pair at the corners of a cell.
ghost use Rattle.std.specs.Prelude.{◌≡◌, ◌≤◌, ◌^◌, IsTrue, IfOk, All, length};
ghost use Rattle.srs_num.specs.Floor.{IsFloor};
ghost use Rattle.srs_num.specs.Points.{value, IsNear, IsWithin, IsPointWithin};
ghost use Rattle.srs_map.specs.Step.{IsNarrow};
ghost use Rattle.srs_cell.specs.Tallies.{IsTally};
ghost use Rattle.srs_cell.specs.Floors.{form_of, AreFloorsBelow, IsRatioWithin, AreFloorsOf};
ghost use Rattle.srs_cell.specs.Floors.{IsLesserFloor, AreLessened};

use crate::bounds::denominator;
use crate::corners::copied;
use crate::moves::step_form;
use crate::tallies::{Tally, tally_of};
use crate::values::value_of;
use srs_num::{Corner, Form, NoMemory, V2, floor_div};
use std::alloc::Global;
use std::marker::Model;

// The most in magnitude of the numbers of a corner, and of the entries of a pair, for which 64 bits
// suffice. At a near corner the value of such a pair and its floors are within 8 * 2^20, and 2^23 *
// 2^38 is below 2^63.
const SHORT: i128 = 1 << 38;

const SHORT_ENTRY: i64 = 1 << 20;

/// The least floor of a form and that of its opposite: the second is its greatest ceiling, negated.
#[derive(Clone, Copy, Drop)]
pub(crate) struct Floors {
    pub(crate) ahead: i64,
    pub(crate) back: i64,
}

impl Floors {
    // Those of the value n / d.
    fn of(n: i64, d: i64) -> Floors
        requires size { IsWithin (2 ^ 38) d }
        requires near { IsRatioWithin (2 ^ 23) n d }
        ensures { AreFloorsOf (2 ^ 23) n d result }
    {
        let ahead = n.div_euclid(d);
        Floors {
            ahead,
            back: if ahead * d < n { -ahead - 1 } else { -ahead },
        }
    }

    // With one more value n / d. It divides only where that moves a floor.
    fn lessened(self, n: i64, d: i64) -> Floors
        requires size { IsWithin (2 ^ 38) d }
        requires near { IsRatioWithin (2 ^ 23) n d }
        requires ahead { IsWithin (2 ^ 23) self.ahead }
        requires back { IsWithin (2 ^ 23) self.back }
        ensures { AreLessened (2 ^ 23) n d self result }
    {
        Floors {
            ahead: lesser_floor(n, d, self.ahead),
            back: lesser_floor(-n, d, self.back),
        }
    }

    // The same, for numbers of any size that a cell has.
    fn wide_lessened(self, n: i128, d: i128) -> Floors
        requires size { IsWithin (2 ^ 77) d }
        requires near { IsRatioWithin (2 ^ 40) n d }
        requires ahead { IsWithin (2 ^ 40) self.ahead }
        requires back { IsWithin (2 ^ 40) self.back }
        ensures { AreLessened (2 ^ 40) n d self result }
    {
        Floors {
            ahead: wide_lesser_floor(n, d, self.ahead),
            back: wide_lesser_floor(-n, d, self.back),
        }
    }
}

// The lesser of a whole number and the floor of n / d.
fn lesser_floor(n: i64, d: i64, least: i64) -> i64
    requires size { IsWithin (2 ^ 38) d }
    requires near { IsRatioWithin (2 ^ 23) n d }
    requires least { IsWithin (2 ^ 23) least }
    ensures { IsLesserFloor (2 ^ 23) n d least result }
{
    if n < least * d {
        n.div_euclid(d)
    } else {
        least
    }
}

// The value of a pair at a corner, for numbers so small that 64 bits hold it.
fn short_value(corner: &Corner, w: V2) -> i64
    requires corner { IsPointWithin (2 ^ 38) corner.now }
    requires a { IsWithin (2 ^ 20) w.a }
    requires b { IsWithin (2 ^ 20) w.b }
    ensures { result ≡ value (form_of w) corner.now }
{
    let (p, q, _) = corner.parts();
    p as i64 * w.a + q as i64 * w.b
}

// The denominator of a corner, where 64 bits hold it.
fn short_denominator(corner: &Corner) -> i64
    requires { IsPointWithin (2 ^ 38) corner.now }
    ensures { result ≡ corner.now.d }
{
    let (_, _, d) = corner.parts();
    d as i64
}

// The least floors at some corners, by numbers of 64 bits.
fn short_floors(corners: &[Corner], w: V2) -> Floors
    requires some { 1 ≤ length corners.now }
    requires near { All IsNear corners.now }
    requires short { All (IsPointWithin (2 ^ 38)) corners.now }
    requires a { IsWithin (2 ^ 20) w.a }
    requires b { IsWithin (2 ^ 20) w.b }
    ensures { AreFloorsBelow (2 ^ 23) (form_of w) corners.now corners.now result }
{
    let first = &corners[0];
    let mut floors = Floors::of(short_value(first, w), short_denominator(first));
    for i in 1..corners.len() {
        let corner = &corners[i];
        floors = floors.lessened(short_value(corner, w), short_denominator(corner));
    }
    floors
}

// The floor of n / d, for numbers of any size that a cell has. It is so small that 64 bits hold it.
fn wide_floor(n: i128, d: i128) -> i64
    requires size { IsWithin (2 ^ 77) d }
    requires near { IsRatioWithin (2 ^ 40) n d }
    ensures floor { IsFloor n d result }
    ensures range { IsWithin (2 ^ 40) result }
{
    floor_div(n, d) as i64
}

// The floors of n / d and of -n / d, for such numbers.
fn wide_floors_of(n: i128, d: i128) -> Floors
    requires size { IsWithin (2 ^ 77) d }
    requires near { IsRatioWithin (2 ^ 40) n d }
    ensures { AreFloorsOf (2 ^ 40) n d result }
{
    let ahead = wide_floor(n, d);
    Floors {
        ahead,
        back: if ahead as i128 * d < n {
            -ahead - 1
        } else {
            -ahead
        },
    }
}

// As `lesser_floor`, for such numbers.
fn wide_lesser_floor(n: i128, d: i128, least: i64) -> i64
    requires size { IsWithin (2 ^ 77) d }
    requires near { IsRatioWithin (2 ^ 40) n d }
    requires least { IsWithin (2 ^ 40) least }
    ensures { IsLesserFloor (2 ^ 40) n d least result }
{
    if n < least as i128 * d {
        wide_floor(n, d)
    } else {
        least
    }
}

// The least floors at some corners, by numbers of 128 bits.
#[inline(never)]
fn wide_floors(corners: &[Corner], short: bool, w: V2) -> Floors
    requires some { 1 ≤ length corners.now }
    requires near { All IsNear corners.now }
    requires sized { All (IsPointWithin (2 ^ 77)) corners.now }
    requires short { IsTrue short → All (IsPointWithin (2 ^ 38)) corners.now }
    requires narrow { IsNarrow w }
    ensures { AreFloorsBelow (2 ^ 40) (form_of w) corners.now corners.now result }
{
    let form = step_form(w);
    let first = &corners[0];
    let mut floors = wide_floors_of(value_of(&form, first, short), denominator(first));
    for i in 1..corners.len() {
        let corner = &corners[i];
        floors = floors.wide_lessened(value_of(&form, corner, short), denominator(corner));
    }
    floors
}

// Whether both entries are within 2^20.
fn is_short_pair(w: V2) -> bool
    ensures { IsTrue result → IsWithin (2 ^ 20) w.a × IsWithin (2 ^ 20) w.b }
{
    -SHORT_ENTRY <= w.a && w.a <= SHORT_ENTRY && -SHORT_ENTRY <= w.b && w.b <= SHORT_ENTRY
}

// Whether all three numbers of the corner are within 2^38.
fn is_short(corner: &Corner) -> bool
    ensures { IsTrue result → IsPointWithin (2 ^ 38) corner.now }
{
    let (p, q, d) = corner.parts();
    -SHORT <= p && p <= SHORT && -SHORT <= q && q <= SHORT && d <= SHORT
}

// Whether the numbers of all the corners are within 2^38.
fn are_short(corners: &[Corner]) -> bool
    ensures { IsTrue result → All (IsPointWithin (2 ^ 38)) corners.now }
{
    for corner in corners {
        if !is_short(corner) {
            return false;
        }
    }
    true
}

// The corners of a cell.
#[derive(Drop)]
pub(crate) struct CornerList {
    items: Vec<Corner>,
    // Where this is set, the numbers of all of them are within 2^38.
    short: bool,
}

impl Model for CornerList {
    ghost use Rattle.std.specs.Prelude.{List, IsTrue, All, ◌^◌};
    ghost use Rattle.srs_num.specs.Points.{Point, IsPointWithin};

    ghost Value = { List Point };

    ghost view = { λ s. s.items.items };

    ghost invariant = { λ s. IsTrue s.short → All (IsPointWithin (2 ^ 38)) s.items.items };
}

impl CornerList {
    pub(crate) fn new(items: Vec<Corner>) -> CornerList
        ensures { result ≡ items.items }
    {
        let short = are_short(&items);
        CornerList { items, short }
    }

    pub(crate) fn as_slice(&self) -> &[Corner]
        ensures { result.now ≡ self.now }
    {
        &self.items
    }

    // Where this is set, the numbers of all of them are within 2^38.
    pub(crate) fn is_short(&self) -> bool
        ensures { IsTrue result → All (IsPointWithin (2 ^ 38)) self.now }
    {
        self.short
    }

    // How many of them are on each side of the line.
    pub(crate) fn tally(&self, line: &Form) -> Tally
        ensures { IsTally line.now self.now result }
    {
        tally_of(&self.items, self.short, line)
    }

    // The same corners, in memory of their own.
    pub(crate) fn copy(&self, alloc: Global) -> Result<CornerList, NoMemory>
        ensures { IfOk result (λ copy. copy ≡ self.now) }
    {
        Ok(CornerList {
            items: copied(alloc, &self.items)?,
            short: self.short,
        })
    }

    // The least floors of the value of a pair with entries within 2^37.
    pub(crate) fn floors(&self, w: V2) -> Floors
        requires some { 1 ≤ length self.now }
        requires near { All IsNear self.now }
        requires sized { All (IsPointWithin (2 ^ 77)) self.now }
        requires narrow { IsNarrow w }
        ensures { AreFloorsBelow (2 ^ 40) (form_of w) self.now self.now result }
    {
        if self.short && is_short_pair(w) {
            short_floors(&self.items, w)
        } else {
            wide_floors(&self.items, self.short, w)
        }
    }
}
