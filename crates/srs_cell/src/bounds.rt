// The least and the greatest value of a form over a cell.
ghost use Rattle.std.specs.Prelude.{◌≡◌, ◌≤◌, ◌^◌, ◌↔◌, IsTrue, All, Contains, MatchOption, length};
ghost use Rattle.std.specs.Prelude.{pos, ◌*ℤ◌, ◌≤ℤ◌, ◌<ℤ◌};
ghost use Rattle.srs_num.specs.Points.{Point, value, IsNear, IsWithin, IsPointWithin};
ghost use Rattle.srs_plane.specs.Regions.{IsIn};
ghost use Rattle.srs_cell.specs.Bounds.{IsLow, IsHigh, IsBoundSized, AreShort};
ghost use Rattle.srs_cell.specs.Bounds.{IsLeastCorner, IsLeastSum, Takes};
ghost use Rattle.srs_cell.specs.Floors.{IsLeastFloor};

use crate::Cell;
use crate::cells::is_inside;
use crate::floors::CornerList;
use crate::values::value_of;
use srs_num::{Corner, Form, is_less_quotient};

// The most in magnitude of two numbers whose product 128 bits hold.
const HALF: i128 = 1 << 62;

/// The number `num / den`, with `den` at least 1, and whether a point takes it. The fraction isn't
/// always reduced.
#[derive(Clone, Copy, Debug, PartialEq, Eq, Drop)]
pub struct Bound {
    pub num: i128,
    pub den: i128,
    pub attained: bool,
}

impl Cell {
    /// The infimum of the form over the points of the cell, and whether a point takes it. It takes
    /// no memory: it goes over the at most 84 corners twice and over the halves once. All points of
    /// a cell are near, which bounds the value of a form of bounded numbers.
    pub fn low(&self, f: &Form) -> Bound
        ensures low { IsLow self.now f.now result }
        ensures sized { IsBoundSized result }
        ensures near { (r : Point) → IsIn self.now r → IsNear r }
    {
        let corners = self.corners();
        let least = least_corner(f, corners);
        let total = least_sum(f, corners, &least);
        let (_, _, den) = least.parts();
        Bound {
            num: value_at(f, &least),
            den,
            attained: is_inside(self.region(), &total),
        }
    }

    /// The supremum of the form over the points of the cell, and whether a point takes it. It costs
    /// what `low` does.
    pub fn high(&self, f: &Form) -> Bound
        ensures high { IsHigh self.now f.now result }
        ensures sized { IsBoundSized result }
    {
        let low = self.low(&f.opposite());
        Bound {
            num: -low.num,
            den: low.den,
            attained: low.attained,
        }
    }
}

impl Cell {
    // Whether a point of the cell takes the whole number that is the form's least floor there.
    pub(crate) fn takes(&self, form: &Form, least: i64) -> bool
        requires least { IsLeastFloor self.now form.now least }
        requires sized { IsWithin (2 ^ 40) least }
        ensures { IsTrue result ↔ Takes self.now form.now least (pos 1) }
    {
        let corners = self.corners();
        let Some(first) = first_taking(form, corners, least) else {
            return false;
        };
        let sum = least_sum(form, corners, &first);
        is_inside(self.region(), &sum)
    }
}

// The denominator of a corner.
pub(crate) fn denominator(corner: &Corner) -> i128
    ensures { result ≡ corner.now.d }
{
    let (_, _, d) = corner.parts();
    d
}

// Whether the form isn't above the whole number at the corner.
fn is_up_to(form: &Form, corner: &Corner, short: bool, most: i64) -> bool
    requires corner { IsPointWithin (2 ^ 77) corner.now }
    requires short { IsTrue short → IsPointWithin (2 ^ 38) corner.now }
    requires most { IsWithin (2 ^ 40) most }
    ensures { IsTrue result ↔ (value form.now corner.now ≤ℤ (most *ℤ corner.now.d)) }
{
    value_of(form, corner, short) <= most as i128 * denominator(corner)
}

// The first of the corners at which the form isn't above the whole number.
fn first_taking(form: &Form, corners: &CornerList, most: i64) -> Option<Corner>
    requires sized { All (IsPointWithin (2 ^ 77)) corners.now }
    requires most { IsWithin (2 ^ 40) most }
    ensures { MatchOption result (All (λ c. (most *ℤ c.d) <ℤ value form.now c) corners.now)
        (λ c. Contains corners.now c × (value form.now c ≤ℤ (most *ℤ c.d))) }
{
    first_of(form, corners.as_slice(), corners.is_short(), most)
}

// The same, of a slice.
fn first_of(form: &Form, corners: &[Corner], short: bool, most: i64) -> Option<Corner>
    requires sized { All (IsPointWithin (2 ^ 77)) corners.now }
    requires short { IsTrue short → All (IsPointWithin (2 ^ 38)) corners.now }
    requires most { IsWithin (2 ^ 40) most }
    ensures { MatchOption result (All (λ c. (most *ℤ c.d) <ℤ value form.now c) corners.now)
        (λ c. Contains corners.now c × (value form.now c ≤ℤ (most *ℤ c.d))) }
{
    for corner in corners {
        if is_up_to(form, corner, short, most) {
            return Some(*corner);
        }
    }
    None
}

// Whether n / d is less than m / e: by products where 128 bits hold them, as they do where `short` is set.
#[inline(always)]
fn is_less(n: i128, d: i128, m: i128, e: i128, short: bool) -> bool
    requires d { pos 1 ≤ℤ d }
    requires e { pos 1 ≤ℤ e }
    requires short { IsTrue short → AreShort n d m e }
    ensures { IsTrue result ↔ (n *ℤ e) <ℤ (m *ℤ d) }
{
    if short {
        return is_less_short(n, d, m, e);
    }
    if are_half(n, d, m, e) {
        return is_less_product(n, d, m, e);
    }
    is_less_quotient(n, d, m, e)
}

// Whether n * e is less than m * d, for values and denominators of corners whose numbers are within 2^38.
#[inline(always)]
fn is_less_short(n: i128, d: i128, m: i128, e: i128) -> bool
    requires { AreShort n d m e }
    ensures { IsTrue result ↔ (n *ℤ e) <ℤ (m *ℤ d) }
{
    n * e < m * d
}

// Whether all four numbers are at most 2^62 in magnitude, so that 128 bits hold their products.
pub(crate) fn are_half(n: i128, d: i128, m: i128, e: i128) -> bool
    ensures { IsTrue result → IsWithin (2 ^ 62) n × IsWithin (2 ^ 62) d × IsWithin (2 ^ 62) m ×
        IsWithin (2 ^ 62) e }
{
    let left = -HALF <= n && n <= HALF && -HALF <= d && d <= HALF;
    left && -HALF <= m && m <= HALF && -HALF <= e && e <= HALF
}

// Whether n * e is less than m * d.
fn is_less_product(n: i128, d: i128, m: i128, e: i128) -> bool
    requires n { IsWithin (2 ^ 62) n }
    requires d { IsWithin (2 ^ 62) d }
    requires m { IsWithin (2 ^ 62) m }
    requires e { IsWithin (2 ^ 62) e }
    ensures { IsTrue result ↔ (n *ℤ e) <ℤ (m *ℤ d) }
{
    n * e < m * d
}

// The value of the form at a corner of a cell. It is at most 2^117 in magnitude.
fn value_at(form: &Form, corner: &Corner) -> i128
    requires { IsPointWithin (2 ^ 77) corner.now }
    ensures value { result ≡ value form.now corner.now }
    ensures sized { IsWithin (2 ^ 117) result }
{
    // The numbers of a form are at most 2^38 in magnitude.
    let _ = form.parts();
    form.at_corner(corner)
}

// The first of the corners at which the form is least.
fn least_corner(form: &Form, corners: &CornerList) -> Corner
    requires some { 1 ≤ length corners.now }
    requires sized { All (IsPointWithin (2 ^ 77)) corners.now }
    ensures { IsLeastCorner form.now corners.now result }
{
    least_of(form, corners.as_slice(), corners.is_short())
}

// The same, of a slice.
fn least_of(form: &Form, corners: &[Corner], short: bool) -> Corner
    requires some { 1 ≤ length corners.now }
    requires sized { All (IsPointWithin (2 ^ 77)) corners.now }
    requires short { IsTrue short → All (IsPointWithin (2 ^ 38)) corners.now }
    ensures { IsLeastCorner form.now corners.now result }
{
    // The numbers of a form are at most 2^38 in magnitude.
    let _ = form.parts();
    let mut least = corners[0];
    let mut num = value_of(form, &least, short);
    let mut den = denominator(&least);
    for i in 1..corners.len() {
        let corner = corners[i];
        let value = value_of(form, &corner, short);
        let denominator = denominator(&corner);
        if is_less(value, denominator, num, den, short) {
            least = corner;
            num = value;
            den = denominator;
        }
    }
    least
}

// The numbers of the corners at which the form is least added up: a point strictly within each half
// in which one of them is. The one at `least` counts twice, which does no harm.
fn least_sum(form: &Form, corners: &CornerList, least: &Corner) -> Corner
    requires few { length corners.now ≤ 84 }
    requires sized { All (IsPointWithin (2 ^ 77)) corners.now }
    requires least { IsLeastCorner form.now corners.now least.now }
    ensures { IsLeastSum form.now corners.now corners.now least.now result }
{
    sum_at(form, corners.as_slice(), corners.is_short(), least)
}

// The same, of a slice.
fn sum_at(form: &Form, corners: &[Corner], short: bool, least: &Corner) -> Corner
    requires few { length corners.now ≤ 84 }
    requires sized { All (IsPointWithin (2 ^ 77)) corners.now }
    requires short { IsTrue short → All (IsPointWithin (2 ^ 38)) corners.now }
    requires least { IsLeastCorner form.now corners.now least.now }
    ensures { IsLeastSum form.now corners.now corners.now least.now result }
{
    // The numbers of a form are at most 2^38 in magnitude.
    let _ = form.parts();
    let num = form.at_corner(least);
    let den = denominator(least);
    let mut total = *least;
    for corner in corners {
        if !is_less(
            num,
            den,
            value_of(form, corner, short),
            denominator(corner),
            short,
        ) {
            total = total.plus(corner);
        }
    }
    total
}
