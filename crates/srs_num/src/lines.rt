// Where lines cross, and sums of corners.
ghost use Rattle.std.specs.Prelude.{◌≡◌, ◌≤◌, ◌^◌, ◌↔◌, pos, ◌-ℤ◌, ◌*ℤ◌, ◌<ℤ◌, All, length, IsNone, IfSome};
ghost use Rattle.srs_num.specs.declared.forms.TheConstants.{MOST_COEFFICIENT};
ghost use Rattle.srs_num.specs.Points.{IsWithin, IsPointWithin};
ghost use Rattle.srs_num.specs.Lines.{meet, IsCrossing, sum_of};

use crate::{Corner, Form};

// `a * d - b * c`, for numbers of forms.
fn minor(a: i64, b: i64, c: i64, d: i64) -> i128
    requires a { IsWithin MOST_COEFFICIENT a }
    requires b { IsWithin MOST_COEFFICIENT b }
    requires c { IsWithin MOST_COEFFICIENT c }
    requires d { IsWithin MOST_COEFFICIENT d }
    ensures value { result ≡ a *ℤ d -ℤ b *ℤ c }
    ensures size { IsWithin (2 ^ 77) result }
{
    a as i128 * d as i128 - b as i128 * c as i128
}

/// How the line of `f` turns to that of `g`: above 0 to the left, 0 where they are parallel.
pub fn turn(f: &Form, g: &Form) -> i128
    ensures { result ≡ (meet f.now g.now).d }
{
    let (a, b, _) = f.parts();
    let (c, d, _) = g.parts();
    minor(a, b, c, d)
}

/// Where the lines of two forms cross. `None` exactly where they are parallel.
pub fn cross(f: &Form, g: &Form) -> Option<Corner>
    ensures none { IsNone result ↔ ((f.now.a *ℤ g.now.b) ≡ (g.now.a *ℤ f.now.b)) }
    ensures some { IfSome result (IsCrossing f.now g.now) }
{
    let turned = turn(f, g);
    if turned > 0 {
        Some(crossing_of(f, g))
    } else if turned < 0 {
        Some(crossing_of(g, f))
    } else {
        None
    }
}

/// Where the lines of `f` and `g` cross, where the second turns to the left. Its numbers are at
/// most 2^77 in magnitude.
pub fn crossing_of(f: &Form, g: &Form) -> Corner
    requires { pos 0 <ℤ (meet f.now g.now).d }
    ensures value { result ≡ meet f.now g.now }
    ensures sized { IsPointWithin (2 ^ 77) result }
{
    let (fa, fb, fc) = f.parts();
    let (ga, gb, gc) = g.parts();
    Corner::new(
        minor(fb, fc, gb, gc),
        minor(fc, fa, gc, ga),
        minor(fa, fb, ga, gb),
    )
}

/// The numbers of 1 to 127 corners added up, each of which has them at most 2^77 in magnitude.
pub fn sum(corners: &[Corner]) -> Corner
    requires some { 1 ≤ length corners.now }
    requires few { length corners.now ≤ 127 }
    requires sized { All (IsPointWithin (2 ^ 77)) corners.now }
    ensures { result ≡ sum_of corners.now }
{
    let mut total = corners[0];
    for i in 1..corners.len() {
        total = total.plus(&corners[i]);
    }
    total
}
