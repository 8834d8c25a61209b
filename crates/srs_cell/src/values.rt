// Values of forms at corners.
ghost use Rattle.std.specs.Prelude.{◌≡◌, ◌^◌, ◌*ℤ◌, IsTrue};
ghost use Rattle.srs_num.specs.Points.{value, IsWithin, IsPointWithin};

use srs_num::{Corner, Form};

// The value of the form at the corner, whose numbers are within 2^38 where `short` is set: then
// products of 64 bits do.
#[inline(always)]
pub(crate) fn value_of(form: &Form, corner: &Corner, short: bool) -> i128
    requires { IsTrue short → IsPointWithin (2 ^ 38) corner.now }
    ensures { result ≡ value form.now corner.now }
{
    if short {
        return short_value_of(form, corner);
    }
    form.at_corner(corner)
}

// The value of the form at a corner whose numbers 64 bits hold.
#[inline(always)]
fn short_value_of(form: &Form, corner: &Corner) -> i128
    requires { IsPointWithin (2 ^ 38) corner.now }
    ensures { result ≡ value form.now corner.now }
{
    let (p, q, d) = corner.parts();
    dot(form, p as i64, q as i64, d as i64)
}

// a*p + b*q + c*d.
#[inline(always)]
fn dot(form: &Form, p: i64, q: i64, d: i64) -> i128
    requires p { IsWithin (2 ^ 38) p }
    requires q { IsWithin (2 ^ 38) q }
    requires d { IsWithin (2 ^ 38) d }
    ensures { result ≡ value form.now (record { p = p; q = q; d = d }) }
{
    let (a, b, c) = form.parts();
    product(a, p) + product(b, q) + product(c, d)
}

// The exact product.
#[inline(always)]
fn product(a: i64, b: i64) -> i128
    ensures { result ≡ a *ℤ b }
{
    i128::from(a) * i128::from(b)
}
