// Corners that are the same point.
ghost use Rattle.std.specs.Prelude.{◌≡◌, ◌++◌, [], ◌∷◌, ◌^◌, IsTrue, OnOk, ◌*ℤ◌};
ghost use Rattle.srs_num.specs.Points.{IsWithin};
ghost use Rattle.srs_cell.specs.Doubles.{IsSamePoint, HasDouble, IsJoined};

use crate::bounds::are_half;
use srs_num::{Corner, NoMemory};

// Whether n / d and m / e are seen to be the same number: they are, for numbers whose products 128 bits hold.
fn is_same(n: i128, d: i128, m: i128, e: i128) -> bool
    ensures { IsTrue result → n *ℤ e ≡ m *ℤ d }
{
    are_half(n, d, m, e) && is_same_product(n, d, m, e)
}

// Whether n * e is m * d.
#[inline(always)]
fn is_same_product(n: i128, d: i128, m: i128, e: i128) -> bool
    requires n { IsWithin (2 ^ 62) n }
    requires d { IsWithin (2 ^ 62) d }
    requires m { IsWithin (2 ^ 62) m }
    requires e { IsWithin (2 ^ 62) e }
    ensures { IsTrue result → n *ℤ e ≡ m *ℤ d }
{
    n * e == m * d
}

// Whether the last bits of n * e and m * d are the same: mostly they aren't, which is told fast.
#[inline(always)]
fn may_be_same(n: i128, d: i128, m: i128, e: i128) -> bool {
    n.wrapping_mul(e) == m.wrapping_mul(d)
}

// Whether both corners are seen to be the same point.
fn is_same_point(corner: &Corner, other: &Corner) -> bool
    ensures { IsTrue result → IsSamePoint corner.now other.now }
{
    let (p, q, d) = corner.parts();
    let (r, s, e) = other.parts();
    may_be_same(p, d, r, e) && is_same(p, d, r, e) && is_same(q, d, s, e)
}

// Whether one of the corners is seen to be the same point as the other one.
fn has_double(corners: &[Corner], other: &Corner) -> bool
    ensures { IsTrue result → HasDouble corners.now other.now }
{
    for corner in corners {
        if is_same_point(corner, other) {
            return true;
        }
    }
    false
}

// Appends the corner.
pub(crate) fn add_corner(corners: &mut Vec<Corner>, corner: Corner) -> Result<(), NoMemory>
    ensures { OnOk result (corners.new.items ≡ corners.old.items ++ corner ∷ []) }
{
    corners.push(corner)?;
    Ok(())
}

// Appends the corner, unless one of the corners is seen to be the same point. It looks for that
// where `may_double` is set.
pub(crate) fn join_corner(
    corners: &mut Vec<Corner>,
    corner: Corner,
    may_double: bool,
) -> Result<(), NoMemory>
    ensures { OnOk result (IsJoined corners.old.items corner corners.new.items) }
{
    if may_double && has_double(corners, &corner) {
        return Ok(());
    }
    add_corner(corners, corner)
}
