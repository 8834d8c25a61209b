// The first grid line.
ghost use Rattle.std.specs.Prelude.{◌≡◌, ◌≤◌, ◌^◌, pos, IfSome, IfNone};
ghost use Rattle.srs_num.specs.Points.{IsWithin};
ghost use Rattle.srs_path.specs.GridLine.{X, Y, grid_form, IsFirstGridLine, HasNoGridLine};

use crate::floor_ranges::FloorRange;
use srs_cell::Cell;
use srs_num::{Form, V2};

// The lines are at least 1 / 2^36 apart.
const FINEST: u32 = 36;

/// The form of the first grid line that divides the cell: of the lines 2^m*x = k and 2^m*y = k,
/// with m from 0 to 36, the one with the least m, then with x before y, then with the least k. It
/// takes no memory. It costs two calls of `Cell::moves`, and a few shifts.
pub fn line(cell: &Cell) -> Option<Form>
    ensures some { IfSome result (IsFirstGridLine cell.now) }
    ensures none { IfNone result (HasNoGridLine cell.now) }
{
    // All points of a cell are near.
    let _ = cell.region().len();
    let finest = power(FINEST);
    let x = FloorRange::of(cell, V2 { a: finest, b: 0 });
    let y = FloorRange::of(cell, V2 { a: 0, b: finest });
    for m in 0..FINEST + 1 {
        if let Some(k) = x.first_level(FINEST - m) {
            return Some(x_line(m, k));
        }
        if let Some(k) = y.first_level(FINEST - m) {
            return Some(y_line(m, k));
        }
    }
    None
}

// The form 2^m*x - k.
fn x_line(m: u32, k: i64) -> Form
    requires coarse { m ≤ 36 }
    requires near { IsWithin (2 ^ 38) k }
    ensures { result ≡ grid_form (record { m = m; axis = X; k = k }) }
{
    let Some(form) = Form::new(power(m), 0, -k) else {
        unreachable!()
    };
    form
}

// The form 2^m*y - k.
fn y_line(m: u32, k: i64) -> Form
    requires coarse { m ≤ 36 }
    requires near { IsWithin (2 ^ 38) k }
    ensures { result ≡ grid_form (record { m = m; axis = Y; k = k }) }
{
    let Some(form) = Form::new(0, power(m), -k) else {
        unreachable!()
    };
    form
}

// 2^m.
fn power(m: u32) -> i64
    requires { m ≤ 36 }
    ensures value { result ≡ pos (2 ^ m) }
    ensures sized { IsWithin (2 ^ 36) result }
{
    1 << m
}
