// The cell of the calls, its parts, and paths.
ghost use Rattle.std.specs.Prelude.{◌≤◌, length, IfSome};

use srs_cell::{Cell, Parts};
use srs_num::Form;
use srs_path::{Path, Side};
use srs_plane::{Kind, Vertex, polygon};
use std::alloc::Global;

// The corner (p/8, q/8), the edge from which is closed.
fn corner(p: i64, q: i64) -> Vertex {
    Vertex {
        p,
        q,
        d: 8,
        kind: Kind::Ge,
    }
}

// The triangle (-1/8, 0), (0, -1/8), (1/8, 0) with its edges. `None` is want of memory.
pub fn triangle(alloc: Global) -> Option<Cell>
    ensures { IfSome result (λ cell. length cell ≤ 16) }
{
    let corners = [corner(-1, 0), corner(0, -1), corner(1, 0)];
    let cell = Cell::of(alloc, polygon(alloc, &corners).ok()?).ok()??;
    if cell.region().len() > 16 {
        return None;
    }
    Some(cell)
}

// The triangle, or its part on that side of y = 0. `None` is want of memory.
pub fn part(alloc: Global, side: Option<Side>) -> Option<Cell> {
    let cell = triangle(alloc)?;
    let Some(side) = side else {
        return Some(cell);
    };
    match (cell.cut(alloc, &Form::new(0, 1, 0)?).ok()?, side) {
        (Parts::Both(ge, _), Side::Ge) => Some(ge),
        (Parts::Both(_, lt), Side::Lt) => Some(lt),
        _ => None,
    }
}

// The path of the sides: `g` for Ge, `l` for Lt; `.` is the root.
pub fn path_of(sides: &str) -> Option<Path> {
    let mut path = Path::root();
    for side in sides.as_bytes() {
        path = match *side {
            b'g' => path.child(Side::Ge)?,
            b'l' => path.child(Side::Lt)?,
            _ => path,
        };
    }
    Some(path)
}

// The sides of a path of at most two, as the lines print them.
pub fn sides_of(path: &Path) -> &'static str {
    let first = side_at(path, 0);
    let second = side_at(path, 1);
    match (first, second) {
        (None, _) => ".",
        (Some(Side::Ge), None) => "g",
        (Some(Side::Lt), None) => "l",
        (Some(Side::Ge), Some(Side::Ge)) => "gg",
        (Some(Side::Ge), Some(Side::Lt)) => "gl",
        (Some(Side::Lt), Some(Side::Ge)) => "lg",
        (Some(Side::Lt), Some(Side::Lt)) => "ll",
    }
}

fn side_at(path: &Path, i: u32) -> Option<Side> {
    if i < path.len() {
        Some(path.side(i))
    } else {
        None
    }
}
