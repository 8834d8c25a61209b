// The cells of the examples.
ghost use Rattle.std.specs.Prelude.{◌≤◌, length, IfOk};

use srs_cell::Cell;
use srs_file::read_polygon;
use std::alloc::Global;
use std::test::Fail;

// Its parts above and below y = 0 are of two kinds each.
pub const SPLIT: &str = "polygon 3\nge -1 0 8\nge 0 -1 8\nge 1 0 8\nend\n";

pub const TRIANGLE: &str = "polygon 3\nge -1 0 1\nge 1 -2 1\nge 1 2 1\nend\n";

// The cell of the polygon.
pub fn cell_of(alloc: Global, polygon: &str) -> Result<Cell, Fail>
    ensures { IfOk result (λ cell. length cell ≤ 16) }
{
    if polygon.len() > 1000 {
        Err("it is short")?;
    }
    match read_polygon(alloc, polygon.as_bytes()) {
        Ok((_, cell)) => {
            if cell.region().len() > 16 {
                Err("it has few halves")?;
            }
            Ok(cell)
        }
        Err(_) => Err("it is a polygon")?,
    }
}
