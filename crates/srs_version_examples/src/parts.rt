// The cells of the examples: a polygon, as its text spells it, and parts of it.
use srs_cell::Cell;
use srs_file::read_polygon;
use srs_shapes::{Cut, part_of};
use std::alloc::Global;
use std::test::Fail;

// Its parts above and below y = 0 are of two kinds each.
pub const SPLIT: &str = "polygon 3\nge -1 0 8\nge 0 -1 8\nge 1 0 8\nend\n";

// The cell of the polygon.
pub fn cell_of(alloc: Global, polygon: &str) -> Result<Cell, Fail> {
    if polygon.len() > 1000 {
        Err("it is short")?;
    }
    match read_polygon(alloc, polygon.as_bytes()) {
        Ok((_, cell)) => Ok(cell),
        Err(_) => Err("it is a polygon")?,
    }
}

// The part of the polygon on these sides.
pub fn part(alloc: Global, polygon: &str, cuts: &[Cut]) -> Result<Cell, Fail> {
    part_of(alloc, cell_of(alloc, polygon)?, cuts)
}
