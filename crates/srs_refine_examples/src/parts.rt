// The cells of the examples: a polygon, and parts of it.
use srs_cell::Cell;
use srs_plane::{Kind, Region, polygon};
use srs_shapes::{Cut, part_of, with_kind};
use std::alloc::Global;
use std::test::Fail;

// The corners p/d, q/d of a polygon, and the kind of its edges.
pub type Polygon = (&'static [(i64, i64, i64)], Kind);

pub const CORNER: Polygon = (&[(0, 0, 1), (1, 0, 8), (0, 1, 8)], Kind::Ge);

pub const OPEN_CORNER: Polygon = (&[(0, 0, 1), (1, 0, 8), (0, 1, 8)], Kind::Gt);

// The cycle 1 covers it.
pub const CYCLE_ONE: Polygon = (&[(-2, -1, 4), (-1, -2, 4), (-1, -1, 4)], Kind::Ge);

// It is round (0, 0).
pub const ORIGIN: Polygon = (&[(-1, -1, 8), (1, -1, 8), (0, 1, 8)], Kind::Ge);

// Its parts above and below y = 0 are of two kinds each.
pub const SPLIT: Polygon = (&[(-1, 0, 8), (0, -1, 8), (1, 0, 8)], Kind::Ge);

fn region_of(alloc: Global, shape: &Polygon) -> Result<Region, Fail> {
    let (corners, kind) = *shape;
    match polygon(alloc, &with_kind(alloc, corners, kind)?) {
        Ok(region) => Ok(region),
        Err(_) => Err("it is a polygon")?,
    }
}

// The cell of the polygon.
pub fn cell_of(alloc: Global, shape: &Polygon) -> Result<Cell, Fail> {
    let cell = Cell::of(alloc, region_of(alloc, shape)?)?.ok_or("it has a point")?;
    Ok(cell)
}

// The part of the polygon on these sides.
pub fn part(alloc: Global, shape: &Polygon, cuts: &[Cut]) -> Result<Cell, Fail> {
    part_of(alloc, cell_of(alloc, shape)?, cuts)
}
