// The cells of the examples: a polygon, all of whose edges are of one kind, within some halves.
use srs_cell::Cell;
use srs_num::Form;
use srs_plane::{Half, Kind, Region, Vertex, polygon};
use srs_shapes::with_kind;
use std::alloc::Global;
use std::test::Fail;

// The corners p/d, q/d, the kind of the edges, and the halves a*x + b*y + c of their kinds.
pub type Shape = (
    &'static [(i64, i64, i64)],
    Kind,
    &'static [(i64, i64, i64, Kind)],
);

// The triangle (0, 0), (1, 0), (0, 1).
pub const TRIANGLE: [(i64, i64, i64); 3] = [(0, 0, 1), (1, 0, 1), (0, 1, 1)];

// The triangle (0, 0), (1/8, 0), (0, 1/8).
pub const CORNER: [(i64, i64, i64); 3] = [(0, 0, 1), (1, 0, 8), (0, 1, 8)];

pub const CLOSED_CORNER: Shape = (&CORNER, Kind::Ge, &[]);

pub const OPEN_CORNER: Shape = (&CORNER, Kind::Gt, &[]);

// The polygon's region with these halves appended; none where they aren't a polygon, forms, or few.
fn region_of(
    alloc: Global,
    vertices: &[Vertex],
    halves: &[(i64, i64, i64, Kind)],
) -> Result<Option<Region>, Fail> {
    let Ok(mut region) = polygon(alloc, vertices) else {
        return Ok(None);
    };
    for (a, b, c, kind) in halves {
        let Some(form) = Form::new(*a, *b, *c) else {
            return Ok(None);
        };
        if region.len() >= 80 {
            return Ok(None);
        }
        region = region.with(alloc, Half { form, kind: *kind })?;
    }
    Ok(Some(region))
}

// The region's cell; none where it has no point.
pub fn cell_of(
    alloc: Global,
    corners: &[(i64, i64, i64)],
    kind: Kind,
    halves: &[(i64, i64, i64, Kind)],
) -> Result<Option<Cell>, Fail> {
    let vertices = with_kind(alloc, corners, kind)?;
    let region = region_of(alloc, &vertices, halves)?.ok_or("it is a region")?;
    Ok(Cell::of(alloc, region)?)
}

// The cell of the shape, which has a point.
pub fn cell(alloc: Global, shape: &Shape) -> Result<Cell, Fail> {
    let (corners, kind, halves) = *shape;
    let cell = cell_of(alloc, corners, kind, halves)?.ok_or("it has a point")?;
    Ok(cell)
}
