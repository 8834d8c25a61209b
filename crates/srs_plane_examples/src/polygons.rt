// Polygons and their refusals.
use srs_plane::{Halves, Kind, PolyErr, Region, Vertex, polygon};
use srs_shapes::with_kind;
use std::alloc::{AllocError, Global};
use std::test::Fail;

// Corners p/d, q/d with closed edges, and the refusal; none where they are a polygon.
type Row = (&'static [(i64, i64, i64)], Option<PolyErr>);

// On one line, clockwise, turning left at each vertex but twice round, with a flat corner, too few, too many.
const TURNS: [Row; 6] = [
    (&[(0, 0, 1), (1, 0, 8), (1, 0, 4)], Some(PolyErr::Turn(0))),
    (&[(0, 0, 1), (0, 1, 8), (1, 0, 8)], Some(PolyErr::Turn(0))),
    (
        &[(0, 3, 1), (-2, -2, 1), (3, 1, 1), (-3, 1, 1), (2, -2, 1)],
        Some(PolyErr::Turn(0)),
    ),
    (
        &[(0, 0, 1), (1, 0, 1), (1, 1, 1), (0, 1, 1), (0, 1, 2)],
        Some(PolyErr::Turn(3)),
    ),
    (&[(0, 0, 1), (1, 0, 8)], Some(PolyErr::Few)),
    (&[(0, 0, 1); 17], Some(PolyErr::Many)),
];

const RANGES: [Row; 5] = [
    (&[(1, 0, 65536), (1, 1, 2), (0, 1, 2)], None),
    (
        &[(0, 0, 1), (1, 0, 65537), (0, 1, 2)],
        Some(PolyErr::Big(1)),
    ),
    (&[(0, 0, 0), (1, 0, 2), (0, 1, 2)], Some(PolyErr::Big(0))),
    (&[(4, 0, 1), (0, 4, 1), (-4, -4, 1)], None),
    (
        &[(0, 0, 1), (0, 1, 1), (262145, 0, 65536)],
        Some(PolyErr::Far(2)),
    ),
];

// The region of the polygon, all of whose edges but for the first are closed.
pub fn with_first_open(alloc: Global, corners: &[(i64, i64, i64)]) -> Result<Region, Fail> {
    let mut vertices = with_kind(alloc, corners, Kind::Ge)?;
    if let Some(first) = vertices.first_mut() {
        first.kind = Kind::Gt;
    }
    match polygon(alloc, &vertices) {
        Ok(region) => Ok(region),
        Err(_) => Err("it is a polygon")?,
    }
}

// The refusal of these vertices; none where they are a polygon.
fn refusal(alloc: Global, corners: &[(i64, i64, i64)]) -> Result<Option<PolyErr>, AllocError> {
    let vertices = with_kind(alloc, corners, Kind::Ge)?;
    match polygon(alloc, &vertices) {
        Ok(_) => Ok(None),
        Err(refused) => Ok(Some(refused)),
    }
}

// The place of the first row that isn't so; none where all are.
fn first_other(alloc: Global, rows: &[Row]) -> Result<Option<usize>, AllocError> {
    for (i, (corners, refused)) in rows.iter().enumerate() {
        if refusal(alloc, corners)? != *refused {
            return Ok(Some(i));
        }
    }
    Ok(None)
}

#[test]
fn refused_polygons(rt: HostRuntime) -> Result<(), Fail> {
    assert_eq!(rt; first_other(rt.alloc(), &TURNS)?, None);
    Ok(())
}

#[test]
fn vertex_range_ends(rt: HostRuntime) -> Result<(), Fail> {
    assert_eq!(rt; first_other(rt.alloc(), &RANGES)?, None);
    Ok(())
}

// Of a copy and of the region with its first half once more: how many halves, and whether they are
// the region's.
fn sizes(alloc: Global, region: &Region) -> Result<[(u32, bool); 2], Fail> {
    let count = region.len();
    if count == 0 || count >= 80 {
        Err("it has some halves, and few")?;
    }
    let copy = region.copy(alloc)?;
    let longer = region.with(alloc, region.half(0))?;
    Ok([
        (copy.len(), copy.same(region)),
        (longer.len(), longer.same(region)),
    ])
}

#[test]
fn copies_of_a_region(rt: HostRuntime) -> Result<(), Fail> {
    let alloc = rt.alloc();
    let region = with_first_open(alloc, &[(-1, 0, 8), (0, -1, 8), (1, 0, 8)])?;
    assert_eq!(rt; sizes(alloc, &region)?, [(3, true), (4, false)]);
    Ok(())
}

// The numbers of the form of the last half that is left, and its kind.
fn last(halves: &mut Halves<'_>) -> Option<((i64, i64, i64), Kind)> {
    let half = halves.pop()?;
    Some((half.form.parts(), half.kind))
}

#[test]
fn halves_from_the_last(rt: HostRuntime) -> Result<(), Fail> {
    let region = with_first_open(rt.alloc(), &[(0, 0, 1), (1, 0, 8), (0, 1, 8)])?;
    let mut halves = region.halves();
    assert_eq!(rt; last(&mut halves), Some(((1, 0, 0), Kind::Ge)));
    assert_eq!(rt; last(&mut halves), Some(((-8, -8, 1), Kind::Ge)));
    assert_eq!(rt; last(&mut halves), Some(((0, 1, 0), Kind::Gt)));
    assert_eq!(rt; last(&mut halves), None);
    Ok(())
}

// The numbers of a vertex, and whether it may stand in a polygon.
const PLACES: [((i64, i64, i64), bool); 6] = [
    ((4, -4, 1), true),
    ((1, 0, 65536), true),
    ((1, 0, 65537), false),
    ((0, 0, 0), false),
    ((5, 0, 1), false),
    ((0, -262145, 65536), false),
];

// The place of the first vertex of which that isn't so; none where it is of all.
fn first_misplaced(rows: &[((i64, i64, i64), bool)]) -> Option<usize> {
    for (i, ((p, q, d), placed)) in rows.iter().enumerate() {
        let vertex = Vertex {
            p: *p,
            q: *q,
            d: *d,
            kind: Kind::Ge,
        };
        if vertex.is_placed() != *placed {
            return Some(i);
        }
    }
    None
}

#[test]
fn placed_vertices(rt: HostRuntime) {
    assert_eq!(rt; first_misplaced(&PLACES), None);
}
