// Cells: which regions have a point, and how a form and a step range over one.
use crate::shapes::{CLOSED_CORNER, OPEN_CORNER, Shape, TRIANGLE, cell, cell_of};
use srs_cell::{Bound, Cell, Span};
use srs_map::is_narrow;
use srs_num::{Form, V2};
use srs_plane::Kind;
use std::alloc::{AllocError, Global};
use std::test::Fail;

const WIDEST: i64 = 1 << 37;

// The kind of the triangle's edges, halves, and the point of the region that is its sample; none
// where it has none.
type Row = (
    Kind,
    &'static [(i64, i64, i64, Kind)],
    Option<(i128, i128, i128)>,
);

// The third row has halves that say nothing; those after it have halves that nothing meets.
const WHOLE_TRIANGLES: [Row; 6] = [
    (Kind::Ge, &[], Some((1, 1, 3))),
    (Kind::Gt, &[], Some((1, 1, 3))),
    (
        Kind::Gt,
        &[(0, 0, 1, Kind::Gt), (0, 0, 0, Kind::Ge)],
        Some((1, 1, 3)),
    ),
    (Kind::Ge, &[(0, 0, 0, Kind::Gt)], None),
    (Kind::Ge, &[(0, 0, -1, Kind::Ge)], None),
    (Kind::Ge, &[(1, 0, -2, Kind::Ge)], None),
];

// The edge y = 0 and the corner (0, 0), closed and left out; the segment x = 1/4 between open ends,
// and the point (1/4, 1/2) of it; strict halves that leave nothing.
const SEGMENTS_AND_POINTS: [Row; 8] = [
    (Kind::Ge, &[(0, -1, 0, Kind::Ge)], Some((1, 0, 2))),
    (Kind::Gt, &[(0, -1, 0, Kind::Ge)], None),
    (Kind::Ge, &[(-1, -1, 0, Kind::Ge)], Some((0, 0, 1))),
    (Kind::Ge, &[(-1, -1, 0, Kind::Gt)], None),
    (
        Kind::Gt,
        &[(4, 0, -1, Kind::Ge), (-4, 0, 1, Kind::Ge)],
        Some((2, 3, 8)),
    ),
    (
        Kind::Gt,
        &[
            (4, 0, -1, Kind::Ge),
            (-4, 0, 1, Kind::Ge),
            (0, 2, -1, Kind::Ge),
            (0, -2, 1, Kind::Ge),
        ],
        Some((1, 2, 4)),
    ),
    (
        Kind::Gt,
        &[(4, 0, -1, Kind::Gt), (-4, 0, 1, Kind::Gt)],
        None,
    ),
    (
        Kind::Ge,
        &[(4, 0, -1, Kind::Ge), (-4, 0, 1, Kind::Gt)],
        None,
    ),
];

// A point of the region, where it has one.
fn sample_of(
    alloc: Global,
    kind: Kind,
    halves: &[(i64, i64, i64, Kind)],
) -> Result<Option<(i128, i128, i128)>, Fail> {
    match cell_of(alloc, &TRIANGLE, kind, halves)? {
        Some(cell) => Ok(Some(cell.sample().parts())),
        None => Ok(None),
    }
}

// Whether both are the same point, or none.
fn is_same_point(point: Option<(i128, i128, i128)>, other: Option<(i128, i128, i128)>) -> bool {
    match (point, other) {
        (None, None) => true,
        (Some((p, q, d)), Some((r, s, e))) => is_same(p, d, r, e) && is_same(q, d, s, e),
        _ => false,
    }
}

// Whether a / b and c / d are the same number.
fn is_same(a: i128, b: i128, c: i128, d: i128) -> bool {
    match (a.checked_mul(d), c.checked_mul(b)) {
        (Some(left), Some(right)) => left == right,
        _ => false,
    }
}

// The place of the first row that isn't so; none where all are.
fn first_other_sample(alloc: Global, rows: &[Row]) -> Result<Option<usize>, Fail> {
    for (i, row) in rows.iter().enumerate() {
        let (kind, halves, want) = *row;
        if !is_same_point(sample_of(alloc, kind, halves)?, want) {
            return Ok(Some(i));
        }
    }
    Ok(None)
}

#[test]
fn whole_triangles(rt: HostRuntime) -> Result<(), Fail> {
    assert_eq!(rt; first_other_sample(rt.alloc(), &WHOLE_TRIANGLES)?, None);
    Ok(())
}

#[test]
fn segments_and_points(rt: HostRuntime) -> Result<(), Fail> {
    assert_eq!(rt; first_other_sample(rt.alloc(), &SEGMENTS_AND_POINTS)?, None);
    Ok(())
}

// 76 halves that the square round (0, 0) is within.
fn many_halves(alloc: Global) -> Result<Vec<(i64, i64, i64, Kind)>, AllocError> {
    let most = 1i64 << 38;
    let mut halves = Vec::new(alloc);
    for i in 0..76u8 {
        let near = most - i64::from(i);
        let far = most - 77 * i64::from(i);
        halves.push((near, far, most, Kind::Ge))?;
    }
    Ok(halves)
}

// How many halves the cell has, and whether a copy has its region and its point.
fn copied(alloc: Global, cell: &Cell) -> Result<(u32, bool, bool), Fail> {
    let copy = cell.copy(alloc)?;
    Ok((
        copy.region().len(),
        copy.region().same(cell.region()),
        copy.sample() == cell.sample(),
    ))
}

#[test]
fn eighty_halves(rt: HostRuntime) -> Result<(), Fail> {
    let alloc = rt.alloc();
    let corners = [(-4, -4, 1), (4, -4, 1), (4, 4, 1), (-4, 4, 1)];
    let halves = many_halves(alloc)?;
    let cell = cell_of(alloc, &corners, Kind::Ge, &halves)?.ok_or("it has a point")?;
    assert_eq!(rt; copied(alloc, &cell)?, (80, true, true));
    Ok(())
}

// The edge y = 0 of the triangle, from (0, 0) to (1, 0), without its end at x = 1.
const EDGE: Shape = (
    &TRIANGLE,
    Kind::Ge,
    &[(0, -1, 0, Kind::Ge), (-1, 0, 1, Kind::Gt)],
);

// The point (4, 4).
const POINT: Shape = (
    &[(4, 4, 1), (0, 4, 1), (4, 0, 1)],
    Kind::Ge,
    &[(1, 1, -8, Kind::Ge)],
);

// The numerator and the denominator, not in lowest terms, and whether it is attained.
type End = (i128, i128, bool);

// A shape, and the bounds of x on it.
const BOUNDS: [(Shape, End, End); 4] = [
    (OPEN_CORNER, (0, 1, false), (1, 8, false)),
    (CLOSED_CORNER, (0, 1, true), (1, 8, true)),
    (EDGE, (0, 1, true), (1, 1, false)),
    (POINT, (4, 1, true), (4, 1, true)),
];

fn is_end(bound: &Bound, end: End) -> bool {
    let (num, den, attained) = end;
    match (bound.num.checked_mul(den), num.checked_mul(bound.den)) {
        (Some(left), Some(right)) => left == right && bound.attained == attained,
        _ => false,
    }
}

// Whether x has these bounds on the shape.
fn has_bounds(alloc: Global, shape: &Shape, low: End, high: End) -> Result<bool, Fail> {
    let cell = cell(alloc, shape)?;
    let x = Form::new(1, 0, 0).ok_or("it is a form")?;
    Ok(is_end(&cell.low(&x), low) && is_end(&cell.high(&x), high))
}

// The place of the first row that isn't so; none where all are.
fn first_other_bound(alloc: Global, rows: &[(Shape, End, End)]) -> Result<Option<usize>, Fail> {
    for (i, (shape, low, high)) in rows.iter().enumerate() {
        if !has_bounds(alloc, shape, *low, *high)? {
            return Ok(Some(i));
        }
    }
    Ok(None)
}

#[test]
fn bounds_of_cells(rt: HostRuntime) -> Result<(), Fail> {
    assert_eq!(rt; first_other_bound(rt.alloc(), &BOUNDS)?, None);
    Ok(())
}

// The ends of a span.
type Ends = (i64, i64);

// A shape, a pair, where the step leads, and the mirrored step. On the open corner x * 2^37 is
// above 0 and below 2^34, whole or not; on the edge -floor(-x) is 0 at x = 0 and 1 above it, and
// the mirrored step is -floor(x) mirrored.
const SPANS: [(Shape, (i64, i64), Ends, Ends); 10] = [
    (OPEN_CORNER, (-1, 0), (1, 1), (0, 0)),
    (
        OPEN_CORNER,
        (WIDEST, 0),
        (1 - (1 << 34), 0),
        (-(1 << 34), -1),
    ),
    (OPEN_CORNER, (-WIDEST, 0), (1, 1 << 34), (0, (1 << 34) - 1)),
    (CLOSED_CORNER, (-1, 0), (0, 1), (0, 0)),
    (CLOSED_CORNER, (1, 0), (0, 0), (-1, 0)),
    (EDGE, (-1, 0), (0, 1), (0, 0)),
    (EDGE, (0, 5), (0, 0), (0, 0)),
    (POINT, (1, 1), (-8, -8), (-8, -8)),
    (POINT, (WIDEST, -WIDEST), (0, 0), (0, 0)),
    (
        POINT,
        (WIDEST, WIDEST),
        (-(1 << 40), -(1 << 40)),
        (-(1 << 40), -(1 << 40)),
    ),
];

// A shape, a pair, and its links.
const LINKS: [(Shape, (i64, i64), Ends); 2] = [
    (OPEN_CORNER, (-1, 0), (0, 1)),
    (OPEN_CORNER, (WIDEST, 0), (-(1 << 34), 0)),
];

fn is_span(span: &Span, ends: Ends) -> bool {
    (span.low, span.high) == ends
}

// Whether the step and the mirrored step at (a, b) lead there.
fn has_spans(cell: &Cell, a: i64, b: i64, ahead: Ends, back: Ends) -> bool {
    let w = V2 { a, b };
    is_narrow(w) && cell.moves(w) == ahead && cell.wmoves(w) == back
}

fn has_links(cell: &Cell, a: i64, b: i64, links: Ends) -> bool {
    let w = V2 { a, b };
    is_narrow(w) && is_span(&cell.links(w), links)
}

// The place of the first row that isn't so; none where all are.
fn first_other_span(
    alloc: Global,
    rows: &[(Shape, (i64, i64), Ends, Ends)],
) -> Result<Option<usize>, Fail> {
    for (i, (shape, (a, b), ahead, back)) in rows.iter().enumerate() {
        if !has_spans(&cell(alloc, shape)?, *a, *b, *ahead, *back) {
            return Ok(Some(i));
        }
    }
    Ok(None)
}

// The same of links.
fn first_other_link(
    alloc: Global,
    rows: &[(Shape, (i64, i64), Ends)],
) -> Result<Option<usize>, Fail> {
    for (i, (shape, (a, b), links)) in rows.iter().enumerate() {
        if !has_links(&cell(alloc, shape)?, *a, *b, *links) {
            return Ok(Some(i));
        }
    }
    Ok(None)
}

#[test]
fn steps_on_cells(rt: HostRuntime) -> Result<(), Fail> {
    assert_eq!(rt; first_other_span(rt.alloc(), &SPANS)?, None);
    Ok(())
}

#[test]
fn links_on_cells(rt: HostRuntime) -> Result<(), Fail> {
    assert_eq!(rt; first_other_link(rt.alloc(), &LINKS)?, None);
    Ok(())
}

#[test]
fn spans_of_pairs(rt: HostRuntime) {
    let span = Span { low: -2, high: 3 };
    assert_eq!(rt; (span.count(), Span { low: 1, high: 0 }.count()), (6, 0));
    let pair = span.pair(V2 { a: 7, b: 9 }, 5);
    assert_eq!(rt; (pair.a, pair.b), (9, 3));
}
