// Cuts of cells.
use crate::shapes::{CLOSED_CORNER, OPEN_CORNER, Shape, cell};
use srs_cell::{Cell, Parts};
use srs_num::Form;
use srs_plane::Kind;
use std::alloc::Global;
use std::test::Fail;

// The triangle (2, 0), (17/8, 0), (2, 1/8).
const FAR: Shape = (&[(2, 0, 1), (17, 0, 8), (16, 1, 8)], Kind::Ge, &[]);

// The square from (0, 0) to (1, 1), without its edges.
const SQUARE: Shape = (&[(0, 0, 1), (1, 0, 1), (1, 1, 1), (0, 1, 1)], Kind::Gt, &[]);

// On which sides of a form a cell has points.
#[derive(Clone, Copy, Debug, PartialEq, Eq, Drop)]
enum Sides {
    Both,
    Above,
    Below,
}

// A shape, the numbers of a form, and on which sides of it the shape has points.
type Row = (Shape, (i64, i64, i64), Sides);

// Through two corners, through the middle, beside the square on either side, and no line.
const LINES: [Row; 5] = [
    (SQUARE, (1, -1, 0), Sides::Both),
    (SQUARE, (2, 0, -1), Sides::Both),
    (SQUARE, (1, 0, 1), Sides::Above),
    (SQUARE, (1, 0, -2), Sides::Below),
    (SQUARE, (0, 0, 0), Sides::Above),
];

// Along the edge y = 0, with the cell above the line and below it; through the corner (0, 0) alone.
const EDGES: [Row; 5] = [
    (CLOSED_CORNER, (0, 1, 0), Sides::Above),
    (CLOSED_CORNER, (0, -1, 0), Sides::Both),
    (OPEN_CORNER, (0, -1, 0), Sides::Below),
    (CLOSED_CORNER, (-1, -1, 0), Sides::Both),
    (OPEN_CORNER, (-1, -1, 0), Sides::Below),
];

// What the cut makes.
fn parts_of(alloc: Global, cell: &Cell, a: i64, b: i64, c: i64) -> Result<Parts, Fail> {
    let form = Form::new(a, b, c).ok_or("it is a form")?;
    if cell.region().len() >= 80 {
        Err("it has few halves")?;
    }
    Ok(cell.cut(alloc, &form)?)
}

fn sides_of(alloc: Global, cell: &Cell, a: i64, b: i64, c: i64) -> Result<Sides, Fail> {
    match parts_of(alloc, cell, a, b, c)? {
        Parts::Both(_, _) => Ok(Sides::Both),
        Parts::AllGe => Ok(Sides::Above),
        Parts::AllLt => Ok(Sides::Below),
    }
}

// The parts on which the form is at least 0 and below 0, where it divides the cell.
fn both(alloc: Global, cell: &Cell, a: i64, b: i64, c: i64) -> Result<(Cell, Cell), Fail> {
    match parts_of(alloc, cell, a, b, c)? {
        Parts::Both(above, below) => Ok((above, below)),
        _ => Err("the line divides it")?,
    }
}

// The place of the first row that isn't so; none where all are.
fn first_other(alloc: Global, rows: &[Row]) -> Result<Option<usize>, Fail> {
    for (i, (shape, (a, b, c), sides)) in rows.iter().enumerate() {
        if sides_of(alloc, &cell(alloc, shape)?, *a, *b, *c)? != *sides {
            return Ok(Some(i));
        }
    }
    Ok(None)
}

#[test]
fn cuts_by_lines(rt: HostRuntime) -> Result<(), Fail> {
    assert_eq!(rt; first_other(rt.alloc(), &LINES)?, None);
    Ok(())
}

#[test]
fn cuts_along_an_edge(rt: HostRuntime) -> Result<(), Fail> {
    assert_eq!(rt; first_other(rt.alloc(), &EDGES)?, None);
    Ok(())
}

// Whether the point is (17/8, 0).
fn is_corner(p: i128, q: i128, d: i128) -> bool {
    match (p.checked_mul(8), d.checked_mul(17)) {
        (Some(left), Some(right)) => q == 0 && left == right,
        _ => false,
    }
}

fn is_at_corner(cell: &Cell) -> bool {
    let (p, q, d) = cell.sample().parts();
    is_corner(p, q, d)
}

#[test]
fn a_part_that_is_one_point(rt: HostRuntime) -> Result<(), Fail> {
    let alloc = rt.alloc();
    let (point, rest) = both(alloc, &cell(alloc, &FAR)?, 8, 0, -17)?;
    assert!(rt; is_at_corner(&point));
    assert_eq!(rt; (point.region().len(), rest.region().len()), (4, 4));
    // the rest is cut by the next line
    assert_eq!(rt; sides_of(alloc, &rest, 0, 8, -1)?, Sides::Both);
    Ok(())
}

// The closed corner, cut by x = 48/392, then 47/392, and so on: the first is just left of the
// corner (1/8, 0).
fn cut_in_a_row(alloc: Global) -> Result<Cell, Fail> {
    let mut part = cell(alloc, &CLOSED_CORNER)?;
    for c in -48..0 {
        part = both(alloc, &part, 392, 0, c)?.1;
    }
    Ok(part)
}

#[test]
fn cuts_in_a_row(rt: HostRuntime) -> Result<(), Fail> {
    let part = cut_in_a_row(rt.alloc())?;
    assert_eq!(rt; part.region().len(), 51);
    let (p, _, d) = part.sample().parts();
    assert!(rt; p >= 0 && d >= 1);
    Ok(())
}
