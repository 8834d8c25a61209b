// Corners, and parts of cells.
use srs_cell::{Cell, Parts};
use srs_num::Form;
use srs_path::Side;
use srs_plane::{Kind, Vertex};
use std::alloc::{AllocError, Global};
use std::test::Fail;

/// A side of the line of a form.
pub type Cut = ((i64, i64, i64), Side);

pub const UP: Cut = ((0, 1, 0), Side::Ge);

pub const DOWN: Cut = ((0, 1, 0), Side::Lt);

pub const RIGHT: Cut = ((1, 0, 0), Side::Ge);

pub const LEFT: Cut = ((1, 0, 0), Side::Lt);

pub const OVER: Cut = ((1, 1, 0), Side::Ge);

pub const UNDER: Cut = ((1, 1, 0), Side::Lt);

/// The vertices p/d, q/d, with edges of one kind.
pub fn with_kind(
    alloc: Global,
    corners: &[(i64, i64, i64)],
    kind: Kind,
) -> Result<Vec<Vertex>, AllocError> {
    let mut vertices = Vec::new(alloc);
    for (p, q, d) in corners {
        vertices.push(Vertex {
            p: *p,
            q: *q,
            d: *d,
            kind,
        })?;
    }
    Ok(vertices)
}

// The part of the cell on the side of the line.
fn side_of(alloc: Global, cell: &Cell, cut: &Cut) -> Result<Cell, Fail> {
    let ((a, b, c), side) = *cut;
    let form = Form::new(a, b, c).ok_or("it is a form")?;
    if cell.region().len() >= 80 {
        Err("it has few halves")?;
    }
    match cell.cut(alloc, &form)? {
        Parts::Both(ge, lt) => match side {
            Side::Ge => Ok(ge),
            Side::Lt => Ok(lt),
        },
        _ => Err("the line divides it")?,
    }
}

/// The part of the cell on these sides.
pub fn part_of(alloc: Global, cell: Cell, cuts: &[Cut]) -> Result<Cell, Fail> {
    let mut cell = cell;
    for cut in cuts {
        cell = side_of(alloc, &cell, cut)?;
    }
    Ok(cell)
}
