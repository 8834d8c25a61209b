// The cells of the examples: a polygon, and parts of it.
ghost use Rattle.std.specs.Prelude.{◌≤◌, length, IfOk};

use srs_cell::{Cell, Parts};
use srs_num::Form;
use srs_path::{Path, Side};
use srs_plane::{Kind, Region, Vertex, polygon};
use std::alloc::{AllocError, Global};
use std::test::Fail;

// The corners p/d, q/d of a polygon with closed edges.
pub type Polygon = [(i64, i64, i64); 3];

// Its parts above and below y = 0 are of two kinds each.
pub const SPLIT: Polygon = [(-1, 0, 8), (0, -1, 8), (1, 0, 8)];

// All finite parameters lie in it.
pub const WHOLE: Polygon = [(-1, 0, 1), (1, -2, 1), (1, 2, 1)];

// A side of the line y = 0.
pub const UP: Option<Side> = Some(Side::Ge);

pub const DOWN: Option<Side> = Some(Side::Lt);

fn vertices_of(alloc: Global, corners: &Polygon) -> Result<Vec<Vertex>, AllocError> {
    let mut vertices = Vec::new(alloc);
    for (p, q, d) in corners {
        vertices.push(Vertex {
            p: *p,
            q: *q,
            d: *d,
            kind: Kind::Ge,
        })?;
    }
    Ok(vertices)
}

fn region_of(alloc: Global, corners: &Polygon) -> Result<Region, Fail> {
    match polygon(alloc, &vertices_of(alloc, corners)?) {
        Ok(region) => Ok(region),
        Err(_) => Err("it is a polygon")?,
    }
}

// The cell of the polygon.
pub fn cell_of(alloc: Global, corners: &Polygon) -> Result<Cell, Fail>
    ensures { IfOk result (λ cell. length cell ≤ 16) }
{
    let cell = Cell::of(alloc, region_of(alloc, corners)?)?.ok_or("it has a point")?;
    if cell.region().len() > 16 {
        Err("it has three halves")?;
    }
    Ok(cell)
}

// The cell of the polygon, or its part on that side of y = 0.
pub fn part(alloc: Global, corners: &Polygon, side: Option<Side>) -> Result<Cell, Fail> {
    let cell = cell_of(alloc, corners)?;
    let Some(side) = side else {
        return Ok(cell);
    };
    let form = Form::new(0, 1, 0).ok_or("it is a form")?;
    match (cell.cut(alloc, &form)?, side) {
        (Parts::Both(ge, _), Side::Ge) => Ok(ge),
        (Parts::Both(_, lt), Side::Lt) => Ok(lt),
        _ => Err("the line divides it")?,
    }
}

// The path of the sides: `g` for Ge, `l` for Lt.
pub fn path_of(sides: &str) -> Result<Path, Fail> {
    let mut path = Path::root();
    for side in sides.as_bytes() {
        let side = if *side == b'g' { Side::Ge } else { Side::Lt };
        path = path.child(side).ok_or("it is short")?;
    }
    Ok(path)
}
