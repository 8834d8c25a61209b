// On which sides of a form a cell is, and the infimum of a form.
use crate::shapes::{CLOSED_CORNER, OPEN_CORNER, Shape, cell};
use srs_cell::{divides, is_above, is_below};
use srs_num::Form;
use std::alloc::Global;
use std::test::Fail;

// A shape, the numbers of a form, and whether the shape is above it, below it, or divided by it.
type Row = (Shape, (i64, i64, i64), (bool, bool, bool));

// x; 8x - 1, which is 0 at the corner (1/8, 0); x + y - 1; 16x - 1; and no line, above and below.
const SIDES: [Row; 9] = [
    (CLOSED_CORNER, (1, 0, 0), (true, false, false)),
    (OPEN_CORNER, (1, 0, 0), (true, false, false)),
    (CLOSED_CORNER, (8, 0, -1), (false, false, true)),
    (OPEN_CORNER, (8, 0, -1), (false, true, false)),
    (CLOSED_CORNER, (1, 1, -1), (false, true, false)),
    (CLOSED_CORNER, (16, 0, -1), (false, false, true)),
    (OPEN_CORNER, (16, 0, -1), (false, false, true)),
    (OPEN_CORNER, (0, 0, 0), (true, false, false)),
    (OPEN_CORNER, (0, 0, -1), (false, true, false)),
];

fn sides_of(alloc: Global, shape: &Shape, form: &Form) -> Result<(bool, bool, bool), Fail> {
    let cell = cell(alloc, shape)?;
    Ok((
        is_above(&cell, form),
        is_below(&cell, form),
        divides(&cell, form),
    ))
}

// The place of the first row that isn't so; none where all are.
fn first_other(alloc: Global, rows: &[Row]) -> Result<Option<usize>, Fail> {
    for (i, (shape, (a, b, c), sides)) in rows.iter().enumerate() {
        let form = Form::new(*a, *b, *c).ok_or("it is a form")?;
        if sides_of(alloc, shape, &form)? != *sides {
            return Ok(Some(i));
        }
    }
    Ok(None)
}

#[test]
fn sides_of_cells(rt: HostRuntime) -> Result<(), Fail> {
    assert_eq!(rt; first_other(rt.alloc(), &SIDES)?, None);
    Ok(())
}

// Whether the infimum of the form on the shape is this number, which is whole.
fn has_infimum(alloc: Global, shape: &Shape, form: &Form, whole: i128) -> Result<bool, Fail> {
    let bound = cell(alloc, shape)?.low(form);
    Ok(whole.checked_mul(bound.den) == Some(bound.num))
}

#[test]
fn infima(rt: HostRuntime) -> Result<(), Fail> {
    let alloc = rt.alloc();
    let form = Form::new(-8, -8, 0).ok_or("it is a form")?;
    assert!(rt; has_infimum(alloc, &OPEN_CORNER, &form, -1)?);
    assert!(rt; has_infimum(alloc, &CLOSED_CORNER, &form, -1)?);
    Ok(())
}
