// The outcomes of cells, and the grid lines that cut what isn't small.
use crate::parts::{CORNER, OPEN_CORNER, Polygon, SPLIT, cell_of, part};
use srs_cell::Cell;
use srs_grid::line;
use srs_path::{Cause, Last, Side, Why};
use srs_refine::{Refiner, refine};
use srs_shapes::{Cut, DOWN, LEFT, OVER, Plain, RIGHT, UNDER, UP, is_plain};
use std::alloc::Global;
use std::test::Fail;

// Cuts, the limit that is spent, how many witnesses are allowed, and the outcome of the part.
type Row = (&'static [Cut], Option<Last>, u32, Plain);

const CUT: [Row; 3] = [
    (&[], None, 16, Plain::Cut(0, 1, 0)),
    (&[UP], None, 16, Plain::Cut(1, 0, 0)),
    (&[DOWN], None, 16, Plain::Cut(1, 1, 0)),
];

const DECIDED: [Row; 5] = [
    (&[UP, RIGHT], Some(Last::Depth), 16, Plain::Inside(5)),
    (&[DOWN, OVER], Some(Last::Cells), 16, Plain::Inside(9)),
    (&[UP, LEFT], None, 16, Plain::Outside(&[0, 1])),
    (&[UP, LEFT], Some(Last::Depth), 16, Plain::Outside(&[0, 1])),
    (&[DOWN, UNDER], None, 16, Plain::Outside(&[1])),
];

// In the last row eight witnesses are too few.
const LEFT_CELLS: [Row; 3] = [
    (
        &[],
        Some(Last::Depth),
        16,
        Plain::Left(Cause::Depth(Why::Cycle)),
    ),
    (
        &[],
        Some(Last::Cells),
        16,
        Plain::Left(Cause::Cells(Why::Cycle)),
    ),
    (
        &[],
        Some(Last::Depth),
        8,
        Plain::Left(Cause::Depth(Why::Witness)),
    ),
];

// Whether refining the cell gives the outcome, also with memory that other cells were refined with before.
fn gives(
    alloc: Global,
    refiner: &mut Refiner,
    cell: &Cell,
    last: Option<Last>,
    w: u32,
    wanted: Plain,
) -> Result<bool, Fail> {
    if w < 1 || w > 16384 {
        Err("so many are allowed")?;
    }
    let finding = refine(alloc, cell, last, w)?;
    let again = refiner.refine(alloc, cell, last, w)?;
    Ok(
        finding.w() == w
            && is_plain(finding.outcome(), wanted)
            && again.w() == w
            && is_plain(again.outcome(), wanted),
    )
}

// The place of the first row that isn't so; none where all are.
fn first_other(alloc: Global, rows: &[Row]) -> Result<Option<usize>, Fail> {
    let mut refiner = Refiner::new(alloc, 16)?;
    for (i, (cuts, last, w, wanted)) in rows.iter().enumerate() {
        let cell = part(alloc, &SPLIT, cuts)?;
        if !gives(alloc, &mut refiner, &cell, *last, *w, *wanted)? {
            return Ok(Some(i));
        }
    }
    Ok(None)
}

#[test]
fn cut_cells(rt: HostRuntime) -> Result<(), Fail> {
    assert_eq!(rt; first_other(rt.alloc(), &CUT)?, None);
    Ok(())
}

#[test]
fn decided_cells(rt: HostRuntime) -> Result<(), Fail> {
    assert_eq!(rt; first_other(rt.alloc(), &DECIDED)?, None);
    Ok(())
}

#[test]
fn left_cells(rt: HostRuntime) -> Result<(), Fail> {
    assert_eq!(rt; first_other(rt.alloc(), &LEFT_CELLS)?, None);
    Ok(())
}

// A polygon and cuts, and the first grid line.
type LineRow = (Polygon, &'static [Cut], Option<(i64, i64, i64)>);

// x = 0 goes before y = 0; x is below 1/8 and y below 0; the closed corner has points with x = 1/8,
// the open one doesn't; no line divides a single point.
const LINES: [LineRow; 5] = [
    (SPLIT, &[], Some((1, 0, 0))),
    (SPLIT, &[RIGHT, DOWN], Some((16, 0, -1))),
    (CORNER, &[], Some((8, 0, -1))),
    (OPEN_CORNER, &[], Some((16, 0, -1))),
    (CORNER, &[((-1, -1, 0), Side::Ge)], None),
];

// The numbers of the first grid line.
fn grid_line(cell: &Cell) -> Option<(i64, i64, i64)> {
    match line(cell) {
        Some(form) => Some(form.parts()),
        None => None,
    }
}

// The place of the first row that isn't so; none where all are.
fn first_other_line(alloc: Global, rows: &[LineRow]) -> Result<Option<usize>, Fail> {
    for (i, (polygon, cuts, wanted)) in rows.iter().enumerate() {
        if grid_line(&part(alloc, polygon, cuts)?) != *wanted {
            return Ok(Some(i));
        }
    }
    Ok(None)
}

#[test]
fn grid_lines(rt: HostRuntime) -> Result<(), Fail> {
    assert_eq!(rt; first_other_line(rt.alloc(), &LINES)?, None);
    Ok(())
}

// Whether copies of the cell and of its region are equal to them.
fn is_copied(alloc: Global, cell: &Cell) -> Result<bool, Fail> {
    let region = cell.region().copy(alloc)?;
    let copy = cell.copy(alloc)?;
    let same = region.same(cell.region()) && copy.region().same(cell.region());
    Ok(same && copy.sample() == cell.sample())
}

#[test]
fn copies_of_the_root(rt: HostRuntime) -> Result<(), Fail> {
    let alloc = rt.alloc();
    assert!(rt; is_copied(alloc, &cell_of(alloc, &SPLIT)?)?);
    Ok(())
}
