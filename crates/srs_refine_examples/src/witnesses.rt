// Witness sets, and that they may be too many.
ghost use Rattle.std.specs.Prelude.{◌≤◌};

use crate::parts::{CORNER, Polygon, cell_of, part};
use srs_cell::Cell;
use srs_num::{Pairs, V2};
use srs_path::Side;
use srs_plane::Kind;
use srs_shapes::Cut;
use srs_wit::{Big, Searcher, WitErr, small_witnesses, witnesses};
use std::alloc::Global;
use std::test::Fail;

// The most witnesses that a cell may have.
pub const MOST: u32 = 16384;

pub const NINE: [(i64, i64); 9] = [
    (-1, -1),
    (-1, 0),
    (-1, 1),
    (0, -1),
    (0, 0),
    (0, 1),
    (1, -1),
    (1, 0),
    (1, 1),
];

// At (0, 0) each pair (a, b) goes to (b, 0).
const FIVE: [(i64, i64); 5] = [(-1, 0), (0, -1), (0, 0), (0, 1), (1, 0)];

const POINT: Cut = ((-1, -1, 0), Side::Ge);

// A polygon and cuts, how many witnesses are allowed, and the witnesses.
type Row = (Polygon, &'static [Cut], u32, &'static [(i64, i64)]);

const WITNESSES: [Row; 3] = [
    (CORNER, &[], 9, &NINE),
    (CORNER, &[], MOST, &NINE),
    (CORNER, &[POINT], 5, &FIVE),
];

// Whether the pairs are these, in this order.
pub fn are(pairs: &[V2], wanted: &[(i64, i64)]) -> bool {
    if pairs.len() != wanted.len() {
        return false;
    }
    for (i, w) in pairs.iter().enumerate() {
        if (w.a, w.b) != wanted[i] {
            return false;
        }
    }
    true
}

// Whether the witnesses of the cell are these, where so many are allowed.
fn has_witnesses(cell: &Cell, alloc: Global, most: u32, wanted: &[(i64, i64)]) -> bool {
    if most < 1 || most > MOST {
        return false;
    }
    match witnesses(alloc, cell, most) {
        Ok(set) => set.len() == wanted.len() as u64 && are(set.as_slice(), wanted),
        Err(_) => false,
    }
}

// The same by the call that shows nothing where they are too many.
fn has_small(cell: &Cell, alloc: Global, most: u32, wanted: &[(i64, i64)]) -> bool {
    if most < 1 || most > MOST {
        return false;
    }
    match small_witnesses(alloc, cell, most) {
        Ok(Some(set)) => are(set.as_slice(), wanted),
        _ => false,
    }
}

// The same by a searcher that has searched other cells before.
fn has_small_again(
    searcher: &mut Searcher,
    cell: &Cell,
    alloc: Global,
    most: u32,
    wanted: &[(i64, i64)],
) -> bool {
    if most < 1 || most > MOST {
        return false;
    }
    match searcher.small_witnesses(alloc, cell, most) {
        Ok(Some(set)) => are(set.as_slice(), wanted),
        _ => false,
    }
}

// The place of the first row that isn't so; none where all are.
fn first_other_again(alloc: Global, rows: &[Row]) -> Result<Option<usize>, Fail> {
    let mut searcher = Searcher::new(alloc, 16)?;
    for (i, (polygon, cuts, most, wanted)) in rows.iter().enumerate() {
        let cell = part(alloc, polygon, cuts)?;
        if !has_small_again(&mut searcher, &cell, alloc, *most, wanted) {
            return Ok(Some(i));
        }
    }
    Ok(None)
}

#[test]
fn witness_sets_in_turn(rt: HostRuntime) -> Result<(), Fail> {
    assert_eq!(rt; first_other_again(rt.alloc(), &WITNESSES)?, None);
    Ok(())
}

// The place of the first row that isn't so; none where all are.
fn first_other(alloc: Global, rows: &[Row]) -> Result<Option<usize>, Fail> {
    for (i, (polygon, cuts, most, wanted)) in rows.iter().enumerate() {
        let cell = part(alloc, polygon, cuts)?;
        if !has_witnesses(&cell, alloc, *most, wanted) || !has_small(&cell, alloc, *most, wanted) {
            return Ok(Some(i));
        }
    }
    Ok(None)
}

#[test]
fn witness_sets(rt: HostRuntime) -> Result<(), Fail> {
    assert_eq!(rt; first_other(rt.alloc(), &WITNESSES)?, None);
    Ok(())
}

// The witnesses that show that there are more than `bound`.
fn different_witnesses(alloc: Global, cell: &Cell, bound: u32) -> Option<Pairs>
    requires some { 1 ≤ bound }
    requires few { bound ≤ 16384 }
{
    match witnesses(alloc, cell, bound) {
        Err(WitErr::Large(Big::Many(found))) => Some(found),
        _ => None,
    }
}

fn are_different(pairs: &[V2]) -> bool {
    for i in 0..pairs.len() {
        for j in 0..i {
            if pairs[i] == pairs[j] {
                return false;
            }
        }
    }
    true
}

#[test]
fn one_witness_too_many(rt: HostRuntime) -> Result<(), Fail> {
    let alloc = rt.alloc();
    let corner = cell_of(alloc, &CORNER)?;
    let found = different_witnesses(alloc, &corner, 8).ok_or("eight are too few")?;
    assert_eq!(rt; (found.len(), are_different(found.as_slice())), (9, true));
    Ok(())
}

// A witness with an entry past 2^37, where the cell has one.
fn wide_witness(alloc: Global, cell: &Cell) -> Option<V2> {
    match witnesses(alloc, cell, MOST) {
        Err(WitErr::Large(Big::Wide(w))) => Some(w),
        _ => None,
    }
}

fn is_wide(w: V2) -> bool {
    let widest: i64 = 1 << 37;
    w.a > widest || w.a < -widest || w.b > widest || w.b < -widest
}

const FAR_CORNER: Polygon = (&[(4, 4, 1), (0, 4, 1), (4, 0, 1)], Kind::Ge);

// At (4, 4) the entries grow.
#[test]
fn a_wide_witness(rt: HostRuntime) -> Result<(), Fail> {
    let alloc = rt.alloc();
    let point = part(alloc, &FAR_CORNER, &[((1, 1, -8), Side::Ge)])?;
    let w = wide_witness(alloc, &point).ok_or("a witness is wide")?;
    assert!(rt; is_wide(w));
    Ok(())
}
