// Values of forms at points, and points in regions, with their steps counted on a ledger of the caller's.
ghost use Rattle.std.specs.Prelude.{◌≡◌, ◌<◌};

use crate::polygons::with_first_open;
use srs_num::{Form, Pt, Steps};
use srs_plane::{Half, Kind, Region};
use std::marker::Brand;
use std::sync::ledger::{Blank, Ledger};
use std::test::Fail;

const MOST: i64 = 1 << 38;

// Points p/d, q/d, and whether they are in the triangle of the corner (0, 0) without the edge y = 0.
const POINTS: [((i64, i64, i64), bool); 4] = [
    ((1, 1, 32), true),
    ((0, 1, 8), true),
    ((1, 0, 16), false),
    ((1, 1, 8), false),
];

// The numbers of a form and of a point, and the value; none where they are no form or no point.
type Row = ((i64, i64, i64), (i64, i64, i64), Option<i128>);

const VALUES: [Row; 6] = [
    ((2, -3, 5), (1, 1, 4), Some(19)),
    (
        (MOST, MOST, MOST),
        (1 << 42, 1 << 42, 1 << 40),
        Some((1i128 << 81) + (1 << 78)),
    ),
    ((MOST + 1, 0, 0), (0, 0, 1), None),
    ((0, 0, 0), (0, 0, 0), None),
    ((0, 0, 0), (0, 0, (1 << 40) + 1), None),
    ((0, 0, 0), ((1 << 42) + 1, 0, 1), None),
];

// Whether the region holds the point.
fn holds<L: Ledger>(region: &Region, r: &Pt, blank: Blank) -> bool
    requires name { blank.name ≡ L.name }
    requires parts { blank.parts ≡ L.parts }
    requires some { 0 < blank.parts }
{
    let mut steps = Steps::<L>::new(blank);
    region.holds(r, &mut steps)
}

// The value of the form at the point.
fn value<L: Ledger>(form: &Form, r: &Pt, blank: Blank) -> i128
    requires name { blank.name ≡ L.name }
    requires parts { blank.parts ≡ L.parts }
    requires some { 0 < blank.parts }
{
    let mut steps = Steps::<L>::new(blank);
    form.at(r, &mut steps)
}

// Whether the half holds the point.
fn half_holds<L: Ledger>(half: &Half, r: &Pt, blank: Blank) -> bool
    requires name { blank.name ≡ L.name }
    requires parts { blank.parts ≡ L.parts }
    requires some { 0 < blank.parts }
{
    let mut steps = Steps::<L>::new(blank);
    half.holds(r, &mut steps)
}

// Whether the half of x + y of this kind holds the point (p / d, q / d), where it is one.
fn is_at_half(kind: Kind, p: i64, q: i64, d: i64) -> Option<bool> {
    let r = Pt::new(p, q, d)?;
    let form = Form::new(1, 1, 0)?;
    Some(half_holds::<Brand>(&Half { form, kind }, &r, Blank::new(1)))
}

#[test]
fn points_at_a_line(rt: HostRuntime) {
    assert_eq!(rt; is_at_half(Kind::Ge, 1, -1, 8), Some(true));
    assert_eq!(rt; is_at_half(Kind::Gt, 1, -1, 8), Some(false));
    assert_eq!(rt; is_at_half(Kind::Gt, 2, -1, 8), Some(true));
    assert_eq!(rt; is_at_half(Kind::Ge, 1, -2, 8), Some(false));
}

// Whether the region holds the point, where it is one.
fn is_held(region: &Region, p: i64, q: i64, d: i64) -> Option<bool> {
    let r = Pt::new(p, q, d)?;
    Some(holds::<Brand>(region, &r, Blank::new(1)))
}

fn value_at(a: i64, b: i64, c: i64, r: (i64, i64, i64)) -> Option<i128> {
    let form = Form::new(a, b, c)?;
    let point = Pt::new(r.0, r.1, r.2)?;
    Some(value::<Brand>(&form, &point, Blank::new(1)))
}

// The place of the first point of which that isn't so; none where it is of all.
fn first_misplaced(region: &Region, rows: &[((i64, i64, i64), bool)]) -> Option<usize> {
    for (i, row) in rows.iter().enumerate() {
        let ((p, q, d), held) = *row;
        if is_held(region, p, q, d) != Some(held) {
            return Some(i);
        }
    }
    None
}

// The place of the first row that has another value; none where all have theirs.
fn first_other(rows: &[Row]) -> Option<usize> {
    for (i, row) in rows.iter().enumerate() {
        let ((a, b, c), r, want) = *row;
        if value_at(a, b, c, r) != want {
            return Some(i);
        }
    }
    None
}

#[test]
fn points_in_a_triangle(rt: HostRuntime) -> Result<(), Fail> {
    let region = with_first_open(rt.alloc(), &[(0, 0, 1), (1, 0, 8), (0, 1, 8)])?;
    assert_eq!(rt; first_misplaced(&region, &POINTS), None);
    Ok(())
}

#[test]
fn values(rt: HostRuntime) {
    assert_eq!(rt; first_other(&VALUES), None);
}
