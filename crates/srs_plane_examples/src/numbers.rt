// Quotients, forms and corners.
ghost use Rattle.std.specs.Prelude.{pos, ◌≤ℤ◌};

use srs_num::{
    Corner, Form, Pairs, V2, ceil_div, cross, crossing_of, floor_div, is_less_quotient, sum, turn,
};
use std::alloc::Global;
use std::test::Fail;

// A whole number, a divisor, the floor of the quotient, and its ceiling.
const QUOTIENTS: [(i128, i128, i128, i128); 7] = [
    (7, 2, 3, 4),
    (-7, 2, -4, -3),
    (8, 2, 4, 4),
    (-8, 2, -4, -4),
    (0, 5, 0, 0),
    (1, 1 << 100, 0, 1),
    (-1, 1 << 100, -1, 0),
];

// The floor and the ceiling; none where there is no such quotient.
fn bounds(n: i128, d: i128) -> Option<(i128, i128)> {
    if d < 1 {
        return None;
    }
    Some((floor_div(n, d), ceil_div(n, d)))
}

// The place of the first quotient with others; none where each has these.
fn first_other_quotient(rows: &[(i128, i128, i128, i128)]) -> Option<usize> {
    for (i, (n, d, floor, ceiling)) in rows.iter().enumerate() {
        if bounds(*n, *d) != Some((*floor, *ceiling)) {
            return Some(i);
        }
    }
    None
}

#[test]
fn floors_and_ceilings(rt: HostRuntime) {
    assert_eq!(rt; first_other_quotient(&QUOTIENTS), None);
}

// Two quotients, and whether the first is less. The last three have products past 2^127.
const ORDERED: [((i128, i128), (i128, i128), bool); 8] = [
    ((1, 3), (1, 2), true),
    ((1, 2), (1, 3), false),
    ((2, 4), (1, 2), false),
    ((-1, 2), (-1, 3), true),
    ((-3, 2), (1, 2), true),
    ((1 << 120, (1 << 100) + 1), (1 << 120, 1 << 100), true),
    ((1 << 120, 1 << 100), (1 << 120, (1 << 100) + 1), false),
    ((1 << 120, 1 << 100), (1 << 120, 1 << 100), false),
];

fn is_less(n1: i128, d1: i128, n2: i128, d2: i128) -> Option<bool> {
    if d1 < 1 || d2 < 1 {
        return None;
    }
    Some(is_less_quotient(n1, d1, n2, d2))
}

fn first_other_order(rows: &[((i128, i128), (i128, i128), bool)]) -> Option<usize> {
    for (i, ((n1, d1), (n2, d2), less)) in rows.iter().enumerate() {
        if is_less(*n1, *d1, *n2, *d2) != Some(*less) {
            return Some(i);
        }
    }
    None
}

#[test]
fn quotients_in_order(rt: HostRuntime) {
    assert_eq!(rt; first_other_order(&ORDERED), None);
}

// The numbers of two forms, and of the corner where their lines cross; none where they are parallel.
type Crossing = ((i64, i64, i64), (i64, i64, i64), Option<(i128, i128, i128)>);

const CROSSINGS: [Crossing; 5] = [
    ((1, 0, -2), (0, 1, -3), Some((2, 3, 1))),
    ((1, 1, 0), (1, -1, -4), Some((4, -4, 2))),
    ((2, 0, -1), (0, 3, 1), Some((3, -2, 6))),
    ((1, 1, 0), (2, 2, 5), None),
    ((0, 0, 1), (1, 0, 0), None),
];

fn crossing(f: (i64, i64, i64), g: (i64, i64, i64)) -> Option<(i128, i128, i128)> {
    let first = Form::new(f.0, f.1, f.2)?;
    let second = Form::new(g.0, g.1, g.2)?;
    let corner = cross(&first, &second)?;
    Some(corner.parts())
}

fn first_other_crossing(rows: &[Crossing]) -> Option<usize> {
    for (i, (f, g, want)) in rows.iter().enumerate() {
        if crossing(*f, *g) != *want {
            return Some(i);
        }
    }
    None
}

#[test]
fn lines_that_cross(rt: HostRuntime) {
    assert_eq!(rt; first_other_crossing(&CROSSINGS), None);
}

// How the line of the first form turns to that of the second, and where they cross if that is to the left.
fn turned(f: (i64, i64, i64), g: (i64, i64, i64)) -> Option<(i128, Option<(i128, i128, i128)>)> {
    let first = Form::new(f.0, f.1, f.2)?;
    let second = Form::new(g.0, g.1, g.2)?;
    let turned = turn(&first, &second);
    if turned <= 0 {
        return Some((turned, None));
    }
    Some((turned, Some(crossing_of(&first, &second).parts())))
}

#[test]
fn lines_that_turn(rt: HostRuntime) {
    assert_eq!(rt; turned((2, 0, -1), (0, 3, 1)), Some((6, Some((3, -2, 6)))));
    assert_eq!(rt; turned((0, 3, 1), (2, 0, -1)), Some((-6, None)));
    assert_eq!(rt; turned((1, 1, 0), (2, 2, 5)), Some((0, None)));
}

// The value of the form, and of its opposite, at the corner where x = 2 and y = 3; none where they
// are no forms.
fn values(a: i64, b: i64, c: i64) -> Option<(i128, i128)> {
    let corner = cross(&Form::new(1, 0, -2)?, &Form::new(0, 1, -3)?)?;
    let form = Form::new(a, b, c)?;
    Some((form.at_corner(&corner), form.opposite().at_corner(&corner)))
}

#[test]
fn values_at_a_corner(rt: HostRuntime) {
    assert_eq!(rt; values(5, -1, 4), Some((11, -11)));
    assert_eq!(rt; values(0, 0, 0), Some((0, 0)));
}

// The sum of the corners (2, 3) and (4, -4)/2, of which the middle one of (0, 0) is no part.
fn middle() -> Option<(i128, i128, i128)> {
    let first = cross(&Form::new(1, 0, -2)?, &Form::new(0, 1, -3)?)?;
    let second = cross(&Form::new(1, 1, 0)?, &Form::new(1, -1, -4)?)?;
    let corners: [Corner; 2] = [first, second];
    Some(sum(&corners).parts())
}

#[test]
fn sums_of_corners(rt: HostRuntime) {
    assert_eq!(rt; middle(), Some((6, -1, 3)));
}

// Whether a copy of the pairs has them in their order.
fn is_copied(alloc: Global, pairs: &[V2]) -> Result<bool, Fail> {
    let copy = Pairs::from_slice(alloc, pairs)?;
    Ok(copy.len() == pairs.len() as u64 && copy.as_slice() == pairs)
}

#[test]
fn pairs_are_copied(rt: HostRuntime) -> Result<(), Fail> {
    assert!(rt; is_copied(rt.alloc(), &[V2 { a: 1, b: -2 }, V2 { a: -3, b: 4 }])?);
    Ok(())
}
