// Steps, and how orbits end.
use srs_map::{OrbitEnd, is_narrow, is_origin, minus, orbit, step};
use srs_num::{Pt, V2};
use std::test::Fail;

const WIDEST: i64 = 1 << 37;

// The parameter (p/d, q/d), the first pair, how many steps, and the end.
type Row = ((i64, i64, i64), (i64, i64), u32, OrbitEnd);

// In the third row the floor of -5/16 is -1.
const ENDS: [Row; 9] = [
    ((0, 0, 1), (5, 7), 100, OrbitEnd::Zero(2)),
    ((0, 0, 1), (0, 0), 0, OrbitEnd::Zero(0)),
    ((-1, 0, 16), (5, 7), 100, OrbitEnd::Loop(2, 1)),
    ((-1, 0, 16), (5, 7), 3, OrbitEnd::Loop(2, 1)),
    ((-1, 0, 16), (5, 7), 2, OrbitEnd::Spent),
    ((4, 4, 1), (1, 1), 100, OrbitEnd::Wide(31)),
    ((4, 4, 1), (1, 1), 30, OrbitEnd::Spent),
    ((1, -1, 4), (1, 1), 100, OrbitEnd::Zero(2)),
    ((-1, -1, 2), (1, 1), 100, OrbitEnd::Loop(0, 1)),
];

// A search through all earlier pairs wouldn't end.
const LONG_ENDS: [Row; 3] = [
    (
        (2000179, -1598406, 2000192),
        (893, 335),
        100_000,
        OrbitEnd::Loop(63404, 30253),
    ),
    (
        (2000179, -1598406, 2000192),
        (893, 335),
        93_657,
        OrbitEnd::Loop(63404, 30253),
    ),
    (
        (2000179, -1598406, 2000192),
        (893, 335),
        93_656,
        OrbitEnd::Spent,
    ),
];

// A pair, and the next at (-1/16, 0).
const STEPS: [((i64, i64), (i64, i64)); 2] = [
    ((5, 7), (7, 1)),
    ((-WIDEST, WIDEST), (WIDEST, -(1 << 33))),
];

// The end of the orbit of (a, b) at (p / d, q / d), where the call may be made.
fn end(p: i64, q: i64, d: i64, a: i64, b: i64, n: u32) -> Option<OrbitEnd> {
    let r = Pt::new(p, q, d)?;
    let z = V2 { a, b };
    if !r.near() || !is_narrow(z) || n > 100_000 {
        return None;
    }
    Some(orbit(&r, z, n))
}

// The place of the first row that isn't so; none where all are.
fn first_other(rows: &[Row]) -> Option<usize> {
    for (i, row) in rows.iter().enumerate() {
        let ((p, q, d), (a, b), n, want) = *row;
        if end(p, q, d, a, b, n) != Some(want) {
            return Some(i);
        }
    }
    None
}

#[test]
fn orbit_ends(rt: HostRuntime) {
    assert_eq!(rt; first_other(&ENDS), None);
}

#[test]
fn long_orbit_ends(rt: HostRuntime) {
    assert_eq!(rt; first_other(&LONG_ENDS), None);
}

// The pair after (a, b) at (p / d, q / d), where the call may be made.
fn next(p: i64, q: i64, d: i64, a: i64, b: i64) -> Option<(i64, i64)> {
    let r = Pt::new(p, q, d)?;
    let z = V2 { a, b };
    if !r.near() || !is_narrow(z) {
        return None;
    }
    let next = step(&r, z);
    Some((next.a, next.b))
}

// The pair on the other side of (0, 0), where the call may be made.
fn other_side(a: i64, b: i64) -> Option<(i64, i64)> {
    let w = V2 { a, b };
    if !is_narrow(w) {
        return None;
    }
    let other = minus(w);
    Some((other.a, other.b))
}

#[test]
fn other_sides(rt: HostRuntime) {
    assert_eq!(rt; other_side(5, -7), Some((-5, 7)));
    assert_eq!(rt; other_side(-WIDEST, 0), Some((WIDEST, 0)));
    assert_eq!(rt; other_side(WIDEST + 1, 0), None);
}

// The place of the first pair that goes elsewhere; none where all go there.
fn first_other_step(rows: &[((i64, i64), (i64, i64))]) -> Option<usize> {
    for (i, row) in rows.iter().enumerate() {
        let ((a, b), want) = *row;
        if next(-1, 0, 16, a, b) != Some(want) {
            return Some(i);
        }
    }
    None
}

#[test]
fn steps(rt: HostRuntime) {
    assert_eq!(rt; first_other_step(&STEPS), None);
}

#[test]
fn the_origin(rt: HostRuntime) {
    assert!(rt; is_origin(V2 { a: 0, b: 0 }));
    assert!(rt; !is_origin(V2 { a: 0, b: -1 }) && !is_origin(V2 { a: 1, b: 0 }));
}
