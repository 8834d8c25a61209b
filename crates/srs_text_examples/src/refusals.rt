// Texts that are no certificates: the line and the slip.
use crate::texts::{CORNER, CYCLE, Row, SPLIT, first_wrong};
use srs_file::Slip;
use std::test::Fail;

const BROKEN_TEXTS: [Row; 4] = [
    (&[(17, "")], 17, Slip::Missing),
    (&[(17, "end\nx\n")], 18, Slip::Tail),
    (
        &[(7, "in 10\n"), (9, "w -1 0 3\nw -1 0 3\n")],
        10,
        Slip::Order,
    ),
    (&[(8, "w -1 -1 04\n")], 8, Slip::Number),
];

#[test]
fn broken_texts(rt: HostRuntime) -> Result<(), Fail> {
    assert_eq!(rt; first_wrong(rt.alloc(), &CORNER, &BROKEN_TEXTS)?, None);
    Ok(())
}

const HOSTILE_LINES: [Row; 11] = [
    (&[(1, "srs 9\n")], 1, Slip::Version),
    (&[(2, "polygon 99999999999999999999\n")], 2, Slip::Number),
    (&[(2, "polygon 17\n")], 2, Slip::Count),
    (&[(6, "limits 0 1 16385\n")], 6, Slip::Range),
    (&[(7, "out\n")], 7, Slip::Word),
    (&[(7, "out  1 1\n")], 7, Slip::Number),
    (&[(7, "out 2 1\n")], 7, Slip::Count),
    (&[(7, "in 17\n")], 7, Slip::Count),
    (&[(7, "cut 0 1 0\n")], 7, Slip::Count),
    (
        &[(6, "limits 0 64 16\n"), (7, "cut 0 1 0\n")],
        7,
        Slip::Range,
    ),
    (&[(7, "out 1 0\n")], 7, Slip::Range),
];

#[test]
fn hostile_lines(rt: HostRuntime) -> Result<(), Fail> {
    assert_eq!(rt; first_wrong(rt.alloc(), &CYCLE, &HOSTILE_LINES)?, None);
    Ok(())
}

const FIRST_LINES: [Row; 27] = [
    (&[(1, "srs\n")], 1, Slip::Word),
    (&[(1, "srs 1 1\n")], 1, Slip::Word),
    (&[(1, "\n")], 1, Slip::Word),
    (&[(1, "Srs 1\n")], 1, Slip::Word),
    (&[(1, "srs one\n")], 1, Slip::Number),
    (&[(1, "srs 01\n")], 1, Slip::Number),
    (&[(1, "srs 0\n")], 1, Slip::Version),
    (&[(1, "srs 2\n")], 1, Slip::Version),
    (&[(2, "polygon\n")], 2, Slip::Word),
    (&[(2, "polygon 3 3\n")], 2, Slip::Word),
    (&[(2, "polygon 3 \n")], 2, Slip::Word),
    (&[(2, " polygon 3\n")], 2, Slip::Word),
    (&[(2, "region 3\n")], 2, Slip::Word),
    (&[(2, "polygon +3\n")], 2, Slip::Number),
    (&[(2, "polygon 2\n")], 2, Slip::Count),
    (&[(2, "polygon 17\n")], 2, Slip::Count),
    (&[(2, "polygon -3\n")], 2, Slip::Count),
    (&[(2, "polygon 4\n")], 6, Slip::Word),
    (&[(4, "ge 0 -1\n")], 4, Slip::Word),
    (&[(4, "ge 0 -1 8 8\n")], 4, Slip::Word),
    (&[(4, "gx 0 -1 8\n")], 4, Slip::Word),
    (&[(4, "ge 0 -0 8\n")], 4, Slip::Number),
    (&[(4, "ge 0 -1 0\n")], 4, Slip::Range),
    (&[(4, "ge 0 -1 65537\n")], 4, Slip::Range),
    (&[(4, "ge 33 -1 8\n")], 4, Slip::Range),
    (&[(4, "ge 0 -33 8\n")], 4, Slip::Range),
    (&[(5, "ge 1 -2 8\n")], 3, Slip::Turn),
];

#[test]
fn first_lines(rt: HostRuntime) -> Result<(), Fail> {
    assert_eq!(rt; first_wrong(rt.alloc(), &SPLIT, &FIRST_LINES)?, None);
    Ok(())
}

const LIMIT_LINES: [Row; 16] = [
    (&[(6, "limits 2 64\n")], 6, Slip::Word),
    (&[(6, "limits 2 64 16 1\n")], 6, Slip::Word),
    (&[(6, "limit 2 64 16\n")], 6, Slip::Word),
    (&[(6, "limits 2 64 x\n")], 6, Slip::Number),
    (&[(6, "limits 49 64 16\n")], 6, Slip::Range),
    (&[(6, "limits -1 64 16\n")], 6, Slip::Range),
    (&[(6, "limits 2 0 16\n")], 6, Slip::Range),
    (&[(6, "limits 2 65537 16\n")], 6, Slip::Range),
    (&[(6, "limits 2 64 0\n")], 6, Slip::Range),
    (&[(6, "limits 2 64 16385\n")], 6, Slip::Range),
    (&[(6, "limits 2 65536 65\n")], 6, Slip::Range),
    (&[(6, "limits 1 64 16\n")], 8, Slip::Range),
    (&[(6, "limits 2 2 16\n")], 7, Slip::Count),
    (&[(6, "limits 1 3 16\n")], 8, Slip::Count),
    (&[(6, "limits 2 64 4\n")], 9, Slip::Count),
    (&[(6, "limits 2 64 8\n")], 17, Slip::Count),
];

#[test]
fn limit_lines(rt: HostRuntime) -> Result<(), Fail> {
    assert_eq!(rt; first_wrong(rt.alloc(), &SPLIT, &LIMIT_LINES)?, None);
    Ok(())
}

const NODE_LINES: [Row; 26] = [
    (&[(7, "cut 0 1\n")], 7, Slip::Word),
    (&[(7, "cut 0 1 0 0\n")], 7, Slip::Word),
    (&[(7, "cut\n")], 7, Slip::Word),
    (&[(7, "cut 0 1 +0\n")], 7, Slip::Number),
    (&[(7, "cut 274877906945 0 0\n")], 7, Slip::Range),
    (&[(7, "cut 0 -274877906945 0\n")], 7, Slip::Range),
    (&[(7, "cut 0 0 274877906945\n")], 7, Slip::Range),
    (&[(15, "out\n")], 15, Slip::Word),
    (&[(15, "out 2 0 x\n")], 15, Slip::Number),
    (&[(15, "out x 0 1\n")], 15, Slip::Number),
    (&[(15, "out 2\n")], 15, Slip::Count),
    (&[(15, "out 2 0\n")], 15, Slip::Count),
    (&[(15, "out 2 0 1 1\n")], 15, Slip::Count),
    (&[(15, "out 0\n")], 15, Slip::Count),
    (&[(15, "out -1\n")], 15, Slip::Count),
    (&[(15, "out 1 0 0\n")], 15, Slip::Count),
    (&[(15, "out 2 0 137438953473\n")], 15, Slip::Range),
    (&[(15, "out 2 0 0\n")], 15, Slip::Range),
    (&[(15, "left\n")], 15, Slip::Word),
    (&[(15, "left depth\n")], 15, Slip::Word),
    (&[(15, "left depth thin\n")], 15, Slip::Word),
    (&[(15, "left thin thin\n")], 15, Slip::Word),
    (&[(15, "left memory 1\n")], 15, Slip::Word),
    (&[(15, "Left thin\n")], 15, Slip::Word),
    (&[(15, "end\n")], 15, Slip::Word),
    (&[(15, "w 1 1 1\n")], 15, Slip::Word),
];

#[test]
fn node_lines(rt: HostRuntime) -> Result<(), Fail> {
    assert_eq!(rt; first_wrong(rt.alloc(), &SPLIT, &NODE_LINES)?, None);
    Ok(())
}

const LEAF_LINES: [Row; 18] = [
    (&[(9, "in\n")], 9, Slip::Word),
    (&[(9, "in 5 5\n")], 9, Slip::Word),
    (&[(9, "in five\n")], 9, Slip::Number),
    (&[(9, "in 0\n")], 9, Slip::Count),
    (&[(9, "in 17\n")], 9, Slip::Count),
    (&[(9, "in 4\n")], 14, Slip::Word),
    (&[(9, "in 6\n")], 15, Slip::Word),
    (&[(10, "w -1 0\n")], 10, Slip::Word),
    (&[(10, "w -1 0 3 3\n")], 10, Slip::Word),
    (&[(10, "v -1 0 3\n")], 10, Slip::Word),
    (&[(10, "w -1 0 3.0\n")], 10, Slip::Number),
    (&[(10, "w -137438953473 0 3\n")], 10, Slip::Range),
    (&[(10, "w -1 137438953473 3\n")], 10, Slip::Range),
    (&[(10, "w -1 0 16385\n")], 10, Slip::Range),
    (&[(10, "w -1 0 -1\n")], 10, Slip::Range),
    (&[(11, "w -1 0 4\n")], 11, Slip::Order),
    (&[(11, "w -2 5 4\n")], 11, Slip::Order),
    (&[(11, "w -2 5 16385\n")], 11, Slip::Range),
];

#[test]
fn leaf_lines(rt: HostRuntime) -> Result<(), Fail> {
    assert_eq!(rt; first_wrong(rt.alloc(), &SPLIT, &LEAF_LINES)?, None);
    Ok(())
}

const LAST_LINES: [Row; 7] = [
    (&[(28, "end \n")], 28, Slip::Word),
    (&[(28, "End\n")], 28, Slip::Word),
    (&[(28, "cut 0 1 0\n")], 28, Slip::Word),
    (&[(28, "")], 28, Slip::Missing),
    (&[(28, "end")], 28, Slip::Missing),
    (&[(28, "end\n\n")], 29, Slip::Tail),
    (&[(28, "end\nend\n")], 29, Slip::Tail),
];

#[test]
fn last_lines(rt: HostRuntime) -> Result<(), Fail> {
    assert_eq!(rt; first_wrong(rt.alloc(), &SPLIT, &LAST_LINES)?, None);
    Ok(())
}

// The fourth of five vertices turns the wrong way: its line is named, though it is found at the last one's.
const LATER_TURN: [Row; 1] = [(
    &[
        (2, "polygon 5\n"),
        (3, "ge 0 0 1\nge 1 0 1\n"),
        (4, "ge 1 1 1\nge 0 1 1\n"),
        (5, "ge 0 1 2\n"),
    ],
    6,
    Slip::Turn,
)];

#[test]
fn later_turn(rt: HostRuntime) -> Result<(), Fail> {
    assert_eq!(rt; first_wrong(rt.alloc(), &SPLIT, &LATER_TURN)?, None);
    Ok(())
}
