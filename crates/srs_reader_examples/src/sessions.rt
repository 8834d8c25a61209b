// The sessions of an input of a live run.
use crate::lines::{POLYGON, text_of};
use crate::live::live_of;
use srs_file::{FileErr, Slip, read_live};
use srs_tree::{Query, Script, Segment, Session};
use std::alloc::{AllocError, Global};
use std::test::Fail;

// Lines behind the polygon, of which the first is line 5, and the first slip there.
const SLIPS: [(&[&str], u32, Slip); 16] = [
    (&["point 0 0 1"], 5, Slip::Word),
    (&["at 0"], 5, Slip::Word),
    (&["session", "fresh"], 6, Slip::Word),
    (&["session", "session", "point 0 0 1"], 7, Slip::Word),
    (&["session", "at 0", "session 2"], 7, Slip::Word),
    (&["session", "at 0", "fresh 1"], 7, Slip::Word),
    (&["session", "at 0", "region 3", "session"], 8, Slip::Word),
    (&["session", "at 0 1"], 6, Slip::Word),
    (&["session", "at 00"], 6, Slip::Number),
    (&["session", "at 100"], 6, Slip::Range),
    (&["session", "at -1"], 6, Slip::Range),
    (&["session", "at 0", "point 0 0 0"], 7, Slip::Range),
    (&["session", "at 0", "region 2"], 7, Slip::Count),
    (&["session", "at 3", "at 3"], 7, Slip::Order),
    (&["session", "at 3", "count", "at 2"], 8, Slip::Order),
    (
        &[
            "session",
            "at 0",
            "region 3",
            "ge -1 0 8",
            "ge 1 0 8",
            "ge 0 -1 8",
            "fresh",
        ],
        8,
        Slip::Turn,
    ),
];

// The input of the polygon with the lines and `end` behind it.
fn input_of(alloc: Global, lines: &[&str]) -> Result<String, AllocError> {
    let [first, a, b, c, end] = POLYGON;
    let mut text = text_of(alloc, &[&[first, a, b, c]])?;
    text.push_str(&text_of(alloc, &[lines])?)?;
    text.push_str(&text_of(alloc, &[&[end]])?)?;
    Ok(text)
}

// The first slip of that input.
fn slip_behind(alloc: Global, lines: &[&str]) -> Result<Option<FileErr>, Fail> {
    match live_of(alloc, &input_of(alloc, lines)?)? {
        Ok(_) => Ok(None),
        Err(refused) => Ok(Some(refused)),
    }
}

#[test]
fn slips_of_sessions(rt: HostRuntime) -> Result<(), Fail> {
    let alloc = rt.alloc();
    for (lines, line, slip) in &SLIPS {
        assert_eq!(rt; slip_behind(alloc, lines)?, Some(FileErr::At(*line, *slip)));
    }
    Ok(())
}

#[test]
fn eight_sessions(rt: HostRuntime) -> Result<(), Fail> {
    let alloc = rt.alloc();
    assert_eq!(rt; slip_behind(alloc, &["session"; 8])?, None);
    assert_eq!(rt;
        slip_behind(alloc, &["session"; 9])?,
        Some(FileErr::At(13, Slip::Count))
    );
    Ok(())
}

// A session whose second segment asks all, and one without a segment.
const SESSIONS: [&str; 12] = [
    "session",
    "at 0",
    "at 9",
    "fresh",
    "count",
    "point 1 -1 16",
    "region 3",
    "ge -1 0 8",
    "gt 0 -1 8",
    "ge 1 0 8",
    "orbit 1 -1 4 1 1 100",
    "session",
];

// The sessions of that input.
fn script_of(alloc: Global, lines: &[&str]) -> Result<Script, Fail> {
    let text = input_of(alloc, lines)?;
    if text.len() > 65536 {
        Err("it is short")?;
    }
    match read_live(alloc, text.as_bytes()) {
        Ok((_, _, script)) => Ok(script),
        Err(_) => Err("it is an input of a live run")?,
    }
}

// Whether the segment stands behind round 9 and asks `fresh`, `count` and the three other
// questions.
fn asks_all(segment: &Segment) -> bool {
    let [Query::Fresh, Query::Count, more @ ..] = segment.queries.as_slice() else {
        return false;
    };
    segment.at == 9
        && matches!(
            more,
            [Query::Point(_), Query::Polygon(_), Query::Orbit(_, _, 100)]
        )
}

// Whether the session has a segment that asks nothing behind round 0, and one that asks all.
fn is_asked(session: &Session) -> bool {
    match session.as_slice() {
        [first, second] => first.at == 0 && first.queries.len() == 0 && asks_all(second),
        _ => false,
    }
}

// Whether there are two sessions: one that asks all, and one that has no segment.
fn are_asked(sessions: &[Session]) -> bool {
    match sessions {
        [first, second] => is_asked(first) && second.len() == 0,
        _ => false,
    }
}

#[test]
fn questions_of_sessions(rt: HostRuntime) -> Result<(), Fail> {
    let script = script_of(rt.alloc(), &SESSIONS)?;
    assert!(rt; are_asked(script.as_slice()));
    Ok(())
}
