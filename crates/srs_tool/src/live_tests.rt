// Runs of `live` over memory.
use crate::runs::{NEVER, Row, failing_top, play_top};
use crate::status::Status;
use std::alloc::Global;
use std::sync::Wait;
use std::test::Fail;
use std::thread::Threads;

const SPLIT: &str = "polygon 3\nge -1 0 8\nge 0 -1 8\nge 1 0 8\nend\n";

// What `certify 2 64 16` prints for it.
pub(crate) const SPLIT_CERTIFICATE: &str =
    "srs 1\npolygon 3\nge -1 0 8\nge 0 -1 8\nge 1 0 8\nlimits 2 64 16\ncut 0 1 0\ncut 1 0 0\nin 5\nw -1 0 3\nw 0 -1 4\nw 0 0 0\nw 0 1 2\nw 1 0 1\nout 2 0 1\ncut 1 1 0\nin 9\nw -1 -1 5\nw -1 0 4\nw -1 1 3\nw 0 -1 5\nw 0 0 0\nw 0 1 3\nw 1 -1 5\nw 1 0 1\nw 1 1 2\nout 1 1\nend\n";

// One worker takes the cells of a round in their order.
pub(crate) const SPLIT_EVENTS: &str =
    "live 1\njournal 7\ne . cut 0 1 0\ne g cut 1 0 0\ne l cut 1 1 0\ne gg in 5\ne gl out 2 0 1\ne lg in 9\ne ll out 1 1\n";

// Whether the text is the events of one worker, one of these, and the certificate.
pub(crate) fn is_of_one_worker(text: &[u8], middles: &[&str]) -> bool {
    let Some(rest) = text.strip_prefix(SPLIT_EVENTS.as_bytes()) else {
        return false;
    };
    for middle in middles {
        if is_both(rest, middle, SPLIT_CERTIFICATE) {
            return true;
        }
    }
    false
}

// Whether the text is the front and then the back.
pub(crate) fn is_both(text: &[u8], front: &str, back: &str) -> bool {
    match text.strip_prefix(front.as_bytes()) {
        Some(rest) => rest == back.as_bytes(),
        None => false,
    }
}

#[test]
fn one_worker(rt: HostRuntime) -> Result<(), Fail> {
    let seen = play_top(&rt, rt.alloc(), "live 2 64 16 1", &[SPLIT.as_bytes()])?;
    assert_eq!(rt; seen.status, Status::Done);
    assert!(rt; is_of_one_worker(seen.sink.bytes(), &["end\n"]));
    Ok(())
}

// With more workers the events of a round come in any order; the certificate is the same.
#[test]
fn many_workers(rt: HostRuntime) -> Result<(), Fail> {
    for words in ["live 2 64 16 2", "live 2 64 16 3", "live 2 64 16 16"] {
        let seen = play_top(&rt, rt.alloc(), words, &[SPLIT.as_bytes()])?;
        assert_eq!(rt; seen.status, Status::Done);
        assert!(rt; seen.sink.bytes().ends_with(SPLIT_CERTIFICATE.as_bytes()));
    }
    Ok(())
}

// The two parts of the root in either order.
const EITHER: [&str; 2] = [
    "live 1\njournal 3\ne . cut 0 1 0\ne g left depth cycle\ne l left depth cycle\nend\n",
    "live 1\njournal 3\ne . cut 0 1 0\ne l left depth cycle\ne g left depth cycle\nend\n",
];

const SHALLOW_CERTIFICATE: &str =
    "srs 1\npolygon 3\nge -1 0 8\nge 0 -1 8\nge 1 0 8\nlimits 1 64 16\ncut 0 1 0\nleft depth cycle\nleft depth cycle\nend\n";

#[test]
fn events_in_either_order(rt: HostRuntime) -> Result<(), Fail> {
    let seen = play_top(&rt, rt.alloc(), "live 1 64 16 2", &[SPLIT.as_bytes()])?;
    assert_eq!(rt; seen.status, Status::Done);
    let bytes = seen.sink.bytes();
    let first = is_both(bytes, EITHER[0], SHALLOW_CERTIFICATE);
    let second = is_both(bytes, EITHER[1], SHALLOW_CERTIFICATE);
    assert!(rt; first || second);
    Ok(())
}

// Inputs that aren't taken.
const REFUSED: [Row; 4] = [
    ("live 2 64 16 1", "", "refused line 1 missing\n"),
    ("live 2 64 16 1", "polygon 2\n", "refused line 1 count\n"),
    (
        "live 2 64 16 16",
        "polygon 3\nge -1 0 8\nge 0 -1 8\nge 1 0 8\nsession\nat 3\nat 3\nend\n",
        "refused line 7 order\n",
    ),
    (
        "live 2 64 16 1",
        "polygon 3\nge -1 0 8\nge 0 -1 8\nge 1 0 8\nend\n\n",
        "refused line 6 tail\n",
    ),
];

// The place of the first row whose run doesn't end with the status, or writes something else; none
// where all do.
fn first_other_top<R: Threads + Wait + Sync>(
    rt: &R,
    alloc: Global,
    rows: &[Row],
    status: Status,
) -> Result<Option<usize>, Fail> {
    for (i, (words, input, output)) in rows.iter().enumerate() {
        let seen = play_top(rt, alloc, words, &[input.as_bytes()])?;
        if !seen.ended_with(status, output.as_bytes()) {
            return Ok(Some(i));
        }
    }
    Ok(None)
}

#[test]
fn no_input_of_live(rt: HostRuntime) -> Result<(), Fail> {
    assert_eq!(rt;
        first_other_top(&rt, rt.alloc(), &REFUSED, Status::Refused)?,
        None
    );
    Ok(())
}

const UNKNOWN: [&str; 14] = [
    "live",
    "live 2 64 16",
    "live 2 64 16 0",
    "live 2 64 16 17",
    "live 2 64 16 01",
    "live 2 64 16 -1",
    "live 2 64 16 +1",
    "live 2 64 16 1 1",
    "live 02 64 16 1",
    "live 49 64 16 1",
    "live 2 0 16 1",
    "live 2 257 16384 1",
    "Live 2 64 16 1",
    "certify 2 64 16 1",
];

// The first of the words at which something was read or written, or that aren't refused.
fn first_known_top<R: Threads + Wait + Sync>(
    rt: &R,
    alloc: Global,
    forms: &[&str],
) -> Result<Option<usize>, Fail> {
    for (i, words) in forms.iter().enumerate() {
        let seen = play_top(rt, alloc, words, &[SPLIT.as_bytes()])?;
        let untouched = seen.sink.bytes().is_empty() && seen.source.rest() == SPLIT.as_bytes();
        if seen.status != Status::Usage || !untouched {
            return Ok(Some(i));
        }
    }
    Ok(None)
}

#[test]
fn words_that_are_no_live(rt: HostRuntime) -> Result<(), Fail> {
    assert_eq!(rt; first_known_top(&rt, rt.alloc(), &UNKNOWN)?, None);
    Ok(())
}

#[test]
fn other_commands(rt: HostRuntime) -> Result<(), Fail> {
    let seen = play_top(&rt, rt.alloc(), "certify 2 64 16", &[SPLIT.as_bytes()])?;
    assert_eq!(rt; seen.status, Status::Done);
    assert_eq!(rt; seen.sink.bytes(), SPLIT_CERTIFICATE.as_bytes());
    Ok(())
}

const PIECE: [u8; 4096] = [b'a'; 4096];

#[test]
fn long_source(rt: HostRuntime) -> Result<(), Fail> {
    let mut input = [PIECE.as_slice(); 257];
    input[256] = b"a";
    let seen = play_top(&rt, rt.alloc(), "live 2 64 16 3", &input)?;
    assert!(rt; seen.ended_with(Status::TooLong, b"refused long\n"));
    Ok(())
}

#[test]
fn failing_source(rt: HostRuntime) -> Result<(), Fail> {
    let input = [SPLIT.as_bytes()];
    let seen = failing_top(&rt, rt.alloc(), "live 2 64 16 1", &input, 0, NEVER)?;
    assert!(rt; seen.ended_with(Status::ReadFault, b""));
    Ok(())
}
