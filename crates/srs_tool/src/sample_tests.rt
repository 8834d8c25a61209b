// Runs of `make` and `bench` over memory.
use crate::runs::play;
use crate::status::Status;
use srs_text::Bytes;
use std::alloc::Global;
use std::test::Fail;

// What stands in the source, which is left there.
const UNREAD: &[u8] = b"polygon 3\n";

const TRIANGLE: &[u8] = b"polygon 3\nge -1 0 1\nge 1 -2 1\ngt 1 2 1\n";

// Inputs for the ends of the seeds, with no point, with one, and with an even and an odd number of
// them.
const MADE: [(&str, &str); 4] = [
    (
        "make 1 2",
        "polygon 3\nge -1 0 1\nge 1 -2 1\ngt 1 2 1\nsession\nat 0\npoint 36 83 64\nsession\nat 3\npoint 16 9 64\nend\n",
    ),
    (
        "make 2147483647 0",
        "polygon 3\ngt -1 0 1\ngt 1 -2 1\nge 1 2 1\nsession\nat 0\nsession\nat 3\nend\n",
    ),
    (
        "make 0 1",
        "polygon 3\nge -1 0 1\nge 1 -2 1\nge 1 2 1\nsession\nat 0\npoint -6 29 64\nsession\nat 3\nend\n",
    ),
    (
        "make 2147483647 3",
        "polygon 3\ngt -1 0 1\ngt 1 -2 1\nge 1 2 1\nsession\nat 0\npoint -49 104 64\npoint 40 -43 64\nsession\nat 3\npoint 7 -63 64\nend\n",
    ),
];

const BENCHED: &str =
    "bench 1 20\ncells 855 in 17 out 33 cut 427 left 378\npoints in 4 out 2 open 8 beyond 6\n";

// The place of the first row at which something else is written, or something is read; none where
// there is no such row.
fn first_other_made(alloc: Global) -> Result<Option<usize>, Fail> {
    for (i, (words, output)) in MADE.iter().enumerate() {
        let seen = play(alloc, words, &[UNREAD])?;
        let unread = seen.source.rest() == UNREAD;
        if seen.status != Status::Done || seen.sink.bytes() != output.as_bytes() || !unread {
            return Ok(Some(i));
        }
    }
    Ok(None)
}

#[test]
fn made_input(rt: HostRuntime) -> Result<(), Fail> {
    assert_eq!(rt; first_other_made(rt.alloc())?, None);
    Ok(())
}

#[test]
fn most_points(rt: HostRuntime) -> Result<(), Fail> {
    let seen = play(rt.alloc(), "make 0 10000", &[])?;
    assert_eq!(rt; seen.status, Status::Done);
    Ok(())
}

// Whether it is benched so over this source, which is left as it is.
fn is_benched(alloc: Global, source: &[u8]) -> Result<bool, Fail> {
    let seen = play(alloc, "bench 1 20", &[source])?;
    Ok(seen.ended_with(Status::Done, BENCHED.as_bytes()) && seen.source.rest() == source)
}

#[test]
fn benched_twice(rt: HostRuntime) -> Result<(), Fail> {
    for source in [UNREAD, b""] {
        assert!(rt; is_benched(rt.alloc(), source)?);
    }
    Ok(())
}

// The lines of the text that ask at a point.
fn questions_of(alloc: Global, text: &[u8]) -> Result<Bytes, Fail> {
    let mut questions = Bytes::new(alloc);
    for line in text.split(|byte| *byte == b'\n') {
        if line.starts_with(b"point ") {
            questions.extend(line)?;
            questions.extend(b"\n")?;
        }
    }
    Ok(questions)
}

// How many lines have this word behind the three numbers of a point.
fn lines_with(text: &[u8], word: &[u8]) -> usize {
    text.split(|byte| *byte == b'\n')
        .filter(|line| line.split(|byte| *byte == b' ').nth(4) == Some(word))
        .count()
}

const CHECKED: &[u8] = b"valid cells 855 in 17 out 33 cut 427 left 378\n";

// The words of answers, and how many points have each.
const COUNTS: [(&str, usize); 4] = [("in", 4), ("out", 2), ("open", 8), ("beyond", 6)];

// Whether so many points have these answers.
fn has_counts(said: &[u8]) -> bool {
    for (word, count) in &COUNTS {
        if lines_with(said, word.as_bytes()) != *count {
            return false;
        }
    }
    true
}

// The questions that are made.
fn made_questions(alloc: Global) -> Result<Bytes, Fail> {
    let made = play(alloc, "make 1 20", &[])?;
    questions_of(alloc, made.sink.bytes())
}

// Whether `check` counts the nodes of the certificate so.
fn is_checked(alloc: Global, certificate: &[u8]) -> Result<bool, Fail> {
    let checked = play(alloc, "check", &[certificate])?;
    Ok(checked.sink.bytes() == CHECKED)
}

// Whether `ask` answers the questions that are made so.
fn is_asked(alloc: Global, certificate: &[u8]) -> Result<bool, Fail> {
    let questions = made_questions(alloc)?;
    let asked = play(alloc, "ask", &[certificate, questions.as_slice(), b"end\n"])?;
    Ok(has_counts(asked.sink.bytes()))
}

// `certify`, `check` and `ask` count the same nodes and answers.
#[test]
fn benched_by_others(rt: HostRuntime) -> Result<(), Fail> {
    let certified = play(rt.alloc(), "certify 10 1024 256", &[TRIANGLE, b"end\n"])?;
    let certificate = certified.sink.bytes();
    assert!(rt; is_checked(rt.alloc(), certificate)? && is_asked(rt.alloc(), certificate)?);
    Ok(())
}
