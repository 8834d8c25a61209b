// The fields of a line.
ghost use Rattle.std.specs.Prelude.{[], ◌≡◌};

use srs_line::{LineErr, Slip, Tokens, count_of, fields, has_word, numbers_of, one, six, three};
use srs_text::Nums;
use std::alloc::Global;
use std::test::Fail;

// Lines that should be `at` and a number.
const ONES: [(&[u8], Result<i64, Slip>); 6] = [
    (b"at 3", Ok(3)),
    (b"at -3", Ok(-3)),
    (b"at", Err(Slip::Word)),
    (b"at 3 3", Err(Slip::Word)),
    (b"in 3", Err(Slip::Word)),
    (b"at 03", Err(Slip::Number)),
];

fn first_other_one(rows: &[(&[u8], Result<i64, Slip>)]) -> Option<usize> {
    for (i, (line, wanted)) in rows.iter().enumerate() {
        if one(line, b"at") != *wanted {
            return Some(i);
        }
    }
    None
}

#[test]
fn a_word_and_a_number(rt: HostRuntime) {
    assert_eq!(rt; first_other_one(&ONES), None);
}

// Lines that should be `in` and a number from 1 to 16.
const COUNTS: [(&[u8], Result<u32, Slip>); 5] = [
    (b"in 1", Ok(1)),
    (b"in 16", Ok(16)),
    (b"in 17", Err(Slip::Count)),
    (b"in -1", Err(Slip::Count)),
    (b"in x", Err(Slip::Number)),
];

fn first_other_count(rows: &[(&[u8], Result<u32, Slip>)]) -> Option<usize> {
    for (i, (line, wanted)) in rows.iter().enumerate() {
        if count_of(line, b"in", 1, 16, Slip::Count) != *wanted {
            return Some(i);
        }
    }
    None
}

#[test]
fn a_word_and_a_count(rt: HostRuntime) {
    assert_eq!(rt; first_other_count(&COUNTS), None);
}

#[test]
fn a_word_and_more_numbers(rt: HostRuntime) {
    assert!(rt; three(b"cut 0 -1 2", b"cut") == Ok((0, -1, 2)));
    assert!(rt; three(b"cut 0 -1", b"cut") == Err(Slip::Word));
    assert!(rt; six(b"orbit 1 2 3 4 5 6", b"orbit") == Ok((1, 2, 3, 4, 5, 6)));
    assert!(rt; six(b"orbit 1 2 3 4 5  6", b"orbit") == Err(Slip::Word));
    let mut into = [7i64; 2];
    assert!(rt; fields(b"point 5 -6", b"point", &mut into).is_ok() && into == [5, -6]);
}

// The first number behind `out`, and how many more there are.
fn outside(alloc: Global, line: &[u8]) -> Result<(i64, u64), LineErr> {
    let mut more = Nums::new(alloc);
    let first = numbers_of(line, b"out", &mut more)?;
    Ok((first, more.len()))
}

#[test]
fn a_word_and_any_numbers(rt: HostRuntime) {
    let alloc = rt.alloc();
    assert!(rt; outside(alloc, b"out 2 0 1") == Ok((2, 2)));
    assert!(rt; outside(alloc, b"out 2") == Ok((2, 0)));
    assert!(rt; outside(alloc, b"out") == Err(LineErr::Slip(Slip::Word, 0)));
    assert!(rt; outside(alloc, b"out 2 x") == Err(LineErr::Slip(Slip::Number, 0)));
}

#[test]
fn first_words(rt: HostRuntime) {
    assert!(rt; has_word(b"left thin", b"left") && has_word(b"end", b"end"));
    assert!(rt; !has_word(b"left thin", b"lef") && !has_word(b" end", b"end"));
}

// Whether the tokens of the line are these.
fn has_tokens(line: &[u8], wanted: &[&[u8]]) -> bool {
    let mut left = Tokens::new(line);
    for token in wanted {
        if left.next() != Some(*token) {
            return false;
        }
    }
    left.next().is_none()
}

#[test]
fn tokens_of_lines(rt: HostRuntime) {
    assert!(rt; has_tokens(b"a  b", &[b"a", b"", b"b"]) && has_tokens(b"", &[b""]));
}

// Slips and their words.
const WORDS: [(Slip, &[u8]); 9] = [
    (Slip::Missing, b"missing"),
    (Slip::Word, b"word"),
    (Slip::Number, b"number"),
    (Slip::Version, b"version"),
    (Slip::Count, b"count"),
    (Slip::Range, b"range"),
    (Slip::Order, b"order"),
    (Slip::Turn, b"turn"),
    (Slip::Tail, b"tail"),
];

fn first_other_word(rows: &[(Slip, &[u8])]) -> Option<usize> {
    for (i, (slip, word)) in rows.iter().enumerate() {
        if slip.word() != *word {
            return Some(i);
        }
    }
    None
}

#[test]
fn words_of_slips(rt: HostRuntime) {
    assert_eq!(rt; first_other_word(&WORDS), None);
}
