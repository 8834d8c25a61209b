// Numbers and lines.
use srs_text::{Bytes, Lines, NoMemory, Nums, number, put_number};
use std::alloc::Global;
use std::test::Fail;

// Tokens and the numbers that they spell, where they spell one.
const NUMBERS: [(&[u8], Option<i64>); 15] = [
    (b"0", Some(0)),
    (b"7", Some(7)),
    (b"-1", Some(-1)),
    (b"9223372036854775807", Some(i64::MAX)),
    (b"-9223372036854775808", Some(i64::MIN)),
    (b"9223372036854775808", None),
    (b"-9223372036854775809", None),
    (b"-0", None),
    (b"+1", None),
    (b"01", None),
    (b"-", None),
    (b"", None),
    (b"1 ", None),
    (b"1e3", None),
    (b"\xff", None),
];

// The place of the first token that spells something else; none where each spells what its row says.
fn first_other(rows: &[(&[u8], Option<i64>)]) -> Option<usize> {
    for (i, (token, wanted)) in rows.iter().enumerate() {
        if number(token) != *wanted {
            return Some(i);
        }
    }
    None
}

#[test]
fn numbers_that_tokens_spell(rt: HostRuntime) {
    assert_eq!(rt; first_other(&NUMBERS), None);
}

// Numbers and how they are written.
const WRITTEN: [(i128, &[u8]); 4] = [
    (0, b"0"),
    (-12, b"-12"),
    (1 << 64, b"18446744073709551616"),
    (-(1 << 100), b"-1267650600228229401496703205376"),
];

fn is_written(alloc: Global, n: i128, wanted: &[u8]) -> Result<bool, NoMemory> {
    let mut out = Bytes::new(alloc);
    put_number(&mut out, n)?;
    Ok(out.as_slice() == wanted)
}

// The place of the first number that is written in another way; none where each is written so.
fn first_other_text(alloc: Global, rows: &[(i128, &[u8])]) -> Result<Option<usize>, NoMemory> {
    for (i, (n, wanted)) in rows.iter().enumerate() {
        if !is_written(alloc, *n, wanted)? {
            return Ok(Some(i));
        }
    }
    Ok(None)
}

#[test]
fn numbers_that_are_written(rt: HostRuntime) -> Result<(), Fail> {
    assert_eq!(rt; first_other_text(rt.alloc(), &WRITTEN)?, None);
    Ok(())
}

// Whether the lines of the text are these, with this rest.
fn has_lines(text: &[u8], wanted: &[&[u8]], rest: &[u8]) -> bool {
    let mut lines = Lines::new(text);
    for line in wanted {
        match lines.next() {
            Some(next) => {
                if next != *line {
                    return false;
                }
            }
            None => return false,
        }
    }
    lines.next().is_none() && lines.rest() == rest
}

#[test]
fn lines_of_texts(rt: HostRuntime) {
    assert!(rt; has_lines(b"one\n\nthree", &[b"one", b""], b"three"));
    assert!(rt; has_lines(b"one\n", &[b"one"], b"") && has_lines(b"", &[], b""));
}

#[test]
fn a_list_of_numbers(rt: HostRuntime) -> Result<(), Fail> {
    let mut list = Nums::new(rt.alloc());
    list.push(3)?;
    list.push(-5)?;
    assert!(rt; list.contains(3) && list.contains(-5) && !list.contains(0));
    assert_eq!(rt; list.as_slice(), [3, -5].as_slice());
    Ok(())
}
