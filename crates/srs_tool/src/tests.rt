// Runs over memory that aren't of one command: words in no form, ends that fail, a source that is
// too long, and the standard streams.
use crate::plain::plain;
use crate::runs::{NEVER, failing, failing_by_bytes, play};
use crate::status::Status;
use srs_text::{StdSink, StdSource, write_all};
use std::alloc::Global;
use std::test::Fail;

const CYCLE_ONE: &[u8] = b"polygon 3\nge -2 -1 4\nge -1 -2 4\nge -1 -1 4\nend\n";

// Words in no form, and those of `live`, which `plain` does not know.
const UNKNOWN: [&str; 42] = [
    "certify 0 1 0",
    "certify 0 1 16385",
    "certify 0 1 016",
    "certify 49 1 1",
    "certify -1 1 1",
    "certify 0 0 16",
    "certify 0 65537 1",
    "certify 0 257 16384",
    "certify 0 1",
    "certify 0 1 16 1",
    "certify",
    "Certify 0 1 16",
    "check 1",
    "Check",
    "map",
    "map 4",
    "map 0 4",
    "map 4 0",
    "map 201 4",
    "map 4 201",
    "map 04 4",
    "map 4 4 4",
    "map -4 4",
    "Map 4 4",
    "ask 1",
    "Ask",
    "ask map 4 4",
    "live 0 1 16 1",
    "make",
    "make 1",
    "make 1 2 3",
    "make 2147483648 0",
    "make 0 10001",
    "make -1 0",
    "make 01 0",
    "Make 0 0",
    "bench",
    "bench 2147483648 0",
    "bench 0 10001",
    "bench 0 00",
    "",
    "--help",
];

// The first of the words at which something was read or written, or that aren't refused.
fn first_known(alloc: Global, forms: &[&str]) -> Result<Option<usize>, Fail> {
    for (i, words) in forms.iter().enumerate() {
        let seen = play(alloc, words, &[CYCLE_ONE])?;
        let untouched = seen.sink.bytes().is_empty() && seen.source.rest() == CYCLE_ONE;
        if seen.status != Status::Usage || !untouched {
            return Ok(Some(i));
        }
    }
    Ok(None)
}

#[test]
fn unknown_words(rt: HostRuntime) -> Result<(), Fail> {
    assert_eq!(rt; first_known(rt.alloc(), &UNKNOWN)?, None);
    Ok(())
}

#[test]
fn failing_ends(rt: HostRuntime) -> Result<(), Fail> {
    for (read, write, status) in [
        (0, NEVER, Status::ReadFault),
        (NEVER, 0, Status::WriteFault),
    ] {
        let seen = failing(rt.alloc(), "certify 0 1 16", &[CYCLE_ONE], read, write)?;
        assert!(rt; seen.ended_with(status, b""));
    }
    Ok(())
}

// Runs whose ends take a byte at a time: the words, the input, and what is written.
const BY_BYTES: [(&str, &str, &str); 2] = [
    (
        "certify 0 1 16",
        "polygon 3\nge -2 -1 4\nge -1 -2 4\nge -1 -1 4\nend\n",
        "srs 1\npolygon 3\nge -2 -1 4\nge -1 -2 4\nge -1 -1 4\nlimits 0 1 16\nout 1 1\nend\n",
    ),
    (
        "certify 2 64 16",
        "polygon 3\nge -1 0 8\nge 0 -1 8\nge 1 0 8\nend\n",
        "srs 1\npolygon 3\nge -1 0 8\nge 0 -1 8\nge 1 0 8\nlimits 2 64 16\ncut 0 1 0\ncut 1 0 0\nin 5\nw -1 0 3\nw 0 -1 4\nw 0 0 0\nw 0 1 2\nw 1 0 1\nout 2 0 1\ncut 1 1 0\nin 9\nw -1 -1 5\nw -1 0 4\nw -1 1 3\nw 0 -1 5\nw 0 0 0\nw 0 1 3\nw 1 -1 5\nw 1 0 1\nw 1 1 2\nout 1 1\nend\n",
    ),
];

// The first read whose failure isn't told, or after which something was written; none where each is
// told. The last read finds the end.
fn first_read_untold(alloc: Global, words: &str, input: &[u8]) -> Result<Option<usize>, Fail> {
    for number in 0..input.len() + 1 {
        let seen = failing_by_bytes(alloc, words, input, number as i64, NEVER)?;
        if seen.status != Status::ReadFault || !seen.sink.bytes().is_empty() {
            return Ok(Some(number));
        }
    }
    Ok(None)
}

// The first write whose failure isn't told, or before which another front of the text was written;
// none where each is told.
fn first_write_untold(
    alloc: Global,
    words: &str,
    input: &[u8],
    text: &[u8],
) -> Result<Option<usize>, Fail> {
    for number in 0..text.len() {
        let seen = failing_by_bytes(alloc, words, input, NEVER, number as i64)?;
        if seen.status != Status::WriteFault || seen.sink.bytes() != &text[..number] {
            return Ok(Some(number));
        }
    }
    Ok(None)
}

// Whether the text is written where no read and no write fails.
fn is_whole(alloc: Global, words: &str, input: &[u8], text: &[u8]) -> Result<bool, Fail> {
    let seen = failing_by_bytes(alloc, words, input, NEVER, NEVER)?;
    Ok(seen.ended_with(Status::Done, text))
}

#[test]
fn each_read_and_write_fails(rt: HostRuntime) -> Result<(), Fail> {
    let alloc = rt.alloc();
    for (words, input, text) in &BY_BYTES {
        let (input, text) = (input.as_bytes(), text.as_bytes());
        assert_eq!(rt; first_read_untold(alloc, words, input)?, None);
        assert_eq!(rt; first_write_untold(alloc, words, input, text)?, None);
        assert!(rt; is_whole(alloc, words, input, text)?);
    }
    Ok(())
}

const PIECE: [u8; 4096] = [b'a'; 4096];

#[test]
fn long_source(rt: HostRuntime) -> Result<(), Fail> {
    let mut input = [PIECE.as_slice(); 257];
    input[256] = b"a";
    let seen = play(rt.alloc(), "certify 0 1 16", &input)?;
    assert!(rt; seen.ended_with(Status::TooLong, b"refused long\n"));
    assert!(rt; seen.source.rest().is_empty());
    Ok(())
}

// The adapters over standard input, which is empty here, and standard output.
#[test]
fn standard_streams(rt: HostRuntime) -> Result<(), Fail> {
    let alloc = rt.alloc();
    let mut words = Vec::new(alloc);
    for word in ["certify", "0", "1", "16"] {
        words.push(String::from_str(alloc, word)?)?;
    }
    let mut source = StdSource::new(rt.stdin());
    let mut sink = StdSink::new(rt.stdout());
    let status = plain(alloc, words.as_slice(), &mut source, &mut sink);
    assert_eq!(rt; status, Status::Refused);
    assert!(rt; write_all(&mut sink, b"standard output\n").is_ok());
    Ok(())
}
