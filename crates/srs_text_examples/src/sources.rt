// The lines of a source, however it cuts its bytes.
use crate::texts::source_of;
use srs_text::{Fed, LineFeed, MemSource, ReadErr};
use std::alloc::Global;
use std::test::Fail;

// What a feed gave: the lengths of the lines, and that of the rest or why it failed.
type Given = (Vec<usize>, Result<usize, ReadErr>);

fn given(alloc: Global, source: &mut MemSource, limit: u64) -> Result<Given, Fail> {
    if limit > 65536 {
        Err("it is small")?;
    }
    let mut feed = LineFeed::new(alloc, limit)?;
    let mut lines = Vec::new(alloc);
    for _ in 0..1000u32 {
        match feed.next(source) {
            Ok(Fed::Line(line)) => lines.push(line.len())?,
            Ok(Fed::End(rest)) => return Ok((lines, Ok(rest.len()))),
            Err(error) => return Ok((lines, Err(error))),
        }
    }
    Err("it ends")?
}

// Whether the feed gives lines of these lengths, and such a rest.
fn gives(
    alloc: Global,
    text: &[u8],
    piece: u64,
    lines: &[usize],
    rest: Result<usize, ReadErr>,
) -> Result<bool, Fail> {
    let mut source = source_of(alloc, text, piece, -1)?;
    let (found, end) = given(alloc, &mut source, 65536)?;
    Ok(found.as_slice() == lines && end == rest)
}

#[test]
fn pieces_of_any_size(rt: HostRuntime) -> Result<(), Fail> {
    let alloc = rt.alloc();
    let text = b"ab\n\ncde\nf".as_slice();
    assert!(rt; gives(alloc, text, 1, &[2, 0, 3], Ok(1))?);
    assert!(rt; gives(alloc, text, 2, &[2, 0, 3], Ok(1))?);
    assert!(rt; gives(alloc, text, 100, &[2, 0, 3], Ok(1))?);
    Ok(())
}

#[test]
fn texts_with_no_line(rt: HostRuntime) -> Result<(), Fail> {
    let alloc = rt.alloc();
    assert!(rt; gives(alloc, b"", 1, &[], Ok(0))?);
    assert!(rt; gives(alloc, b"abc", 2, &[], Ok(3))?);
    assert!(rt; gives(alloc, b"\n", 2, &[0], Ok(0))?);
    Ok(())
}

// So many bytes `x`, and an LF.
fn long_line(alloc: Global, count: usize) -> Result<Vec<u8>, Fail> {
    let mut text = Vec::new(alloc);
    for _ in 0..count {
        text.push(b'x')?;
    }
    text.push(b'\n')?;
    Ok(text)
}

#[test]
fn lines_longer_than_the_buffer(rt: HostRuntime) -> Result<(), Fail> {
    let alloc = rt.alloc();
    let mut text = long_line(alloc, 10)?;
    text.extend_from_slice(long_line(alloc, 40000)?.as_slice())?;
    text.extend_from_slice(long_line(alloc, 16384)?.as_slice())?;
    assert!(rt; gives(alloc, text.as_slice(), 4096, &[10, 40000, 16384], Ok(0))?);
    assert!(rt; gives(alloc, text.as_slice(), 100000, &[10, 40000, 16384], Ok(0))?);
    Ok(())
}

// How many lines the feed gives within the limit, how it ends, and how many bytes it leaves.
fn within(
    alloc: Global,
    text: &[u8],
    piece: u64,
    limit: u64,
) -> Result<(usize, Result<usize, ReadErr>, usize), Fail> {
    let mut source = source_of(alloc, text, piece, -1)?;
    let (lines, end) = given(alloc, &mut source, limit)?;
    Ok((lines.len(), end, source.rest().len()))
}

#[test]
fn limits(rt: HostRuntime) -> Result<(), Fail> {
    let alloc = rt.alloc();
    assert!(rt; within(alloc, b"ab\ncd\n", 1, 6)? == (2, Ok(0), 0));
    assert!(rt; within(alloc, b"ab\ncd\n", 1, 5)? == (1, Err(ReadErr::TooLong), 0));
    // too long even where whole lines are held
    assert!(rt; within(alloc, b"ab\ncd\nef\n", 100, 5)? == (0, Err(ReadErr::TooLong), 3));
    assert!(rt; within(alloc, b"a", 1, 0)? == (0, Err(ReadErr::TooLong), 0));
    Ok(())
}

// What the first so many calls of a feed answer, where one read fails: 1 for a line, 2 for the end,
// 3 for a fault; and how many bytes are left.
fn answers(alloc: Global, text: &[u8], fail: i64) -> Result<([u8; 3], usize), Fail> {
    let mut source = source_of(alloc, text, 2, fail)?;
    let mut feed = LineFeed::new(alloc, 100)?;
    let mut kinds = [0u8; 3];
    for kind in kinds.iter_mut() {
        *kind = match feed.next(&mut source) {
            Ok(Fed::Line(_)) => 1,
            Ok(Fed::End(_)) => 2,
            Err(ReadErr::Fault) => 3,
            Err(ReadErr::TooLong) | Err(ReadErr::NoMemory) => 4,
        };
    }
    Ok((kinds, source.rest().len()))
}

#[test]
fn reads_that_fail(rt: HostRuntime) -> Result<(), Fail> {
    let alloc = rt.alloc();
    assert!(rt; answers(alloc, b"a\nb\nc\n", 1)? == ([1, 3, 3], 4));
    assert!(rt; answers(alloc, b"a\nb\nc\n", 0)? == ([3, 3, 3], 6));
    assert!(rt; answers(alloc, b"a\nb", -1)? == ([1, 2, 2], 0));
    Ok(())
}
