// Whole texts in and out, over ends in memory.
use srs_text::{Bytes, MemSink, MemSource, Nums, ReadErr, read_all, write_all};
use std::alloc::Global;
use std::test::Fail;

// A source of these bytes, of which one read fails.
fn source_of(alloc: Global, bytes: &[u8], fail: i64) -> Result<MemSource, Fail> {
    let mut text = Bytes::new(alloc);
    text.extend(bytes)?;
    let mut reads = Nums::new(alloc);
    reads.push(fail)?;
    Ok(MemSource::new(text, reads))
}

// How many bytes were read, or why none were; and how many are left.
fn read(
    alloc: Global,
    bytes: &[u8],
    fail: i64,
    limit: u64,
) -> Result<(Result<u64, ReadErr>, usize), Fail> {
    if limit > 1000 {
        Err("it is small")?;
    }
    let mut source = source_of(alloc, bytes, fail)?;
    let read = match read_all(alloc, &mut source, limit) {
        Ok(text) => Ok(text.len()),
        Err(error) => Err(error),
    };
    Ok((read, source.rest().len()))
}

#[test]
fn texts_that_are_read(rt: HostRuntime) -> Result<(), Fail> {
    let alloc = rt.alloc();
    assert!(rt; read(alloc, b"abcde", -1, 5)? == (Ok(5), 0));
    assert!(rt; read(alloc, b"abcde", -1, 3)? == (Err(ReadErr::TooLong), 1));
    assert!(rt; read(alloc, b"abcde", 0, 5)? == (Err(ReadErr::Fault), 5));
    // the second read is the one that finds the end
    assert!(rt; read(alloc, b"abcde", 1, 5)? == (Err(ReadErr::Fault), 0));
    assert!(rt; read(alloc, b"", -1, 0)? == (Ok(0), 0));
    Ok(())
}

// Whether the text is taken by a sink of this room, and how much of it is.
fn written(alloc: Global, text: &[u8], room: u64) -> Result<(bool, usize), Fail> {
    let mut sink = MemSink::new(alloc, room, Nums::new(alloc))?;
    let all = write_all(&mut sink, text).is_ok();
    if !text.starts_with(sink.bytes()) {
        Err("it is a front")?;
    }
    Ok((all, sink.bytes().len()))
}

#[test]
fn texts_that_are_written(rt: HostRuntime) -> Result<(), Fail> {
    let alloc = rt.alloc();
    assert_eq!(rt; written(alloc, b"abcde", 5)?, (true, 5));
    assert_eq!(rt; written(alloc, b"abcde", 3)?, (false, 3));
    Ok(())
}
