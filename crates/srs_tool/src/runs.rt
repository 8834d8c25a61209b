// Runs of `plain` and `run` over memory, for the tests of the commands.
ghost use Rattle.std.specs.Prelude.{◌≤◌};

use crate::plain::plain;
use crate::run::run;
use crate::status::Status;
use srs_session::{FreeGate, Gate};
use srs_text::{Bytes, MemSink, MemSource, Nums};
use std::alloc::{AllocError, Global};
use std::sync::Wait;
use std::test::Fail;
use std::thread::Threads;

// The room of a sink, in bytes.
const ROOM: u64 = 1 << 26;

/// No read or write has this number.
pub(crate) const NEVER: i64 = -1;

/// Words, an input, and what is written.
pub(crate) type Row = (&'static str, &'static str, &'static str);

/// What came of a run: its status, what was written, and what was left unread.
#[derive(Drop)]
pub(crate) struct Seen {
    pub status: Status,
    pub sink: MemSink,
    pub source: MemSource,
}

impl Seen {
    /// Whether it ended with this status and wrote that.
    pub(crate) fn ended_with(&self, status: Status, output: &[u8]) -> bool {
        self.status == status && self.sink.bytes() == output
    }
}

/// The run on these words and this input, which comes in pieces, in which one read and one write fail.
pub(crate) fn failing(
    alloc: Global,
    words: &str,
    input: &[&[u8]],
    read: i64,
    write: i64,
) -> Result<Seen, Fail> {
    plain_run(alloc, words, ends_of(alloc, input, u64::MAX, read, write)?)
}

/// The same, where a read and a write take one byte.
pub(crate) fn failing_by_bytes(
    alloc: Global,
    words: &str,
    input: &[u8],
    read: i64,
    write: i64,
) -> Result<Seen, Fail> {
    plain_run(alloc, words, ends_of(alloc, &[input], 1, read, write)?)
}

fn plain_run(alloc: Global, words: &str, ends: (MemSource, MemSink)) -> Result<Seen, Fail> {
    let words = words_of(alloc, words)?;
    let (mut source, mut sink) = ends;
    let status = plain(alloc, words.as_slice(), &mut source, &mut sink);
    Ok(Seen {
        status,
        sink,
        source,
    })
}

/// The run on these words and this input, which comes in pieces.
pub(crate) fn play(alloc: Global, words: &str, input: &[&[u8]]) -> Result<Seen, Fail> {
    failing(alloc, words, input, NEVER, NEVER)
}

/// The same by the top call, which may start threads.
pub(crate) fn failing_top<R: Threads + Wait + Sync>(
    rt: &R,
    alloc: Global,
    words: &str,
    input: &[&[u8]],
    read: i64,
    write: i64,
) -> Result<Seen, Fail> {
    on_gate(
        rt,
        alloc,
        words,
        ends_of(alloc, input, u64::MAX, read, write)?,
        &FreeGate,
    )
}

/// The run of the top call on these words and this input, which comes in pieces.
pub(crate) fn play_top<R: Threads + Wait + Sync>(
    rt: &R,
    alloc: Global,
    words: &str,
    input: &[&[u8]],
) -> Result<Seen, Fail> {
    gated_top(rt, alloc, words, input, &FreeGate)
}

/// The same, where workers and sessions go through the gate.
pub(crate) fn gated_top<R: Threads + Wait + Sync, G: Gate>(
    rt: &R,
    alloc: Global,
    words: &str,
    input: &[&[u8]],
    gate: &G,
) -> Result<Seen, Fail> {
    on_gate(
        rt,
        alloc,
        words,
        ends_of(alloc, input, u64::MAX, NEVER, NEVER)?,
        gate,
    )
}

fn on_gate<R: Threads + Wait + Sync, G: Gate>(
    rt: &R,
    alloc: Global,
    words: &str,
    ends: (MemSource, MemSink),
    gate: &G,
) -> Result<Seen, Fail> {
    let words = words_of(alloc, words)?;
    let (mut source, mut sink) = ends;
    let status = run(rt, alloc, words.as_slice(), &mut source, &mut sink, gate);
    Ok(Seen {
        status,
        sink,
        source,
    })
}

// A source with this input, one read of which fails, and a sink, one write to which fails; each takes
// so many bytes at most, which are at least 1.
fn ends_of(
    alloc: Global,
    input: &[&[u8]],
    most: u64,
    read: i64,
    write: i64,
) -> Result<(MemSource, MemSink), Fail>
    requires { 1 ≤ most }
{
    let sink = MemSink::cut(alloc, ROOM, only(alloc, write)?, most)?;
    let text = joined(alloc, input)?;
    Ok((MemSource::cut(text, only(alloc, read)?, most), sink))
}

// The pieces one behind the other.
fn joined(alloc: Global, pieces: &[&[u8]]) -> Result<Bytes, Fail> {
    let mut text = Bytes::new(alloc);
    for piece in pieces {
        text.extend(piece)?;
    }
    Ok(text)
}

// The list of this number alone.
fn only(alloc: Global, number: i64) -> Result<Nums, Fail> {
    let mut numbers = Nums::new(alloc);
    numbers.push(number)?;
    Ok(numbers)
}

fn words_of(alloc: Global, line: &str) -> Result<Vec<String>, AllocError> {
    let mut words = Vec::new(alloc);
    if !line.is_empty() {
        for word in line.split(' ') {
            words.push(String::from_str(alloc, word)?)?;
        }
    }
    Ok(words)
}

/// The place of the first row whose run doesn't end with the status, or writes something else; none
/// where all do.
pub(crate) fn first_other(
    alloc: Global,
    rows: &[Row],
    status: Status,
) -> Result<Option<usize>, Fail> {
    for (i, (words, input, output)) in rows.iter().enumerate() {
        let seen = play(alloc, words, &[input.as_bytes()])?;
        if !seen.ended_with(status, output.as_bytes()) {
            return Ok(Some(i));
        }
    }
    Ok(None)
}

/// The same for runs on the same words, where each input is the head and what the row has behind it.
pub(crate) fn first_other_of(
    alloc: Global,
    words: &str,
    head: &str,
    rows: &[(&str, &str)],
    status: Status,
) -> Result<Option<usize>, Fail> {
    for (i, (more, output)) in rows.iter().enumerate() {
        let seen = play(alloc, words, &[head.as_bytes(), more.as_bytes()])?;
        if !seen.ended_with(status, output.as_bytes()) {
            return Ok(Some(i));
        }
    }
    Ok(None)
}

/// The same for runs of the top call.
pub(crate) fn first_other_top_of<R: Threads + Wait + Sync>(
    rt: &R,
    alloc: Global,
    words: &str,
    head: &str,
    rows: &[(&str, &str)],
    status: Status,
) -> Result<Option<usize>, Fail> {
    for (i, (more, output)) in rows.iter().enumerate() {
        let seen = play_top(rt, alloc, words, &[head.as_bytes(), more.as_bytes()])?;
        if !seen.ended_with(status, output.as_bytes()) {
            return Ok(Some(i));
        }
    }
    Ok(None)
}
