// Texts with some of their lines changed, sources of texts, and what a reader says of them.
use srs_file::{FileErr, Slip, read_cert};
use srs_text::{Bytes, MemSource, Nums};
use std::alloc::{AllocError, Global};
use std::test::Fail;

// The certificate of the triangle with a corner at the origin: one inside leaf.
pub const CORNER: [&str; 17] = [
    "srs 1",
    "polygon 3",
    "ge 0 0 1",
    "ge 1 0 8",
    "ge 0 1 8",
    "limits 0 1 16",
    "in 9",
    "w -1 -1 4",
    "w -1 0 3",
    "w -1 1 3",
    "w 0 -1 4",
    "w 0 0 0",
    "w 0 1 2",
    "w 1 -1 4",
    "w 1 0 1",
    "w 1 1 2",
    "end",
];

// The certificate of the triangle on which the cycle 1 holds: one outside leaf.
pub const CYCLE: [&str; 8] = [
    "srs 1",
    "polygon 3",
    "ge -2 -1 4",
    "ge -1 -2 4",
    "ge -1 -1 4",
    "limits 0 1 16",
    "out 1 1",
    "end",
];

// The certificate of the triangle round the segment from (-1/8,0) to (1/8,0): three cuts and four leaves.
pub const SPLIT: [&str; 28] = [
    "srs 1",
    "polygon 3",
    "ge -1 0 8",
    "ge 0 -1 8",
    "ge 1 0 8",
    "limits 2 64 16",
    "cut 0 1 0",
    "cut 1 0 0",
    "in 5",
    "w -1 0 3",
    "w 0 -1 4",
    "w 0 0 0",
    "w 0 1 2",
    "w 1 0 1",
    "out 2 0 1",
    "cut 1 1 0",
    "in 9",
    "w -1 -1 5",
    "w -1 0 4",
    "w -1 1 3",
    "w 0 -1 5",
    "w 0 0 0",
    "w 0 1 3",
    "w 1 -1 5",
    "w 1 0 1",
    "w 1 1 2",
    "out 1 1",
    "end",
];

// The lines, each with its LF; the edits say what stands in place of a line, counted from 1, and its LF.
pub fn changed(
    alloc: Global,
    lines: &[&str],
    edits: &[(usize, &str)],
) -> Result<String, AllocError> {
    let mut text = String::new(alloc);
    for (i, line) in lines.iter().enumerate() {
        match edit_of(edits, i) {
            Some(edit) => text.push_str(edit)?,
            None => {
                text.push_str(line)?;
                text.push_str("\n")?;
            }
        }
    }
    Ok(text)
}

// What stands in place of the line, counted from 0.
fn edit_of<'a>(edits: &[(usize, &'a str)], i: usize) -> Option<&'a str> {
    for (line, edit) in edits {
        if *line > i && *line - i == 1 {
            return Some(edit);
        }
    }
    None
}

// A source of these bytes, at most so many a read, of which one read fails.
pub fn source_of(alloc: Global, bytes: &[u8], piece: u64, fail: i64) -> Result<MemSource, Fail> {
    if piece == 0 {
        Err("a read takes some")?;
    }
    let mut text = Bytes::new(alloc);
    text.extend(bytes)?;
    let mut reads = Nums::new(alloc);
    reads.push(fail)?;
    Ok(MemSource::cut(text, reads, piece))
}

// What stands in place of which lines, and the line and the slip that answer it.
pub type Row = (&'static [(usize, &'static str)], u32, Slip);

// The first of the rows that is answered otherwise, counted from 0; none where all are answered as they say.
pub fn first_wrong(alloc: Global, lines: &[&str], rows: &[Row]) -> Result<Option<usize>, Fail> {
    for (i, row) in rows.iter().enumerate() {
        let text = changed(alloc, lines, row.0)?;
        if !is_answer(slip_of(alloc, &text)?, row.1, row.2) {
            return Ok(Some(i));
        }
    }
    Ok(None)
}

fn is_answer(found: Option<(u32, Slip)>, line: u32, slip: Slip) -> bool {
    match found {
        Some((at, kind)) => at == line && kind == slip,
        None => false,
    }
}

// The first slip of the text as a certificate, and its line; none where it is one.
pub fn slip_of(alloc: Global, text: &str) -> Result<Option<(u32, Slip)>, Fail> {
    if text.len() > 65536 {
        Err("it is short")?;
    }
    match read_cert(alloc, text.as_bytes()) {
        Ok(_) => Ok(None),
        Err(FileErr::At(line, slip)) => Ok(Some((line, slip))),
        Err(FileErr::NoMemory) => Err("there is memory")?,
    }
}
