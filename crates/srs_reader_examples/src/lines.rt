// Lines of texts, and readers that take them.
use srs_line::LineMachine;
use std::alloc::{AllocError, Global};

// The vertices of a triangle, and the same with the second one clockwise.
pub const VERTICES: [&str; 3] = ["ge -1 0 8", "gt 0 -1 8", "ge 1 0 8"];

pub const CLOCKWISE: [&str; 3] = ["ge -1 0 8", "ge 1 0 8", "ge 0 -1 8"];

pub const POLYGON: [&str; 5] = ["polygon 3", "ge -1 0 8", "ge 0 -1 8", "ge 1 0 8", "end"];

// The nodes of the tree of this polygon, with the witnesses of its two inside leaves.
pub const NODES: [&str; 21] = [
    "cut 0 1 0",
    "cut 1 0 0",
    "in 5",
    "w -1 0 3",
    "w 0 -1 4",
    "w 0 0 0",
    "w 0 1 2",
    "w 1 0 1",
    "out 2 0 1",
    "cut 1 1 0",
    "in 9",
    "w -1 -1 5",
    "w -1 0 4",
    "w -1 1 3",
    "w 0 -1 5",
    "w 0 0 0",
    "w 0 1 3",
    "w 1 -1 5",
    "w 1 0 1",
    "w 1 1 2",
    "out 1 1",
];

pub const QUESTIONS: [&str; 6] = [
    "point 1 -1 16",
    "region 3",
    "ge -1 0 8",
    "gt 0 -1 8",
    "ge 1 0 8",
    "orbit 1 -1 4 1 1 100",
];

// The lines, each with its LF.
pub fn text_of(alloc: Global, lines: &[&[&str]]) -> Result<String, AllocError> {
    let mut text = String::new(alloc);
    for part in lines {
        for line in *part {
            text.push_str(line)?;
            text.push_str("\n")?;
        }
    }
    Ok(text)
}

// The text of the certificate.
pub fn certificate_text(alloc: Global) -> Result<String, AllocError> {
    let [first, a, b, c, end] = POLYGON;
    text_of(
        alloc,
        &[&["srs 1", first, a, b, c, "limits 2 64 16"], &NODES, &[end]],
    )
}

// Whether the reader takes all the lines, and the text may end then.
pub fn takes_all<M: LineMachine>(reader: &mut M, lines: &[&str]) -> bool {
    for line in lines {
        if reader.is_done() || reader.take(line.as_bytes()).is_err() {
            return false;
        }
    }
    reader.is_done()
}
