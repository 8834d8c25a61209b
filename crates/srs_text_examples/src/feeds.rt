// Certificates that are fed their lines: what is told of them.
use crate::texts::{SPLIT, changed, source_of};
use srs_file::{CertFeed, FileErr, Slip};
use srs_text::{Fed, LineFeed};
use std::alloc::Global;
use std::test::Fail;

// The lines and depths of the nodes that were told, and how it ended.
type Told = (Vec<(u32, u32)>, Result<(), FileErr>);

fn told(alloc: Global, text: &str, piece: u64) -> Result<Told, Fail> {
    let mut source = source_of(alloc, text.as_bytes(), piece, -1)?;
    let mut lines = LineFeed::new(alloc, 65536)?;
    let mut feed = CertFeed::new(alloc)?;
    let mut nodes = Vec::new(alloc);
    for _ in 0..1000u32 {
        match lines.next(&mut source) {
            Ok(Fed::Line(line)) => match feed.line(line) {
                Ok(Some(node)) => nodes.push((node.line, node.depth))?,
                Ok(None) => {}
                Err(error) => return Ok((nodes, Err(error))),
            },
            Ok(Fed::End(rest)) => {
                let end = feed.end(rest);
                return Ok((nodes, end));
            }
            Err(_) => Err("it is read")?,
        }
    }
    Err("it ends")?
}

// Each node where it begins, and how deep it is.
const NODES: [(u32, u32); 7] = [(7, 0), (8, 1), (9, 2), (15, 2), (16, 1), (17, 2), (27, 2)];

#[test]
fn nodes_of_a_certificate(rt: HostRuntime) -> Result<(), Fail> {
    let alloc = rt.alloc();
    let text = changed(alloc, &SPLIT, &[])?;
    let (nodes, end) = told(alloc, &text, 1)?;
    assert!(rt; nodes.as_slice() == NODES.as_slice() && end == Ok(()));
    let (nodes, end) = told(alloc, &text, 100000)?;
    assert!(rt; nodes.as_slice() == NODES.as_slice() && end == Ok(()));
    Ok(())
}

// What stands in place of which lines, the line and the slip that answer it, and how many nodes
// were told before.
type Row = (&'static [(usize, &'static str)], u32, Slip, usize);

const BROKEN_TEXTS: [Row; 9] = [
    (&[(28, "")], 28, Slip::Missing, 7),
    (&[(28, "end")], 28, Slip::Missing, 7),
    (&[(28, "end\nx\n")], 29, Slip::Tail, 7),
    (&[(28, "end\nx")], 29, Slip::Tail, 7),
    (&[(1, "srs 9\n")], 1, Slip::Version, 0),
    (&[(5, "ge 1 -2 8\n")], 3, Slip::Turn, 0),
    (&[(11, "w -1 0 3\n")], 11, Slip::Order, 2),
    (&[(27, "out 2 1\n")], 27, Slip::Count, 6),
    (&[(6, "limits 1 64 16\n")], 8, Slip::Range, 1),
];

fn first_wrong(alloc: Global, rows: &[Row]) -> Result<Option<usize>, Fail> {
    for (i, row) in rows.iter().enumerate() {
        let text = changed(alloc, &SPLIT, row.0)?;
        let (nodes, end) = told(alloc, &text, 3)?;
        if nodes.len() != row.3 || end != Err(FileErr::At(row.1, row.2)) {
            return Ok(Some(i));
        }
    }
    Ok(None)
}

#[test]
fn broken_certificates(rt: HostRuntime) -> Result<(), Fail> {
    assert_eq!(rt; first_wrong(rt.alloc(), &BROKEN_TEXTS)?, None);
    Ok(())
}

// How many vertices a feed shows, and whether it shows limits, after so many lines of the text; and
// what it answers to one more.
fn shown(
    alloc: Global,
    text: &str,
    count: usize,
) -> Result<((usize, bool), Option<FileErr>, (usize, bool)), Fail> {
    let mut source = source_of(alloc, text.as_bytes(), 5, -1)?;
    let mut lines = LineFeed::new(alloc, 65536)?;
    let mut feed = CertFeed::new(alloc)?;
    for _ in 0..count {
        if let Ok(Fed::Line(line)) = lines.next(&mut source) {
            let _ = feed.line(line);
        }
    }
    let before = (feed.vertices().len(), feed.limits().is_some());
    let mut answer = None;
    if let Ok(Fed::Line(line)) = lines.next(&mut source) {
        answer = feed.line(line).err();
    }
    Ok((
        before,
        answer,
        (feed.vertices().len(), feed.limits().is_some()),
    ))
}

#[test]
fn parts_that_are_shown(rt: HostRuntime) -> Result<(), Fail> {
    let alloc = rt.alloc();
    let text = changed(alloc, &SPLIT, &[])?;
    assert!(rt; shown(alloc, &text, 0)? == ((0, false), None, (0, false)));
    assert!(rt; shown(alloc, &text, 2)? == ((0, false), None, (1, false)));
    assert!(rt; shown(alloc, &text, 4)? == ((2, false), None, (3, false)));
    assert!(rt; shown(alloc, &text, 5)? == ((3, false), None, (3, true)));
    Ok(())
}

#[test]
fn refused_lines(rt: HostRuntime) -> Result<(), Fail> {
    let alloc = rt.alloc();
    // the last vertex turns the wrong way, and is not shown; the next line is answered alike
    let turn = Some(FileErr::At(3, Slip::Turn));
    let text = changed(alloc, &SPLIT, &[(5, "ge 1 -2 8\n")])?;
    assert!(rt; shown(alloc, &text, 4)? == ((2, false), turn, (2, false)));
    assert!(rt; shown(alloc, &text, 5)? == ((2, false), turn, (2, false)));
    let range = Some(FileErr::At(6, Slip::Range));
    let text = changed(alloc, &SPLIT, &[(6, "limits 49 64 16\n")])?;
    assert!(rt; shown(alloc, &text, 5)? == ((3, false), range, (3, false)));
    assert!(rt; shown(alloc, &text, 6)? == ((3, false), range, (3, false)));
    Ok(())
}
