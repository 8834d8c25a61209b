// The input of a live run, and its text.
use crate::lines::{POLYGON, certificate_text, text_of};
use crate::makings::has_read;
use srs_cell::Cell;
use srs_file::{FileErr, Slip, read_live};
use srs_print::put_live;
use srs_text::Bytes;
use srs_tree::{Run, Said, Transcript, Transcripts, Version};
use std::alloc::Global;
use std::test::Fail;

// How many vertices and sessions the input has, and its cell; or its first slip.
pub fn live_of(alloc: Global, text: &str) -> Result<Result<(u64, u64, Cell), FileErr>, Fail> {
    if text.len() > 65536 {
        Err("it is short")?;
    }
    match read_live(alloc, text.as_bytes()) {
        Ok((vertices, cell, script)) => Ok(Ok((vertices.len(), script.len(), cell))),
        Err(refused) => Ok(Err(refused)),
    }
}

// The first slip of the input.
fn slip_of(alloc: Global, lines: &[&[&str]]) -> Result<Option<FileErr>, Fail> {
    match live_of(alloc, &text_of(alloc, lines)?)? {
        Ok(_) => Ok(None),
        Err(refused) => Ok(Some(refused)),
    }
}

#[test]
fn inputs_of_a_live_run(rt: HostRuntime) -> Result<(), Fail> {
    let alloc = rt.alloc();
    let [first, a, b, c, end] = POLYGON;
    assert_eq!(rt; slip_of(alloc, &[&POLYGON])?, None);
    assert_eq!(rt;
        slip_of(alloc, &[&[first, a, b, c, "session 1"], &[end]])?,
        Some(FileErr::At(5, Slip::Word))
    );
    assert_eq!(rt;
        slip_of(alloc, &[&POLYGON, &["x"]])?,
        Some(FileErr::At(6, Slip::Tail))
    );
    Ok(())
}

// What a session was told.
fn transcripts(alloc: Global) -> Option<Transcripts> {
    let mut told = Transcript::new(alloc);
    told.push(Said::At(3)).ok()?;
    told.push(Said::Version(7)).ok()?;
    told.push(Said::Count(7)).ok()?;
    let mut all = Transcripts::new(alloc);
    all.push(told).ok()?;
    Some(all)
}

// The cell of the polygon, whose input has no session.
fn cell_of(alloc: Global) -> Result<Cell, Fail> {
    match live_of(alloc, &text_of(alloc, &[&POLYGON])?)? {
        Ok((3, 0, cell)) => Ok(cell),
        _ => Err("it is a polygon, and there is no session")?,
    }
}

// A run whose history is that of the certificate's events.
fn run_of(alloc: Global, certificate: &str) -> Result<Run, Fail> {
    let cell = cell_of(alloc)?;
    if cell.region().len() > 16 {
        Err("it has three halves")?;
    }
    let (_, journal) = has_read(alloc, certificate)?.tree.into_parts();
    Ok(Run {
        version: Version::start(alloc, cell)?,
        journal,
        transcripts: transcripts(alloc).ok_or("there is memory")?,
    })
}

const TOLD: [&str; 14] = [
    "live 1",
    "journal 7",
    "e . cut 0 1 0",
    "e g cut 1 0 0",
    "e gg in 5",
    "e gl out 2 0 1",
    "e l cut 1 1 0",
    "e lg in 9",
    "e ll out 1 1",
    "session 1",
    "at 3",
    "version 7",
    "count 7",
    "end",
];

#[test]
fn text_of_a_live_run(rt: HostRuntime) -> Result<(), Fail> {
    let alloc = rt.alloc();
    let certificate = certificate_text(alloc)?;
    let run = run_of(alloc, &certificate)?;
    let cert = has_read(alloc, &certificate)?.into_cert(alloc)?;
    let mut out = Bytes::new(alloc);
    assert!(rt; put_live(&mut out, &run, &cert).is_ok());
    let mut wanted = text_of(alloc, &[&TOLD])?;
    wanted.push_str(&certificate)?;
    assert!(rt; out.as_slice() == wanted.as_bytes());
    Ok(())
}
