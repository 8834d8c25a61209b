// Texts that are certificates: what they hold, and that they are written back.
use crate::texts::{CORNER, CYCLE, SPLIT, changed};
use srs_file::{Cert, read_ask, read_cert, read_polygon};
use srs_print::put_cert;
use srs_text::Bytes;
use std::alloc::Global;
use std::test::Fail;

fn certificate(alloc: Global, text: &str) -> Result<Cert, Fail> {
    if text.len() > 65536 {
        Err("it is short")?;
    }
    match read_cert(alloc, text.as_bytes()) {
        Ok(cert) => Ok(cert),
        Err(_) => Err("it is a certificate")?,
    }
}

// Whether the text is read, and written back byte for byte.
fn comes_back(alloc: Global, text: &str) -> Result<bool, Fail> {
    let cert = certificate(alloc, text)?;
    let mut out = Bytes::new(alloc);
    if put_cert(&mut out, &cert).is_err() {
        Err("there is memory")?;
    }
    Ok(out.as_slice() == text.as_bytes())
}

// Leaves in place of an outside one.
const LEAVES: [&str; 8] = [
    "left depth cycle\n",
    "left depth witness\n",
    "left cells cycle\n",
    "left cells witness\n",
    "left thin\n",
    "left memory\n",
    "out 2 137438953472 0\n",
    "in 1\nw 137438953472 -137438953472 16384\n",
];

// The first of these leaves with which the text doesn't come back; none where it comes back with each.
fn first_lost(alloc: Global, leaves: &[&str]) -> Result<Option<usize>, Fail> {
    for (i, leaf) in leaves.iter().enumerate() {
        let text = changed(alloc, &SPLIT, &[(15, *leaf)])?;
        if !comes_back(alloc, &text)? {
            return Ok(Some(i));
        }
    }
    Ok(None)
}

#[test]
fn round_trips(rt: HostRuntime) -> Result<(), Fail> {
    let alloc = rt.alloc();
    assert!(rt; comes_back(alloc, &changed(alloc, &CORNER, &[])?)?);
    assert!(rt; comes_back(alloc, &changed(alloc, &CYCLE, &[])?)?);
    assert!(rt; comes_back(alloc, &changed(alloc, &SPLIT, &[])?)?);
    Ok(())
}

#[test]
fn leaves_come_back(rt: HostRuntime) -> Result<(), Fail> {
    assert_eq!(rt; first_lost(rt.alloc(), &LEAVES)?, None);
    Ok(())
}

#[test]
fn ends_of_ranges(rt: HostRuntime) -> Result<(), Fail> {
    let alloc = rt.alloc();
    let limits = changed(alloc, &SPLIT, &[(6, "limits 48 65536 64\n")])?;
    assert!(rt; comes_back(alloc, &limits)?);
    let cut = changed(alloc, &SPLIT, &[(7, "cut 274877906944 -274877906944 0\n")])?;
    assert!(rt; comes_back(alloc, &cut)?);
    Ok(())
}

// The line of the node, where there is one.
fn line_of(cert: &Cert, i: usize) -> Option<u32> {
    let node = u32::try_from(i).ok()?;
    if (node as u64) < cert.events().len() {
        Some(cert.line(node))
    } else {
        None
    }
}

// The first node that begins on another line; none where each begins on its line and no more are there.
fn first_misplaced(cert: &Cert, lines: &[u32]) -> Option<usize> {
    for (i, line) in lines.iter().enumerate() {
        if line_of(cert, i) != Some(*line) {
            return Some(i);
        }
    }
    if cert.events().len() as usize == lines.len() {
        None
    } else {
        Some(lines.len())
    }
}

#[test]
fn parts_of_a_certificate(rt: HostRuntime) -> Result<(), Fail> {
    let alloc = rt.alloc();
    let sizes = sizes(alloc, &changed(alloc, &SPLIT, &[])?)?;
    assert_eq!(rt; sizes, (None, 3, 64));
    Ok(())
}

// Which node doesn't begin on its line, how many vertices there are, and the most cells.
fn sizes(alloc: Global, text: &str) -> Result<(Option<usize>, usize, u32), Fail> {
    let cert = certificate(alloc, text)?;
    let misplaced = first_misplaced(&cert, &[7, 8, 9, 15, 16, 17, 27]);
    Ok((misplaced, cert.vertices().len(), cert.limits().cells()))
}

// How many vertices the polygon has, and how many halves its cell.
fn polygon_sizes(alloc: Global, text: &str) -> Result<(u64, u32), Fail> {
    if text.len() > 65536 {
        Err("it is short")?;
    }
    match read_polygon(alloc, text.as_bytes()) {
        Ok((vertices, cell)) => Ok((vertices.len(), cell.region().len())),
        Err(_) => Err("it is a polygon")?,
    }
}

#[test]
fn polygon_and_cell(rt: HostRuntime) -> Result<(), Fail> {
    let alloc = rt.alloc();
    let text = "polygon 3\nge -2 -1 4\ngt -1 -2 4\nge -1 -1 4\nend\n";
    assert_eq!(rt; polygon_sizes(alloc, text)?, (3, 3));
    Ok(())
}

// How many questions stand behind the certificate, and how many nodes it has.
fn question_sizes(alloc: Global, text: &str) -> Result<(u64, u64), Fail> {
    if text.len() > 65536 {
        Err("it is short")?;
    }
    match read_ask(alloc, text.as_bytes()) {
        Ok((cert, queries)) => Ok((queries.len(), cert.events().len())),
        Err(_) => Err("it is a certificate with questions")?,
    }
}

const QUESTIONS: &str =
    "end\npoint 1 -1 16\nregion 3\nge 0 0 1\nge 1 0 8\nge 0 1 8\norbit 1 -1 4 1 1 100\nend\n";

#[test]
fn certificate_and_questions(rt: HostRuntime) -> Result<(), Fail> {
    let alloc = rt.alloc();
    let some = changed(alloc, &SPLIT, &[(28, QUESTIONS)])?;
    assert_eq!(rt; question_sizes(alloc, &some)?, (3, 7));
    let none = changed(alloc, &SPLIT, &[(28, "end\nend\n")])?;
    assert_eq!(rt; question_sizes(alloc, &none)?, (0, 7));
    Ok(())
}
