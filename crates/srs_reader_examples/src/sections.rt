// Sections of a text that take its lines: a ring of vertices, a polygon, an inside leaf, questions.
use crate::lines::{CLOCKWISE, POLYGON, QUESTIONS, VERTICES, takes_all};
use srs_file::{Leaf, Outline, PolygonReader, Questions, Ring};
use srs_line::{LineErr, Slip};
use srs_num::V2;
use srs_path::Ranks;
use std::alloc::Global;
use std::test::Fail;

// Takes the lines while a vertex is to come: how many were taken, and the slip.
fn fill(ring: &mut Ring, lines: &[&str]) -> (usize, Option<LineErr>) {
    for (i, line) in lines.iter().enumerate() {
        if !ring.wants_more() {
            return (i, None);
        }
        if let Err(slip) = ring.take(line.as_bytes()) {
            return (i, Some(slip));
        }
    }
    (lines.len(), None)
}

#[test]
fn rings(rt: HostRuntime) -> Result<(), Fail> {
    let mut ring = Ring::new(rt.alloc());
    assert!(rt; !ring.wants_more() && ring.close().is_none());
    assert_eq!(rt; ring.open(b"region", b"region 2"), Err(Slip::Count));
    assert_eq!(rt; ring.open(b"region", b"polygon 3"), Err(Slip::Word));
    assert!(rt; ring.open(b"region", b"region 3").is_ok() && ring.wants_more());
    assert_eq!(rt; fill(&mut ring, &VERTICES), (3, None));
    let region = ring.close().ok_or("all vertices are there")?;
    assert!(rt; region.len() == 3 && !ring.wants_more() && ring.close().is_none());
    Ok(())
}

#[test]
fn parts_of_a_ring(rt: HostRuntime) -> Result<(), Fail> {
    let mut ring = Ring::new(rt.alloc());
    assert!(rt; ring.open(b"polygon", b"polygon 3").is_ok());
    assert_eq!(rt;
        fill(&mut ring, &CLOCKWISE),
        (2, Some(LineErr::Slip(Slip::Turn, 2)))
    );
    let mut ring = Ring::new(ring.alloc());
    assert!(rt; ring.open(b"polygon", b"polygon 3").is_ok());
    assert_eq!(rt; fill(&mut ring, &VERTICES), (3, None));
    let (vertices, region) = ring.into_parts();
    assert!(rt; vertices.len() == 3 && region.is_some());
    Ok(())
}

// Takes the lines while the polygon isn't whole; whether all were taken.
fn drawn(outline: &mut Outline, lines: &[&str]) -> bool {
    for line in lines {
        if outline.is_whole() || outline.take(line.as_bytes()).is_err() {
            return false;
        }
    }
    true
}

#[test]
fn outlines(rt: HostRuntime) -> Result<(), Fail> {
    let mut outline = Outline::new(rt.alloc());
    assert!(rt; drawn(&mut outline, &["polygon 3"]) && !outline.is_whole());
    assert!(rt; drawn(&mut outline, &VERTICES) && outline.is_whole());
    let (vertices, region) = outline.into_parts();
    let region = region.ok_or("all vertices are there")?;
    assert_eq!(rt; (vertices.len(), region.len()), (3, 3));
    Ok(())
}

#[test]
fn polygon_readers(rt: HostRuntime) -> Result<(), Fail> {
    let mut reader = PolygonReader::new(rt.alloc());
    assert!(rt; takes_all(&mut reader, &POLYGON));
    let (vertices, _) = reader.outline.into_parts();
    assert_eq!(rt; vertices.len(), 3);
    Ok(())
}

// Takes the lines while a witness is to come: how many were taken, and the slip.
fn fill_leaf(leaf: &mut Leaf, lines: &[&str]) -> (usize, Option<LineErr>) {
    for (i, line) in lines.iter().enumerate() {
        if leaf.left() == 0 {
            return (i, None);
        }
        if let Err(slip) = leaf.take(line.as_bytes()) {
            return (i, Some(slip));
        }
    }
    (lines.len(), None)
}

#[test]
fn leaves(rt: HostRuntime) -> Result<(), Fail> {
    let mut leaf = Leaf::new(rt.alloc());
    assert_eq!(rt; leaf.left(), 0);
    leaf.open(3);
    assert_eq!(rt; leaf.left(), 3);
    assert_eq!(rt;
        fill_leaf(&mut leaf, &["w -1 0 3", "w -2 0 1"]),
        (1, Some(LineErr::Slip(Slip::Order, 0)))
    );
    leaf.open(2);
    assert_eq!(rt;
        fill_leaf(&mut leaf, &["w -1 0 3", "w 0 0 0", "end"]),
        (2, None)
    );
    Ok(())
}

// The ranks of a leaf of two witnesses.
fn two_ranks(alloc: Global) -> Option<Ranks> {
    let mut leaf = Leaf::new(alloc);
    leaf.open(2);
    leaf.take(b"w -1 0 3").ok()?;
    leaf.take(b"w 0 0 0").ok()?;
    Some(leaf.close())
}

#[test]
fn ranks_of_a_leaf(rt: HostRuntime) -> Result<(), Fail> {
    let ranks = two_ranks(rt.alloc()).ok_or("they are witnesses")?;
    assert_eq!(rt; ranks.len(), 2);
    assert_eq!(rt; ranks.rank(V2 { a: -1, b: 0 }), Some(3));
    assert_eq!(rt; ranks.rank(V2 { a: 0, b: 0 }), Some(0));
    Ok(())
}

// Takes the lines; whether all were taken.
fn asked(questions: &mut Questions, lines: &[&str]) -> bool {
    for line in lines {
        if questions.take(line.as_bytes()).is_err() {
            return false;
        }
    }
    true
}

#[test]
fn questions_asked(rt: HostRuntime) -> Result<(), Fail> {
    let mut questions = Questions::new(rt.alloc());
    assert!(rt; !questions.wants_more() && asked(&mut questions, &QUESTIONS));
    assert!(rt; !questions.wants_more() && questions.queries.len() == 3);
    assert!(rt; asked(&mut questions, &["region 3"]) && questions.wants_more());
    assert!(rt; !asked(&mut questions, &["point 0 0 1"]));
    Ok(())
}
