// Trees that are read line by line, and readers of a whole certificate.
use crate::lines::{NODES, POLYGON, QUESTIONS, takes_all};
use srs_file::{AskReader, CertPhase, CertReader, Events, PathStack, Tree};
use srs_path::{Cause, Limits, Outcome, Path, Side};
use std::alloc::Global;
use std::test::Fail;

#[test]
fn paths_that_wait(rt: HostRuntime) -> Result<(), Fail> {
    let mut paths = PathStack::new(rt.alloc());
    let child = Path::root().child(Side::Lt).ok_or("it is short")?;
    assert!(rt; paths.is_empty());
    assert!(rt; paths.push(child).is_ok() && paths.push(Path::root()).is_ok());
    assert!(rt; !paths.is_empty());
    assert_eq!(rt;
        [paths.pop(), paths.pop(), paths.pop()],
        [Some(Path::root()), Some(child), None]
    );
    Ok(())
}

#[test]
fn events_gathered(rt: HostRuntime) -> Result<(), Fail> {
    let mut events = Events::new(rt.alloc());
    let left = Outcome::Left(Cause::Thin);
    assert!(rt; events.add(Path::root(), left).is_ok());
    let events = events.into_journal();
    assert_eq!(rt; events.len(), 1);
    assert_eq!(rt; events.get(0).path, Path::root());
    Ok(())
}

// Takes the lines while a cell waits for its event, and gathers each event; whether all were taken.
fn grown(tree: &mut Tree, lines: &[&str]) -> bool {
    for line in lines {
        if tree.is_whole() {
            return false;
        }
        let Ok(node) = tree.take(line.as_bytes()) else {
            return false;
        };
        if tree.gather(node).is_err() {
            return false;
        }
    }
    true
}

// The limits and the number of events of the tree of the lines.
fn planted(alloc: Global, limits: Limits, lines: &[&str]) -> Option<(Limits, u64)> {
    let mut tree = Tree::new(alloc);
    if !tree.is_whole() || tree.plant(limits).is_err() || tree.is_whole() {
        return None;
    }
    if !grown(&mut tree, lines) || !tree.is_whole() {
        return None;
    }
    let (limits, events) = tree.into_parts();
    Some((limits, events.len()))
}

#[test]
fn trees(rt: HostRuntime) -> Result<(), Fail> {
    let limits = Limits::new(2, 64, 16).ok_or("they are limits")?;
    assert_eq!(rt; planted(rt.alloc(), limits, &NODES), Some((limits, 7)));
    assert_eq!(rt; planted(rt.alloc(), limits, &["cut 0 1 0"]), None);
    Ok(())
}

// Whether the reader takes the lines of the certificate but for the last.
fn goes_on(reader: &mut CertReader) -> bool {
    let [first, a, b, c, _] = POLYGON;
    !takes_all(reader, &["srs 1", first, a, b, c, "limits 2 64 16"]) && !takes_all(reader, &NODES)
}

#[test]
fn certificate_readers(rt: HostRuntime) -> Result<(), Fail> {
    let mut reader = CertReader::new(rt.alloc());
    assert_eq!(rt; reader.phase, CertPhase::First);
    assert!(rt; goes_on(&mut reader) && reader.phase == CertPhase::Nodes);
    assert!(rt; takes_all(&mut reader, &["end"]) && reader.phase == CertPhase::Done);
    Ok(())
}

#[test]
fn readers_of_questions(rt: HostRuntime) -> Result<(), Fail> {
    let mut reader = AskReader::new(rt.alloc());
    assert!(rt; goes_on(&mut reader.cert) && !takes_all(&mut reader, &["end"]));
    assert!(rt; !takes_all(&mut reader, &QUESTIONS) && takes_all(&mut reader, &["end"]));
    assert_eq!(rt; reader.questions.queries.len(), 3);
    Ok(())
}
