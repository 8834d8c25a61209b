// What is built from a certificate, and the outcomes of its nodes.
use crate::certificates::{LEFT_SEGMENT, SPLIT, built, certificate};
use crate::versions::first_other_outcome;
use srs_check::{Built, Checked, Counts, Fault, build, check};
use srs_file::Cert;
use srs_num::V2;
use srs_path::{Cause, Why};
use srs_shapes::{Plain, is_outcome, path_of};
use std::alloc::Global;
use std::test::Fail;

// Paths and their outcomes; the last three are no nodes.
type Outcomes = [(&'static str, Option<Plain>); 10];

const NODES: Outcomes = [
    ("", Some(Plain::Cut(0, 1, 0))),
    ("g", Some(Plain::Cut(1, 0, 0))),
    ("gg", Some(Plain::Inside(5))),
    ("gl", Some(Plain::Outside(&[0, 1]))),
    ("l", Some(Plain::Cut(1, 1, 0))),
    ("lg", Some(Plain::Inside(9))),
    ("ll", Some(Plain::Outside(&[1]))),
    ("ggg", None),
    ("llg", None),
    ("glgl", None),
];

// The place of the first path whose node has another outcome; none where all have theirs.
fn first_other_node(cert: &Cert, rows: &[(&str, Option<Plain>)]) -> Result<Option<usize>, Fail> {
    for (i, (sides, wanted)) in rows.iter().enumerate() {
        if !is_outcome(cert.outcome(path_of(sides)?), *wanted) {
            return Ok(Some(i));
        }
    }
    Ok(None)
}

#[test]
fn nodes_of_a_certificate(rt: HostRuntime) -> Result<(), Fail> {
    let cert = certificate(rt.alloc(), SPLIT)?;
    assert_eq!(rt; first_other_node(&cert, &NODES)?, None);
    Ok(())
}

const COUNTS: Counts = Counts {
    cells: 7,
    inside: 2,
    outside: 2,
    cut: 3,
    left: 0,
};

// Whether what is built has these counts, and seven outcomes, these among them.
fn builds(
    alloc: Global,
    cert: &Cert,
    wanted: Counts,
    rows: &[(&str, Option<Plain>)],
) -> Result<bool, Fail> {
    let (version, counts) = built(alloc, cert)?;
    let all = first_other_outcome(&version, rows)?.is_none();
    Ok(all && counts == wanted && version.count() == 7)
}

#[test]
fn a_version_of_a_certificate(rt: HostRuntime) -> Result<(), Fail> {
    let cert = certificate(rt.alloc(), SPLIT)?;
    assert!(rt; builds(rt.alloc(), &cert, COUNTS, &NODES)?);
    Ok(())
}

const LEFT_COUNTS: Counts = Counts {
    outside: 1,
    left: 1,
    ..COUNTS
};

const WRITTEN: [(&str, Option<Plain>); 1] = [("gl", Some(Plain::Left(Cause::Depth(Why::Cycle))))];

const TAKEN: [(&str, Option<Plain>); 1] = [("gl", Some(Plain::Left(Cause::Memory)))];

// The cause isn't taken over.
#[test]
fn a_left_cell_is_built(rt: HostRuntime) -> Result<(), Fail> {
    let cert = certificate(rt.alloc(), LEFT_SEGMENT)?;
    assert_eq!(rt; first_other_node(&cert, &WRITTEN)?, None);
    assert!(rt; builds(rt.alloc(), &cert, LEFT_COUNTS, &TAKEN)?);
    Ok(())
}

// Certificates of the corner and of other triangles with a node that doesn't prove itself, its
// line, and the fault.
const BAD: [(&str, u32, Fault); 6] = [
    (
        "srs 1\npolygon 3\nge 0 0 1\nge 1 0 8\nge 0 1 8\nlimits 0 1 16\nin 8\nw -1 -1 4\nw -1 0 3\nw -1 1 3\nw 0 -1 4\nw 0 0 0\nw 0 1 2\nw 1 -1 4\nw 1 1 2\nend\n",
        7,
        Fault::NoUnit(V2 { a: 1, b: 0 }),
    ),
    (
        "srs 1\npolygon 3\nge 0 0 1\nge 1 0 8\nge 0 1 8\nlimits 0 1 16\nin 8\nw -1 -1 4\nw -1 0 3\nw -1 1 3\nw 0 -1 4\nw 0 0 0\nw 0 1 2\nw 1 -1 4\nw 1 0 1\nend\n",
        7,
        Fault::NotClosed(V2 { a: -1, b: 1 }, 1),
    ),
    (
        "srs 1\npolygon 3\nge 0 0 1\nge 1 0 8\nge 0 1 8\nlimits 0 1 16\nin 9\nw -1 -1 4\nw -1 0 3\nw -1 1 3\nw 0 -1 4\nw 0 0 0\nw 0 1 2\nw 1 -1 4\nw 1 0 1\nw 1 1 1\nend\n",
        7,
        Fault::NoFall(V2 { a: 1, b: 1 }, 0),
    ),
    (
        "srs 1\npolygon 3\nge 0 0 1\nge 1 0 8\nge 0 1 8\nlimits 0 1 16\nout 1 1\nend\n",
        7,
        Fault::NotCycle(0),
    ),
    (
        "srs 1\npolygon 3\nge 0 0 1\nge 1 0 8\nge 0 1 8\nlimits 1 64 16\ncut 0 1 0\nleft depth cycle\nleft depth cycle\nend\n",
        7,
        Fault::NotProper,
    ),
    (
        "srs 1\npolygon 3\nge 2 0 1\nge 17 0 8\nge 16 1 8\nlimits 2 64 64\ncut 8 0 -17\nleft thin\ncut 0 8 -1\nleft memory\nleft thin\nend\n",
        11,
        Fault::NoBudget,
    ),
];

// What the check says, and what is built, for a certificate each node of which proves itself.
fn counts_of(alloc: Global, text: &str) -> Result<Option<Counts>, Fail> {
    match check(alloc, &certificate(alloc, text)?)? {
        Checked::Valid(counts) => Ok(Some(counts)),
        Checked::Bad(_, _) => Ok(None),
    }
}

#[test]
fn a_checked_certificate(rt: HostRuntime) -> Result<(), Fail> {
    assert_eq!(rt; counts_of(rt.alloc(), SPLIT)?, Some(COUNTS));
    Ok(())
}

// The line and the fault of the first node that doesn't prove itself, where the check says them as
// what is built does.
fn fault_of(alloc: Global, text: &str) -> Result<Option<(u32, Fault)>, Fail> {
    let cert = certificate(alloc, text)?;
    match (build(alloc, &cert)?, check(alloc, &cert)?) {
        (Built::Bad(line, fault), Checked::Bad(at, found)) => {
            Ok(if (line, fault) == (at, found) {
                Some((line, fault))
            } else {
                None
            })
        }
        _ => Ok(None),
    }
}

// The place of the first text with another fault; none where all have theirs.
fn first_other_fault(alloc: Global, rows: &[(&str, u32, Fault)]) -> Result<Option<usize>, Fail> {
    for (i, (text, line, fault)) in rows.iter().enumerate() {
        if fault_of(alloc, text)? != Some((*line, *fault)) {
            return Ok(Some(i));
        }
    }
    Ok(None)
}

#[test]
fn no_versions(rt: HostRuntime) -> Result<(), Fail> {
    assert_eq!(rt; first_other_fault(rt.alloc(), &BAD)?, None);
    Ok(())
}
