// Which kinds of answers a polygon meets, and the map of a version.
use crate::certificates::{
    LEFT_PART, LEFT_SEGMENT, OPEN_EDGE, SPLIT, built, certificate, version_of,
};
use crate::parts::cell_of;
use srs_raster::map_text;
use srs_tree::{Met, Version};
use std::alloc::Global;
use std::test::Fail;

// A polygon, and whether it meets points that are inside, outside, undecided, beyond.
type Row = (&'static str, [bool; 4]);

// Round the whole triangle; the triangle itself; wholly outside; wholly in one leaf.
const WHOLE: [Row; 4] = [
    (
        "polygon 3\nge -1 -1 1\nge 1 -1 1\nge 0 1 1\nend\n",
        [true, true, true, true],
    ),
    (
        "polygon 3\nge -1 0 8\nge 0 -1 8\nge 1 0 8\nend\n",
        [true, true, true, false],
    ),
    (
        "polygon 3\nge 1 0 1\nge 2 0 1\nge 1 1 1\nend\n",
        [false, false, false, true],
    ),
    (
        "polygon 3\nge 1 -1 32\nge 2 -1 32\nge 2 -1 64\nend\n",
        [true, false, false, false],
    ),
];

// One point of a leaf: (-1/8, 0) of the segment that is left, and without that point; (1/8, 0); (0,
// -1/8); (1/32, -1/32) on the line between two leaves, and without it.
const TOUCHING: [Row; 6] = [
    (
        "polygon 3\nge -1 0 8\nge -2 1 8\nge -2 -1 8\nend\n",
        [false, false, true, true],
    ),
    (
        "polygon 3\ngt -1 0 8\nge -2 1 8\nge -2 -1 8\nend\n",
        [false, false, false, true],
    ),
    (
        "polygon 3\nge 1 0 8\nge 2 -1 8\nge 2 1 8\nend\n",
        [true, false, false, true],
    ),
    (
        "polygon 3\nge 0 -1 8\nge -1 -2 8\nge 1 -2 8\nend\n",
        [false, true, false, true],
    ),
    (
        "polygon 3\nge 1 -1 32\nge 0 -1 32\nge 0 -2 32\nend\n",
        [true, true, false, false],
    ),
    (
        "polygon 3\ngt 1 -1 32\nge 0 -1 32\nge 0 -2 32\nend\n",
        [false, true, false, false],
    ),
];

// A triangle on the other side of the edge from (-1/8, 0) to (0, -1/8).
const NEIGHBOUR: &str = "polygon 3\nge -1 0 8\nge -1 -1 8\nge 0 -1 8\nend\n";

// Whether it meets its edge, where the edge is closed and where it is open.
const CLOSED_EDGE: [Row; 1] = [(NEIGHBOUR, [false, true, false, true])];

const OPENED_EDGE: [Row; 1] = [(NEIGHBOUR, [false, false, false, true])];

// Which kinds of answers the polygon meets.
fn met(alloc: Global, version: &Version, polygon: &str) -> Result<Met, Fail> {
    let cell = cell_of(alloc, polygon)?;
    if cell.region().len() > 16 {
        Err("it has three halves")?;
    }
    Ok(version.meet(alloc, &cell)?)
}

// The place of the first row that isn't so; none where all are.
fn first_other(alloc: Global, version: &Version, rows: &[Row]) -> Result<Option<usize>, Fail> {
    for (i, (polygon, wanted)) in rows.iter().enumerate() {
        let met = met(alloc, version, polygon)?;
        if [met.inside, met.outside, met.undecided, met.beyond] != *wanted {
            return Ok(Some(i));
        }
    }
    Ok(None)
}

#[test]
fn polygons_that_meet(rt: HostRuntime) -> Result<(), Fail> {
    let alloc = rt.alloc();
    let version = version_of(alloc, LEFT_SEGMENT)?;
    for rows in [&WHOLE[..], &TOUCHING[..]] {
        assert_eq!(rt; first_other(alloc, &version, rows)?, None);
    }
    Ok(())
}

#[test]
fn polygons_at_an_edge(rt: HostRuntime) -> Result<(), Fail> {
    let alloc = rt.alloc();
    for (text, rows) in [(SPLIT, &CLOSED_EDGE), (OPEN_EDGE, &OPENED_EDGE)] {
        let version = version_of(alloc, text)?;
        assert_eq!(rt; first_other(alloc, &version, rows)?, None);
    }
    Ok(())
}

// Certificates, and their maps of eight columns and four rows.
const MAPS: [(&str, &str); 2] = [
    (SPLIT, "oooo####\n.oooo##.\n..oooo..\n...oo...\n"),
    (LEFT_PART, "????####\n.????##.\n..????..\n...??...\n"),
];

// Whether this is the map of the certificate.
fn has_map(alloc: Global, text: &str, map: &str) -> Result<bool, Fail> {
    let cert = certificate(alloc, text)?;
    // Its vertices are those of a polygon.
    let _ = cert.events();
    let (version, _) = built(alloc, &cert)?;
    let drawn = map_text(alloc, &version, cert.vertices(), 8, 4)?;
    Ok(drawn.as_slice() == map.as_bytes())
}

// The place of the first row that isn't so; none where all are.
fn first_other_map(alloc: Global, rows: &[(&str, &str)]) -> Result<Option<usize>, Fail> {
    for (i, (text, map)) in rows.iter().enumerate() {
        if !has_map(alloc, text, map)? {
            return Ok(Some(i));
        }
    }
    Ok(None)
}

#[test]
fn maps(rt: HostRuntime) -> Result<(), Fail> {
    assert_eq!(rt; first_other_map(rt.alloc(), &MAPS)?, None);
    Ok(())
}
