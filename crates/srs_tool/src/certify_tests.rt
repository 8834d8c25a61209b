// Runs of `certify` over memory.
use crate::runs::{Row, first_other, first_other_of, play};
use crate::status::Status;
use std::alloc::Global;
use std::test::Fail;

const CORNER: &str = "polygon 3\nge 0 0 1\nge 1 0 8\nge 0 1 8\nend\n";

const ORIGIN: &str = "polygon 3\nge -1 -1 8\nge 1 -1 8\nge 0 1 8\nend\n";

// Polygons that are one cell: small ones, with and without their edges.
const CERTIFIED: [Row; 4] = [
    (
        "certify 0 1 16",
        "polygon 3\nge -2 -1 4\nge -1 -2 4\nge -1 -1 4\nend\n",
        "srs 1\npolygon 3\nge -2 -1 4\nge -1 -2 4\nge -1 -1 4\nlimits 0 1 16\nout 1 1\nend\n",
    ),
    (
        "certify 0 1 16",
        CORNER,
        "srs 1\npolygon 3\nge 0 0 1\nge 1 0 8\nge 0 1 8\nlimits 0 1 16\nin 9\nw -1 -1 4\nw -1 0 3\nw -1 1 3\nw 0 -1 4\nw 0 0 0\nw 0 1 2\nw 1 -1 4\nw 1 0 1\nw 1 1 2\nend\n",
    ),
    (
        "certify 0 1 16",
        "polygon 3\ngt 0 0 1\ngt 1 0 8\ngt 0 1 8\nend\n",
        "srs 1\npolygon 3\ngt 0 0 1\ngt 1 0 8\ngt 0 1 8\nlimits 0 1 16\nin 9\nw -1 -1 4\nw -1 0 3\nw -1 1 3\nw 0 -1 4\nw 0 0 0\nw 0 1 2\nw 1 -1 4\nw 1 0 1\nw 1 1 2\nend\n",
    ),
    (
        "certify 0 1 9",
        CORNER,
        "srs 1\npolygon 3\nge 0 0 1\nge 1 0 8\nge 0 1 8\nlimits 0 1 9\nin 9\nw -1 -1 4\nw -1 0 3\nw -1 1 3\nw 0 -1 4\nw 0 0 0\nw 0 1 2\nw 1 -1 4\nw 1 0 1\nw 1 1 2\nend\n",
    ),
];

// Cells that are left where a limit is spent; from the fourth row on, two more cells would be one
// too many, or not.
const LEFT: [Row; 7] = [
    (
        "certify 0 1 8",
        CORNER,
        "srs 1\npolygon 3\nge 0 0 1\nge 1 0 8\nge 0 1 8\nlimits 0 1 8\nleft depth witness\nend\n",
    ),
    (
        "certify 0 64 16",
        ORIGIN,
        "srs 1\npolygon 3\nge -1 -1 8\nge 1 -1 8\nge 0 1 8\nlimits 0 64 16\nleft depth cycle\nend\n",
    ),
    (
        "certify 1 64 16",
        ORIGIN,
        "srs 1\npolygon 3\nge -1 -1 8\nge 1 -1 8\nge 0 1 8\nlimits 1 64 16\ncut 0 1 0\nleft depth cycle\nleft depth cycle\nend\n",
    ),
    (
        "certify 1 2 16",
        ORIGIN,
        "srs 1\npolygon 3\nge -1 -1 8\nge 1 -1 8\nge 0 1 8\nlimits 1 2 16\nleft cells cycle\nend\n",
    ),
    (
        "certify 1 3 16",
        ORIGIN,
        "srs 1\npolygon 3\nge -1 -1 8\nge 1 -1 8\nge 0 1 8\nlimits 1 3 16\ncut 0 1 0\nleft depth cycle\nleft depth cycle\nend\n",
    ),
    (
        "certify 0 65536 1",
        "polygon 4\nge 4 4 1\nge -4 4 1\nge -4 -4 1\nge 4 -4 1\nend\n",
        "srs 1\npolygon 4\nge 4 4 1\nge -4 4 1\nge -4 -4 1\nge 4 -4 1\nlimits 0 65536 1\nleft depth witness\nend\n",
    ),
    (
        "certify 0 256 16384",
        "polygon 4\ngt 4 4 1\ngt -4 4 1\ngt -4 -4 1\ngt 4 -4 1\nend\n",
        "srs 1\npolygon 4\ngt 4 4 1\ngt -4 4 1\ngt -4 -4 1\ngt 4 -4 1\nlimits 0 256 16384\nleft depth witness\nend\n",
    ),
];

// Polygons that are cut; in the second the first part is the one point (17/8, 0).
const CUT: [Row; 2] = [
    (
        "certify 2 64 16",
        "polygon 3\nge -1 0 8\nge 0 -1 8\nge 1 0 8\nend\n",
        "srs 1\npolygon 3\nge -1 0 8\nge 0 -1 8\nge 1 0 8\nlimits 2 64 16\ncut 0 1 0\ncut 1 0 0\nin 5\nw -1 0 3\nw 0 -1 4\nw 0 0 0\nw 0 1 2\nw 1 0 1\nout 2 0 1\ncut 1 1 0\nin 9\nw -1 -1 5\nw -1 0 4\nw -1 1 3\nw 0 -1 5\nw 0 0 0\nw 0 1 3\nw 1 -1 5\nw 1 0 1\nw 1 1 2\nout 1 1\nend\n",
    ),
    (
        "certify 2 64 64",
        "polygon 3\nge 2 0 1\nge 17 0 8\nge 16 1 8\nend\n",
        "srs 1\npolygon 3\nge 2 0 1\nge 17 0 8\nge 16 1 8\nlimits 2 64 64\ncut 8 0 -17\nleft thin\ncut 0 8 -1\nleft depth witness\nleft depth witness\nend\n",
    ),
];

// A triangle from (-1/2, -1/2) to (-1/2, 0), with a corner whose sum x + y decides what the cycle 1
// covers; last without (0, 0).
const CORNERS: [Row; 3] = [
    (
        "certify 0 1 16",
        "polygon 3\nge -1 -1 2\nge -1 -1 4\nge -1 0 2\nend\n",
        "srs 1\npolygon 3\nge -1 -1 2\nge -1 -1 4\nge -1 0 2\nlimits 0 1 16\nleft depth cycle\nend\n",
    ),
    (
        "certify 0 1 16",
        "polygon 3\nge -1 -1 2\nge 0 0 1\nge -1 0 2\nend\n",
        "srs 1\npolygon 3\nge -1 -1 2\nge 0 0 1\nge -1 0 2\nlimits 0 1 16\nleft depth cycle\nend\n",
    ),
    (
        "certify 0 1 16",
        "polygon 3\ngt -1 -1 2\ngt 0 0 1\nge -1 0 2\nend\n",
        "srs 1\npolygon 3\ngt -1 -1 2\ngt 0 0 1\nge -1 0 2\nlimits 0 1 16\nout 1 1\nend\n",
    ),
];

// Texts that are no polygons; the last four turn the wrong way: on one line, clockwise, twice
// round, and dented by nothing.
const REFUSED: [(&str, &str); 27] = [
    ("", "refused line 1 missing\n"),
    ("polygon 0\n", "refused line 1 count\n"),
    (
        "polygon 2\nge -2 -1 4\nge -1 -2 4\nend\n",
        "refused line 1 count\n",
    ),
    ("polygon 17\n", "refused line 1 count\n"),
    (
        "polygon 3\nge -2 -1 4\nge -1 -2 4\nge -1 -1 4\nend",
        "refused line 5 missing\n",
    ),
    (
        "polygon 3\r\nge -2 -1 4\r\nge -1 -2 4\r\nge -1 -1 4\r\nend\r\n",
        "refused line 1 number\n",
    ),
    (
        "polygon 3\nge  -2 -1 4\nge -1 -2 4\nge -1 -1 4\nend\n",
        "refused line 2 word\n",
    ),
    (
        "polygon 3\nge -2 -1 4 \nge -1 -2 4\nge -1 -1 4\nend\n",
        "refused line 2 word\n",
    ),
    (
        "polygon 3\nge -2 -1 04\nge -1 -2 4\nge -1 -1 4\nend\n",
        "refused line 2 number\n",
    ),
    (
        "polygon 3\nge -2 -1 4\nge -1 +2 4\nge -1 -1 4\nend\n",
        "refused line 3 number\n",
    ),
    (
        "polygon 3\nge -2 -0 4\nge -1 -2 4\nge -1 -1 4\nend\n",
        "refused line 2 number\n",
    ),
    (
        "polygon 3\nge -20000000000000000000 -1 4\nge -1 -2 4\nge -1 -1 4\nend\n",
        "refused line 2 number\n",
    ),
    (
        "polygon 3\nge -2 -1 4\nge -1 -2 4\nge -1 -1 4\nge -2 -1 4\nend\n",
        "refused line 5 word\n",
    ),
    (
        "polygon 3\nle -2 -1 4\nge -1 -2 4\nge -1 -1 4\nend\n",
        "refused line 2 word\n",
    ),
    (
        "polygon 3\nge -2 -1 4\nge -1 -2 4\nge -1 -1 4\nend\nend\n",
        "refused line 6 tail\n",
    ),
    (
        "polygon 3\nge -2 -1 4\nge -1 -2 4\nge -1 -1 4\nend\nx",
        "refused line 6 tail\n",
    ),
    (
        "polygon 3\n\nge -2 -1 4\nge -1 -2 4\nge -1 -1 4\nend\n",
        "refused line 2 word\n",
    ),
    (
        "polygon 3\nge -2 -1 4\u{0}\nge -1 -2 4\nge -1 -1 4\nend\n",
        "refused line 2 number\n",
    ),
    (
        "polygon 3\nge -2 -1 4\nge \u{e9}1 -2 4\nge -1 -1 4\nend\n",
        "refused line 3 number\n",
    ),
    (
        "polygon 3\nge -2 -1\nge -1 -2 4\nge -1 -1 4\nend\n",
        "refused line 2 word\n",
    ),
    (
        "polygon 3\nge -2 -1 0\nge -1 -2 4\nge -1 -1 4\nend\n",
        "refused line 2 range\n",
    ),
    (
        "polygon 3\nge 1 0 65537\nge -1 -2 4\nge -1 -1 4\nend\n",
        "refused line 2 range\n",
    ),
    (
        "polygon 3\nge 262145 0 65536\nge -1 -2 4\nge -1 -1 4\nend\n",
        "refused line 2 range\n",
    ),
    (
        "polygon 3\nge 0 0 1\nge 1 0 8\nge 1 0 4\nend\n",
        "refused line 2 turn\n",
    ),
    (
        "polygon 3\nge 0 0 1\nge 0 1 8\nge 1 0 8\nend\n",
        "refused line 2 turn\n",
    ),
    (
        "polygon 5\nge 0 3 1\nge -2 -2 1\nge 3 1 1\nge -3 1 1\nge 2 -2 1\nend\n",
        "refused line 2 turn\n",
    ),
    (
        "polygon 5\nge 0 0 1\nge 1 0 1\nge 1 1 1\nge 0 1 1\nge 0 1 2\nend\n",
        "refused line 5 turn\n",
    ),
];

const WHOLE: &str = "polygon 3\nge -1 0 1\nge 1 -2 1\nge 1 2 1\nend\n";

const WHOLE_START: &str =
    "srs 1\npolygon 3\nge -1 0 1\nge 1 -2 1\nge 1 2 1\nlimits 12 4096 512\ncut 1 0 0\n";

const VALID: &str = "valid cells 2899 in 56 out 98 cut 1449 left 1296\n";

#[test]
fn certified(rt: HostRuntime) -> Result<(), Fail> {
    for rows in [&CERTIFIED[..], &LEFT[..], &CUT[..], &CORNERS[..]] {
        assert_eq!(rt; first_other(rt.alloc(), rows, Status::Done)?, None);
    }
    Ok(())
}

#[test]
fn refused_polygons(rt: HostRuntime) -> Result<(), Fail> {
    let other = first_other_of(rt.alloc(), "certify 0 1 16", "", &REFUSED, Status::Refused)?;
    assert_eq!(rt; other, None);
    Ok(())
}

// The polygon that a user has, whole: the check of the very bytes says how many nodes there are of
// each kind; and the map.
#[test]
fn whole_polygon(rt: HostRuntime) -> Result<(), Fail> {
    let seen = play(rt.alloc(), "certify 12 4096 512", &[WHOLE.as_bytes()])?;
    assert_eq!(rt; seen.status, Status::Done);
    assert_eq!(rt; first_slip(rt.alloc(), seen.sink.bytes())?, None);
    Ok(())
}

// What isn't so of the certificate's text; none where all is.
fn first_slip(alloc: Global, text: &[u8]) -> Result<Option<&'static str>, Fail> {
    if !text.starts_with(WHOLE_START.as_bytes()) {
        return Ok(Some("its first lines"));
    }
    if !is_valid(alloc, text)? {
        return Ok(Some("its check"));
    }
    if !has_map(alloc, text)? {
        return Ok(Some("its map"));
    }
    Ok(None)
}

fn is_valid(alloc: Global, text: &[u8]) -> Result<bool, Fail> {
    let seen = play(alloc, "check", &[text])?;
    Ok(seen.ended_with(Status::Done, VALID.as_bytes()))
}

fn has_map(alloc: Global, text: &[u8]) -> Result<bool, Fail> {
    let seen = play(alloc, "map 40 40", &[text])?;
    Ok(seen.status == Status::Done && is_rows_of_40(seen.sink.bytes()))
}

// Whether they are forty lines, and each 41st byte ends a line, and no other.
fn is_rows_of_40(text: &[u8]) -> bool {
    if text.len() != 40 * 41 {
        return false;
    }
    for (i, byte) in text.iter().enumerate() {
        if (i % 41 == 40) != (*byte == b'\n') {
            return false;
        }
    }
    true
}
