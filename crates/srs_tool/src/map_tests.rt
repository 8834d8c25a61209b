// Runs of `map` over memory.
use crate::runs::{Row, first_other};
use crate::status::Status;
use std::test::Fail;

const SPLIT: &str =
    "srs 1\npolygon 3\nge -1 0 8\nge 0 -1 8\nge 1 0 8\nlimits 2 64 16\ncut 0 1 0\ncut 1 0 0\nin 5\nw -1 0 3\nw 0 -1 4\nw 0 0 0\nw 0 1 2\nw 1 0 1\nout 2 0 1\ncut 1 1 0\nin 9\nw -1 -1 5\nw -1 0 4\nw -1 1 3\nw 0 -1 5\nw 0 0 0\nw 0 1 3\nw 1 -1 5\nw 1 0 1\nw 1 1 2\nout 1 1\nend\n";

// Maps: of one cell and of many, with all four characters.
const MAPS: [Row; 6] = [
    ("map 8 4", SPLIT, "oooo####\n.oooo##.\n..oooo..\n...oo...\n"),
    ("map 1 1", SPLIT, "o\n"),
    (
        "map 3 5",
        "srs 1\npolygon 3\nge 0 0 1\ngt 1 0 8\nge 0 1 8\nlimits 0 1 16\nin 9\nw -1 -1 4\nw -1 0 3\nw -1 1 3\nw 0 -1 4\nw 0 0 0\nw 0 1 2\nw 1 -1 4\nw 1 0 1\nw 1 1 2\nend\n",
        "...\n#..\n#..\n##.\n###\n",
    ),
    (
        "map 12 3",
        "srs 1\npolygon 3\nge -1 0 8\nge 0 -1 8\nge 1 0 8\nlimits 2 64 16\ncut 0 1 0\ncut 1 0 0\nin 5\nw -1 0 3\nw 0 -1 4\nw 0 0 0\nw 0 1 2\nw 1 0 1\nout 2 0 1\ncut 1 1 0\nin 9\nw -1 -1 5\nw -1 0 4\nw -1 1 3\nw 0 -1 5\nw 0 0 0\nw 0 1 3\nw 1 -1 5\nw 1 0 1\nw 1 1 2\nleft memory\nend\n",
        ".??????####.\n...??????...\n.....??.....\n",
    ),
    (
        "map 7 7",
        "srs 1\npolygon 3\nge 2 0 1\nge 17 0 8\nge 16 1 8\nlimits 2 64 64\ncut 8 0 -17\nleft thin\ncut 0 8 -1\nleft depth witness\nleft memory\nend\n",
        "?......\n??.....\n???....\n????...\n?????..\n??????.\n???????\n",
    ),
    (
        "map 6 6",
        "srs 1\npolygon 3\nge -1 -1 8\nge 1 -1 8\nge 0 1 8\nlimits 1 64 16\ncut 0 1 0\nleft depth cycle\nleft depth cycle\nend\n",
        "......\n..??..\n..??..\n.????.\n.????.\n??????\n",
    ),
];

// Certificates with a node that doesn't prove itself.
const BAD: [Row; 2] = [
    (
        "map 8 4",
        "srs 1\npolygon 3\nge 0 0 1\nge 1 0 8\nge 0 1 8\nlimits 0 1 16\nout 1 1\nend\n",
        "line 7 cycle 0\n",
    ),
    (
        "map 200 200",
        "srs 1\npolygon 3\nge -1 -1 8\nge 1 -1 8\nge 0 1 8\nlimits 1 3 16\nleft cells cycle\nend\n",
        "line 7 budget\n",
    ),
];

// Texts that are no certificates.
const TORN: [Row; 4] = [
    (
        "map 8 4",
        "srs 1\npolygon 3\nge -1 0 8\nge 0 -1 8\nge 1 0 8\nlimits 2 64 16\ncut 0 1 0\ncut 1 0 0\nin 5\nw -1 0 3\nw 0 -1 4\nw 0 0 0\nw 0 1 2\nw 1 0 1\nout 2 0 1\ncut 1 1 0\nin 9\nw -1 -1 5\nw -1 0 4\nw -1 1 3\nw 0 -1 5\nw 0 0 0\nw 0 1 3\nw 1 -1 5\nw 1 0 1\nw 1 1 2\nout 1 1\n",
        "refused line 28 missing\n",
    ),
    (
        "map 8 4",
        "srs 1\npolygon 3\nge -1 0 8\nge 0 -1 8\nge 1 0 8\nlimits 2 64 16\ncut 0 1 0\ncut 1 0 0\nin 5\nw -1 0 3\nw 0 -1 4\nw 0 0 0\nw 0 1 2\nw 1 0 1\nout 2 0 1\ncut 1 1 0\nin 9\nw -1 -1 5\nw -1 0 4\nw -1 1 3\nw 0 -1 5\nw 0 0 0\nw 0 1 3\nw 1 -1 5\nw 1 0 1\nw 1 1 2\nout 1 1\nend\npoint 0 0 1\nend\n",
        "refused line 29 tail\n",
    ),
    ("map 1 200", "srs 2\n", "refused line 1 version\n"),
    ("map 8 4", "", "refused line 1 missing\n"),
];

#[test]
fn maps(rt: HostRuntime) -> Result<(), Fail> {
    assert_eq!(rt; first_other(rt.alloc(), &MAPS, Status::Done)?, None);
    assert_eq!(rt; first_other(rt.alloc(), &BAD, Status::Bad)?, None);
    assert_eq!(rt; first_other(rt.alloc(), &TORN, Status::Refused)?, None);
    Ok(())
}
