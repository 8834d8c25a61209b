// Runs of `ask` over memory.
use crate::runs::first_other_of;
use crate::status::Status;
use std::test::Fail;

const SPLIT: &str =
    "srs 1\npolygon 3\nge -1 0 8\nge 0 -1 8\nge 1 0 8\nlimits 2 64 16\ncut 0 1 0\ncut 1 0 0\nin 5\nw -1 0 3\nw 0 -1 4\nw 0 0 0\nw 0 1 2\nw 1 0 1\nout 2 0 1\ncut 1 1 0\nin 9\nw -1 -1 5\nw -1 0 4\nw -1 1 3\nw 0 -1 5\nw 0 0 0\nw 0 1 3\nw 1 -1 5\nw 1 0 1\nw 1 1 2\nout 1 1\nend\n";

// A certificate that leaves its one cell open.
const OPEN: &str =
    "srs 1\npolygon 3\nge 0 0 1\nge 1 0 8\nge 0 1 8\nlimits 0 1 16\nleft memory\nend\n";

// Questions behind the split triangle: points at corners, on edges, on the lines of cuts and beside
// them; polygons that touch a leaf at a point, or would without an open edge; orbits.
const ASKED: [(&str, &str); 4] = [
    (
        "point 1 -1 16\norbit 1 -1 4 1 1 100\norbit -1 -1 2 1 1 100\nend\n",
        "point 1 -1 16 in\norbit zero 2\norbit loop 0 1\n",
    ),
    ("end\n", ""),
    (
        "point 0 0 1\npoint -1 0 8\npoint -1 0 16\npoint 1 0 8\npoint 0 -1 8\npoint 1 -1 8\npoint 1 -1 16\npoint 68719476735 -68719476736 1099511627776\npoint 68719476737 -68719476736 1099511627776\npoint 0 -1 1099511627776\npoint -1 0 1099511627776\npoint 1 -1 1099511627776\npoint 0 1 1099511627776\npoint 4398046511104 -4398046511104 1\npoint -4398046511104 4398046511104 1099511627776\nend\n",
        "point 0 0 1 in\npoint -1 0 8 out 2 0 1\npoint -1 0 16 out 2 0 1\npoint 1 0 8 in\npoint 0 -1 8 out 1 1\npoint 1 -1 8 beyond\npoint 1 -1 16 in\npoint 68719476735 -68719476736 1099511627776 out 1 1\npoint 68719476737 -68719476736 1099511627776 beyond\npoint 0 -1 1099511627776 out 1 1\npoint -1 0 1099511627776 out 2 0 1\npoint 1 -1 1099511627776 in\npoint 0 1 1099511627776 beyond\npoint 4398046511104 -4398046511104 1 beyond\npoint -4398046511104 4398046511104 1099511627776 beyond\n",
    ),
    (
        "region 3\nge -1 0 8\nge -1 1 8\nge -1 0 4\nregion 3\ngt -1 0 8\nge -1 1 8\nge -1 0 4\nregion 3\nge 0 0 1\nge 1 1 8\nge -1 1 8\nregion 3\ngt 0 0 1\nge 1 1 8\nge -1 1 8\nregion 3\nge 4 -4 128\nge 2 -2 128\nge 2 -4 128\nregion 3\ngt 4 -4 128\nge 2 -2 128\nge 2 -4 128\nregion 4\nge -4 -4 1\nge 4 -4 1\nge 4 4 1\nge -4 4 1\nend\n",
        "region out beyond\nregion beyond\nregion in beyond\nregion beyond\nregion in out\nregion out\nregion in out beyond\n",
    ),
];

// Whole inputs: points with each cause, on edges that are left out; polygons that meet one kind,
// some, or all; orbits with each end, and with as few steps as it takes and one less.
const OTHERS: [(&str, &str); 9] = [
    (
        "srs 1\npolygon 3\ngt 0 0 1\ngt 1 0 8\ngt 0 1 8\nlimits 0 1 16\nin 9\nw -1 -1 4\nw -1 0 3\nw -1 1 3\nw 0 -1 4\nw 0 0 0\nw 0 1 2\nw 1 -1 4\nw 1 0 1\nw 1 1 2\nend\npoint 0 0 1\npoint 1 1 32\nend\n",
        "point 0 0 1 beyond\npoint 1 1 32 in\n",
    ),
    (
        "srs 1\npolygon 3\nge 0 0 1\nge 1 0 8\nge 0 1 8\nlimits 0 1 16\nleft memory\nend\npoint 1 1 32\nend\n",
        "point 1 1 32 open memory\n",
    ),
    (
        "srs 1\npolygon 3\nge 0 0 1\ngt 1 0 8\nge 0 1 8\nlimits 0 1 16\nin 9\nw -1 -1 4\nw -1 0 3\nw -1 1 3\nw 0 -1 4\nw 0 0 0\nw 0 1 2\nw 1 -1 4\nw 1 0 1\nw 1 1 2\nend\npoint 0 0 1\npoint 1 0 16\npoint 1 1 16\npoint 0 1 16\npoint 1 0 8\npoint 0 1 8\npoint 68719476735 68719476736 1099511627776\npoint 68719476736 68719476736 1099511627776\npoint 0 -1 1099511627776\npoint -1 1 1099511627776\nend\n",
        "point 0 0 1 in\npoint 1 0 16 in\npoint 1 1 16 beyond\npoint 0 1 16 in\npoint 1 0 8 beyond\npoint 0 1 8 beyond\npoint 68719476735 68719476736 1099511627776 in\npoint 68719476736 68719476736 1099511627776 beyond\npoint 0 -1 1099511627776 beyond\npoint -1 1 1099511627776 beyond\n",
    ),
    (
        "srs 1\npolygon 3\nge 2 0 1\nge 17 0 8\nge 16 1 8\nlimits 2 64 64\ncut 8 0 -17\nleft thin\ncut 0 8 -1\nleft depth witness\nleft memory\nend\npoint 17 0 8\npoint 16 1 8\npoint 2 0 1\npoint 33 1 16\npoint 0 0 1\nend\n",
        "point 17 0 8 open thin\npoint 16 1 8 open depth witness\npoint 2 0 1 open memory\npoint 33 1 16 open memory\npoint 0 0 1 beyond\n",
    ),
    (
        "srs 1\npolygon 3\nge -1 -1 8\nge 1 -1 8\nge 0 1 8\nlimits 1 2 16\nleft cells witness\nend\npoint 0 0 1\nend\n",
        "point 0 0 1 open cells witness\n",
    ),
    (
        "srs 1\npolygon 3\nge -1 -1 8\nge 1 -1 8\nge 0 1 8\nlimits 1 2 16\nleft cells cycle\nend\npoint 0 0 1\nend\n",
        "point 0 0 1 open cells cycle\n",
    ),
    (
        "srs 1\npolygon 3\nge -1 -1 8\nge 1 -1 8\nge 0 1 8\nlimits 1 64 16\ncut 0 1 0\nleft depth cycle\nleft depth cycle\nend\npoint 0 0 1\npoint 0 -1 16\nend\n",
        "point 0 0 1 open depth cycle\npoint 0 -1 16 open depth cycle\n",
    ),
    (
        "srs 1\npolygon 3\nge -1 0 8\nge 0 -1 8\nge 1 0 8\nlimits 2 64 16\ncut 0 1 0\ncut 1 0 0\nin 5\nw -1 0 3\nw 0 -1 4\nw 0 0 0\nw 0 1 2\nw 1 0 1\nout 2 0 1\ncut 1 1 0\nin 9\nw -1 -1 5\nw -1 0 4\nw -1 1 3\nw 0 -1 5\nw 0 0 0\nw 0 1 3\nw 1 -1 5\nw 1 0 1\nw 1 1 2\nleft memory\nend\nregion 3\nge -1 -1 1\nge 1 -1 1\nge 0 1 1\nregion 3\nge 8 -2 128\nge 10 -2 128\nge 10 -1 128\nregion 3\nge 1 1 1\nge 2 1 1\nge 1 2 1\nend\n",
        "region in out open beyond\nregion in\nregion beyond\n",
    ),
    (
        "srs 1\npolygon 3\nge 0 0 1\nge 1 0 8\nge 0 1 8\nlimits 0 1 16\nleft memory\nend\norbit 0 0 1 0 0 0\norbit 1 0 1 1 1 0\norbit 4 4 1 137438953472 137438953472 5\norbit 4 4 1 137438953472 137438953472 0\norbit 1 -1 4 1 1 1\norbit 1 -1 4 1 1 2\norbit -1 -1 2 1 1 0\norbit 1 1 1 1 0 100000\norbit 1 0 1 3 5 100000\norbit 3 1 2 7 -4 50\norbit 4398046511104 -4398046511104 1099511627776 1 0 100\nend\n",
        "orbit zero 0\norbit spent\norbit wide 1\norbit spent\norbit spent\norbit zero 2\norbit spent\norbit loop 0 3\norbit loop 0 4\norbit spent\norbit wide 32\n",
    ),
];

// Questions of a certificate with a node that doesn't prove itself.
const BAD: [(&str, &str); 3] = [
    (
        "srs 1\npolygon 3\nge 0 0 1\nge 1 0 8\nge 0 1 8\nlimits 0 1 16\nout 1 1\nend\npoint 0 0 1\nend\n",
        "line 7 cycle 0\n",
    ),
    (
        "srs 1\npolygon 3\nge 0 0 1\nge 1 0 8\nge 0 1 8\nlimits 0 1 16\nout 1 1\nend\nend\n",
        "line 7 cycle 0\n",
    ),
    (
        "srs 1\npolygon 3\nge -1 -1 8\nge 1 -1 8\nge 0 1 8\nlimits 1 3 16\nleft cells cycle\nend\norbit 0 0 1 0 0 0\nregion 3\nge 1 1 1\nge 2 1 1\nge 1 2 1\nend\n",
        "line 7 budget\n",
    ),
];

// No questions: each slip behind the open certificate.
const TORN: [(&str, &str); 28] = [
    ("fresh\n", "refused line 9 word\n"),
    ("count\nend\n", "refused line 9 word\n"),
    ("point 1 1\nend\n", "refused line 9 word\n"),
    ("point 1 1 2 3\nend\n", "refused line 9 word\n"),
    ("point 1 1 x\nend\n", "refused line 9 number\n"),
    ("point 01 1 2\nend\n", "refused line 9 number\n"),
    ("point 1 1 0\nend\n", "refused line 9 range\n"),
    ("point 1 1 1099511627777\nend\n", "refused line 9 range\n"),
    ("point 4398046511105 0 1\nend\n", "refused line 9 range\n"),
    ("point 0 -4398046511105 1\nend\n", "refused line 9 range\n"),
    ("region 2\nend\n", "refused line 9 count\n"),
    ("region 17\nend\n", "refused line 9 count\n"),
    (
        "region 3\nge 0 0 1\nge 1 0 8\nend\n",
        "refused line 12 word\n",
    ),
    (
        "region 3\nge 0 0 1\nge 1 0 8\nge 1 0 4\nend\n",
        "refused line 10 turn\n",
    ),
    (
        "region 3\nge 0 0 1\nge 1 0 0\nge 1 1 4\nend\n",
        "refused line 11 range\n",
    ),
    ("orbit 5 0 1 0 0 0\nend\n", "refused line 9 range\n"),
    ("orbit 1 0 1 0 0 100001\nend\n", "refused line 9 range\n"),
    ("orbit 1 0 1 0 0 -1\nend\n", "refused line 9 range\n"),
    (
        "orbit 0 0 1 137438953473 0 1\nend\n",
        "refused line 9 range\n",
    ),
    (
        "orbit 0 0 1099511627777 0 0 1\nend\n",
        "refused line 9 range\n",
    ),
    ("orbit 0 0 1 0 0\nend\n", "refused line 9 word\n"),
    ("orbit 0 0 1 0 +0 1\nend\n", "refused line 9 number\n"),
    ("point 1 1 2\nend 1\n", "refused line 10 word\n"),
    ("point 1 1 2\nend", "refused line 10 missing\n"),
    ("end\nx", "refused line 10 tail\n"),
    ("end\nend\n", "refused line 10 tail\n"),
    ("point 1 1 2\n\nend\n", "refused line 10 word\n"),
    ("ENDX\n", "refused line 9 word\n"),
];

// Texts with a slip in the certificate, or in the questions of another one.
const TORN_BEFORE: [(&str, &str); 6] = [
    (
        "srs 1\npolygon 3\nge 0 0 1\nge 1 0 8\nge 0 1 8\nlimits 0 1 16\nleft memory\nend\n",
        "refused line 9 missing\n",
    ),
    ("", "refused line 1 missing\n"),
    ("srs 2\n", "refused line 1 version\n"),
    (
        "srs 1\npolygon 3\nge 0 0 1\nge 1 0 8\nge 0 1 8\nlimits 0 1 16\ncut 0 1 0\nend\nend\n",
        "refused line 7 count\n",
    ),
    (
        "srs 1\npolygon 3\nge 0 0 1\ngt 1 0 8\nge 0 1 8\nlimits 0 1 16\nin 9\nw -1 -1 4\nw -1 0 3\nw -1 0 3\nw -1 1 3\nw 0 -1 4\nw 0 0 0\nw 0 1 2\nw 1 -1 4\nw 1 0 1\nw 1 1 2\nend\nend\n",
        "refused line 10 order\n",
    ),
    (
        "srs 1\npolygon 3\nge 0 0 1\nge 1 0 8\nge 0 1 8\nlimits 0 1 16\nout 1 1\nend\npoint 0 0 0\nend\n",
        "refused line 9 range\n",
    ),
];

#[test]
fn answers(rt: HostRuntime) -> Result<(), Fail> {
    for (head, rows, status) in [
        (SPLIT, &ASKED[..], Status::Done),
        ("", &OTHERS[..], Status::Done),
        ("", &BAD[..], Status::Bad),
    ] {
        assert_eq!(rt;
            first_other_of(rt.alloc(), "ask", head, rows, status)?,
            None
        );
    }
    Ok(())
}

#[test]
fn torn_questions(rt: HostRuntime) -> Result<(), Fail> {
    for (head, rows) in [(OPEN, &TORN[..]), ("", &TORN_BEFORE[..])] {
        assert_eq!(rt;
            first_other_of(rt.alloc(), "ask", head, rows, Status::Refused)?,
            None
        );
    }
    Ok(())
}
