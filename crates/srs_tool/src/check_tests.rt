// Runs of `check` over memory.
use crate::runs::first_other_of;
use crate::status::Status;
use std::test::Fail;

// Certificates each node of which proves itself: as they are printed; with more pairs than the
// witnesses; with ranks greater than needed; with leaves that nothing more is asked of.
const VALID: [(&str, &str); 7] = [
    (
        "srs 1\npolygon 3\nge 0 0 1\nge 1 0 8\nge 0 1 8\nlimits 0 1 16\nin 9\nw -1 -1 4\nw -1 0 3\nw -1 1 3\nw 0 -1 4\nw 0 0 0\nw 0 1 2\nw 1 -1 4\nw 1 0 1\nw 1 1 2\nend\n",
        "valid cells 1 in 1 out 0 cut 0 left 0\n",
    ),
    (
        "srs 1\npolygon 3\nge -1 0 8\nge 0 -1 8\nge 1 0 8\nlimits 2 64 16\ncut 0 1 0\ncut 1 0 0\nin 5\nw -1 0 3\nw 0 -1 4\nw 0 0 0\nw 0 1 2\nw 1 0 1\nout 2 0 1\ncut 1 1 0\nin 9\nw -1 -1 5\nw -1 0 4\nw -1 1 3\nw 0 -1 5\nw 0 0 0\nw 0 1 3\nw 1 -1 5\nw 1 0 1\nw 1 1 2\nout 1 1\nend\n",
        "valid cells 7 in 2 out 2 cut 3 left 0\n",
    ),
    (
        "srs 1\npolygon 3\ngt -1 -1 2\ngt 0 0 1\nge -1 0 2\nlimits 0 1 16\nout 1 1\nend\n",
        "valid cells 1 in 0 out 1 cut 0 left 0\n",
    ),
    (
        "srs 1\npolygon 3\nge -1 0 8\nge 0 -1 8\nge 1 0 8\nlimits 2 64 16\ncut 0 1 0\ncut 1 0 0\nin 9\nw -1 -1 4\nw -1 0 3\nw -1 1 3\nw 0 -1 4\nw 0 0 0\nw 0 1 2\nw 1 -1 4\nw 1 0 1\nw 1 1 2\nout 2 0 1\ncut 1 1 0\nin 9\nw -1 -1 5\nw -1 0 4\nw -1 1 3\nw 0 -1 5\nw 0 0 0\nw 0 1 3\nw 1 -1 5\nw 1 0 1\nw 1 1 2\nout 1 1\nend\n",
        "valid cells 7 in 2 out 2 cut 3 left 0\n",
    ),
    (
        "srs 1\npolygon 3\nge 0 0 1\nge 1 0 8\nge 0 1 8\nlimits 0 1 16\nin 9\nw -1 -1 40\nw -1 0 30\nw -1 1 30\nw 0 -1 40\nw 0 0 0\nw 0 1 20\nw 1 -1 40\nw 1 0 10\nw 1 1 20\nend\n",
        "valid cells 1 in 1 out 0 cut 0 left 0\n",
    ),
    (
        "srs 1\npolygon 3\nge 2 0 1\nge 17 0 8\nge 16 1 8\nlimits 2 64 64\ncut 8 0 -17\nleft thin\ncut 0 8 -1\nleft depth witness\nleft memory\nend\n",
        "valid cells 5 in 0 out 0 cut 2 left 3\n",
    ),
    (
        "srs 1\npolygon 3\nge -1 -1 8\nge 1 -1 8\nge 0 1 8\nlimits 1 2 16\nleft cells witness\nend\n",
        "valid cells 1 in 0 out 0 cut 0 left 1\n",
    ),
];

// Certificates with a node that doesn't prove itself.
const BAD: [(&str, &str); 9] = [
    (
        "srs 1\npolygon 3\nge 0 0 1\nge 1 0 8\nge 0 1 8\nlimits 0 1 16\nin 8\nw -1 -1 4\nw -1 0 3\nw -1 1 3\nw 0 -1 4\nw 0 0 0\nw 0 1 2\nw 1 -1 4\nw 1 0 1\nend\n",
        "line 7 closed -1 1 1\n",
    ),
    (
        "srs 1\npolygon 3\nge 0 0 1\nge 1 0 8\nge 0 1 8\nlimits 0 1 16\nin 9\nw -1 -1 4\nw -1 0 3\nw -1 1 3\nw 0 -1 4\nw 0 0 0\nw 0 1 2\nw 1 -1 4\nw 1 0 1\nw 1 1 1\nend\n",
        "line 7 fall 1 1 0\n",
    ),
    (
        "srs 1\npolygon 3\nge 0 0 1\nge 1 0 8\nge 0 1 8\nlimits 0 1 16\nin 8\nw -1 -1 4\nw -1 0 3\nw -1 1 3\nw 0 -1 4\nw 0 0 0\nw 0 1 2\nw 1 -1 4\nw 1 1 2\nend\n",
        "line 7 unit 1 0\n",
    ),
    (
        "srs 1\npolygon 3\nge 0 0 1\nge 1 0 8\nge 0 1 8\nlimits 0 1 16\nout 1 1\nend\n",
        "line 7 cycle 0\n",
    ),
    (
        "srs 1\npolygon 3\nge -1 -1 2\nge 0 0 1\nge -1 0 2\nlimits 0 1 16\nout 1 1\nend\n",
        "line 7 cycle 0\n",
    ),
    (
        "srs 1\npolygon 3\nge -1 -1 8\nge 1 -1 8\nge 0 1 8\nlimits 1 1 16\nleft depth cycle\nend\n",
        "line 7 budget\n",
    ),
    (
        "srs 1\npolygon 3\nge -1 -1 8\nge 1 -1 8\nge 0 1 8\nlimits 1 3 16\nleft cells cycle\nend\n",
        "line 7 budget\n",
    ),
    (
        "srs 1\npolygon 3\nge 0 0 1\nge 1 0 8\nge 0 1 8\nlimits 1 64 16\ncut 0 1 0\nleft depth cycle\nleft depth cycle\nend\n",
        "line 7 proper\n",
    ),
    (
        "srs 1\npolygon 3\nge 2 0 1\nge 17 0 8\nge 16 1 8\nlimits 2 64 64\ncut 8 0 -17\nleft thin\ncut 0 8 -1\nleft memory\nleft thin\nend\n",
        "line 11 budget\n",
    ),
];

// Texts that are no certificates.
const TORN: [(&str, &str); 7] = [
    (
        "srs 1\npolygon 3\nge 0 0 1\nge 1 0 8\nge 0 1 8\nlimits 0 1 16\nin 9\nw -1 -1 4\nw -1 0 3\nw -1 1 3\nw 0 -1 4\nw 0 0 0\nw 0 1 2\nw 1 -1 4\nw 1 0 1\nw 1 1 2\n",
        "refused line 17 missing\n",
    ),
    (
        "srs 1\npolygon 3\nge 0 0 1\nge 1 0 8\nge 0 1 8\nlimits 0 1 16\nin 9\nw -1 -1 4\nw -1 0 3\nw -1 1 3\nw 0 -1 4\nw 0 0 0\nw 0 1 2\nw 1 -1 4\nw 1 0 1\nw 1 1 2\nend\nx\n",
        "refused line 18 tail\n",
    ),
    (
        "srs 1\npolygon 3\nge 0 0 1\nge 1 0 8\nge 0 1 8\nlimits 0 1 16\nin 10\nw -1 -1 4\nw -1 0 3\nw -1 0 3\nw -1 1 3\nw 0 -1 4\nw 0 0 0\nw 0 1 2\nw 1 -1 4\nw 1 0 1\nw 1 1 2\nend\n",
        "refused line 10 order\n",
    ),
    (
        "srs 1\npolygon 3\nge 0 0 1\nge 1 0 8\nge 0 1 8\nlimits 0 1 16\nin 9\nw -1 -1 04\nw -1 0 3\nw -1 1 3\nw 0 -1 4\nw 0 0 0\nw 0 1 2\nw 1 -1 4\nw 1 0 1\nw 1 1 2\nend\n",
        "refused line 8 number\n",
    ),
    (
        "srs 2\npolygon 3\nge 0 0 1\nge 1 0 8\nge 0 1 8\nlimits 0 1 16\nin 9\nw -1 -1 4\nw -1 0 3\nw -1 1 3\nw 0 -1 4\nw 0 0 0\nw 0 1 2\nw 1 -1 4\nw 1 0 1\nw 1 1 2\nend\n",
        "refused line 1 version\n",
    ),
    (
        "polygon 3\nge 0 0 1\nge 1 0 8\nge 0 1 8\nend\n",
        "refused line 1 word\n",
    ),
    ("", "refused line 1 missing\n"),
];

#[test]
fn valid_certificates(rt: HostRuntime) -> Result<(), Fail> {
    assert_eq!(rt;
        first_other_of(rt.alloc(), "check", "", &VALID, Status::Done)?,
        None
    );
    Ok(())
}

#[test]
fn bad_certificates(rt: HostRuntime) -> Result<(), Fail> {
    assert_eq!(rt;
        first_other_of(rt.alloc(), "check", "", &BAD, Status::Bad)?,
        None
    );
    Ok(())
}

#[test]
fn torn_certificates(rt: HostRuntime) -> Result<(), Fail> {
    assert_eq!(rt;
        first_other_of(rt.alloc(), "check", "", &TORN, Status::Refused)?,
        None
    );
    Ok(())
}
