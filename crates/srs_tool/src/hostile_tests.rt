// Texts that are none of their command, or whose node fails, by one line each.
use crate::runs::{first_other_of, first_other_top_of, play};
use crate::status::Status;
use std::alloc::Global;
use std::test::Fail;

// The certificate of one leaf with one line changed, two lines in one row.
const HOSTILE: [(&str, &str); 11] = [
    (
        "srs 9\npolygon 3\nge -2 -1 4\nge -1 -2 4\nge -1 -1 4\nlimits 0 1 16\nout 1 1\nend\n",
        "refused line 1 version\n",
    ),
    (
        "srs 1\npolygon 99999999999999999999\nge -2 -1 4\nge -1 -2 4\nge -1 -1 4\nlimits 0 1 16\nout 1 1\nend\n",
        "refused line 2 number\n",
    ),
    (
        "srs 1\npolygon 17\nge -2 -1 4\nge -1 -2 4\nge -1 -1 4\nlimits 0 1 16\nout 1 1\nend\n",
        "refused line 2 count\n",
    ),
    (
        "srs 1\npolygon 3\nge -2 -1 4\nge -1 -2 4\nge -1 -1 4\nlimits 0 1 16385\nout 1 1\nend\n",
        "refused line 6 range\n",
    ),
    (
        "srs 1\npolygon 3\nge -2 -1 4\nge -1 -2 4\nge -1 -1 4\nlimits 0 1 16\nout\nend\n",
        "refused line 7 word\n",
    ),
    (
        "srs 1\npolygon 3\nge -2 -1 4\nge -1 -2 4\nge -1 -1 4\nlimits 0 1 16\nout  1 1\nend\n",
        "refused line 7 number\n",
    ),
    (
        "srs 1\npolygon 3\nge -2 -1 4\nge -1 -2 4\nge -1 -1 4\nlimits 0 1 16\nout 2 1\nend\n",
        "refused line 7 count\n",
    ),
    (
        "srs 1\npolygon 3\nge -2 -1 4\nge -1 -2 4\nge -1 -1 4\nlimits 0 1 16\nin 17\nend\n",
        "refused line 7 count\n",
    ),
    (
        "srs 1\npolygon 3\nge -2 -1 4\nge -1 -2 4\nge -1 -1 4\nlimits 0 1 16\ncut 0 1 0\nend\n",
        "refused line 7 count\n",
    ),
    (
        "srs 1\npolygon 3\nge -2 -1 4\nge -1 -2 4\nge -1 -1 4\nlimits 0 64 16\ncut 0 1 0\nend\n",
        "refused line 7 range\n",
    ),
    (
        "srs 1\npolygon 3\nge -2 -1 4\nge -1 -2 4\nge -1 -1 4\nlimits 0 1 16\nout 1 0\nend\n",
        "refused line 7 range\n",
    ),
];

#[test]
fn hostile_lines(rt: HostRuntime) -> Result<(), Fail> {
    let alloc = rt.alloc();
    assert_eq!(rt;
        first_other_of(alloc, "check", "", &HOSTILE, Status::Refused)?,
        None
    );
    assert_eq!(rt;
        first_other_of(alloc, "check", "", &UNSPENT, Status::Bad)?,
        None
    );
    Ok(())
}

const UNSPENT: [(&str, &str); 1] = [(
    "srs 1\npolygon 3\nge -2 -1 4\nge -1 -2 4\nge -1 -1 4\nlimits 0 1 16\nleft cells cycle\nend\n",
    "line 7 budget\n",
)];

// The polygon of that certificate, and what stands behind it in inputs of `live`.
const POLYGON: &str = "polygon 3\nge -2 -1 4\nge -1 -2 4\nge -1 -1 4\n";

const HOSTILE_SESSIONS: [(&str, &str); 9] = [
    ("session\ncount\n", "refused line 6 word\n"),
    ("session\nat 100\n", "refused line 6 range\n"),
    ("session\nat 3\nat 3\n", "refused line 7 order\n"),
    ("session\nat 0\npoint 0 0 0\n", "refused line 7 range\n"),
    (
        "session\nat 0\norbit 5 0 1 0 0 1\n",
        "refused line 7 range\n",
    ),
    (
        "session\nat 0\nregion 3\nge 0 0 1\nge 1 0 8\nge 1 0 4\n",
        "refused line 8 turn\n",
    ),
    (
        "session\nsession\nsession\nsession\nsession\nsession\nsession\nsession\nsession\n",
        "refused line 13 count\n",
    ),
    ("End\n", "refused line 5 word\n"),
    ("end", "refused line 5 missing\n"),
];

#[test]
fn hostile_sessions(rt: HostRuntime) -> Result<(), Fail> {
    let words = "live 0 1 16 1";
    assert_eq!(rt;
        first_other_top_of(
            &rt,
            rt.alloc(),
            words,
            POLYGON,
            &HOSTILE_SESSIONS,
            Status::Refused
        )?,
        None
    );
    Ok(())
}

// 48 cuts, each in the Lt part of the one before, and only leaves without memory.
const DEEP_POLYGON: &str = "srs 1\npolygon 3\nge 0 0 1\nge 1 0 1\nge 0 1 1\n";

const DEEP_TREE: &str =
    "cut 2 0 -1\nleft memory\ncut 4 0 -1\nleft memory\ncut 8 0 -1\nleft memory\ncut 16 0 -1\nleft memory\ncut 32 0 -1\nleft memory\ncut 64 0 -1\nleft memory\ncut 128 0 -1\nleft memory\ncut 256 0 -1\nleft memory\ncut 512 0 -1\nleft memory\ncut 1024 0 -1\nleft memory\ncut 2048 0 -1\nleft memory\ncut 4096 0 -1\nleft memory\ncut 8192 0 -1\nleft memory\ncut 16384 0 -1\nleft memory\ncut 32768 0 -1\nleft memory\ncut 65536 0 -1\nleft memory\ncut 131072 0 -1\nleft memory\ncut 262144 0 -1\nleft memory\ncut 524288 0 -1\nleft memory\ncut 1048576 0 -1\nleft memory\ncut 2097152 0 -1\nleft memory\ncut 4194304 0 -1\nleft memory\ncut 8388608 0 -1\nleft memory\ncut 16777216 0 -1\nleft memory\ncut 33554432 0 -1\nleft memory\ncut 67108864 0 -1\nleft memory\ncut 134217728 0 -1\nleft memory\ncut 268435456 0 -1\nleft memory\ncut 536870912 0 -1\nleft memory\ncut 1073741824 0 -1\nleft memory\ncut 2147483648 0 -1\nleft memory\ncut 4294967296 0 -1\nleft memory\ncut 8589934592 0 -1\nleft memory\ncut 17179869184 0 -1\nleft memory\ncut 34359738368 0 -1\nleft memory\ncut 68719476736 0 -1\nleft memory\ncut 137438953472 0 -1\nleft memory\ncut 274877906944 0 -1\nleft memory\ncut 0 2 -1\nleft memory\ncut 0 4 -1\nleft memory\ncut 0 8 -1\nleft memory\ncut 0 16 -1\nleft memory\ncut 0 32 -1\nleft memory\ncut 0 64 -1\nleft memory\ncut 0 128 -1\nleft memory\ncut 0 256 -1\nleft memory\ncut 0 512 -1\nleft memory\ncut 0 1024 -1\nleft memory\nleft memory\nend\n";

const DEEP: [(&str, Status, &str); 4] = [
    (
        "limits 48 97 1\n",
        Status::Done,
        "valid cells 97 in 0 out 0 cut 48 left 49\n",
    ),
    (
        "limits 48 96 1\n",
        Status::Refused,
        "refused line 101 count\n",
    ),
    (
        "limits 47 97 1\n",
        Status::Refused,
        "refused line 101 range\n",
    ),
    (
        "limits 47 96 1\n",
        Status::Refused,
        "refused line 101 count\n",
    ),
];

// The first row that `check` doesn't answer so for the deep file with these limits; none where it
// answers all.
fn first_other_depth(alloc: Global) -> Result<Option<usize>, Fail> {
    for (i, (limits, status, output)) in DEEP.iter().enumerate() {
        let input = [
            DEEP_POLYGON.as_bytes(),
            limits.as_bytes(),
            DEEP_TREE.as_bytes(),
        ];
        let seen = play(alloc, "check", &input)?;
        if seen.status != *status || seen.sink.bytes() != output.as_bytes() {
            return Ok(Some(i));
        }
    }
    Ok(None)
}

#[test]
fn deep_file(rt: HostRuntime) -> Result<(), Fail> {
    assert_eq!(rt; first_other_depth(rt.alloc())?, None);
    Ok(())
}

// A certificate whose one leaf was left for want of memory, and a question behind it.
const LEFT_MEMORY: &str =
    "srs 1\npolygon 3\nge 0 0 1\nge 1 0 8\nge 0 1 8\nlimits 0 1 16\nleft memory\nend\n";

const LEFT_MEMORY_CHECKED: [(&str, &str); 1] = [("", "valid cells 1 in 0 out 0 cut 0 left 1\n")];

const LEFT_MEMORY_ASKED: [(&str, &str); 1] = [(
    "point 1 1 32\nend\n",
    "point 1 1 32 open memory\n",
)];

#[test]
fn left_memory_leaf(rt: HostRuntime) -> Result<(), Fail> {
    let alloc = rt.alloc();
    let checked = first_other_of(
        alloc,
        "check",
        LEFT_MEMORY,
        &LEFT_MEMORY_CHECKED,
        Status::Done,
    )?;
    assert_eq!(rt; checked, None);
    let asked = first_other_of(alloc, "ask", LEFT_MEMORY, &LEFT_MEMORY_ASKED, Status::Done)?;
    assert_eq!(rt; asked, None);
    Ok(())
}
