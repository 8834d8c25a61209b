// Runs of `live` with sessions over memory.
use crate::gates::{InTurns, Meeting};
use crate::live_tests::{SPLIT_CERTIFICATE, is_of_one_worker};
use crate::runs::{gated_top, play_top};
use crate::status::Status;
use std::alloc::Global;
use std::sync::Wait;
use std::test::Fail;
use std::thread::Threads;

const POLYGON: &str = "polygon 3\nge -1 0 8\nge 0 -1 8\nge 1 0 8\n";

const AT_THE_END: &str =
    "session\nat 3\npoint 0 0 1\npoint -1 0 16\npoint 1 -1 16\npoint 0 -1 16\npoint 1 1 16\nregion 3\ngt -1 0 8\ngt 0 -1 8\ngt 1 0 8\norbit -1 0 16 5 7 100\ncount\nend\n";

const TOLD_AT_THE_END: &str =
    "session 1\nat 3\nversion 7\npoint 0 0 1 in\npoint -1 0 16 out 2 0 1\npoint 1 -1 16 in\npoint 0 -1 16 out 1 1\npoint 1 1 16 beyond\nregion in out\norbit loop 2 1\ncount 7\nend\n";

// Whether the run of one worker with these sessions behind the polygon writes the events, one of
// what may be told, and the certificate.
fn tells<R: Threads + Wait + Sync>(
    rt: &R,
    alloc: Global,
    sessions: &str,
    told: &[&str],
) -> Result<bool, Fail> {
    let input = [POLYGON.as_bytes(), sessions.as_bytes()];
    let seen = play_top(rt, alloc, "live 2 64 16 1", &input)?;
    Ok(seen.status == Status::Done && is_of_one_worker(seen.sink.bytes(), told))
}

#[test]
fn live_split_triangle(rt: HostRuntime) -> Result<(), Fail> {
    assert!(rt; tells(&rt, rt.alloc(), AT_THE_END, &[TOLD_AT_THE_END])?);
    Ok(())
}

// A second session that asks nothing, and one whose segments ask only for what no schedule changes.
const TWO: &str = "session\nat 0\norbit -1 0 16 5 7 100\nat 3\nfresh\nat 99\ncount\nsession\nend\n";

// The first version is 0, or 1 where the worker was faster.
const TOLD_TWO: [&str; 2] = [
    "session 1\nat 0\nversion 0\norbit loop 2 1\nat 3\nversion 7\nversion 7\nat 99\nversion 7\ncount 7\nsession 2\nend\n",
    "session 1\nat 0\nversion 1\norbit loop 2 1\nat 3\nversion 7\nversion 7\nat 99\nversion 7\ncount 7\nsession 2\nend\n",
];

#[test]
fn segments_with_and_behind_the_rounds(rt: HostRuntime) -> Result<(), Fail> {
    assert!(rt; tells(&rt, rt.alloc(), TWO, &TOLD_TWO)?);
    Ok(())
}

const TWO_COUNTS: &str = "session\nat 1\ncount\ncount\nend\n";

// Two workers and a session are in the gate at the same time.
#[test]
fn beside_each_other(rt: HostRuntime) -> Result<(), Fail> {
    let gate = Meeting::new();
    let input = [POLYGON.as_bytes(), TWO_COUNTS.as_bytes()];
    let seen = gated_top(&rt, rt.alloc(), "live 2 64 16 2", &input, &gate)?;
    assert!(rt; gate.held());
    assert_eq!(rt; seen.status, Status::Done);
    assert!(rt; seen.sink.bytes().ends_with(SPLIT_CERTIFICATE.as_bytes()));
    Ok(())
}

const THREE_COUNTS: &str = "session\nat 1\ncount\ncount\ncount\nend\n";

const TOLD_IN_TURNS: [&str; 2] = [
    "session 1\nat 1\nversion 1\ncount 1\ncount 2\ncount 2\nend\n",
    "session 1\nat 1\nversion 1\ncount 1\ncount 2\ncount 3\nend\n",
];

// The session counts what the worker has committed between its questions.
#[test]
fn in_turns(rt: HostRuntime) -> Result<(), Fail> {
    let gate = InTurns::new();
    let input = [POLYGON.as_bytes(), THREE_COUNTS.as_bytes()];
    let seen = gated_top(&rt, rt.alloc(), "live 2 64 16 1", &input, &gate)?;
    assert!(rt; gate.held());
    assert_eq!(rt; seen.status, Status::Done);
    assert!(rt; is_of_one_worker(seen.sink.bytes(), &TOLD_IN_TURNS));
    Ok(())
}
