// Sessions beside a crew.
ghost use Rattle.std.specs.Prelude.{◌<◌, ◌≤◌};

use crate::cells::{SPLIT, cell_of};
use srs_atlas::Atlas;
use srs_crew::{Job, level, run_levels};
use srs_path::Limits;
use srs_session::FreeGate;
use srs_tree::{Queries, Query, Said, Script, Segment, Session, Transcript};
use std::alloc::Global;
use std::sync::Wait;
use std::test::Fail;
use std::thread::Threads;

// A segment at this round: how many outcomes there are, and the newest version.
fn segment(alloc: Global, at: u32) -> Result<Segment, Fail> {
    let mut queries = Queries::new(alloc);
    if queries.push(Query::Count).is_err() {
        Err("there is memory")?;
    }
    let _ = queries.len();
    if queries.push(Query::Fresh).is_err() {
        Err("there is memory")?;
    }
    Ok(Segment { at, queries })
}

// A session with segments at these rounds, or with none.
fn session(alloc: Global, rounds: Option<(u32, u32)>) -> Result<Session, Fail> {
    let mut session = Session::new(alloc);
    if let Some((first, second)) = rounds {
        let one = segment(alloc, first)?;
        let two = segment(alloc, second)?;
        if one.at >= two.at {
            Err("they ascend")?;
        }
        if session.push(one).is_err() || session.push(two).is_err() {
            Err("there is memory")?;
        }
    }
    Ok(session)
}

// Two sessions with segments, and one without between them.
fn script(alloc: Global) -> Result<Script, Fail> {
    let mut script = Script::new(alloc);
    for rounds in [Some((0, 2)), None, Some((2, 40))] {
        if script.len() >= 8 || script.push(session(alloc, rounds)?).is_err() {
            Err("there is memory")?;
        }
    }
    Ok(script)
}

// How much the session was told, the round that was said last, and the number that was.
fn shape(told: &Transcript) -> (u64, u64, u64) {
    let mut round = 0;
    let mut last = 0;
    for said in told.as_slice() {
        match said {
            Said::At(at) => round = *at as u64,
            Said::Version(n) | Said::Count(n) => last = *n,
            _ => {}
        }
    }
    (told.len(), round, last)
}

// The shapes of what the sessions are told in a run.
fn shapes_of_run<R: Threads + Wait + Sync>(
    rt: &R,
    alloc: Global,
    workers: u32,
) -> Result<[(u64, u64, u64); 3], Fail>
    requires { (1 ≤ workers) × (workers ≤ 16) }
{
    let limits = Limits::new(2, 64, 16).ok_or("they are limits")?;
    let cell = cell_of(alloc, SPLIT)?;
    let run = run_levels(rt, alloc, cell, limits, workers, &script(alloc)?, &FreeGate)?;
    let told = &run.transcripts;
    if told.len() != 3 {
        Err("there are three sessions")?;
    }
    Ok([shape(told.get(0)), shape(told.get(1)), shape(told.get(2))])
}

// The shapes of what the sessions are told in the first round, of one cell, without a plan.
fn shapes_of_level<R: Threads + Wait + Sync>(
    rt: &R,
    alloc: Global,
    workers: u32,
) -> Result<[(u64, u64); 3], Fail>
    requires { (1 ≤ workers) × (workers ≤ 16) }
{
    let (atlas, mut pass) = Atlas::start(rt, alloc, cell_of(alloc, SPLIT)?, 16)?;
    let job = Job {
        round: 0,
        last: None,
        workers,
    };
    let told = level(
        rt,
        alloc,
        &atlas,
        &mut pass,
        &job,
        &script(alloc)?,
        &FreeGate,
    )?;
    if told.len() != 3 || atlas.newest(&mut pass) != 1 {
        Err("there are three sessions")?;
    }
    let (first, round, _) = shape(told.get(0));
    let (third, other_round, _) = shape(told.get(2));
    Ok([(first, round), (told.get(1).len(), 0), (third, other_round)])
}

#[test]
fn told_in_a_run(rt: HostRuntime) -> Result<(), Fail> {
    // The last session's segment is played once all seven outcomes are found.
    for workers in 1..4 {
        let shapes = shapes_of_run(&rt, rt.alloc(), workers)?;
        assert_eq!(rt; (shapes[0].0, shapes[0].1), (8, 2));
        assert_eq!(rt; shapes[1], (0, 0, 0));
        assert_eq!(rt; shapes[2], (8, 40, 7));
    }
    Ok(())
}

#[test]
fn told_in_a_level(rt: HostRuntime) -> Result<(), Fail> {
    for workers in 1..4 {
        let shapes = shapes_of_level(&rt, rt.alloc(), workers)?;
        assert_eq!(rt; shapes, [(4, 0), (0, 0), (0, 0)]);
    }
    Ok(())
}
