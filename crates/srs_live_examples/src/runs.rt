// Runs of a crew.
ghost use Rattle.std.specs.Prelude.{◌≤◌};

use crate::cells::{SPLIT, TRIANGLE, cell_of};
use srs_crew::run_levels;
use srs_path::Limits;
use srs_rounds::rounds;
use srs_session::FreeGate;
use srs_tree::{Journal, Script, Version};
use std::alloc::Global;
use std::sync::Wait;
use std::test::Fail;
use std::thread::Threads;

// How many events a run makes: its version has the cells of the plan, and they come in rounds.
fn events_of_run<R: Threads + Wait + Sync>(
    rt: &R,
    alloc: Global,
    polygon: &str,
    limits: Limits,
    workers: u32,
) -> Result<u64, Fail>
    requires { (1 ≤ workers) × (workers ≤ 16) }
{
    let plan = rounds(alloc, cell_of(alloc, polygon)?, &limits)?;
    let cell = cell_of(alloc, polygon)?;
    let run = run_levels(
        rt,
        alloc,
        cell,
        limits,
        workers,
        &Script::new(alloc),
        &FreeGate,
    )?;
    if run.transcripts.len() > 0 || !is_in_rounds(&run.journal) {
        Err("the events come in rounds")?;
    }
    if !have_same_cells(alloc, &run.version, &plan)? {
        Err("the cells are those of the plan")?;
    }
    Ok(run.journal.len())
}

// Whether the lengths of the paths never fall.
fn is_in_rounds(journal: &Journal) -> bool {
    let mut last = 0;
    for event in journal.as_slice() {
        if event.path.len() < last {
            return false;
        }
        last = event.path.len();
    }
    true
}

// Whether the outcomes of both stand at the same paths.
fn have_same_cells(alloc: Global, one: &Version, other: &Version) -> Result<bool, Fail> {
    let these = one.preorder(alloc)?;
    let those = other.preorder(alloc)?;
    if these.len() != those.len() {
        return Ok(false);
    }
    for (this, that) in these.as_slice().iter().zip(those.as_slice()) {
        if !this.path.same(&that.path) {
            return Ok(false);
        }
    }
    Ok(true)
}

#[test]
fn runs_of_split_triangle(rt: HostRuntime) -> Result<(), Fail> {
    let limits = Limits::new(2, 64, 16).ok_or("they are limits")?;
    assert_eq!(rt; events_of_run(&rt, rt.alloc(), SPLIT, limits, 1)?, 7);
    assert_eq!(rt; events_of_run(&rt, rt.alloc(), SPLIT, limits, 3)?, 7);
    assert_eq!(rt; events_of_run(&rt, rt.alloc(), SPLIT, limits, 16)?, 7);
    Ok(())
}

#[test]
fn runs_of_whole_polygon(rt: HostRuntime) -> Result<(), Fail> {
    let limits = Limits::new(5, 64, 128).ok_or("they are limits")?;
    let one = events_of_run(&rt, rt.alloc(), TRIANGLE, limits, 1)?;
    assert_eq!(rt; events_of_run(&rt, rt.alloc(), TRIANGLE, limits, 3)?, one);
    assert_eq!(rt; events_of_run(&rt, rt.alloc(), TRIANGLE, limits, 16)?, one);
    println!(rt; "{one}")?;
    Ok(())
}
