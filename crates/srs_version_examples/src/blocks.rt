// Versions of more than one block and more than one row, and versions that were taken earlier.
use crate::parts::cell_of;
use crate::versions::{entered, start};
use srs_path::{Limits, Outcome};
use srs_rounds::rounds;
use srs_shapes::{Cut, DOWN, LEFT, OVER, RIGHT, UNDER, UP, path_of};
use srs_tree::{Journal, Version};
use std::alloc::Global;
use std::test::Fail;

// Seven paths of a tree, each with the cuts that lead to it, in the order in which their outcomes come.
const ENTRIES: [(&str, &[Cut]); 7] = [
    ("", &[]),
    ("g", &[UP]),
    ("gg", &[UP, RIGHT]),
    ("gl", &[UP, LEFT]),
    ("l", &[DOWN]),
    ("lg", &[DOWN, OVER]),
    ("ll", &[DOWN, UNDER]),
];

// The versions from the one without an outcome on, each with one outcome more.
fn versions(alloc: Global) -> Result<Vec<Version>, Fail> {
    let mut versions = Vec::new(alloc);
    let mut newest = start(alloc)?;
    for (sides, cuts) in ENTRIES {
        let next = entered(alloc, &newest, sides, cuts, None)?;
        versions.push(newest)?;
        newest = next;
    }
    versions.push(newest)?;
    Ok(versions)
}

// Whether version number i has the outcomes of the first i entries, and no others.
fn have_own_entries(versions: &[Version]) -> Result<bool, Fail> {
    for (i, version) in versions.iter().enumerate() {
        if version.count() != i as u64 {
            return Ok(false);
        }
        for (k, (sides, _)) in ENTRIES.iter().enumerate() {
            if version.outcome(path_of(sides)?).is_some() != (k < i) {
                return Ok(false);
            }
        }
    }
    Ok(true)
}

#[test]
fn older_versions_stay(rt: HostRuntime) -> Result<(), Fail> {
    let versions = versions(rt.alloc())?;
    assert_eq!(rt; versions.len(), 8);
    assert!(rt; have_own_entries(&versions)?);
    Ok(())
}

const TRIANGLE: &str = "polygon 3\nge -1 0 1\nge 1 -2 1\nge 1 2 1\nend\n";

// Depths and numbers of cells of plans, and how many cells their trees have at least: past a block
// of 64, and past a row of 4096.
const PLANS: [(u32, u32, u64); 2] = [(7, 256, 65), (14, 16384, 4097)];

fn planned(alloc: Global, depth: u32, cells: u32) -> Result<Version, Fail> {
    let cell = cell_of(alloc, TRIANGLE)?;
    if cell.region().len() > 16 {
        Err("it has three halves")?;
    }
    let limits = Limits::new(depth, cells, 16).ok_or("they are limits")?;
    Ok(rounds(alloc, cell, &limits)?)
}

// Whether the path of each event has an outcome, which is a cut where the event's is one.
fn are_entered(version: &Version, events: &Journal) -> bool {
    for i in 0..events.len() {
        let event = events.get(i);
        let is_cut = matches!(event.outcome.as_ref(), Outcome::Cut(_));
        match version.outcome(event.path) {
            Some(outcome) => {
                if matches!(outcome, Outcome::Cut(_)) != is_cut {
                    return false;
                }
            }
            None => return false,
        }
    }
    true
}

#[test]
fn versions_of_many_blocks(rt: HostRuntime) -> Result<(), Fail> {
    let alloc = rt.alloc();
    for (depth, cells, least) in PLANS {
        let version = planned(alloc, depth, cells)?;
        let events = version.preorder(alloc)?;
        assert!(rt; events.len() == version.count() && events.len() >= least);
        assert!(rt; are_entered(&version, &events));
    }
    Ok(())
}
