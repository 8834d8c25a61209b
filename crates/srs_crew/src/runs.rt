// All rounds.
ghost use Rattle.std.specs.Prelude.{◌≡◌, ◌≤◌, ◌+◌, [], length, Some, IfOk, OnOk, IsTrue, MatchBool};
ghost use Rattle.srs_turn.specs.Prefixes.{Begins};
ghost use Rattle.srs_turn.specs.Passes.{IsPassOf};
ghost use Rattle.srs_tree.specs.Rounds.{AreRowsDone};
ghost use Rattle.srs_atlas.specs.Books.{IsLawful};
ghost use Rattle.srs_crew.specs.Rounds.{AreAllDone, WasAllDone};
ghost use Rattle.srs_crew.specs.Telling.{AreToldBelow};
ghost use Rattle.srs_crew.specs.Runs.{IsRun};

use crate::rounds::{Job, level};
use crate::transcripts::{ByRounds, add_round, no_round, transcripts};
use srs_atlas::{Atlas, AtlasPass};
use srs_cell::Cell;
use srs_num::NoMemory;
use srs_path::Limits;
use srs_session::Gate;
use srs_tree::{Run, Script};
use std::alloc::Global;
use std::sync::Wait;
use std::thread::Threads;

/// Refines the cell, which has at most 16 halves, round by round within the limits, by 1 to 16
/// workers, until nothing waits. Each segment of the script is played beside the workers of its
/// round; those at later rounds are played after the last one, in order of session and segment. A
/// session calls the gate as 101 and its place. An `Err` is want of memory.
pub fn run_levels<R: Threads + Wait + Sync, G: Gate>(
    rt: &R,
    alloc: Global,
    cell: Cell,
    limits: Limits,
    workers: u32,
    script: &Script,
    gate: &G,
) -> Result<Run, NoMemory>
    requires few { length cell ≤ 16 }
    requires workers { (1 ≤ workers) × (workers ≤ 16) }
    ensures { IfOk result (IsRun cell limits script.now) }
{
    let (atlas, mut pass) = Atlas::start_plan(rt, alloc, cell, limits)?;
    let mut told = no_round(alloc, script);
    let rounds = all_rounds(
        rt, alloc, &atlas, &mut pass, &limits, workers, script, &mut told, gate,
    )?;
    let transcripts = transcripts(rt, alloc, &atlas, &mut pass, script, rounds, &told, gate)?;
    let (version, journal) = atlas.finish(rt, pass);
    Ok(Run {
        version,
        journal,
        transcripts,
    })
}

// All rounds, until nothing waits: how many there were, and what the sessions were told in them
// comes to the list. An `Err` is want of memory.
fn all_rounds<R: Threads + Wait + Sync, G: Gate>(
    rt: &R,
    alloc: Global,
    atlas: &Atlas,
    pass: &mut AtlasPass,
    limits: &Limits,
    workers: u32,
    script: &Script,
    told: &mut ByRounds,
    gate: &G,
) -> Result<u32, NoMemory>
    requires own { IsPassOf atlas.now pass.old }
    requires lawful { IsLawful atlas.now.fixed pass.old.seen }
    requires workers { (1 ≤ workers) × (workers ≤ 16) }
    requires plan { atlas.now.fixed.plan ≡ Some limits.now }
    requires none { AreToldBelow atlas.now.fixed.root pass.old.seen 0 script.now told.old }
    ensures own { IsPassOf atlas.now pass.new }
    ensures all { OnOk result (WasAllDone pass.new.seen) }
    ensures told { IfOk result (λ rounds.
        AreToldBelow atlas.now.fixed.root pass.new.seen rounds script.now told.new) }
{
    for round in 0..limits.depth() + 1 {
        let ended = next_round(
            rt, alloc, atlas, pass, limits, round, workers, script, told, gate,
        )?;
        if ended {
            return Ok(round);
        }
    }
    Ok(limits.depth() + 1)
}

// One round, the rounds before it being done, and whether it has no cell: then no session is told
// anything. An `Err` is want of memory.
fn next_round<R: Threads + Wait + Sync, G: Gate>(
    rt: &R,
    alloc: Global,
    atlas: &Atlas,
    pass: &mut AtlasPass,
    limits: &Limits,
    round: u32,
    workers: u32,
    script: &Script,
    told: &mut ByRounds,
    gate: &G,
) -> Result<bool, NoMemory>
    requires own { IsPassOf atlas.now pass.old }
    requires workers { (1 ≤ workers) × (workers ≤ 16) }
    requires plan { atlas.now.fixed.plan ≡ Some limits.now }
    requires shallow { round ≤ limits.now.depth }
    requires rows { AreRowsDone pass.old.seen round }
    requires told { AreToldBelow atlas.now.fixed.root pass.old.seen round script.now told.old }
    ensures own { IsPassOf atlas.now pass.new }
    ensures lawful { IsLawful atlas.now.fixed pass.new.seen }
    ensures rows { OnOk result (AreRowsDone pass.new.seen (round + 1)) }
    ensures all { IfOk result (λ none. IsTrue none → AreAllDone pass.new.seen) }
    ensures told { IfOk result (λ none. MatchBool none
        (AreToldBelow atlas.now.fixed.root pass.new.seen round script.now told.new)
        (AreToldBelow atlas.now.fixed.root pass.new.seen (round + 1) script.now told.new)) }
{
    // Limits are within their ranges.
    let _ = limits.wits();
    let counts = atlas.counts(rt, pass, round);
    if counts.row == 0 {
        return Ok(true);
    }
    let last = limits.last(round, counts.cells, counts.row);
    let job = Job {
        round,
        last,
        workers,
    };
    let more = level(rt, alloc, atlas, pass, &job, script, gate)?;
    add_round(told, more)?;
    Ok(false)
}
