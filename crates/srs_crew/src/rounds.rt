// One round.
ghost use Rattle.std.specs.Prelude.{◌≡◌, ◌<◌, ◌≤◌, length, IfOk, OnOk, None};
ghost use Rattle.srs_turn.specs.Prefixes.{Begins};
ghost use Rattle.srs_turn.specs.Passes.{IsPassOf};
ghost use Rattle.srs_atlas.specs.Books.{IsLawful, waiting_in};
ghost use Rattle.srs_crew.specs.Rounds.{IsRound, AreWork, AreDone};
ghost use Rattle.srs_crew.specs.Rounds.{MayStart, WasPlanRound, IsJobDone};
ghost use Rattle.srs_crew.specs.Telling.{AreToldIn};

use crate::cells::of_round;
use crate::sessions::crew_and_sessions;
use crate::single::settle;
use crate::workers::Shift;
use srs_atlas::{Atlas, AtlasPass, PendingList};
use srs_claim::Claims;
use srs_num::NoMemory;
use srs_path::Last;
use srs_refine::Refiner;
use srs_session::{FreeGate, Gate};
use srs_tree::{Script, Transcripts};
use std::alloc::Global;
use std::sync::Wait;
use std::thread::Threads;

/// What is to be done: the round, from 0 to 48, which limit is spent for its cells (one is, in
/// round 48), and how many workers there are, from 1 to 16.
#[derive(Clone, Copy, Debug, Drop)]
pub struct Job {
    pub round: u32,
    pub last: Option<Last>,
    pub workers: u32,
}

/// Refines the cells of the round, by 1 to 16 workers beside each other: each cell of the round
/// that waited when the call began has then an event, and with a plan each cell of the round. Each
/// worker calls the gate before each commit. Beside the workers each session that has a segment at
/// this round is played by a thread of its own, which calls the gate as 101 and its place. The
/// transcripts are in the order of the sessions, and empty where there is no such segment. An `Err`
/// is want of memory; the history is lawful then too.
pub fn level<R: Threads + Wait + Sync, G: Gate>(
    rt: &R,
    alloc: Global,
    atlas: &Atlas,
    pass: &mut AtlasPass,
    job: &Job,
    script: &Script,
    gate: &G,
) -> Result<Transcripts, NoMemory>
    requires own { IsPassOf atlas.now pass.old }
    requires workers { (1 ≤ job.now.workers) × (job.now.workers ≤ 16) }
    requires room { job.now.last ≡ None → job.now.round < 48 }
    requires plan { MayStart atlas.now.fixed job.now pass.old.seen }
    ensures own { IsPassOf atlas.now pass.new }
    ensures seen { Begins pass.old.seen pass.new.seen }
    ensures lawful { IsLawful atlas.now.fixed pass.new.seen }
    ensures done { OnOk result (IsJobDone atlas.now.fixed job.now pass.old.seen pass.new.seen) }
    ensures told { IfOk result
        (AreToldIn atlas.now.fixed.root pass.old.seen pass.new.seen job.now.round script.now) }
{
    let waiting = atlas.pending(rt, alloc, pass)?;
    let cells = of_round(alloc, &waiting, job.round)?;
    let told = beside(rt, alloc, atlas, pass, cells, job, script, gate);
    // What a session has seen is known to be lawful only by another step under the turn.
    rest(rt, alloc, atlas, pass, job)?;
    told
}

// Workers draw from the cells, and sessions are played. An `Err` is want of memory.
fn beside<R: Threads + Wait + Sync, G: Gate>(
    rt: &R,
    alloc: Global,
    atlas: &Atlas,
    pass: &mut AtlasPass,
    cells: PendingList,
    job: &Job,
    script: &Script,
    gate: &G,
) -> Result<Transcripts, NoMemory>
    requires own { IsPassOf atlas.now pass.old }
    requires workers { (1 ≤ job.now.workers) × (job.now.workers ≤ 16) }
    requires few { length cells ≤ 65536 }
    requires lawful { IsLawful atlas.now.fixed pass.old.seen }
    requires work { AreWork atlas.now.fixed pass.old.seen job.now.last cells }
    ensures own { IsPassOf atlas.now pass.new }
    ensures seen { Begins pass.old.seen pass.new.seen }
    ensures told { IfOk result
        (AreToldIn atlas.now.fixed.root pass.old.seen pass.new.seen job.now.round script.now) }
{
    let workers = at_work(job.workers, cells.len());
    let Ok((claims, seat)) = Claims::new(alloc, cells.len(), workers as u64) else {
        return Err(NoMemory);
    };
    let first = atlas.split_pass(pass);
    let shift = Shift {
        alloc,
        cells,
        last: job.last,
        claims,
        round: job.round,
        workers,
    };
    let (back, told) = crew_and_sessions(
        rt,
        atlas,
        &shift,
        first,
        seat,
        script,
        gate,
        script.len(),
    );
    atlas.join_pass(pass, back);
    told
}

// How many of the workers are started: no more than there are cells, and at least one.
fn at_work(workers: u32, cells: u64) -> u32
    requires { 1 ≤ workers }
    ensures { (1 ≤ result) × (result ≤ workers) }
{
    if cells < workers as u64 {
        (cells as u32).max(1)
    } else {
        workers
    }
}

// Settles the cells of the round that still wait. An `Err` is want of memory.
fn rest<R: Wait>(
    rt: &R,
    alloc: Global,
    atlas: &Atlas,
    pass: &mut AtlasPass,
    job: &Job,
) -> Result<(), NoMemory>
    requires own { IsPassOf atlas.now pass.old }
    requires room { job.now.last ≡ None → job.now.round < 48 }
    requires plan { WasPlanRound atlas.now.fixed pass.old.seen job.now.round job.now.last }
    ensures own { IsPassOf atlas.now pass.new }
    ensures seen { Begins pass.old.seen pass.new.seen }
    ensures lawful { IsLawful atlas.now.fixed pass.new.seen }
    ensures done { OnOk result (IsJobDone atlas.now.fixed job.now pass.old.seen pass.new.seen) }
{
    let waiting = atlas.pending(rt, alloc, pass)?;
    settle_all(rt, alloc, atlas, pass, &waiting, job)
}

// Settles the cells of the round. An `Err` is want of memory.
fn settle_all<R: Wait>(
    rt: &R,
    alloc: Global,
    atlas: &Atlas,
    pass: &mut AtlasPass,
    cells: &PendingList,
    job: &Job,
) -> Result<(), NoMemory>
    requires own { IsPassOf atlas.now pass.old }
    requires lawful { IsLawful atlas.now.fixed pass.old.seen }
    requires round { IsRound atlas.now.fixed pass.old.seen job.now.round job.now.last }
    requires waiting { cells.now ≡ waiting_in atlas.now.fixed.root pass.old.seen }
    ensures own { IsPassOf atlas.now pass.new }
    ensures seen { Begins pass.old.seen pass.new.seen }
    ensures lawful { IsLawful atlas.now.fixed pass.new.seen }
    ensures done { OnOk result (AreDone cells.now (length cells.now) job.now.round pass.new.seen) }
{
    for i in 0..cells.len() {
        let cell = cells.get(i);
        if cell.path.len() == job.round {
            let mut refiner = Refiner::new(alloc, atlas.w())?;
            settle(
                rt,
                alloc,
                atlas,
                pass,
                &mut refiner,
                cell,
                job.last,
                &FreeGate,
                0,
                i,
            )?;
        }
    }
    Ok(())
}
