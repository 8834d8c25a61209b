// Sessions, which are played beside the workers.
ghost use Rattle.std.specs.Prelude.{◌≡◌, ◌≢◌, ◌<◌, ◌≤◌, ◌+◌, ◌-◌, [], ◌∷◌, ◌++◌};
ghost use Rattle.std.specs.Prelude.{take, length, Contains, IfOk, OnOk, IfSome, IfNone};
ghost use Rattle.std.specs.Thread.{IsSync};
ghost use Rattle.srs_turn.specs.Prefixes.{Begins};
ghost use Rattle.srs_turn.specs.Passes.{IsPassOf};
ghost use Rattle.srs_tree.specs.declared.sessions.Segment.{Segment};
ghost use Rattle.srs_session.specs.Playing.{IsPlayed};
ghost use Rattle.srs_crew.specs.Rounds.{MayWork};
ghost use Rattle.srs_crew.specs.Telling.{AreEarly, AreToldIn, IsOneMore};

use crate::workers::{Shift, crew};
use srs_atlas::{Atlas, AtlasPass};
use srs_claim::ClaimSeat;
use srs_num::NoMemory;
use srs_session::{Gate, play};
use srs_tree::{Script, Segment, Session, Transcript, Transcripts};
use std::alloc::Global;
use std::sync::Wait;
use std::thread::{Threads, join};

// The session at the place 0 calls the gate with this number.
pub(crate) const FIRST_SESSION: u32 = 101;

// How many segments are of rounds before this one.
pub(crate) fn segments_before(session: &Session, round: u32) -> u64
    ensures { AreEarly round result session.now }
{
    for i in 0..session.len() {
        if session.get(i).at >= round {
            return i;
        }
    }
    session.len()
}

// The segment at this round, if the session has one.
fn segment_at(session: &Session, round: u32) -> Option<&Segment>
    ensures some { IfSome result (λ s. Contains session.now s.now × (s.now.at ≡ round)) }
    ensures none { IfNone result ((s : Segment) → Contains session.now s → s.at ≢ round) }
{
    let place = segments_before(session, round);
    if place == session.len() {
        return None;
    }
    let segment = session.get(place);
    if segment.at == round {
        Some(segment)
    } else {
        None
    }
}

// Plays the segment by a pass of its own.
fn listen<R: Wait, G: Gate>(
    rt: &R,
    alloc: Global,
    atlas: &Atlas,
    mut pass: AtlasPass,
    who: u32,
    segment: &Segment,
    gate: &G,
) -> (AtlasPass, Result<Transcript, NoMemory>)
    requires { IsPassOf atlas.now pass }
    ensures own { IsPassOf atlas.now result.0 }
    ensures seen { Begins pass.seen result.0.seen }
    ensures told { IfOk result.1
        (IsPlayed atlas.now.fixed.root pass.seen result.0.seen segment.now) }
{
    let told = play(rt, alloc, atlas, &mut pass, who, segment, gate);
    (pass, told)
}

// One transcript more. An `Err` is want of memory.
pub(crate) fn add_one(all: &mut Transcripts, one: Transcript) -> Result<(), NoMemory>
    ensures { OnOk result (all.new ≡ all.old ++ one ∷ []) }
{
    match all.push(one) {
        Ok(()) => Ok(()),
        Err(_) => Err(NoMemory),
    }
}

// The transcripts with one more behind them. An `Err` is want of memory, here or before.
fn with_one(
    told: Result<Transcripts, NoMemory>,
    one: Result<Transcript, NoMemory>,
) -> Result<Transcripts, NoMemory>
    ensures { IfOk result (λ all. IsOneMore told one all) }
{
    let mut all = told?;
    add_one(&mut all, one?)?;
    Ok(all)
}

// The workers of the round, and beside them the first n sessions: each that has a segment at the
// round is played by a thread that is started for it.
pub(crate) fn crew_and_sessions<R: Threads + Wait + Sync, G: Gate>(
    rt: &R,
    atlas: &Atlas,
    shift: &Shift,
    mut pass: AtlasPass,
    seat: ClaimSeat,
    script: &Script,
    gate: &G,
    n: u64,
) -> (AtlasPass, Result<Transcripts, NoMemory>)
    requires work { MayWork atlas.now shift.now pass seat }
    requires workers { (1 ≤ shift.now.workers) × (shift.now.workers ≤ seat.spare + 1) }
    requires within { (n ≤ length script.now) × (n ≤ 8) }
    ensures own { IsPassOf atlas.now result.0 }
    ensures seen { Begins pass.seen result.0.seen }
    ensures told { IfOk result.1
        (AreToldIn atlas.now.fixed.root pass.seen result.0.seen shift.now.round
        (take n script.now)) }
{
    let alloc = shift.alloc;
    if n == 0 {
        let (pass, _seat) = crew(rt, atlas, shift, pass, seat, gate, shift.workers);
        return (pass, Ok(Transcripts::new(alloc)));
    }
    let session = script.get(n - 1);
    let Some(segment) = segment_at(session, shift.round) else {
        let (pass, told) = crew_and_sessions(rt, atlas, shift, pass, seat, script, gate, n - 1);
        return (pass, with_one(told, Ok(Transcript::new(alloc))));
    };
    let other = atlas.split_pass(&mut pass);
    let who = FIRST_SESSION + (n - 1) as u32;
    let (first, second) = join(
        rt,
        move ||
            requires work { MayWork atlas.now shift.now pass seat }
            requires workers { (1 ≤ shift.now.workers) ×
                (shift.now.workers ≤ seat.spare + 1) }
            requires within { (1 ≤ n) × (n ≤ length script.now) × (n ≤ 8) }
            requires sync { IsSync R.row }
            ensures own { IsPassOf atlas.entry.now result.0 }
            ensures seen { Begins pass.seen result.0.seen }
            ensures told { IfOk result.1
                (AreToldIn atlas.entry.now.fixed.root pass.seen result.0.seen
                shift.entry.now.round (take (n - 1) script.entry.now)) }
        { crew_and_sessions(rt, atlas, shift, pass, seat, script, gate, n - 1) },
        move ||
            requires { IsPassOf atlas.now other }
            ensures own { IsPassOf atlas.entry.now result.0 }
            ensures seen { Begins other.seen result.0.seen }
            ensures told { IfOk result.1
                (IsPlayed atlas.entry.now.fixed.root other.seen result.0.seen segment.entry.now) }
        { listen(rt, alloc, atlas, other, who, segment, gate) },
    );
    let (mut pass, told) = first;
    let (other, one) = second;
    atlas.join_pass(&mut pass, other);
    (pass, with_one(told, one))
}
