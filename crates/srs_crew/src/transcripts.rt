// What each session was told in all.
ghost use Rattle.std.specs.Prelude.{◌≡◌, ◌<◌, [], ◌∷◌, ◌++◌, ℕ, List, length, slice_get, Some, IfOk, OnOk};
ghost use Rattle.srs_plane.specs.Regions.{Area};
ghost use Rattle.srs_turn.specs.Prefixes.{Begins};
ghost use Rattle.srs_turn.specs.Passes.{IsPassOf};
ghost use Rattle.srs_tree.specs.declared.queries.Said.{Said};
ghost use Rattle.srs_crew.specs.Rounds.{WasAllDone};
ghost use Rattle.srs_crew.specs.Telling.{IsToldBelow, IsToldAll};
ghost use Rattle.srs_crew.specs.Telling.{AreToldBelow, AreToldFirst, told_to};

use crate::sessions::{FIRST_SESSION, add_one, segments_before};
use srs_atlas::{Atlas, AtlasPass};
use srs_num::{Items, NoMemory};
use srs_session::{Gate, play};
use srs_tree::{Said, Script, Session, Transcript, Transcripts};
use std::alloc::Global;
use std::sync::Wait;

// What the sessions were told in each round, seen as the list of these.
pub(crate) type ByRounds = Items<Transcripts>;

// No round yet.
pub(crate) fn no_round(alloc: Global, script: &Script) -> ByRounds
    ensures { (Root : Area) → AreToldBelow Root [] 0 script.now result }
{
    // The segments of each session ascend.
    for i in 0..script.len() {
        let _ = script.get(i).len();
    }
    ByRounds::new(alloc)
}

// The same. An `Err` is want of memory.
fn copy(alloc: Global, said: &Said) -> Result<Said, NoMemory>
    ensures { IfOk result (λ s. s ≡ said.now) }
{
    Ok(match said {
        Said::At(round) => Said::At(*round),
        Said::Version(n) => Said::Version(*n),
        Said::Point(r, reply) => Said::Point(*r, reply.lent().reply(alloc)?),
        Said::Count(n) => Said::Count(*n),
        Said::Polygon(met) => Said::Polygon(*met),
        Said::Orbit(end) => Said::Orbit(*end),
    })
}

// A copy of what was said comes to the transcript. An `Err` is want of memory.
fn append_one(alloc: Global, told: &mut Transcript, said: &Said) -> Result<(), NoMemory>
    ensures { OnOk result (told.new ≡ told.old ++ said.now ∷ []) }
{
    match told.push(copy(alloc, said)?) {
        Ok(()) => Ok(()),
        Err(_) => Err(NoMemory),
    }
}

// Copies of more that was said come to the transcript. An `Err` is want of memory.
fn append(alloc: Global, told: &mut Transcript, more: &Transcript) -> Result<(), NoMemory>
    ensures { OnOk result (told.new ≡ told.old ++ more.now) }
{
    for i in 0..more.len() {
        append_one(alloc, told, more.get(i))?;
    }
    Ok(())
}

// One round more. An `Err` is want of memory.
pub(crate) fn add_round(told: &mut ByRounds, round: Transcripts) -> Result<(), NoMemory>
    ensures { OnOk result (told.new ≡ told.old ++ round ∷ []) }
{
    match told.push(round) {
        Ok(()) => Ok(()),
        Err(_) => Err(NoMemory),
    }
}

// What the session at this place was told in these rounds, one after another. An `Err` is want of
// memory.
fn told_over(alloc: Global, told: &ByRounds, place: u64) -> Result<Transcript, NoMemory>
    requires { (k : ℕ) (round : List (List Said)) → slice_get told.now k ≡ Some round →
        place < length round }
    ensures { IfOk result (λ one. one ≡ told_to place told.now) }
{
    let mut one = Transcript::new(alloc);
    for k in 0..told.len() {
        append(alloc, &mut one, told.get(k).get(place))?;
    }
    Ok(one)
}

// What the session at this place was told in the rounds, and then of its segments that are left,
// which are played now. An `Err` is want of memory.
fn transcript<R: Wait, G: Gate>(
    rt: &R,
    alloc: Global,
    atlas: &Atlas,
    pass: &mut AtlasPass,
    session: &Session,
    round: u32,
    before: Transcript,
    who: u32,
    gate: &G,
) -> Result<Transcript, NoMemory>
    requires own { IsPassOf atlas.now pass.old }
    requires done { WasAllDone pass.old.seen }
    requires below { IsToldBelow atlas.now.fixed.root pass.old.seen round session.now before }
    ensures own { IsPassOf atlas.now pass.new }
    ensures seen { Begins pass.old.seen pass.new.seen }
    ensures told { IfOk result (IsToldAll atlas.now.fixed.root pass.new.seen session.now) }
{
    let mut told = before;
    for i in segments_before(session, round)..session.len() {
        let more = play(rt, alloc, atlas, pass, who, session.get(i), gate)?;
        append(alloc, &mut told, &more)?;
    }
    Ok(told)
}

// What each session was told in the rounds, and then of its segments that are left, which are
// played now, session by session. An `Err` is want of memory.
pub(crate) fn transcripts<R: Wait, G: Gate>(
    rt: &R,
    alloc: Global,
    atlas: &Atlas,
    pass: &mut AtlasPass,
    script: &Script,
    round: u32,
    told: &ByRounds,
    gate: &G,
) -> Result<Transcripts, NoMemory>
    requires own { IsPassOf atlas.now pass.old }
    requires done { WasAllDone pass.old.seen }
    requires below { AreToldBelow atlas.now.fixed.root pass.old.seen round script.now told.now }
    ensures own { IsPassOf atlas.now pass.new }
    ensures seen { Begins pass.old.seen pass.new.seen }
    ensures told { IfOk result
        (AreToldFirst atlas.now.fixed.root pass.new.seen (length script.now) script.now) }
{
    let mut all = Transcripts::new(alloc);
    for i in 0..script.len() {
        let before = told_over(alloc, told, i)?;
        let session = script.get(i);
        let who = FIRST_SESSION + i as u32;
        let one = transcript(rt, alloc, atlas, pass, session, round, before, who, gate)?;
        add_one(&mut all, one)?;
    }
    Ok(all)
}
