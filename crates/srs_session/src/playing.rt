// A segment of a session.
ghost use Rattle.std.specs.Prelude.{◌≡◌, ◌<◌, [], ◌∷◌, ◌++◌, length, IfOk, OnOk};
ghost use Rattle.srs_turn.specs.Prefixes.{Begins};
ghost use Rattle.srs_turn.specs.Passes.{IsPassOf};
ghost use Rattle.srs_tree.specs.Tree.{History};
ghost use Rattle.srs_tree.specs.Snapshots.{tree_of};
ghost use Rattle.srs_tree.specs.Answers.{Answers};
ghost use Rattle.srs_tree.specs.Fits.{Heard};
ghost use Rattle.srs_tree.specs.Questions.{IsAskable};
ghost use Rattle.srs_session.specs.Playing.{IsPlayed};
ghost use Rattle.srs_session.specs.Listening.{IsVersionHeard, IsAnswered, IsPlayedTo};

use crate::Gate;
use srs_atlas::{Atlas, AtlasPass};
use srs_map::orbit;
use srs_num::{NoMemory, Pt, Steps};
use srs_tree::{Query, Reply, Said, Segment, Transcript, Version};
use std::alloc::Global;
use std::marker::Brand;
use std::sync::Wait;
use std::sync::ledger::{Blank, Ledger};

/// Plays the segment: says its round, takes a version, and answers the questions in their order,
/// before each of which it calls the gate with the session's number and the question's place. The
/// answers come from the version taken last, while others may commit. An `Err` is want of memory.
pub fn play<R: Wait, G: Gate>(
    rt: &R,
    alloc: Global,
    atlas: &Atlas,
    pass: &mut AtlasPass,
    who: u32,
    seg: &Segment,
    gate: &G,
) -> Result<Transcript, NoMemory>
    requires own { IsPassOf atlas.now pass.old }
    ensures own { IsPassOf atlas.now pass.new }
    ensures seen { Begins pass.old.seen pass.new.seen }
    ensures told { IfOk result (IsPlayed atlas.now.fixed.root pass.old.seen pass.new.seen seg.now) }
{
    let mut told = Transcript::new(alloc);
    let mut held = begin(rt, alloc, atlas, pass, seg, &mut told)?;
    answer_all(rt, alloc, atlas, pass, who, seg, gate, &mut held, &mut told)?;
    Ok(told)
}

// Says the round and takes a version. An `Err` is want of memory.
fn begin<R: Wait>(
    rt: &R,
    alloc: Global,
    atlas: &Atlas,
    pass: &mut AtlasPass,
    seg: &Segment,
    told: &mut Transcript,
) -> Result<Version, NoMemory>
    requires own { IsPassOf atlas.now pass.old }
    requires nothing { told.old ≡ [] }
    ensures own { IsPassOf atlas.now pass.new }
    ensures seen { Begins pass.old.seen pass.new.seen }
    ensures begun { IfOk result
        (IsPlayedTo atlas.now.fixed.root pass.old.seen pass.new.seen seg.now 0 told.new) }
{
    push(told, Said::At(seg.at))?;
    let held = atlas.refresh(rt, alloc, pass)?;
    push(told, Said::Version(held.count()))?;
    Ok(held)
}

// Answers the questions of the segment, whose beginning was told. An `Err` is want of memory.
fn answer_all<R: Wait, G: Gate>(
    rt: &R,
    alloc: Global,
    atlas: &Atlas,
    pass: &mut AtlasPass,
    who: u32,
    seg: &Segment,
    gate: &G,
    held: &mut Version,
    told: &mut Transcript,
) -> Result<(), NoMemory>
    requires own { IsPassOf atlas.now pass.old }
    ensures own { IsPassOf atlas.now pass.new }
    ensures seen { Begins pass.old.seen pass.new.seen }
    ensures told { OnOk result ((before : History) →
        IsPlayedTo atlas.now.fixed.root before pass.old.seen seg.now 0 told.old held.old →
        IsPlayedTo atlas.now.fixed.root before pass.new.seen seg.now (length seg.now.queries)
        told.new held.new) }
{
    for i in 0..seg.queries.len() {
        gate.turn(rt, who, i);
        let said = answer(rt, alloc, atlas, pass, seg.queries.get(i), held)?;
        push(told, said)?;
    }
    Ok(())
}

// Answers the question from the version held, or takes another one. An `Err` is want of memory.
fn answer<R: Wait>(
    rt: &R,
    alloc: Global,
    atlas: &Atlas,
    pass: &mut AtlasPass,
    query: &Query,
    held: &mut Version,
) -> Result<Said, NoMemory>
    requires own { IsPassOf atlas.now pass.old }
    requires askable { IsAskable query.now }
    ensures own { IsPassOf atlas.now pass.new }
    ensures seen { Begins pass.old.seen pass.new.seen }
    ensures said { IfOk result (λ said. (heard : Heard) →
        IsVersionHeard atlas.now.fixed.root pass.old.seen heard held.old →
        IsAnswered atlas.now.fixed.root pass.new.seen heard query.now said held.new) }
{
    match query {
        Query::Fresh => {
            let fresh = atlas.refresh(rt, alloc, pass)?;
            let number = fresh.count();
            *held = fresh;
            Ok(Said::Version(number))
        }
        Query::Count => Ok(Said::Count(atlas.newest(pass))),
        Query::Point(r) => Ok(Said::Point(*r, reply_at::<Brand>(alloc, held, r, Blank::new(1))?)),
        Query::Polygon(q) => Ok(Said::Polygon(held.meet(alloc, q)?)),
        Query::Orbit(r, z, n) => Ok(Said::Orbit(orbit(r, *z, *n))),
    }
}

// The answer at the point, over steps that aren't counted. An `Err` is want of memory.
fn reply_at<L: Ledger>(
    alloc: Global,
    held: &Version,
    r: &Pt,
    blank: Blank,
) -> Result<Reply, NoMemory>
    requires name { blank.name ≡ L.name }
    requires parts { blank.parts ≡ L.parts }
    requires some { 0 < blank.parts }
    ensures { IfOk result (Answers held.now.region (tree_of held.now) r.now) }
{
    let mut steps = Steps::<L>::new(blank);
    held.locate(r, &mut steps).reply(alloc)
}

// Appends what is said. An `Err` is want of memory.
fn push(told: &mut Transcript, said: Said) -> Result<(), NoMemory>
    ensures { OnOk result (told.new ≡ told.old ++ said ∷ []) }
{
    match told.push(said) {
        Ok(()) => Ok(()),
        Err(_) => Err(NoMemory),
    }
}
