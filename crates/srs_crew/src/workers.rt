// Workers, who draw cells and settle them.
ghost use Rattle.std.specs.Prelude.{◌+◌, ◌-◌, ◌<◌, ◌≤◌, length};
ghost use Rattle.std.specs.Thread.{IsSync};
ghost use Rattle.srs_crew.specs.Rounds.{MayWork, HasWorked};

use crate::single::settle;
use srs_atlas::{Atlas, AtlasPass, PendingList};
use srs_claim::{ClaimSeat, Claims};
use srs_path::Last;
use srs_refine::Refiner;
use srs_session::Gate;
use std::alloc::Global;
use std::sync::Wait;
use std::thread::{Threads, join};

// What the threads of a round share beside the atlas: the cells, the limit that is spent for them,
// the claims on their places, which round it is, and how many workers there are. It borrows
// nothing, so that the closures of `crew` can say what they give back.
#[derive(Drop)]
pub(crate) struct Shift {
    pub alloc: Global,
    pub cells: PendingList,
    pub last: Option<Last>,
    pub claims: Claims,
    pub round: u32,
    pub workers: u32,
}

#[tactic(auto, using(srs_turn::proofs::PrefixLemmas::begins_refl))]
// A worker draws cells until none is left or there is no memory, and settles them. It takes room
// for that only once it has drawn one.
fn work<R: Wait, G: Gate>(
    rt: &R,
    atlas: &Atlas,
    shift: &Shift,
    pass: AtlasPass,
    mut seat: ClaimSeat,
    gate: &G,
    who: u32,
) -> (AtlasPass, ClaimSeat)
    requires work { MayWork atlas.now shift.now pass seat }
    ensures { HasWorked atlas.now shift.now pass.seen result.0 result.1 }
{
    let Some(first) = shift.claims.draw(&mut seat) else {
        return (pass, seat);
    };
    match Refiner::new(shift.alloc, atlas.w()) {
        Ok(mut refiner) => settle_drawn(
            rt,
            atlas,
            shift,
            pass,
            seat,
            &mut refiner,
            gate,
            who,
            first,
        ),
        Err(_) => (pass, seat),
    }
}

// Settles the cell at the place that was drawn, and then draws more, until none is left or there is
// no memory.
fn settle_drawn<R: Wait, G: Gate>(
    rt: &R,
    atlas: &Atlas,
    shift: &Shift,
    mut pass: AtlasPass,
    mut seat: ClaimSeat,
    refiner: &mut Refiner,
    gate: &G,
    who: u32,
    first: u64,
) -> (AtlasPass, ClaimSeat)
    requires work { MayWork atlas.now shift.now pass seat }
    requires there { first < length shift.now.cells }
    ensures { HasWorked atlas.now shift.now pass.seen result.0 result.1 }
{
    let mut drawn = first;
    for _ in rt.forever() {
        let cell = shift.cells.get(drawn);
        let settled = settle(
            rt,
            shift.alloc,
            atlas,
            &mut pass,
            refiner,
            cell,
            shift.last,
            gate,
            who,
            drawn,
        );
        if settled.is_err() {
            return (pass, seat);
        }
        match shift.claims.draw(&mut seat) {
            Some(next) => drawn = next,
            None => return (pass, seat),
        }
    }
    unreachable!()
}

#[tactic(auto, using(crate::proofs::Working::lawful_longer))]
// So many workers beside each other, numbered from 1: one is this thread's, and the others are
// started for it.
pub(crate) fn crew<R: Threads + Wait + Sync, G: Gate>(
    rt: &R,
    atlas: &Atlas,
    shift: &Shift,
    mut pass: AtlasPass,
    mut seat: ClaimSeat,
    gate: &G,
    workers: u32,
) -> (AtlasPass, ClaimSeat)
    requires work { MayWork atlas.now shift.now pass seat }
    requires room { (1 ≤ workers) × (workers ≤ seat.spare + 1) }
    ensures { HasWorked atlas.now shift.now pass.seen result.0 result.1 }
{
    if workers == 1 {
        return work(rt, atlas, shift, pass, seat, gate, 1);
    }
    let other = atlas.split_pass(&mut pass);
    let other_seat = shift.claims.split(&mut seat);
    let (first, second) = join(
        rt,
        move ||
            requires work { MayWork atlas.now shift.now pass seat }
            requires room { (1 ≤ workers - 1) × (workers - 1 ≤ seat.spare + 1) × IsSync R.row }
            ensures { HasWorked atlas.entry.now shift.entry.now pass.seen result.0 result.1 }
        { crew(rt, atlas, shift, pass, seat, gate, workers - 1) },
        move ||
            requires { MayWork atlas.now shift.now other other_seat }
            ensures { HasWorked atlas.entry.now shift.entry.now other.seen result.0 result.1 }
        { work(rt, atlas, shift, other, other_seat, gate, workers) },
    );
    let (mut pass, mut seat) = first;
    let (other, other_seat) = second;
    atlas.join_pass(&mut pass, other);
    shift.claims.join(&mut seat, other_seat);
    (pass, seat)
}
