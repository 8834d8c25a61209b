// Two runners on one orbit: the hare takes two steps while the tortoise takes one. They meet soon
// after the orbit begins to go round, and no memory of the pairs is needed (Floyd's argument).
ghost use Rattle.std.specs.Prelude.{◌≡◌, ◌≤◌, ◌↔◌, IsTrue, IfSome, IfNone};
ghost use Rattle.srs_num.specs.Points.{IsNear};
ghost use Rattle.srs_map.specs.Step.{after, origin, IsNarrow};
ghost use Rattle.srs_map.specs.Chase.{IsPlain, IsPlainBefore, IsEvent, IsMeeting, IsFinish};
ghost use Rattle.srs_map.specs.Chase.{IsStart, IsPeriod};
ghost use Rattle.srs_map.specs.declared.orbits.TheConstants.{MOST_STEPS};

use crate::{is_narrow, is_origin, step};
use srs_num::{Pt, V2};

/// A pair of an orbit, and how many steps lead to it.
#[derive(Clone, Copy)]
pub struct Place {
    pub steps: u32,
    pub pair: V2,
}

/// How a race ended: the hare reached (0,0), or a pair past the bound of its entries, after so many
/// steps of its own; or the two met, after so many steps of the tortoise; or none of these.
#[derive(Clone, Copy)]
pub enum Finish {
    Origin(u32),
    Beyond(u32),
    Meeting(Place),
    Apart,
}

/// Lets the tortoise take `n` steps from `z`. It costs three steps for each of n.
pub fn race(r: &Pt, z: V2, n: u32) -> Finish
    requires near { IsNear r.now }
    requires plain { IsPlain z }
    requires few { n ≤ MOST_STEPS }
    ensures { IsFinish r.now z n result }
{
    let mut tortoise = z;
    let mut hare = z;
    for i in 0..n {
        let middle = step(r, hare);
        if let Some(seen) = event(middle, 2 * i + 1) {
            return seen;
        }
        hare = step(r, middle);
        if let Some(seen) = event(hare, 2 * i + 2) {
            return seen;
        }
        tortoise = step(r, tortoise);
        if tortoise == hare {
            return Finish::Meeting(Place {
                steps: i + 1,
                pair: hare,
            });
        }
    }
    Finish::Apart
}

/// What the pair `w`, met after `k` steps, shows by itself.
pub fn event(w: V2, k: u32) -> Option<Finish>
    ensures some { IfSome result (λ e. IsEvent w k e) }
    ensures none { IfNone result (IsPlain w) }
{
    if is_origin(w) {
        return Some(Finish::Origin(k));
    }
    if !is_narrow(w) {
        return Some(Finish::Beyond(k));
    }
    None
}

/// The first pair of the orbit of `z` that comes back after as many steps as the meeting took. It
/// costs two steps for each of the answer's.
pub fn start(r: &Pt, z: V2, meeting: Place) -> Place
    requires near { IsNear r.now }
    requires met { IsMeeting r.now z meeting }
    ensures { IsStart r.now z meeting.steps result }
{
    let mut first = z;
    let mut second = meeting.pair;
    for steps in 0..meeting.steps {
        if first == second {
            return Place { steps, pair: first };
        }
        first = step(r, first);
        second = step(r, second);
    }
    meeting
}

/// After how many steps the pair `w` comes back, given that it does after `i` steps, with plain
/// pairs on the way. It costs one step for each of the answer's.
pub fn period(r: &Pt, w: V2, i: u32) -> u32
    requires near { IsNear r.now }
    requires some { 1 ≤ i }
    requires plain { IsPlainBefore r.now w i }
    requires back { after i r.now w ≡ w }
    ensures least { IsPeriod r.now w result }
    ensures within { result ≤ i }
{
    let mut pair = step(r, w);
    for l in 1..i {
        if pair == w {
            return l;
        }
        pair = step(r, pair);
    }
    i
}
