// Where pairs stand in the list of an inside leaf.
ghost use Rattle.std.specs.Prelude.{◌≡◌, ◌≤◌, ◌<◌, ◌+◌, ◌^◌, pos, ◌+ℤ◌, ◌↔◌, length, Contains};
ghost use Rattle.std.specs.Prelude.{IsTrue, IsSome, IfSome, IfNone};
ghost use Rattle.srs_num.specs.Points.{IsWithin};
ghost use Rattle.srs_map.specs.Step.{pair};
ghost use Rattle.srs_path.specs.Core.{Precedes};
ghost use Rattle.srs_path.specs.Lists.{IsRankList};
ghost use Rattle.srs_check.specs.Listed.{IsListed};
ghost use Rattle.srs_check.specs.Places.{IsPlaceFor};

use srs_num::V2;
use srs_path::Ranks;

fn precedes(v: V2, w: V2) -> bool
    ensures { IsTrue result ↔ Precedes v w }
{
    v.a < w.a || v.a == w.a && v.b < w.b
}

fn is_same(v: V2, w: V2) -> bool
    ensures { IsTrue result ↔ (v ≡ w) }
{
    v == w
}

// The place at which the pair stands, or would stand.
pub(crate) fn place_for(ranks: &Ranks, w: V2) -> u32
    ensures place { IsPlaceFor ranks.now w result }
    ensures list { IsRankList ranks.now }
{
    let mut low = 0;
    let mut high = ranks.len();
    while low < high {
        let middle = low + (high - low) / 2;
        let (v, _) = ranks.entry(middle);
        if precedes(v, w) {
            low = middle + 1;
        } else {
            high = middle;
        }
    }
    low
}

// The rank of the pair, if it is listed: then it stands at this place, and the next pair with its
// first entry at the next.
pub(crate) fn rank_at(ranks: &Ranks, place: u32, w: V2) -> Option<u32>
    requires { IsPlaceFor ranks.now w place }
    ensures some { IfSome result (λ n. Contains ranks.now (w, n)) }
    ensures next { IsSome result → IsPlaceFor ranks.now (pair w.a (w.b +ℤ pos 1)) (place + 1) }
    ensures none { IfNone result (IsListed ranks.now w → ⊥) }
    ensures list { IsRankList ranks.now }
{
    if place == ranks.len() {
        return None;
    }
    let (v, rank) = ranks.entry(place);
    if !is_same(v, w) {
        return None;
    }
    Some(rank)
}
