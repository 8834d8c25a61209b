// The list of an inside leaf.
ghost use Rattle.std.specs.Prelude.{◌≡◌, ◌≢◌, ◌<◌, ◌≤◌, ◌<ℤ◌, ◌↔◌, ℕ, ℤ, length, slice_get, Some};
ghost use Rattle.std.specs.Prelude.{IfErr, IsTrue, OnOk};
ghost use Rattle.srs_num.specs.declared.pairs.V2.{V2};
ghost use Rattle.srs_map.specs.Step.{IsNarrow, origin};
ghost use Rattle.srs_cell.specs.Moves.{LeadsTo, LeadsBackTo, AreMoves};
ghost use Rattle.srs_path.specs.Lists.{IsRankList};
ghost use Rattle.srs_check.specs.declared.faults.Fault.TheVariants.{NoUnit, NotClosed, NoFall};
ghost use Rattle.srs_check.specs.Listed.{IsListed, IsBelow, ListsUnits, IsClosedAt, ProvesInside};
ghost use Rattle.srs_check.specs.Listed.{IsFirstMissing, IsFaultAt, IsUnitFault, IsInsideFault};

use crate::Fault;
use crate::places::{place_for, rank_at};
use srs_cell::{Cell, Span};
use srs_map::is_origin;
use srs_num::V2;
use srs_path::Ranks;

// Whether the list shows each point of the cell finite, by Brunotte's argument (Akiyama, Borbély,
// Brunotte, Pethő, Thuswaldner 2005): it may list more pairs than the witnesses. Each interval of
// links is walked only as far as it is listed.
pub(crate) fn check_inside(cell: &Cell, ranks: &Ranks) -> Result<(), Fault>
    ensures ok { OnOk result (ProvesInside cell.now ranks.now) }
    ensures err { IfErr result (IsInsideFault cell.now ranks.now) }
{
    check_units(ranks)?;
    for i in 0..ranks.len() {
        check_entry(cell, ranks, i)?;
    }
    Ok(())
}

// The units, in the order of the list.
fn check_units(ranks: &Ranks) -> Result<(), Fault>
    ensures ok { OnOk result (ListsUnits ranks.now) }
    ensures err { IfErr result (IsUnitFault ranks.now) }
{
    check_unit(ranks, V2 { a: -1, b: 0 })?;
    check_unit(ranks, V2 { a: 0, b: -1 })?;
    check_unit(ranks, V2 { a: 0, b: 1 })?;
    check_unit(ranks, V2 { a: 1, b: 0 })
}

fn check_unit(ranks: &Ranks, w: V2) -> Result<(), Fault>
    ensures ok { OnOk result (IsListed ranks.now w) }
    ensures err { IfErr result (λ fault. (fault ≡ NoUnit w) × (IsListed ranks.now w → ⊥)) }
{
    match ranks.rank(w) {
        Some(_) => Ok(()),
        None => Err(Fault::NoUnit(w)),
    }
}

// The links of the pair at the place `i`: first its steps, then its mirrored steps. Where nothing
// is wrong, both are seen at once.
fn check_entry(cell: &Cell, ranks: &Ranks, i: u32) -> Result<(), Fault>
    requires there { i < length ranks.now }
    requires list { IsRankList ranks.now }
    ensures ok { OnOk result
        ((e : V2 × ℕ) → slice_get ranks.now i ≡ Some e → IsClosedAt cell.now ranks.now e) }
    ensures err { IfErr result
        (λ fault. (e : V2 × ℕ) → slice_get ranks.now i ≡ Some e →
        IsFaultAt cell.now ranks.now e fault) }
{
    let (w, rank) = ranks.entry(i);
    if is_closed(cell, ranks, w, rank) {
        return Ok(());
    }
    check_ahead(cell, ranks, w, rank)?;
    check_back(cell, ranks, w)
}

// Whether the entry has no fault. Both links of `w` lead to one span of pairs, and only to the
// least of them may no step lead.
fn is_closed(cell: &Cell, ranks: &Ranks, w: V2, rank: u32) -> bool
    requires { IsNarrow w }
    ensures { IsTrue result → IsClosedAt cell.now ranks.now (w, rank) }
{
    let span = cell.links(w);
    let mut place = place_for(ranks, span.pair(w, 0));
    let mut least_stays = false;
    for k in 0..span.count() {
        let v = span.pair(w, k);
        let Some(reached) = rank_at(ranks, place, v) else {
            return false;
        };
        if stays_up(w, rank, reached) {
            if k > 0 {
                return false;
            }
            least_stays = true;
        }
        place += 1;
    }
    !least_stays || leads_above(cell, w, span.low)
}

// Whether each step leads from `w` to a pair whose second entry is above this number.
fn leads_above(cell: &Cell, w: V2, low: i64) -> bool
    requires { IsNarrow w }
    ensures { IsTrue result → (v : V2) → LeadsTo cell.now w v → low <ℤ v.b }
{
    is_less(low, steps_from(cell, w).low)
}

fn is_less(x: i64, y: i64) -> bool
    ensures { IsTrue result ↔ (x <ℤ y) }
{
    x < y
}

// The second entries of the pairs to which a step leads from `w`.
fn steps_from(cell: &Cell, w: V2) -> Span
    requires { IsNarrow w }
    ensures { AreMoves (LeadsTo cell.now) w result.low result.high }
{
    let (low, high) = cell.moves(w);
    Span { low, high }
}

// The second entries of the pairs to which a mirrored step leads from `w`.
fn mirrored_steps_from(cell: &Cell, w: V2) -> Span
    requires { IsNarrow w }
    ensures { AreMoves (LeadsBackTo cell.now) w result.low result.high }
{
    let (low, high) = cell.wmoves(w);
    Span { low, high }
}

// The pairs to which a step leads from `w`: they are listed, and have lower ranks where `w` isn't (0,0).
fn check_ahead(cell: &Cell, ranks: &Ranks, w: V2, rank: u32) -> Result<(), Fault>
    requires { IsNarrow w }
    ensures ok { OnOk result ((v : V2) → LeadsTo cell.now w v → IsBelow ranks.now (w, rank) v) }
    ensures err { IfErr result (IsFaultAt cell.now ranks.now (w, rank)) }
{
    let span = steps_from(cell, w);
    let mut place = place_for(ranks, span.pair(w, 0));
    for k in 0..span.count() {
        let v = span.pair(w, k);
        let Some(reached) = rank_at(ranks, place, v) else {
            return Err(not_closed(w, v));
        };
        if stays_up(w, rank, reached) {
            return Err(no_fall(w, v));
        }
        place += 1;
    }
    Ok(())
}

// Whether `w`, which has this rank, isn't (0,0), and the rank that is reached from it isn't lower.
fn stays_up(w: V2, rank: u32, reached: u32) -> bool
    ensures { IsTrue result ↔ ((w ≢ origin) × (rank ≤ reached)) }
{
    !is_origin(w) && reached >= rank
}

// The pairs to which a mirrored step leads from `w`: they are listed.
fn check_back(cell: &Cell, ranks: &Ranks, w: V2) -> Result<(), Fault>
    requires { IsNarrow w }
    ensures ok { OnOk result ((v : V2) → LeadsBackTo cell.now w v → IsListed ranks.now v) }
    ensures err { IfErr result
        (λ fault. (j : ℤ) × (fault ≡ NotClosed w j) × IsFirstMissing cell.now ranks.now w j) }
{
    let span = mirrored_steps_from(cell, w);
    let mut place = place_for(ranks, span.pair(w, 0));
    for k in 0..span.count() {
        let v = span.pair(w, k);
        let Some(_) = rank_at(ranks, place, v) else {
            return Err(not_closed(w, v));
        };
        place += 1;
    }
    Ok(())
}

// `v`, to which `w` links, isn't listed.
fn not_closed(w: V2, v: V2) -> Fault
    ensures { result ≡ NotClosed w v.b }
{
    Fault::NotClosed(w, v.b)
}

// The rank of `v`, to which a step leads from `w`, isn't lower.
fn no_fall(w: V2, v: V2) -> Fault
    ensures { result ≡ NoFall w v.b }
{
    Fault::NoFall(w, v.b)
}
