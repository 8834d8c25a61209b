// The ranks of a cell's witnesses.
ghost use Rattle.std.specs.Prelude.{◌≡◌, ◌↔◌, ◌<◌, pos, ◌≤ℤ◌, length, slice_get, Some, All};
ghost use Rattle.std.specs.Prelude.{AllPairs, IsTrue, IfSome, IfNone, IfOk, IsSome, MatchOption};
ghost use Rattle.std.specs.Prelude.{Contains, ℕ};
ghost use Rattle.srs_map.specs.Step.{IsNarrow};
ghost use Rattle.srs_path.specs.Core.{Precedes};
ghost use Rattle.srs_path.specs.Lists.{MakesRanks, IsRankList, ranked};
ghost use Rattle.srs_path.specs.declared.limits.TheConstants.{MOST_WITNESSES};

use crate::MOST_WITNESSES;
use crate::cycles::copy_of;
use srs_map::is_narrow;
use srs_num::{NoMemory, Pairs, V2};
use srs_text::Nums;
use std::alloc::Global;
use std::marker::Model;

/// Pairs with their ranks: 1 to `MOST_WITNESSES` of them, pairs strictly ascending with entries
/// within `MOST_ENTRY`, ranks 0 to `MOST_WITNESSES`.
#[derive(Drop)]
pub struct Ranks {
    pairs: Pairs,
    ranks: Nums,
}

impl Model for Ranks {
    ghost use Rattle.std.specs.Prelude.{List, ℕ};
    ghost use Rattle.srs_num.specs.declared.pairs.V2.{V2};
    ghost use Rattle.srs_path.specs.Lists.{MakesRanks, ranked};

    ghost Value = { List (V2 × ℕ) };

    ghost view = { λ r. ranked r.pairs r.ranks };

    ghost invariant = { λ r. MakesRanks r.pairs r.ranks };
}

impl Ranks {
    /// `None` exactly where the two lists make no such list. It takes no memory.
    pub fn of(pairs: Pairs, ranks: Nums) -> Option<Ranks>
        ensures some { IfSome result (λ r. r ≡ ranked pairs ranks) }
        ensures made { IsSome result → MakesRanks pairs ranks }
        ensures none { IfNone result (MakesRanks pairs ranks → ⊥) }
    {
        if makes_ranks(&pairs, &ranks) {
            Some(Ranks { pairs, ranks })
        } else {
            None
        }
    }

    /// An equal value. An `Err` is want of memory.
    pub fn copy(&self, alloc: Global) -> Result<Ranks, NoMemory>
        ensures { IfOk result (λ r. r ≡ self.now) }
    {
        Ok(Ranks {
            pairs: Pairs::from_slice(alloc, self.pairs.as_slice())?,
            ranks: copy_of(alloc, &self.ranks)?,
        })
    }

    pub fn len(&self) -> u32
        ensures len { result ≡ length self.now }
        ensures list { IsRankList self.now }
    {
        self.pairs.len() as u32
    }

    /// The pair at the place `i`, and its rank.
    pub fn entry(&self, i: u32) -> (V2, u32)
        requires { i < length self.now }
        ensures { slice_get self.now i ≡ Some result }
    {
        (*self.pairs.get(i as u64), *self.ranks.get(i as u64) as u32)
    }

    /// The rank of the pair. `None` exactly where it isn't listed.
    pub fn rank(&self, w: V2) -> Option<u32>
        ensures some { IfSome result (λ n. Contains self.now (w, n)) }
        ensures none { IfNone result ((n : ℕ) → Contains self.now (w, n) → ⊥) }
    {
        let place = place_of(self.pairs.as_slice(), &w)?;
        Some(*self.ranks.get(place as u64) as u32)
    }
}

// Where the pair stands among ascending ones.
fn place_of(pairs: &[V2], w: &V2) -> Option<usize>
    requires { AllPairs Precedes pairs.now }
    ensures { MatchOption result (Contains pairs.now w.now → ⊥)
        (λ i. slice_get pairs.now i ≡ Some w.now) }
{
    pairs.binary_search(w).ok()
}

fn makes_ranks(pairs: &Pairs, ranks: &Nums) -> bool
    ensures { IsTrue result ↔ MakesRanks pairs.now ranks.now }
{
    let count = pairs.len();
    if count != ranks.len() || count == 0 || count > u64::from(MOST_WITNESSES) {
        return false;
    }
    if !all_narrow(pairs) {
        return false;
    }
    if !ascends(pairs.as_slice()) {
        return false;
    }
    all_ranks(ranks)
}

fn all_narrow(pairs: &Pairs) -> bool
    ensures { IsTrue result ↔ All IsNarrow pairs.now }
{
    pairs.as_slice().iter().all(|w| is_narrow(*w))
}

// Whether each pair stands before the next one.
fn ascends(pairs: &[V2]) -> bool
    ensures { IsTrue result ↔ AllPairs Precedes pairs.now }
{
    for i in 1..pairs.len() {
        if !precedes(&pairs[i - 1], &pairs[i]) {
            return false;
        }
    }
    true
}

fn precedes(v: &V2, w: &V2) -> bool
    ensures { IsTrue result ↔ Precedes v.now w.now }
{
    v.a < w.a || v.a == w.a && v.b < w.b
}

fn all_ranks(ranks: &Nums) -> bool
    ensures { IsTrue result ↔ All (λ z. (pos 0 ≤ℤ z) × (z ≤ℤ pos MOST_WITNESSES)) ranks.now }
{
    ranks.as_slice().iter().all(|z| is_rank(*z))
}

fn is_rank(z: i64) -> bool
    ensures { IsTrue result ↔ ((pos 0 ≤ℤ z) × (z ≤ℤ pos MOST_WITNESSES)) }
{
    0 <= z && z <= i64::from(MOST_WITNESSES)
}
