// An inside leaf, read line by line.
ghost use Rattle.std.specs.Prelude.{◌≡◌, ◌↔◌, ◌+◌, ◌-◌, ◌<◌, ◌≤◌, ◌++◌, [], ◌∷◌, ℕ, ℤ, pos, length};
ghost use Rattle.std.specs.Prelude.{IsTrue, IfOk, IfErr, OnOk, codes};
ghost use Rattle.srs_path.specs.declared.limits.TheConstants.{MOST_WITNESSES};
ghost use Rattle.srs_path.specs.Core.{Precedes};
ghost use Rattle.srs_line.specs.Fields.{Says, IsFieldSlip};
ghost use Rattle.srs_line.specs.Refusal.{IsSlip};
ghost use Rattle.srs_file.specs.Leaf.{IsEntry, SaysEntry, IsEntrySlip, Follows, TakesEntry, SlipsEntry};

use srs_line::{LineErr, Slip, three};
use srs_map::is_narrow;
use srs_num::{Pairs, V2};
use srs_path::{MOST_WITNESSES, Ranks};
use srs_text::Nums;
use std::alloc::Global;
use std::marker::Model;
use std::mem;

/// The witnesses of an inside leaf while its lines are read: how many are still to come, and those that came.
#[derive(Drop)]
pub struct Leaf {
    alloc: Global,
    left: u32,
    pairs: Pairs,
    ranks: Nums,
}

impl Model for Leaf {
    ghost use Rattle.srs_path.specs.Lists.{ranked};
    ghost use Rattle.srs_file.specs.Leaf.{LeafView, IsGrowingLeaf};

    ghost Value = { LeafView };

    ghost view = { λ l. record { left = l.left; entries = ranked l.pairs l.ranks } };

    ghost invariant = { λ l. IsGrowingLeaf l.left l.pairs l.ranks };
}

impl Leaf {
    /// No witness, and none to come. It takes no memory.
    pub fn new(alloc: Global) -> Leaf
        ensures { result ≡ record { left = 0; entries = [] } }
    {
        Leaf::awaiting(alloc, 0)
    }

    /// A leaf to which so many witnesses come, at most `MOST_WITNESSES`. It takes no memory.
    fn awaiting(alloc: Global, n: u32) -> Leaf
        requires { n ≤ MOST_WITNESSES }
        ensures { result ≡ record { left = n; entries = [] } }
    {
        Leaf {
            alloc,
            left: n,
            pairs: Pairs::new(alloc),
            ranks: Nums::new(alloc),
        }
    }

    /// How many witnesses are still to come.
    pub fn left(&self) -> u32
        ensures { result ≡ self.now.left }
    {
        self.left
    }

    /// Begins anew, with so many witnesses to come, at most `MOST_WITNESSES`. It takes no memory.
    pub fn open(&mut self, n: u32)
        requires { n ≤ MOST_WITNESSES }
        ensures { self.new ≡ record { left = n; entries = [] } }
    {
        *self = Leaf::awaiting(self.alloc, n);
    }

    /// Takes the line of the next witness. An `Err` may leave any leaf.
    pub fn take(&mut self, line: &[u8]) -> Result<(), LineErr>
        requires { 0 < self.old.left }
        ensures ok { OnOk result (TakesEntry self.old line.now self.new) }
        ensures err { IfErr result (IsSlip (SlipsEntry self.old line.now)) }
    {
        let (pair, rank) = entry(line)?;
        if !self.precedes(&pair) {
            return Err(LineErr::Slip(Slip::Order, 0));
        }
        self.add(pair, rank)
    }

    // Whether the pair is greater than the last one.
    fn precedes(&self, pair: &V2) -> bool
        ensures { IsTrue result ↔ Follows self.now.entries pair.now }
    {
        let count = self.pairs.len();
        if count == 0 {
            return true;
        }
        comes_before(self.pairs.get(count - 1), pair)
    }

    fn add(&mut self, pair: V2, rank: i64) -> Result<(), LineErr>
        requires more { 0 < self.old.left }
        requires entry { IsEntry pair rank }
        requires follows { Follows self.old.entries pair }
        ensures ok { OnOk result
            ((n : ℕ) × (rank ≡ pos n) ×
            (self.new ≡
            record { left = self.old.left - 1; entries = self.old.entries ++ (pair, n) ∷ [] })) }
        ensures err { IfErr result (IsSlip (λ slip back. ⊥)) }
    {
        let Ok(()) = self.pairs.push(pair) else {
            return Err(LineErr::NoMemory);
        };
        let Ok(()) = self.ranks.push(rank) else {
            self.pairs = Pairs::new(self.alloc);
            self.ranks = Nums::new(self.alloc);
            return Err(LineErr::NoMemory);
        };
        self.left -= 1;
        Ok(())
    }

    /// The ranks of the leaf, once all its witnesses are there; it begins anew, with none to come.
    pub fn close(&mut self) -> Ranks
        requires { 0 < length self.old.entries }
        ensures ranks { result ≡ self.old.entries }
        ensures empty { self.new ≡ record { left = 0; entries = [] } }
    {
        let pairs = mem::replace(&mut self.pairs, Pairs::new(self.alloc));
        let ranks = mem::replace(&mut self.ranks, Nums::new(self.alloc));
        self.left = 0;
        match Ranks::of(pairs, ranks) {
            Some(ranks) => ranks,
            None => unreachable!(),
        }
    }
}

// Whether v is smaller than w, by a and then by b.
fn comes_before(v: &V2, w: &V2) -> bool
    ensures { IsTrue result ↔ Precedes v.now w.now }
{
    v.a < w.a || v.a == w.a && v.b < w.b
}

// Reads the line of a witness: its pair and its rank, in their ranges.
fn entry(line: &[u8]) -> Result<(V2, i64), Slip>
    ensures ok { IfOk result (λ r. SaysEntry r.0 r.1 line.now) }
    ensures err { IfErr result (IsEntrySlip line.now) }
{
    let (pair, rank) = said_entry(line)?;
    if !is_entry(&pair, rank) {
        return Err(Slip::Range);
    }
    Ok((pair, rank))
}

// Reads the line as a pair and a rank, in whatever ranges.
fn said_entry(line: &[u8]) -> Result<(V2, i64), Slip>
    ensures ok { IfOk result (λ r. Says (codes "w") (r.0.a ∷ r.0.b ∷ r.1 ∷ []) line.now) }
    ensures err { IfErr result (IsFieldSlip (codes "w") 3 line.now) }
{
    let (a, b, rank) = three(line, b"w")?;
    Ok((V2 { a, b }, rank))
}

fn is_entry(pair: &V2, rank: i64) -> bool
    ensures { IsTrue result ↔ IsEntry pair.now rank }
{
    is_narrow(*pair) && 0 <= rank && rank <= i64::from(MOST_WITNESSES)
}
