// The search for all witnesses of a cell.
ghost use Rattle.std.specs.Prelude.{◌≡◌, ℕ, ◌+◌, ◌<◌, ◌≤◌, ◌^◌, false, [], take, List, Bool};
ghost use Rattle.std.specs.Prelude.{MatchOption, IfSome, OnOk, IfOk, IfErr};
ghost use Rattle.srs_map.specs.Step.{IsNarrow};
ghost use Rattle.srs_num.specs.declared.pairs.V2.{V2};
ghost use Rattle.srs_plane.specs.Regions.{Area};
ghost use Rattle.srs_path.specs.Witnesses.{IsWitness, IsSmall};
ghost use Rattle.srs_wit.specs.Listing.{AreAllWitnesses, AreTooMany, IsExcess};
ghost use Rattle.srs_wit.specs.Halves.{AreNarrow, count_both, with_opposites};
ghost use Rattle.srs_num.specs.Points.{IsWithin};
ghost use Rattle.srs_cell.specs.Spans.{IsCount};
ghost use Rattle.srs_wit.specs.Spans.{ArePairsNarrow};
ghost use Rattle.srs_wit.specs.PairSets.{all_of};
ghost use Rattle.srs_wit.specs.Search.{AreHalf, AreFound, Adds, AddsLinks, Extends, IsClosedAt};
ghost use Rattle.srs_wit.specs.Search.{HasUnits, AreAll, IsStop};
ghost use Rattle.srs_path.specs.declared.limits.TheConstants.{MOST_WITNESSES};

use crate::halves::{upper, with_opposites};
use crate::pair_set::PairSet;
use crate::runs::run_of;
use crate::sets::{Big, WitErr, WitSet};
use crate::spans::{first_pairs, wide_end};
use srs_cell::{Cell, Span};
use srs_num::{NoMemory, Pairs, V2};
use std::alloc::Global;

// The witnesses that were found after (0,0), in the order by a and then by b, where those whose
// links weren't followed yet wait; and whether (0,0) is one. Each stands for its mirror image too:
// -w is a witness where w is, since the links of -w are the mirrored links of w.
#[derive(Drop)]
struct Search {
    found: PairSet,
    origin: bool,
}

// Why a search stops before its end.
#[derive(Drop)]
pub(crate) enum Stop {
    // More witnesses than the bound were found.
    Over,
    // The witness links to the pairs of the span, which are more than the bound.
    Long(V2, Span),
    // A witness has an entry past 2^37.
    Wide(V2),
    NoMemory,
}

// The most pairs for which there is room at first.
const ROOM: usize = 2304;

// Below which entries pairs are looked up fast: the more of them there may be, the further away they are.
fn side_of(bound: u32) -> usize
    ensures { result ≤ 2 ^ 10 }
{
    if bound <= 128 {
        32
    } else if bound <= 1024 {
        88
    } else if bound <= 4096 {
        384
    } else {
        768
    }
}

// The refusal that shows these witnesses.
fn too_many(shown: Result<Pairs, NoMemory>, bound: u32) -> WitErr
    ensures { (R : Area) → IfOk shown (AreTooMany R bound) → IsExcess R bound result }
{
    match shown {
        Ok(pairs) => WitErr::Large(Big::Many(pairs)),
        Err(_) => WitErr::NoMemory,
    }
}

impl Search {
    // Nothing found yet. There is room for as many as the bound allows, up to a table that costs
    // little to make.
    fn new(alloc: Global, bound: u32) -> Result<Search, NoMemory>
        ensures followed { IfOk result (λ search. search.found.followed ≡ []) }
        ensures waiting { IfOk result (λ search. search.found.waiting ≡ []) }
        ensures origin { IfOk result (λ search. search.origin ≡ false) }
    {
        let room = (bound as usize / 2 + 1).min(ROOM);
        let found = PairSet::new(alloc, room, side_of(bound))?;
        Ok(Search {
            found,
            origin: false,
        })
    }

    // Begins anew, with nothing found.
    fn clear(&mut self)
        ensures followed { self.new.found.followed ≡ [] }
        ensures waiting { self.new.found.waiting ≡ [] }
        ensures origin { self.new.origin ≡ false }
    {
        self.found.clear();
        self.origin = false;
    }

    // How many witnesses were found, on both sides of (0,0).
    fn count(&self) -> u64
        requires { count_both (all_of self.now.found) self.now.origin ≤ 2 ^ 34 }
        ensures { result ≡ count_both (all_of self.now.found) self.now.origin }
    {
        let half = self.found.len() as u64;
        if self.origin { 2 * half + 1 } else { 2 * half }
    }

    // The first `n` of them.
    fn first(&self, alloc: Global, n: u64) -> Result<Pairs, NoMemory>
        requires narrow { AreNarrow (all_of self.now.found) }
        requires few { n ≤ count_both (all_of self.now.found) self.now.origin }
        ensures { IfOk result (λ ps. ps ≡ take n (with_opposites (all_of self.now.found)
            self.now.origin)) }
    {
        let half = self.found.to_vec(alloc)?;
        let all = with_opposites(alloc, &half, self.origin)?;
        Pairs::from_slice(alloc, &all[..n as usize])
    }

    // Whether the search goes on: those that were found aren't more than the bound.
    fn within(&self, bound: u32) -> Result<(), Stop>
        requires { count_both (all_of self.now.found) self.now.origin ≤ 2 ^ 34 }
        ensures few { OnOk result (count_both (all_of self.now.found) self.now.origin ≤ bound) }
        ensures stop { (R : Area) → AreHalf R (all_of self.now.found) self.now.origin → IfErr result
            (IsStop R bound (all_of self.now.found) self.now.origin) }
    {
        if self.count() > bound as u64 {
            return Err(Stop::Over);
        }
        Ok(())
    }

    // The refusal that shows one more of them than the bound.
    fn excess(&self, alloc: Global, bound: u32) -> WitErr
        requires narrow { AreNarrow (all_of self.now.found) }
        requires many { bound < count_both (all_of self.now.found) self.now.origin }
        ensures { (R : Area) → AreHalf R (all_of self.now.found) self.now.origin → IsExcess R bound
            result }
    {
        too_many(self.first(alloc, bound as u64 + 1), bound)
    }

    // The refusal that shows why the search stopped.
    fn refusal(&self, alloc: Global, bound: u32, stop: Stop) -> WitErr
        requires { (R : Area) × IsStop R bound (all_of self.now.found) self.now.origin stop }
        ensures { (R : Area) → IsStop R bound (all_of self.now.found) self.now.origin stop →
            IsExcess R bound result }
    {
        match stop {
            Stop::Over => self.excess(alloc, bound),
            Stop::Long(w, span) => {
                too_many(first_pairs(alloc, w, span, bound as u64 + 1), bound)
            }
            Stop::Wide(v) => WitErr::Large(Big::Wide(v)),
            Stop::NoMemory => WitErr::NoMemory,
        }
    }

    // Adds a witness, which stands for the one on the other side too.
    fn add(&mut self, v: V2) -> Result<(), NoMemory>
        requires { IsNarrow v }
        ensures { OnOk result (Adds (all_of self.old.found) self.old.origin v
            (all_of self.new.found) self.new.origin self.old.found.waiting self.new.found.waiting) }
    {
        let Some(u) = upper(v) else {
            self.origin = true;
            return Ok(());
        };
        self.found.insert(u)
    }

    // Adds the units.
    fn add_units(&mut self, bound: u32) -> Result<(), Stop>
        requires followed { self.old.found.followed ≡ [] }
        requires waiting { self.old.found.waiting ≡ [] }
        requires origin { self.old.origin ≡ false }
        ensures found { (R : Area) → OnOk result (Extends R [] false (all_of self.new.found)
            self.new.origin [] self.new.found.waiting) }
        ensures few { OnOk result (count_both (all_of self.new.found) self.new.origin ≤ bound) }
        ensures units { OnOk result (HasUnits (all_of self.new.found) self.new.origin) }
        ensures stop { (R : Area) → IfErr result (IsStop R bound (all_of self.new.found)
            self.new.origin) }
    {
        let Ok(()) = self.add(V2 { a: 1, b: 0 }) else {
            return Err(Stop::NoMemory);
        };
        let Ok(()) = self.add(V2 { a: 0, b: 1 }) else {
            return Err(Stop::NoMemory);
        };
        self.within(bound)
    }

    // Adds the pairs that begin with (0,0)'s second entry: some of them come before (0,0), and some after it.
    #[inline(never)]
    fn add_center_row(&mut self, w: V2, span: Span, n: u64) -> Result<(), NoMemory>
        requires low { IsWithin (2 ^ 41) span.low }
        requires count { IsCount span.low span.high n }
        requires narrow { ArePairsNarrow w span.low span.high }
        ensures { OnOk result (AddsLinks (all_of self.old.found) self.old.origin w span.low
            span.high n (all_of self.new.found) self.new.origin self.old.found.waiting
            self.new.found.waiting) }
    {
        for k in 0..n {
            self.add(span.pair(w, k))?;
        }
        Ok(())
    }

    // Adds the pairs of the span of `w`, of which there are `n`. Those that begin with one number
    // other than 0 are all on one side of (0,0). The one with the greatest second entry in
    // magnitude comes last, so that its links are followed first: where there are too many
    // witnesses, this way outwards mostly meets them sooner.
    #[inline(always)]
    fn add_row(&mut self, w: V2, span: Span, n: u64) -> Result<(), NoMemory>
        requires first { IsNarrow w }
        requires low { IsWithin (2 ^ 41) span.low }
        requires high { IsWithin (2 ^ 41) span.high }
        requires count { IsCount span.low span.high n }
        requires narrow { ArePairsNarrow w span.low span.high }
        ensures { OnOk result (AddsLinks (all_of self.old.found) self.old.origin w span.low
            span.high n (all_of self.new.found) self.new.origin self.old.found.waiting
            self.new.found.waiting) }
    {
        if w.b == 0 {
            return self.add_center_row(w, span, n);
        }
        let run = run_of(w, span, n);
        if w.b > 0 {
            return self.found.add_run(run);
        }
        self.found.add_run(run.mirrored())
    }

    // Adds all that a witness links to. A span longer than the bound shows too many witnesses by itself.
    fn add_links(&mut self, cell: &Cell, bound: u32, w: V2) -> Result<(), Stop>
        requires narrow { IsNarrow w }
        requires witness { IsWitness cell.now w }
        requires found { AreFound cell.now bound (all_of self.old.found) self.old.origin }
        ensures extends { OnOk result (Extends cell.now (all_of self.old.found) self.old.origin
            (all_of self.new.found) self.new.origin self.old.found.waiting
            self.new.found.waiting) }
        ensures few { OnOk result (count_both (all_of self.new.found) self.new.origin ≤ bound) }
        ensures closed { OnOk result (IsClosedAt cell.now (all_of self.new.found) self.new.origin
            w) }
        ensures stop { IfErr result (IsStop cell.now bound (all_of self.new.found)
            self.new.origin) }
    {
        let span = cell.links(w);
        let n = span.count();
        if n > bound as u64 {
            return Err(Stop::Long(w, span));
        }
        if let Some(v) = wide_end(w, span) {
            return Err(Stop::Wide(v));
        }
        let Ok(()) = self.add_row(w, span, n) else {
            return Err(Stop::NoMemory);
        };
        self.within(bound)
    }

    // Finds all witnesses. The newest pair goes first.
    fn find_all(&mut self, cell: &Cell, bound: u32) -> Result<(), Stop>
        requires followed { self.old.found.followed ≡ [] }
        requires waiting { self.old.found.waiting ≡ [] }
        requires origin { self.old.origin ≡ false }
        ensures all { OnOk result (AreAll cell.now bound (all_of self.new.found) self.new.origin) }
        ensures stop { IfErr result (IsStop cell.now bound (all_of self.new.found)
            self.new.origin) }
    {
        self.add_units(bound)?;
        loop {
            match self.found.next() {
                Ok(Some(w)) => self.add_links(cell, bound, w)?,
                Ok(None) => return Ok(()),
                Err(NoMemory) => return Err(Stop::NoMemory),
            }
        }
    }

    // All the witnesses, ascending: the half is sorted, and the other half is its mirror image.
    fn ascending(&self, alloc: Global) -> Result<Vec<V2>, NoMemory>
        requires { AreNarrow (all_of self.now.found) }
        ensures { (R : Area) (W : ℕ) → AreAll R W (all_of self.now.found) self.now.origin →
            IfOk result (λ all. AreAllWitnesses R all.items) }
    {
        let mut half = self.found.to_vec(alloc)?;
        half.sort_unstable();
        with_opposites(alloc, &half, self.origin)
    }
}

/// The witnesses of the cell, for a bound `w` from 1 to `MOST_WITNESSES` on their number.
///
/// `Large` exactly where the cell isn't small: it carries one more witness than the bound, or one past 2^37.
pub fn witnesses(alloc: Global, cell: &Cell, w: u32) -> Result<WitSet, WitErr>
    requires some { 1 ≤ w }
    requires few { w ≤ MOST_WITNESSES }
    ensures list { IfOk result (AreAllWitnesses cell.now) }
    ensures small { OnOk result (IsSmall cell.now w) }
    ensures large { IfErr result (IsExcess cell.now w) }
{
    let Ok(mut search) = Search::new(alloc, w) else {
        return Err(WitErr::NoMemory);
    };
    if let Err(stop) = search.find_all(cell, w) {
        return Err(search.refusal(alloc, w, stop));
    }
    match search.ascending(alloc) {
        Ok(pairs) => Ok(WitSet::new(pairs)),
        Err(_) => Err(WitErr::NoMemory),
    }
}

/// Memory for searches, which is kept from cell to cell.
#[derive(Drop)]
pub struct Searcher {
    search: Search,
}

impl Searcher {
    /// Its room is that for cells with a bound of `w` on their witnesses. A search with another
    /// bound takes more as it goes.
    pub fn new(alloc: Global, w: u32) -> Result<Searcher, NoMemory> {
        let search = Search::new(alloc, w)?;
        Ok(Searcher { search })
    }

    /// As the function of this name, for one cell after another. After an `Err` too it may be used
    /// for other cells.
    pub fn small_witnesses(
        &mut self,
        alloc: Global,
        cell: &Cell,
        w: u32,
    ) -> Result<Option<WitSet>, NoMemory>
        requires some { 1 ≤ w }
        requires few { w ≤ MOST_WITNESSES }
        ensures list { IfOk result (λ found. IfSome found (AreAllWitnesses cell.now)) }
        ensures small { IfOk result (λ found. MatchOption found (IsSmall cell.now w → ⊥)
            (λ _. IsSmall cell.now w)) }
    {
        self.search.clear();
        if let Err(stop) = self.search.find_all(cell, w) {
            shows_large(&stop)?;
            return Ok(None);
        }
        Ok(Some(WitSet::new(self.search.ascending(alloc)?)))
    }
}

/// The witnesses of the cell, for a bound `w` from 1 to `MOST_WITNESSES` on their number, or `None`
/// exactly where the cell isn't small. It is the call for whoever asks for nothing that shows this:
/// of a cell that isn't small it lists no witness.
pub fn small_witnesses(alloc: Global, cell: &Cell, w: u32) -> Result<Option<WitSet>, NoMemory>
    requires some { 1 ≤ w }
    requires few { w ≤ MOST_WITNESSES }
    ensures list { IfOk result (λ found. IfSome found (AreAllWitnesses cell.now)) }
    ensures small { IfOk result (λ found. MatchOption found (IsSmall cell.now w → ⊥)
        (λ _. IsSmall cell.now w)) }
{
    let mut searcher = Searcher::new(alloc, w)?;
    searcher.small_witnesses(alloc, cell, w)
}

// That the search stopped shows that the cell isn't small, but for want of memory.
fn shows_large(stop: &Stop) -> Result<(), NoMemory>
    ensures { (R : Area) (W : ℕ) (ws : List V2) (met : Bool) → IsStop R W ws met stop.now → OnOk
        result (IsSmall R W → ⊥) }
{
    match stop {
        Stop::Over => Ok(()),
        Stop::Long(..) => Ok(()),
        Stop::Wide(_) => Ok(()),
        Stop::NoMemory => Err(NoMemory),
    }
}
