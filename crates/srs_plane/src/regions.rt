// Regions: lists of halves.
ghost use Rattle.std.specs.Prelude.{◌≡◌, ◌+◌, ◌<◌, ◌≤◌, ◌↔◌, [], ◌∷◌, ◌++◌, length, slice_get};
ghost use Rattle.std.specs.Prelude.{Some, IsTrue, IfOk, pos, ◌≤ℤ◌};
ghost use Rattle.std.specs.List.{AllByRecursion};
ghost use Rattle.srs_num.specs.Points.{Point, IsNear, value};
ghost use Rattle.srs_plane.specs.Regions.{IsIn, IsInHalf};
ghost use Rattle.srs_plane.specs.Bounded.{IsBounded};
ghost use Rattle.std.specs.Arc.{arc_value};
ghost use Rattle.srs_plane.specs.Chains.{halves_of};
ghost use Rattle.srs_plane.specs.declared.regions.TheConstants.{MOST_HALVES};

use crate::Half;
use crate::chains::{Chain, Halves, all_hold, are_same, first, has_corner, longer, nth, owned};
use srs_num::{Corner, NoMemory, Pt, Steps};
use std::alloc::Global;
use std::marker::Model;
use std::sync::Arc;
use std::sync::ledger::Ledger;

/// The most halves of a region: 16 of a polygon, 16 of one that is asked about, and 48 cuts.
pub const MOST_HALVES: u32 = 80;

/// A convex region: the points in all of its 3 to `MOST_HALVES` halves. Each has `|x| <= 4` and
/// `|y| <= 4`. It shares its halves with its copies, and all but the last with the region that it
/// was made from.
#[derive(Drop)]
pub struct Region {
    chain: Arc<Chain>,
    count: u32,
}

impl Model for Region {
    ghost use Rattle.std.specs.Prelude.{List, ◌≡◌, length};
    ghost use Rattle.srs_plane.specs.declared.halves.Half.{Half};
    ghost use Rattle.srs_plane.specs.Bounded.{IsBounded};
    ghost use Rattle.std.specs.Arc.{arc_value};
    ghost use Rattle.srs_plane.specs.Chains.{halves_of};

    ghost Value = { List Half };

    ghost view = { λ s. halves_of (arc_value s.chain) };

    ghost invariant = { λ s. IsBounded (halves_of (arc_value s.chain))
        × (s.count ≡ length (halves_of (arc_value s.chain))) };
}

impl Region {
    /// The region of these halves.
    pub(crate) fn of(alloc: Global, halves: Vec<Half>) -> Result<Region, NoMemory>
        requires { IsBounded halves.items }
        ensures { IfOk result (λ region. region ≡ halves.items) }
    {
        let count = halves.len() as u32;
        Ok(Region {
            chain: first(alloc, halves)?,
            count,
        })
    }

    /// How many halves it has: 3 to `MOST_HALVES`.
    pub fn len(&self) -> u32
        ensures value { result ≡ length self.now }
        ensures low { 3 ≤ result }
        ensures high { result ≤ MOST_HALVES }
        ensures near { (r : Point) → IsIn self.now r → IsNear r }
    {
        self.count
    }

    /// The half number `i`, counted from 0. It takes a step for each half that was appended after it.
    pub fn half(&self, i: u32) -> Half
        requires { i < length self.now }
        ensures { slice_get self.now i ≡ Some result }
    {
        nth(&self.chain, self.count, i)
    }

    /// The halves, from the last to the first.
    pub fn halves(&self) -> Halves<'_>
        ensures { result ≡ self.now }
    {
        Halves::of(&self.chain, self.count)
    }

    /// Whether both are the same list of halves.
    pub fn same(&self, other: &Region) -> bool
        ensures { IsTrue result ↔ (self.now ≡ other.now) }
    {
        self.count == other.count && are_same(&self.chain, &other.chain, self.count)
    }

    /// The region with the half appended, for a region of fewer than `MOST_HALVES` halves.
    pub fn with(&self, alloc: Global, h: Half) -> Result<Region, NoMemory>
        requires { length self.now < MOST_HALVES }
        ensures { IfOk result (λ region. region ≡ self.now ++ h ∷ []) }
    {
        Ok(Region {
            chain: longer(alloc, &self.chain, h)?,
            count: self.count + 1,
        })
    }

    /// An equal region. It shares the halves: no memory is taken.
    pub fn copy(&self, alloc: Global) -> Result<Region, NoMemory>
        ensures { IfOk result (λ region. region ≡ self.now) }
    {
        let _ = alloc;
        Ok(Region {
            chain: owned(&self.chain)?,
            count: self.count,
        })
    }

    /// Whether the point is in each half. It takes at most one step a half, and no memory.
    pub fn holds<L: Ledger>(&self, r: &Pt, steps: &mut Steps<L>) -> bool
        ensures yes { IsTrue result → IsIn self.now r.now }
        ensures no { IsIn self.now r.now → IsTrue result }
        ensures at_most { steps.new ≤ steps.old + length self.now }
    {
        // The denominator of a `Pt` is at least 1.
        let _ = r.parts();
        all_hold(&self.chain, r, steps)
    }

    /// Whether the corner, which is in the halves with their edges, is in each half. It looks at
    /// the open edges alone.
    pub fn has_corner(&self, corner: &Corner) -> bool
        requires { AllByRecursion (λ h. pos 0 ≤ℤ value h.form corner.now) self.now }
        ensures { IsTrue result ↔ AllByRecursion (λ h. IsInHalf h corner.now) self.now }
    {
        has_corner(&self.chain, corner)
    }
}
