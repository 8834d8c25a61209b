// Halves in a row, which regions share.
ghost use Rattle.std.specs.Prelude.{◌≡◌, ◌+◌, ◌<◌, ◌≤◌, ◌↔◌, [], ◌∷◌, ◌++◌, length, slice_get};
ghost use Rattle.std.specs.Prelude.{Some, IsTrue, IfOk, MatchOption, pos, ◌≤ℤ◌};
ghost use Rattle.std.specs.List.{AllByRecursion};
ghost use Rattle.srs_num.specs.Points.{value};
ghost use Rattle.srs_plane.specs.Regions.{IsInHalf};
ghost use Rattle.std.specs.Arc.{arc_value};
ghost use Rattle.srs_plane.specs.Chains.{halves_of};

use crate::{Half, Kind};
use srs_num::{Corner, NoMemory, Pt, Steps};
use std::alloc::Global;
use std::marker::Model;
use std::sync::Arc;
use std::sync::ledger::Ledger;

// Some halves, and then one more each time.
#[derive(Drop)]
pub(crate) enum Chain {
    First(Vec<Half>),
    More(Arc<Chain>, Half),
}

/// The halves of a region, from the last to the first.
#[derive(Drop)]
pub struct Halves<'a> {
    chain: &'a Chain,
    left: u32,
}

impl<'a> Model for Halves<'a> {
    ghost use Rattle.std.specs.Prelude.{List, take};
    ghost use Rattle.srs_plane.specs.declared.halves.Half.{Half};
    ghost use Rattle.srs_plane.specs.Chains.{halves_of, AreLeft};

    ghost Value = { List Half };

    ghost view = { λ s. take s.left (halves_of s.chain.now) };

    ghost invariant = { λ s. AreLeft s.left s.chain.now };
}

impl<'a> Halves<'a> {
    // The `count` halves of the chain.
    pub(crate) fn of(chain: &'a Chain, count: u32) -> Halves<'a>
        requires { count ≡ length (halves_of chain.now) }
        ensures { result ≡ halves_of chain.now }
    {
        Halves { chain, left: count }
    }

    /// Takes the last half off, if there is one.
    pub fn pop(&mut self) -> Option<Half>
        ensures { MatchOption result (self.old ≡ []) (λ half. self.old ≡ self.new ++ half ∷ []) }
    {
        match self.chain {
            Chain::First(halves) => {
                if self.left == 0 {
                    return None;
                }
                self.left -= 1;
                Some(halves[self.left as usize])
            }
            Chain::More(rest, half) => {
                self.chain = rest;
                self.left -= 1;
                Some(*half)
            }
        }
    }
}

// The chain of these halves.
pub(crate) fn first(alloc: Global, halves: Vec<Half>) -> Result<Arc<Chain>, NoMemory>
    ensures { IfOk result (λ chain. halves_of (arc_value chain) ≡ halves.items) }
{
    made(alloc, Chain::First(halves))
}

// The chain with the half appended.
pub(crate) fn longer(alloc: Global, chain: &Arc<Chain>, h: Half) -> Result<Arc<Chain>, NoMemory>
    ensures { IfOk result (λ more. halves_of (arc_value more) ≡ halves_of (arc_value chain.now) ++ h
        ∷ []) }
{
    let rest = owned(chain)?;
    made(alloc, Chain::More(rest, h))
}

// The chain, for owners to share.
fn made(alloc: Global, chain: Chain) -> Result<Arc<Chain>, NoMemory>
    ensures { IfOk result (λ shared. arc_value shared ≡ chain) }
{
    Ok(Arc::new(alloc, chain)?)
}

// One owner more.
pub(crate) fn owned(chain: &Arc<Chain>) -> Result<Arc<Chain>, NoMemory>
    ensures { IfOk result (λ copy. arc_value copy ≡ arc_value chain.now) }
{
    Ok(Arc::try_clone(chain)?)
}

// The half number `i` of the `count` halves.
pub(crate) fn nth(chain: &Chain, count: u32, i: u32) -> Half
    requires count { count ≡ length (halves_of chain.now) }
    requires there { i < count }
    ensures { slice_get (halves_of chain.now) i ≡ Some result }
{
    match chain {
        Chain::First(halves) => halves[i as usize],
        Chain::More(rest, half) => {
            if i == count - 1 {
                *half
            } else {
                nth(rest, count - 1, i)
            }
        }
    }
}

// Whether both are the same `count` halves.
pub(crate) fn are_same(chain: &Chain, other: &Chain, count: u32) -> bool
    requires count { count ≡ length (halves_of chain.now) }
    requires other { count ≡ length (halves_of other.now) }
    ensures { IsTrue result ↔ (halves_of chain.now ≡ halves_of other.now) }
{
    match chain {
        Chain::First(_) => have_same(chain, other, count),
        Chain::More(rest, half) => match other {
            Chain::First(_) => have_same(chain, other, count),
            Chain::More(others, last) => is_half(half, last) && are_same(rest, others, count - 1),
        },
    }
}

// The same, for chains that were made in different ways.
fn have_same(chain: &Chain, other: &Chain, count: u32) -> bool
    requires count { count ≡ length (halves_of chain.now) }
    requires other { count ≡ length (halves_of other.now) }
    ensures { IsTrue result ↔ (halves_of chain.now ≡ halves_of other.now) }
{
    for i in 0..count {
        if !is_half(&nth(chain, count, i), &nth(other, count, i)) {
            return false;
        }
    }
    true
}

// Whether both are the same half.
fn is_half(half: &Half, other: &Half) -> bool
    ensures { IsTrue result ↔ (half.now ≡ other.now) }
{
    half == other
}

// Whether the point is in each of the halves.
pub(crate) fn all_hold<L: Ledger>(chain: &Chain, r: &Pt, steps: &mut Steps<L>) -> bool
    ensures held { IsTrue result ↔ AllByRecursion (λ h. IsInHalf h r.now) (halves_of chain.now) }
    ensures at_most { steps.new ≤ steps.old + length (halves_of chain.now) }
{
    match chain {
        Chain::First(halves) => each_holds(halves, r, steps),
        Chain::More(rest, half) => half.holds(r, steps) && all_hold(rest, r, steps),
    }
}

// Whether the point is in each of the halves.
fn each_holds<L: Ledger>(halves: &[Half], r: &Pt, steps: &mut Steps<L>) -> bool
    ensures held { IsTrue result ↔ AllByRecursion (λ h. IsInHalf h r.now) halves.now }
    ensures at_most { steps.new ≤ steps.old + length halves.now }
{
    for h in halves {
        if !h.holds(r, steps) {
            return false;
        }
    }
    true
}

// Whether the corner, which is in the halves with their edges, is in each of them.
pub(crate) fn has_corner(chain: &Chain, corner: &Corner) -> bool
    requires { AllByRecursion (λ h. pos 0 ≤ℤ value h.form corner.now) (halves_of chain.now) }
    ensures { IsTrue result ↔ AllByRecursion (λ h. IsInHalf h corner.now) (halves_of chain.now) }
{
    match chain {
        Chain::First(halves) => each_has(halves, corner),
        Chain::More(rest, half) => is_in_half(half, corner) && has_corner(rest, corner),
    }
}

// The same for some halves.
fn each_has(halves: &[Half], corner: &Corner) -> bool
    requires { AllByRecursion (λ h. pos 0 ≤ℤ value h.form corner.now) halves.now }
    ensures { IsTrue result ↔ AllByRecursion (λ h. IsInHalf h corner.now) halves.now }
{
    for half in halves {
        if !is_in_half(half, corner) {
            return false;
        }
    }
    true
}

// Whether the corner is in the half, where it is in it with its edge.
fn is_in_half(half: &Half, corner: &Corner) -> bool
    requires { pos 0 ≤ℤ value half.now.form corner.now }
    ensures { IsTrue result ↔ IsInHalf half.now corner.now }
{
    match half.kind {
        Kind::Ge => true,
        Kind::Gt => half.form.at_corner(corner) > 0,
    }
}
