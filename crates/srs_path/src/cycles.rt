// Cycles by the first entries of their pairs.
ghost use Rattle.std.specs.Prelude.{◌≡◌, ◌≢◌, ◌↔◌, ◌<◌, length, slice_get, Some, All, IsTrue};
ghost use Rattle.std.specs.Prelude.{IfSome, IfNone, IfOk, IsSome};
ghost use Rattle.srs_num.specs.Points.{IsWithin};
ghost use Rattle.srs_map.specs.declared.steps.TheConstants.{MOST_ENTRY};
ghost use Rattle.srs_map.specs.Step.{pair, origin};
ghost use Rattle.srs_path.specs.Cutout.{entry_at};
ghost use Rattle.srs_path.specs.Lists.{IsCycle};

use crate::MOST_WITNESSES;
use srs_map::MOST_ENTRY;
use srs_num::NoMemory;
use srs_text::Nums;
use std::alloc::Global;
use std::marker::Model;

/// The first entries `a_0 .. a_(n-1)` of the pairs of a cycle: 1 to `MOST_WITNESSES` numbers within
/// `MOST_ENTRY`, where `a_0` and the next one, counted round, aren't both 0.
#[derive(Drop)]
pub struct Cycle {
    entries: Nums,
}

impl Model for Cycle {
    ghost use Rattle.std.specs.Prelude.{List, ℤ};
    ghost use Rattle.srs_path.specs.Lists.{IsCycle};

    ghost Value = { List ℤ };

    ghost view = { λ c. c.entries };

    ghost invariant = { λ c. IsCycle c.entries };
}

impl Cycle {
    /// `None` exactly where the numbers are no such list. It takes no memory.
    pub fn of(entries: Nums) -> Option<Cycle>
        ensures some { IfSome result (λ c. c ≡ entries) }
        ensures cycle { IsSome result → IsCycle entries }
        ensures none { IfNone result (IsCycle entries → ⊥) }
    {
        if is_cycle(&entries) {
            Some(Cycle { entries })
        } else {
            None
        }
    }

    pub fn len(&self) -> u32
        ensures len { result ≡ length self.now }
        ensures cycle { IsCycle self.now }
    {
        self.entries.len() as u32
    }

    pub fn entry(&self, i: u32) -> i64
        requires { i < length self.now }
        ensures { slice_get self.now i ≡ Some result }
    {
        *self.entries.get(i as u64)
    }

    /// An equal value.
    pub fn copy(&self, alloc: Global) -> Result<Cycle, NoMemory>
        ensures { IfOk result (λ c. c ≡ self.now) }
    {
        Ok(Cycle {
            entries: copy_of(alloc, &self.entries)?,
        })
    }
}

// The same numbers, in memory of their own.
pub(crate) fn copy_of(alloc: Global, entries: &Nums) -> Result<Nums, NoMemory>
    ensures { IfOk result (λ copy. copy ≡ entries.now) }
{
    let mut copy = Nums::new(alloc);
    for entry in entries.as_slice() {
        copy.push(*entry).or(Err(NoMemory))?;
    }
    Ok(copy)
}

// Whether the numbers are the first entries of a cycle.
fn is_cycle(entries: &Nums) -> bool
    ensures { IsTrue result ↔ IsCycle entries.now }
{
    let count = entries.len();
    if count == 0 || count > u64::from(MOST_WITNESSES) {
        return false;
    }
    if !all_narrow(entries) {
        return false;
    }
    starts_nonzero(entries)
}

fn all_narrow(entries: &Nums) -> bool
    ensures { IsTrue result ↔ All (IsWithin MOST_ENTRY) entries.now }
{
    entries.as_slice().iter().all(|z| is_entry(*z))
}

fn is_entry(z: i64) -> bool
    ensures { IsTrue result ↔ IsWithin MOST_ENTRY z }
{
    z.unsigned_abs() <= MOST_ENTRY
}

// Whether the first entry or the one after it, counted round, isn't 0.
fn starts_nonzero(entries: &Nums) -> bool
    requires { 0 < length entries.now }
    ensures { IsTrue result ↔ (pair (entry_at entries.now 0) (entry_at entries.now 1) ≢ origin) }
{
    if *entries.get(0) != 0 {
        return true;
    }
    *entries.get(1 % entries.len()) != 0
}
