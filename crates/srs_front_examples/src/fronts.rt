// Lists of a few items.
ghost use Rattle.std.specs.Prelude.{◌≡◌, ◌≤◌, ◌<◌, ◌+◌};

use crate::walks::{push, raise_at, unlink_at, walk, walk_back};
use srs_front::Front;
use srs_num::{NoMemory, Steps};
use std::alloc::Global;
use std::marker::Brand;
use std::sync::ledger::{Blank, Ledger};

// 1, 2 and 3 are pushed, 2 is unlinked, and 3 brought to the front: at most six link writes each.
fn front_walk<L: Ledger>(alloc: Global, steps: &mut Steps<L>) -> Result<Front<u64>, NoMemory>
    ensures { steps.new ≤ steps.old + 30 }
{
    let mut front = Front::new(alloc);
    push(&mut front, 1, steps)?;
    push(&mut front, 2, steps)?;
    push(&mut front, 3, steps)?;
    unlink_at(&mut front, 1, steps);
    raise_at(&mut front, 1, steps);
    Ok(front)
}

// 7 alone, which is brought to the front, and unlinked and pushed again where `again`.
fn one<L: Ledger>(
    alloc: Global,
    again: bool,
    steps: &mut Steps<L>,
) -> Result<Front<u64>, NoMemory> {
    let mut front = Front::new(alloc);
    push(&mut front, 7, steps)?;
    raise_at(&mut front, 0, steps);
    if again {
        unlink_at(&mut front, 0, steps);
        push(&mut front, 8, steps)?;
    }
    Ok(front)
}

// 1, 2, 3 and 4 without both ends.
fn middle<L: Ledger>(alloc: Global, steps: &mut Steps<L>) -> Result<Front<u64>, NoMemory> {
    let mut front = Front::new(alloc);
    push(&mut front, 1, steps)?;
    push(&mut front, 2, steps)?;
    push(&mut front, 3, steps)?;
    push(&mut front, 4, steps)?;
    unlink_at(&mut front, 3, steps);
    unlink_at(&mut front, 0, steps);
    Ok(front)
}

// The slot of the first item, and that of one pushed after the first was unlinked.
fn used_again<L: Ledger>(alloc: Global, steps: &mut Steps<L>) -> Result<(u64, u64), NoMemory> {
    let mut front = Front::new(alloc);
    let old = push(&mut front, 1, steps)?;
    push(&mut front, 2, steps)?;
    unlink_at(&mut front, 0, steps);
    let new = push(&mut front, 3, steps)?;
    Ok((old, new))
}

// The lists above, by their numbers, with the steps on a ledger of the caller's.
fn list<L: Ledger>(alloc: Global, which: u64, blank: Blank) -> Result<Front<u64>, NoMemory>
    requires name { blank.name ≡ L.name }
    requires parts { blank.parts ≡ L.parts }
    requires some { 0 < blank.parts }
{
    let mut steps = Steps::<L>::new(blank);
    match which {
        0 => front_walk(alloc, &mut steps),
        1 => one(alloc, false, &mut steps),
        2 => one(alloc, true, &mut steps),
        3 => middle(alloc, &mut steps),
        _ => Ok(Front::new(alloc)),
    }
}

fn slots<L: Ledger>(alloc: Global, blank: Blank) -> Result<(u64, u64), NoMemory>
    requires name { blank.name ≡ L.name }
    requires parts { blank.parts ≡ L.parts }
    requires some { 0 < blank.parts }
{
    used_again(alloc, &mut Steps::<L>::new(blank))
}

// Whether the walk of the list is this one, and its walk backwards this one reversed.
fn walks(alloc: Global, which: u64, items: &[u64], back: &[u64]) -> Result<bool, NoMemory> {
    let front = list::<Brand>(alloc, which, Blank::new(1))?;
    Ok(walk(alloc, &front)?.as_slice() == items && walk_back(alloc, &front)?.as_slice() == back)
}

#[test]
fn walks_of_lists(rt: HostRuntime) -> Result<(), NoMemory> {
    assert!(rt; walks(rt.alloc(), 0, &[3, 1], &[1, 3])?);
    assert!(rt; walks(rt.alloc(), 1, &[7], &[7])?);
    assert!(rt; walks(rt.alloc(), 2, &[8], &[8])?);
    assert!(rt; walks(rt.alloc(), 3, &[2, 3], &[3, 2])?);
    assert!(rt; walks(rt.alloc(), 4, &[], &[])?);
    Ok(())
}

#[test]
fn slots_are_used_again(rt: HostRuntime) -> Result<(), NoMemory> {
    let (old, new) = slots::<Brand>(rt.alloc(), Blank::new(1))?;
    assert_eq!(rt; old, new);
    Ok(())
}
