// Walks of a list, and its items by their place.
ghost use Rattle.std.specs.Prelude.{IfSome};
ghost use Rattle.srs_front.specs.Walks.{HasSlot, TakesFew};

use srs_front::Front;
use srs_num::{NoMemory, Steps};
use std::alloc::{AllocError, Global};
use std::sync::ledger::Ledger;

// More items than a test has.
const MANY: u64 = 1000;

// The items from front to back.
pub fn walk(alloc: Global, front: &Front<u64>) -> Result<Vec<u64>, AllocError> {
    let mut items = Vec::new(alloc);
    let mut slot = front.first();
    for _turn in 0..MANY {
        let Some(at) = slot else {
            break;
        };
        items.push(*front.get(at))?;
        slot = front.next(at);
    }
    Ok(items)
}

// The items from back to front.
pub fn walk_back(alloc: Global, front: &Front<u64>) -> Result<Vec<u64>, AllocError> {
    let mut items = Vec::new(alloc);
    let mut slot = front.last();
    for _turn in 0..MANY {
        let Some(at) = slot else {
            break;
        };
        items.push(*front.get(at))?;
        slot = front.prev(at);
    }
    Ok(items)
}

// The slot at the place, from the front on.
pub fn slot_at(front: &Front<u64>, place: usize) -> Option<u64>
    ensures { IfSome result (HasSlot front.now) }
{
    let mut slot = front.first();
    for _turn in 0..place {
        slot = match slot {
            Some(at) => front.next(at),
            None => None,
        };
    }
    slot
}

// Takes out the item at the place, if there is one.
pub fn unlink_at<L: Ledger>(
    front: &mut Front<u64>,
    place: usize,
    steps: &mut Steps<L>,
) -> Option<u64>
    ensures writes { TakesFew steps.old steps.new }
{
    match slot_at(front, place) {
        Some(slot) => Some(front.unlink(slot, steps)),
        None => None,
    }
}

// Brings the item at the place to the front, if there is one.
pub fn raise_at<L: Ledger>(front: &mut Front<u64>, place: usize, steps: &mut Steps<L>)
    ensures writes { TakesFew steps.old steps.new }
{
    if let Some(slot) = slot_at(front, place) {
        front.to_front(slot, steps);
    }
}

// Pushes the item; the answer is its slot.
pub fn push<L: Ledger>(
    front: &mut Front<u64>,
    item: u64,
    steps: &mut Steps<L>,
) -> Result<u64, NoMemory>
    ensures writes { TakesFew steps.old steps.new }
{
    match front.push_back(item, steps) {
        Ok(slot) => Ok(slot),
        Err(_) => Err(NoMemory),
    }
}
