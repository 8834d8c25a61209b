// A list of items that are linked by index.
ghost use Rattle.std.specs.Prelude.{◌≡◌, ◌≤◌, ℕ, List, [], ◌∷◌, ◌++◌, reverse, vec_capacity, Some};
ghost use Rattle.std.specs.Prelude.{None, IfSome, IfOk, IfErr, OnErr};
ghost use Rattle.srs_front.specs.Walks.{item_at, HasSlot, without_slot, first_slot, slot_behind};
ghost use Rattle.srs_front.specs.Walks.{DoSlotsDiffer, AreOf, some_slot, TakesFew};

use crate::links::{Links, NO_SLOT};
use srs_num::{NoMemory, Steps};
use std::alloc::Global;
use std::marker::Model;
use std::sync::ledger::Ledger;

/// The most link writes of a call.
pub const MOST_WRITES: u64 = 6;

/// A list, seen as its slots with their items from front to back. Its slots differ; a slot stays
/// the item's until the item is unlinked, and is used again after that.
#[derive(Drop)]
pub struct Front<T> {
    links: Links,
    items: Vec<Option<T>>,
    free: Vec<u64>,
}

impl<T> Model for Front<T> {
    ghost use Rattle.std.specs.Prelude.{List, ℕ};
    ghost use Rattle.std.specs.Vec.{vec_capacity};
    ghost use Rattle.std.specs.Coded.{coded_list, coded×, coded_ℕ};

    ghost Value = { List (ℕ × T) };

    ghost coded = { coded_list (coded× coded_ℕ T.code) };

    ghost use Rattle.srs_front.specs.Walks.{list_of, AreOf};

    ghost view = { λ f. list_of f.links f.items.items };

    ghost invariant = { λ f.
        AreOf f.links f.items.items f.free.items (vec_capacity f.free) (list_of f.links f.items.items) };
}

impl<T: Drop> Front<T> {
    /// No item. It takes no memory.
    pub fn new(alloc: Global) -> Front<T>
        ensures { result ≡ [] }
    {
        Front {
            links: Links::new(alloc),
            items: Vec::new(alloc),
            free: Vec::new(alloc),
        }
    }

    /// The item comes last. The answer is its slot, which the list didn't have. An `Err` is want of
    /// memory: it gives the item back, and leaves the list as it was.
    pub fn push_back<L: Ledger>(&mut self, item: T, steps: &mut Steps<L>) -> Result<u64, T>
        ensures last { IfOk result (λ slot. self.new ≡ self.old ++ (slot, item) ∷ []) }
        ensures other { IfOk result (λ slot. item_at self.old slot ≡ None) }
        ensures item_back { IfErr result (λ back. back ≡ item) }
        ensures err { OnErr result (self.new ≡ self.old) }
        ensures writes { TakesFew steps.old steps.new }
    {
        let Ok(slot) = free_slot(&mut self.links, &mut self.items, &mut self.free) else {
            return Err(item);
        };
        self.items[slot as usize] = Some(item);
        let last = self.links.ahead(NO_SLOT);
        self.links.splice_in(slot, last, NO_SLOT, steps);
        Ok(slot)
    }

    /// Takes the item out of the slot, wherever it stands. The others keep their order and slots.
    /// It takes no memory.
    pub fn unlink<L: Ledger>(&mut self, slot: u64, steps: &mut Steps<L>) -> T
        requires { HasSlot self.old slot }
        ensures item { item_at self.old slot ≡ Some result }
        ensures others { self.new ≡ without_slot slot self.old }
        ensures differ { DoSlotsDiffer self.old }
        ensures writes { TakesFew steps.old steps.new }
    {
        self.links.splice_out(slot, steps);
        let item = self.items[slot as usize].take().unwrap();
        self.free.push_reserved(slot);
        item
    }

    /// Brings the slot first. The others keep their order. It takes no memory.
    pub fn to_front<L: Ledger>(&mut self, slot: u64, steps: &mut Steps<L>)
        requires { HasSlot self.old slot }
        ensures moved { (item : T) → item_at self.old slot ≡ Some item
            → self.new ≡ (slot, item) ∷ without_slot slot self.old }
        ensures writes { TakesFew steps.old steps.new }
    {
        self.links.splice_out(slot, steps);
        let first = self.links.behind(NO_SLOT);
        self.links.splice_in(slot, NO_SLOT, first, steps);
    }

    /// The slot of the first item; none exactly where there is no item.
    pub fn first(&self) -> Option<u64>
        ensures slot { result ≡ first_slot self.now }
        ensures held { IfSome result (HasSlot self.now) }
    {
        some_slot(self.links.behind(NO_SLOT))
    }

    /// The slot of the last item; none exactly where there is no item.
    pub fn last(&self) -> Option<u64>
        ensures slot { result ≡ first_slot (reverse self.now) }
        ensures held { IfSome result (HasSlot self.now) }
    {
        some_slot(self.links.ahead(NO_SLOT))
    }

    /// The slot behind this one; none exactly where this is the last.
    pub fn next(&self, slot: u64) -> Option<u64>
        requires { HasSlot self.now slot }
        ensures slot { result ≡ slot_behind self.now slot }
        ensures held { IfSome result (HasSlot self.now) }
        ensures differ { DoSlotsDiffer self.now }
    {
        some_slot(self.links.behind(slot))
    }

    /// The slot ahead of this one, which is behind it in the list reversed; none exactly where this
    /// is the first.
    pub fn prev(&self, slot: u64) -> Option<u64>
        requires { HasSlot self.now slot }
        ensures slot { result ≡ slot_behind (reverse self.now) slot }
        ensures held { IfSome result (HasSlot self.now) }
    {
        some_slot(self.links.ahead(slot))
    }

    /// The item in the slot.
    pub fn get(&self, slot: u64) -> &T
        requires { HasSlot self.now slot }
        ensures item { item_at self.now slot ≡ Some result.now }
        ensures differ { DoSlotsDiffer self.now }
    {
        match &self.items[slot as usize] {
            Some(item) => item,
            None => unreachable!(),
        }
    }
}

// A slot that is in no list: one that was freed, or one more. An `Err` is want of memory.
fn free_slot<T>(
    links: &mut Links,
    items: &mut Vec<Option<T>>,
    free: &mut Vec<u64>,
) -> Result<u64, NoMemory>
    ensures ok { IfOk result (λ slot. (list : List (ℕ × T))
        → AreOf links.old items.old.items free.old.items (vec_capacity free.old) list
        → AreOf links.new items.new.items (free.new.items ++ slot ∷ []) (vec_capacity free.new) list) }
    ensures links { OnErr result (links.new ≡ links.old) }
    ensures items { OnErr result (items.new.items ≡ items.old.items) }
    ensures free { OnErr result (free.new.items ≡ free.old.items) }
    ensures room { OnErr result (vec_capacity free.old ≤ vec_capacity free.new) }
{
    if let Some(slot) = free.pop() {
        return Ok(slot);
    }
    items.reserve(1)?;
    free.reserve(items.len() + 1)?;
    let slot = links.grow()?;
    items.push_reserved(None);
    Ok(slot)
}

// The slot, if it is one.
fn some_slot(slot: u64) -> Option<u64>
    ensures { result ≡ some_slot slot }
{
    if slot == NO_SLOT { None } else { Some(slot) }
}
