// Blocks of at most 64 items, and rows of at most 64 blocks.
ghost use Rattle.std.specs.Prelude.{◌≡◌, ◌<◌, ◌≤◌, [], ◌∷◌, length, slice_get, get_or, Some, IfOk};
ghost use Rattle.std.specs.Prelude.{OnOk, OnErr};
ghost use Rattle.srs_blocks.specs.Blocks.{written, block_at, written_below};

use crate::share::{Share, Shared};
use srs_num::NoMemory;
use std::alloc::Global;
use std::marker::Model;
use std::sync::Arc;

// The most items of a block, and the most blocks of a row.
pub(crate) const MOST: usize = 64;

// At most 64 items, seen as the list of them.
#[derive(Drop)]
pub(crate) struct Few<T> {
    items: Vec<T>,
}

// A block of items, and a row of blocks.
pub(crate) type Block<T> = Few<T>;

pub(crate) type Row<T> = Few<Shared<Block<T>>>;

impl<T> Model for Few<T> {
    ghost use Rattle.std.specs.Prelude.{List, length, ◌≤◌};
    ghost use Rattle.std.specs.Coded.{coded_list};

    ghost Value = { List T };

    ghost coded = { coded_list T.code };

    ghost view = { λ few. few.items.items };

    ghost invariant = { λ few. length few.items.items ≤ 64 };
}

impl<T: Share + Drop> Few<T> {
    // The item alone.
    pub(crate) fn one(alloc: Global, item: T) -> Result<Few<T>, NoMemory>
        ensures { IfOk result (λ few. few ≡ item ∷ []) }
    {
        let mut items = Vec::with_capacity(alloc, MOST)?;
        items.push(item)?;
        Ok(Few { items })
    }

    pub(crate) fn len(&self) -> usize
        ensures len { result ≡ length self.now }
        ensures most { result ≤ 64 }
    {
        self.items.len()
    }

    pub(crate) fn get(&self, i: usize) -> &T
        requires { i < length self.now }
        ensures { slice_get self.now i ≡ Some result.now }
    {
        &self.items[i]
    }

    // The item comes to the place `i`, or behind the last. An `Err` is want of memory.
    pub(crate) fn write(&mut self, i: usize, item: T) -> Result<(), NoMemory>
        requires { (i ≤ length self.old) × (i < 64) }
        ensures ok { OnOk result (self.new ≡ written self.old i item) }
        ensures err { OnErr result (self.new ≡ self.old) }
    {
        if i == self.items.len() {
            self.items.push(item)?;
        } else {
            self.items[i] = item;
        }
        Ok(())
    }

    // An equal list, whose items share. An `Err` is want of memory.
    pub(crate) fn copy(&self, alloc: Global) -> Result<Few<T>, NoMemory>
        ensures { IfOk result (λ copy. copy ≡ self.now) }
    {
        let mut items = Vec::with_capacity(alloc, MOST)?;
        for item in &self.items {
            items.push(item.share()?)?;
        }
        Ok(Few { items })
    }
}

impl<T: Share + Drop> Shared<Few<T>> {
    // As `Few::write`. Where the list has other owners, they keep it, and this one gets a list of its own.
    fn write(&mut self, alloc: Global, i: usize, item: T) -> Result<(), NoMemory>
        requires { (i ≤ length self.old) × (i < 64) }
        ensures ok { OnOk result (self.new ≡ written self.old i item) }
        ensures err { OnErr result (self.new ≡ self.old) }
    {
        match Arc::get_mut(&mut self.value) {
            Some(own) => own.write(i, item),
            None => {
                let mut copy = self.get().copy(alloc)?;
                copy.write(i, item)?;
                self.value = Arc::new(alloc, copy)?;
                Ok(())
            }
        }
    }
}

impl<T: Share + Drop> Row<T> {
    // The item comes to the place `i` of the block at the place `block`, or is the first of a new
    // one. An `Err` is want of memory.
    fn write_below(
        &mut self,
        alloc: Global,
        block: usize,
        i: usize,
        item: T,
    ) -> Result<(), NoMemory>
        requires block { (block ≤ length self.old) × (block < 64) }
        requires place { (i ≤ length (block_at self.old block)) × (i < 64) }
        ensures ok { OnOk result (self.new ≡ written_below self.old block i item) }
        ensures err { OnErr result (self.new ≡ self.old) }
    {
        if block == self.items.len() {
            self.items
                .push(Shared::new(alloc, Few::one(alloc, item)?)?)?;
            Ok(())
        } else {
            self.items[block].write(alloc, i, item)?;
            Ok(())
        }
    }
}

impl<T: Share + Drop> Shared<Row<T>> {
    // As `Row::write_below`. Where the row has other owners, they keep it, and this one gets a row
    // of its own.
    pub(crate) fn write_below(
        &mut self,
        alloc: Global,
        block: usize,
        i: usize,
        item: T,
    ) -> Result<(), NoMemory>
        requires block { (block ≤ length self.old) × (block < 64) }
        requires place { (i ≤ length (block_at self.old block)) × (i < 64) }
        ensures ok { OnOk result (self.new ≡ written_below self.old block i item) }
        ensures err { OnErr result (self.new ≡ self.old) }
    {
        match Arc::get_mut(&mut self.value) {
            Some(own) => own.write_below(alloc, block, i, item),
            None => {
                let mut copy = self.get().copy(alloc)?;
                copy.write_below(alloc, block, i, item)?;
                self.value = Arc::new(alloc, copy)?;
                Ok(())
            }
        }
    }
}
