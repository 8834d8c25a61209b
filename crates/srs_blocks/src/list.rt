// Lists of rows of blocks.
ghost use Rattle.std.specs.Prelude.{◌≡◌, ◌+◌, ◌*◌, ◌^◌, ◌<◌, ◌≤◌, [], ◌∷◌, ◌++◌, length, take};
ghost use Rattle.std.specs.Prelude.{slice_get, slice_set, Some, IfOk, OnOk, OnErr};
ghost use Rattle.srs_blocks.specs.Blocks.{AreRows, block_at, written_in, IsWritable};

use crate::few::{Few, MOST, Row};
use crate::share::{Share, Shared};
use srs_num::NoMemory;
use std::alloc::Global;
use std::marker::Model;

// The most items of a list: more than any memory holds.
const LIMIT: usize = 1 << 48;

/// At most 2^48 items, seen as the list of them. A copy shares all of them, and a change copies one
/// block of at most 64 items and one row of at most 64 blocks, where others share these.
#[derive(Drop)]
pub struct BlockList<T> {
    rows: Vec<Shared<Row<T>>>,
    len: usize,
}

impl<T> Model for BlockList<T> {
    ghost use Rattle.std.specs.Prelude.{List, take};
    ghost use Rattle.std.specs.Coded.{coded_list};

    ghost Value = { List T };

    ghost coded = { coded_list T.code };

    ghost use Rattle.srs_blocks.specs.Blocks.{AreRows, items_of};

    ghost view = { λ list. take list.len (items_of list.rows.items) };

    ghost invariant = { λ list. AreRows list.rows.items list.len };
}

impl<T: Share + Drop> BlockList<T> {
    /// No item. It takes no memory.
    pub fn new(alloc: Global) -> BlockList<T>
        ensures { result ≡ [] }
    {
        BlockList {
            rows: Vec::new(alloc),
            len: 0,
        }
    }

    /// How many items it has.
    pub fn len(&self) -> usize
        ensures len { result ≡ length self.now }
        ensures most { result ≤ 2 ^ 48 }
    {
        self.len
    }

    pub fn get(&self, i: usize) -> &T
        requires { i < length self.now }
        ensures item { slice_get self.now i ≡ Some result.now }
        ensures most { length self.now ≤ 2 ^ 48 }
    {
        let row = self.rows[i / MOST / MOST].get();
        row.get(i / MOST % MOST).get().get(i % MOST)
    }

    /// The item comes to the place `i`. An `Err` is want of memory, and leaves the list as it was.
    pub fn set(&mut self, alloc: Global, i: usize, item: T) -> Result<(), NoMemory>
        requires { i < length self.old }
        ensures ok { OnOk result (self.new ≡ slice_set self.old i item) }
        ensures err { OnErr result (self.new ≡ self.old) }
    {
        write_in(&mut self.rows, alloc, i, item)?;
        Ok(())
    }

    /// Appends the item. An `Err` is want of memory, and leaves the list as it was.
    pub fn push(&mut self, alloc: Global, item: T) -> Result<(), NoMemory>
        ensures ok { OnOk result (self.new ≡ self.old ++ item ∷ []) }
        ensures err { OnErr result (self.new ≡ self.old) }
    {
        if self.len >= LIMIT {
            return Err(NoMemory);
        }
        write_in(&mut self.rows, alloc, self.len, item)?;
        self.len += 1;
        Ok(())
    }

    /// An equal list, which shares all items. An `Err` is want of memory.
    pub fn share(&self, alloc: Global) -> Result<BlockList<T>, NoMemory>
        ensures { IfOk result (λ list. list ≡ self.now) }
    {
        let mut rows = Vec::with_capacity(alloc, self.rows.len())?;
        for row in &self.rows {
            rows.push(row.share()?)?;
        }
        Ok(BlockList {
            rows,
            len: self.len,
        })
    }

    /// Only the first `len` items stay. It takes no memory.
    pub fn truncate(&mut self, len: usize)
        requires { len ≤ length self.old }
        ensures { self.new ≡ take len self.old }
    {
        self.len = len;
    }
}

// The item comes to the place `i`, or behind the last. An `Err` is want of memory.
fn write_in<T: Share + Drop>(
    rows: &mut Vec<Shared<Row<T>>>,
    alloc: Global,
    i: usize,
    item: T,
) -> Result<(), NoMemory>
    requires { IsWritable rows.old.items i }
    ensures ok { OnOk result (rows.new.items ≡ written_in rows.old.items i item) }
    ensures err { OnErr result (rows.new.items ≡ rows.old.items) }
{
    let row = i / MOST / MOST;
    if row == rows.len() {
        let block = Shared::new(alloc, Few::one(alloc, item)?)?;
        rows.push(Shared::new(alloc, Few::one(alloc, block)?)?)?;
        Ok(())
    } else {
        rows[row].write_below(alloc, i / MOST % MOST, i % MOST, item)?;
        Ok(())
    }
}
