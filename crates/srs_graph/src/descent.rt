// The depth-first descent that finds the ranks. It enters each pair once, and reads each edge once,
// and once more where it waited for the pair that the edge leads to.
ghost use Rattle.std.specs.Prelude.{◌≡◌, ◌≢◌, ◌<◌, ◌≤◌, ◌+◌, ◌++◌, ◌∷◌, [], length, true, false};
ghost use Rattle.std.specs.Prelude.{None, IfOk, OnOk};
ghost use Rattle.srs_graph.specs.Networks.{row_at, AreRows};
ghost use Rattle.srs_graph.specs.Marks.{mark_at, AreMarks};
ghost use Rattle.srs_graph.specs.Descents.{is_entered, AreNotEntered, left_over, StayEntered};
ghost use Rattle.srs_graph.specs.Descents.{AreSmall, IsRead, TopWaitsFor, IsDescent};
ghost use Rattle.srs_path.specs.declared.limits.TheConstants.{MOST_WITNESSES};

use crate::rows::Row;
use srs_map::is_origin;
use srs_num::{NoMemory, V2};
use std::alloc::Global;

// A pair of the path, the next place of its row to read, and the rank that it has if its row ends there.
#[derive(Clone, Copy, Drop)]
pub(crate) struct Visit {
    pub place: usize,
    pub next: usize,
    pub rank: u32,
}

// The places that were entered, and the path to where the descent is: each pair is a successor of
// the one below it.
#[derive(Drop)]
pub(crate) struct Descent {
    pub entered: Vec<bool>,
    pub path: Vec<Visit>,
}

// Reads a row on, as far as its pairs have ranks.
fn read_on(row: Row, marks: &[Option<u32>], visit: Visit) -> Visit
    requires within { row.start + row.len ≤ length marks.now }
    requires small { AreSmall marks.now }
    requires read { IsRead row marks.now visit.next visit.rank }
    ensures place { result.place ≡ visit.place }
    ensures read { IsRead row marks.now result.next result.rank }
    ensures stops { result.next < row.start + row.len → mark_at marks.now result.next ≡ None }
{
    let mut rank = visit.rank;
    let end = row.start + row.len;
    for j in visit.next..end {
        match marks[j] {
            None => {
                return Visit {
                    place: visit.place,
                    next: j,
                    rank,
                };
            }
            Some(m) => {
                if rank <= m {
                    rank = m + 1;
                }
            }
        }
    }
    Visit {
        place: visit.place,
        next: end,
        rank,
    }
}

impl Descent {
    // Before the first pair of n.
    pub(crate) fn new(alloc: Global, n: usize) -> Result<Descent, NoMemory>
        ensures entered { IfOk result (λ descent. AreNotEntered n descent.entered.items) }
        ensures path { IfOk result (λ descent. descent.path.items ≡ []) }
    {
        Ok(Descent {
            entered: vec![in alloc; false; n]?,
            path: Vec::new(alloc),
        })
    }

    // Puts a visit on the path.
    fn push(&mut self, visit: Visit) -> Result<(), NoMemory>
        ensures entered { self.new.entered.items ≡ self.old.entered.items }
        ensures path { OnOk result (self.new.path.items ≡ self.old.path.items ++ visit ∷ []) }
    {
        self.path.push(visit)?;
        Ok(())
    }

    // Enters a pair, for which the top of the path waits. (0, 0) has its rank at once.
    fn enter(
        &mut self,
        pairs: &[V2],
        rows: &[Row],
        marks: &mut [Option<u32>],
        place: usize,
    ) -> Result<(), NoMemory>
        requires rows { AreRows (length pairs.now) rows.now }
        requires descent { IsDescent pairs.now rows.now marks.old self.old.entered.items
            self.old.path.items }
        requires here { place < length pairs.now }
        requires fresh { is_entered self.old.entered.items place ≡ false }
        requires top { TopWaitsFor rows.now self.old.path.items place }
        ensures descent { OnOk result (IsDescent pairs.now rows.now marks.new self.new.entered.items
            self.new.path.items) }
        ensures here { OnOk result (is_entered self.new.entered.items place ≡ true) }
        ensures stay { OnOk result (StayEntered self.old.entered.items self.new.entered.items) }
        ensures less { OnOk result (left_over self.new.entered.items self.new.path.items < left_over
            self.old.entered.items self.old.path.items) }
    {
        self.entered[place] = true;
        if is_origin(pairs[place]) {
            marks[place] = Some(0);
            return Ok(());
        }
        let row = rows[place];
        self.push(Visit {
            place,
            next: row.start,
            rank: 0,
        })?;
        Ok(())
    }

    // Goes on from the top of the path, which was taken off.
    fn step(
        &mut self,
        pairs: &[V2],
        rows: &[Row],
        marks: &mut [Option<u32>],
        top: Visit,
    ) -> Result<(), NoMemory>
        requires rows { AreRows (length pairs.now) rows.now }
        requires few { length pairs.now ≤ MOST_WITNESSES }
        requires descent { IsDescent pairs.now rows.now marks.old self.old.entered.items
            (self.old.path.items ++ top ∷ []) }
        ensures descent { OnOk result (IsDescent pairs.now rows.now marks.new self.new.entered.items
            self.new.path.items) }
        ensures stay { OnOk result (StayEntered self.old.entered.items self.new.entered.items) }
        ensures less { OnOk result (left_over self.new.entered.items self.new.path.items < left_over
            self.old.entered.items (self.old.path.items ++ top ∷ [])) }
    {
        let row = rows[top.place];
        let visit = read_on(row, marks, top);
        if visit.next == row.start + row.len {
            marks[visit.place] = Some(visit.rank);
            return Ok(());
        }
        // The pair read next is on the path, or leads to the core: so all of the path leads to the
        // core, and none of it ever has a rank.
        if self.entered[visit.next] {
            self.path.clear();
            return Ok(());
        }
        self.push(visit)?;
        self.enter(pairs, rows, marks, visit.next)?;
        Ok(())
    }

    // Descends from a pair that wasn't entered, until the path is empty again.
    pub(crate) fn descend(
        &mut self,
        pairs: &[V2],
        rows: &[Row],
        marks: &mut [Option<u32>],
        start: usize,
    ) -> Result<(), NoMemory>
        requires rows { AreRows (length pairs.now) rows.now }
        requires few { length pairs.now ≤ MOST_WITNESSES }
        requires descent { IsDescent pairs.now rows.now marks.old self.old.entered.items
            self.old.path.items }
        requires path { self.old.path.items ≡ [] }
        requires here { start < length pairs.now }
        requires fresh { is_entered self.old.entered.items start ≡ false }
        ensures descent { OnOk result (IsDescent pairs.now rows.now marks.new self.new.entered.items
            self.new.path.items) }
        ensures path { OnOk result (self.new.path.items ≡ []) }
        ensures here { OnOk result (is_entered self.new.entered.items start ≡ true) }
        ensures stay { OnOk result (StayEntered self.old.entered.items self.new.entered.items) }
    {
        self.enter(pairs, rows, marks, start)?;
        while let Some(top) = self.path.pop() {
            self.step(pairs, rows, marks, top)?;
        }
        Ok(())
    }
}
