// The walk from the least open place, each time to the least open successor, until a place comes again.
ghost use Rattle.std.specs.Prelude.{◌≡◌, ◌<◌, ◌≤◌, ◌-◌, ℕ, length, map, None, IfOk, MatchOption, All};
ghost use Rattle.std.specs.List.{range_with_len};
ghost use Rattle.srs_graph.specs.Networks.{AreRows};
ghost use Rattle.srs_graph.specs.Marks.{mark_at, LeadsOn};
ghost use Rattle.srs_graph.specs.Walks.{IsFirstOpen, AreAllMarked, IsStep, LeadOn, IsRound, first_entries};
ghost use Rattle.srs_path.specs.declared.limits.TheConstants.{MOST_WITNESSES};

use crate::listing::add_number;
use crate::peeling::no_marks;
use crate::rows::Row;
use srs_num::{NoMemory, V2};
use srs_text::Nums;
use std::alloc::Global;

// A walk that came back: the places in order, and the place in this list at which it came back.
#[derive(Drop)]
pub(crate) struct Round {
    pub path: Vec<usize>,
    pub from: usize,
}

// The first place from `low` to `high` with no mark.
pub(crate) fn first_open(marks: &[Option<u32>], low: usize, high: usize) -> Option<usize>
    requires { high ≤ length marks.now }
    ensures { MatchOption result (AreAllMarked marks.now low high)
        (IsFirstOpen marks.now low high) }
{
    for i in low..high {
        if marks[i].is_none() {
            return Some(i);
        }
    }
    None
}

// The first open successor of an open place.
fn next_open(rows: &[Row], marks: &[Option<u32>], i: usize) -> usize
    requires rows { AreRows (length marks.now) rows.now }
    requires here { i < length marks.now }
    requires on { LeadsOn rows.now marks.now i }
    ensures { IsStep rows.now marks.now i result }
{
    let row = rows[i];
    match first_open(marks, row.start, row.start + row.len) {
        Some(j) => j,
        // Not reached: an open place has an open successor.
        None => i,
    }
}

// The walk from the first open place.
pub(crate) fn walk(
    alloc: Global,
    rows: &[Row],
    marks: &[Option<u32>],
    first: usize,
) -> Result<Round, NoMemory>
    requires rows { AreRows (length marks.now) rows.now }
    requires few { length marks.now ≤ MOST_WITNESSES }
    requires on { LeadOn rows.now marks.now }
    requires first { IsFirstOpen marks.now 0 (length marks.now) first }
    ensures { IfOk result (λ round. IsRound rows.now marks.now round.path.items round.from) }
{
    let mut met = no_marks(alloc, marks.len())?;
    let mut path = Vec::new(alloc);
    let mut at = first;
    loop {
        if let Some(from) = met[at] {
            return Ok(Round {
                path,
                from: from as usize,
            });
        }
        met[at] = Some(path.len() as u32);
        path.push(at)?;
        at = next_open(rows, marks, at);
    }
}

// The first entries of the pairs of a path, from a place on.
pub(crate) fn entries(
    alloc: Global,
    pairs: &[V2],
    path: &[usize],
    from: usize,
) -> Result<Nums, NoMemory>
    requires inside { All (λ i. i < length pairs.now) path.now }
    requires from { from ≤ length path.now }
    ensures { IfOk result (λ entries. entries ≡ first_entries pairs.now path.now from
        (length path.now - from)) }
{
    let mut entries = Nums::new(alloc);
    for k in from..path.len() {
        add_number(&mut entries, pairs[path[k]].a)?;
    }
    Ok(entries)
}
