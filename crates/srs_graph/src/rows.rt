// The successors of a pair. They begin with its second entry, and their second entries are the
// whole numbers of a span: so they stand side by side in the ascending list of all witnesses.
ghost use Rattle.std.specs.Prelude.{◌≡◌, ◌<◌, ◌^◌, pos, ◌+ℤ◌, ◌≤ℤ◌, length, Contains, AllPairs, All, IfOk};
ghost use Rattle.srs_num.specs.Points.{IsWithin};
ghost use Rattle.srs_map.specs.Step.{pair, IsNarrow};
ghost use Rattle.srs_cell.specs.Moves.{LeadsTo, AreMoves};
ghost use Rattle.srs_path.specs.Witnesses.{IsWitness};
ghost use Rattle.srs_path.specs.Core.{Precedes};
ghost use Rattle.srs_wit.specs.Listing.{AreAllWitnesses};
ghost use Rattle.srs_graph.specs.Networks.{pair_at, IsRowOf, AreRowsOf};

use srs_cell::{Cell, Span};
use srs_num::{NoMemory, V2};
use std::alloc::Global;

/// Places of a list, from `start` on.
#[derive(Clone, Copy, Drop)]
pub struct Row {
    pub start: usize,
    pub len: usize,
}

// The place of a pair of the list.
fn place(pairs: &[V2], v: V2) -> usize
    requires ascending { AllPairs Precedes pairs.now }
    requires here { Contains pairs.now v }
    ensures within { result < length pairs.now }
    ensures is { pair_at pairs.now result ≡ v }
{
    let Ok(place) = pairs.binary_search(&v) else {
        unreachable!()
    };
    place
}

// The first pair of the span of w.
fn first_of(w: V2, span: Span) -> V2
    ensures { result ≡ pair w.b span.low }
{
    V2 {
        a: w.b,
        b: span.low,
    }
}

// How many numbers a span has that has one at least.
fn count(span: Span) -> usize
    requires low { IsWithin (2 ^ 41) span.low }
    requires high { IsWithin (2 ^ 41) span.high }
    requires some { span.low ≤ℤ span.high }
    ensures { span.low +ℤ pos result ≡ span.high +ℤ pos 1 }
{
    (span.high - span.low + 1) as usize
}

// The second entries of the pairs to which the step leads from the pair.
fn steps(cell: &Cell, w: V2) -> Span
    requires { IsNarrow w }
    ensures { AreMoves (LeadsTo cell.now) w result.low result.high }
{
    let (low, high) = cell.moves(w);
    Span { low, high }
}

// The successors of a witness.
fn row_of(cell: &Cell, pairs: &[V2], w: V2) -> Row
    requires all { AreAllWitnesses cell.now pairs.now }
    requires witness { IsWitness cell.now w }
    requires narrow { IsNarrow w }
    ensures { IsRowOf cell.now pairs.now w result }
{
    let _region = cell.region();
    let span = steps(cell, w);
    let start = place(pairs, first_of(w, span));
    Row {
        start,
        len: count(span),
    }
}

// The successors of each witness.
pub(crate) fn rows_of(alloc: Global, cell: &Cell, pairs: &[V2]) -> Result<Vec<Row>, NoMemory>
    requires all { AreAllWitnesses cell.now pairs.now }
    requires narrow { All IsNarrow pairs.now }
    ensures { IfOk result (λ rows. AreRowsOf cell.now pairs.now rows.items) }
{
    let mut rows = Vec::with_capacity(alloc, pairs.len())?;
    for w in pairs {
        rows.push(row_of(cell, pairs, *w))?;
    }
    Ok(rows)
}
