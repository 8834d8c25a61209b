// The pairs that one pair links to: all begin with its second entry, and their second entries make one span.
ghost use Rattle.std.specs.Prelude.{◌≡◌, ◌≤◌, ◌<◌, ◌^◌, ◌↔◌, pos, ◌+ℤ◌, ◌<ℤ◌, IsTrue, IfOk, MatchOption};
ghost use Rattle.srs_num.specs.Points.{IsWithin};
ghost use Rattle.srs_map.specs.Step.{IsNarrow};
ghost use Rattle.srs_wit.specs.Spans.{pairs_from, ArePairsNarrow, IsWideAmong};

use srs_cell::Span;
use srs_map::MOST_ENTRY;
use srs_num::{NoMemory, Pairs, V2};
use std::alloc::Global;

// The most that an entry of a narrow pair may be.
const MOST_END: i64 = 1 << 37;

// Whether the first number of the span is greater in magnitude than the last one.
pub(crate) fn is_downward(span: Span) -> bool
    requires low { IsWithin (2 ^ 41) span.low }
    requires high { IsWithin (2 ^ 41) span.high }
    ensures { IsTrue result ↔ ((span.low +ℤ span.high) <ℤ pos 0) }
{
    span.low + span.high < 0
}

// A pair of the span of `w` with an entry past 2^37, if there is one: then one of the two ends is
// such a pair.
pub(crate) fn wide_end(w: V2, span: Span) -> Option<V2>
    requires { IsNarrow w }
    ensures { MatchOption result (ArePairsNarrow w span.low span.high)
        (IsWideAmong w span.low span.high) }
{
    if -MOST_END <= span.low && span.high <= MOST_END {
        return None;
    }
    if span.low > span.high {
        return None;
    }
    if span.low.unsigned_abs() > MOST_ENTRY {
        return Some(V2 {
            a: w.b,
            b: span.low,
        });
    }
    if span.high.unsigned_abs() > MOST_ENTRY {
        return Some(V2 {
            a: w.b,
            b: span.high,
        });
    }
    None
}

// The first `n` pairs of the span of `w`.
pub(crate) fn first_pairs(alloc: Global, w: V2, span: Span, n: u64) -> Result<Pairs, NoMemory>
    requires low { IsWithin (2 ^ 41) span.low }
    requires few { n ≤ 2 ^ 43 }
    ensures { IfOk result (λ pairs. pairs ≡ pairs_from w span.low n) }
{
    let mut pairs = Pairs::new(alloc);
    for k in 0..n {
        pairs.push(span.pair(w, k)).or(Err(NoMemory))?;
    }
    Ok(pairs)
}
