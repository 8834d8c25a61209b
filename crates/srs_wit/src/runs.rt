// Pairs with one first entry, in a row.
ghost use Rattle.std.specs.Prelude.{◌≡◌, ◌<◌, ◌≤◌, ◌^◌, not, pos, ◌-ℤ◌};
ghost use Rattle.srs_num.specs.Points.{IsWithin};
ghost use Rattle.srs_wit.specs.Runs.{run_pair, stride_of, IsRunOf, turned};

use crate::spans::is_downward;
use srs_cell::Span;
use srs_num::V2;

/// So many pairs that begin with `a`: the second entry of the first is `first`, and those of the
/// others follow upwards, or downwards where `back` says so.
#[derive(Clone, Copy, Drop)]
pub(crate) struct Run {
    pub(crate) a: i64,
    pub(crate) first: i64,
    pub(crate) count: u64,
    pub(crate) back: bool,
}

// One step of a run: 1 or -1.
#[derive(Clone, Copy, Drop)]
pub(crate) struct Step {
    pub(crate) by: i64,
}

// The pairs of the span of `w`, of which there are `n`. The one with the greatest second entry in
// magnitude comes last.
#[inline(always)]
pub(crate) fn run_of(w: V2, span: Span, n: u64) -> Run
    requires low { IsWithin (2 ^ 41) span.low }
    requires high { IsWithin (2 ^ 41) span.high }
    ensures { IsRunOf w span.low span.high n result }
{
    let back = is_downward(span);
    Run {
        a: w.b,
        first: if back { span.high } else { span.low },
        count: n,
        back,
    }
}

impl Run {
    // The pairs on the other side, in the same order.
    #[inline(always)]
    pub(crate) fn mirrored(self) -> Run
        requires a { IsWithin (2 ^ 41) self.a }
        requires first { IsWithin (2 ^ 41) self.first }
        ensures { result ≡ turned self }
    {
        Run {
            a: -self.a,
            first: -self.first,
            count: self.count,
            back: !self.back,
        }
    }

    // By how much the second entry of a pair differs from that of the one before it.
    #[inline(always)]
    pub(crate) fn step(self) -> Step
        ensures { result ≡ stride_of self }
    {
        Step {
            by: if self.back { -1 } else { 1 },
        }
    }

    // The pair number `k`.
    #[inline(always)]
    pub(crate) fn pair(self, step: Step, k: u64) -> V2
        requires first { IsWithin (2 ^ 41) self.first }
        requires step { step ≡ stride_of self }
        requires few { k < 2 ^ 43 }
        ensures { result ≡ run_pair self k }
    {
        V2 {
            a: self.a,
            b: self.first + step.by * k as i64,
        }
    }
}
