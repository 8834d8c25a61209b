// Spans of whole numbers, and the pairs that end in them.
ghost use Rattle.std.specs.Prelude.{◌≡◌, ◌<◌, ◌^◌};
ghost use Rattle.srs_num.specs.Points.{IsWithin};
ghost use Rattle.srs_cell.specs.Spans.{IsCount, pair_from};

use srs_num::V2;

/// The whole numbers from `low` to `high`.
#[derive(Clone, Copy, Debug, PartialEq, Eq, Drop)]
pub struct Span {
    pub low: i64,
    pub high: i64,
}

impl Span {
    /// How many numbers it has, where both ends are within 2^41, as those of a cell's moves are.
    pub fn count(self) -> u64
        requires low { IsWithin (2 ^ 41) self.low }
        requires high { IsWithin (2 ^ 41) self.high }
        ensures { IsCount self.low self.high result }
    {
        if self.high < self.low {
            0
        } else {
            (self.high - self.low + 1) as u64
        }
    }

    /// The pair number `k` of those to which `w` leads, where this is the span of their second
    /// entries: each begins with the second entry of `w`.
    pub fn pair(self, w: V2, k: u64) -> V2
        requires low { IsWithin (2 ^ 41) self.low }
        requires few { k < 2 ^ 43 }
        ensures { result ≡ pair_from w self.low k }
    {
        V2 {
            a: w.b,
            b: self.low + k as i64,
        }
    }
}
