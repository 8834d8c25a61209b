// Paths to the cells of a tree of cuts.
ghost use Rattle.std.specs.Prelude.{◌≡◌, ◌<◌, ◌≤◌, [], ◌∷◌, ◌++◌, length, slice_get, Some, ◌↔◌};
ghost use Rattle.std.specs.Prelude.{IsTrue, MatchOption, IsSome};
ghost use Rattle.srs_path.specs.declared.limits.TheConstants.{MOST_DEPTH};
ghost use Rattle.srs_path.specs.declared.paths.Side.{Side};
ghost use Rattle.srs_path.specs.Paths.{digit_of, digits_then};

use crate::MOST_DEPTH;
use std::marker::Model;

/// The side of a cut that a cell is on: where the form is at least 0, or where it is below 0.
#[derive(Clone, Copy, Debug, PartialEq, Eq, Drop)]
pub enum Side {
    Ge,
    Lt,
}

impl Side {
    // Its binary digit in a path.
    fn digit(self) -> u64
        ensures { result ≡ digit_of self }
    {
        match self {
            Side::Ge => 0,
            Side::Lt => 1,
        }
    }
}

/// The sides of the cuts that lead from the root to a cell: at most `MOST_DEPTH`.
#[derive(Clone, Copy, Debug, PartialEq, Eq, Drop)]
pub struct Path {
    // The sides as binary digits, the last one lowest.
    digits: u64,
    len: u32,
}

impl Model for Path {
    ghost use Rattle.std.specs.Prelude.{List, length};
    ghost use Rattle.srs_path.specs.declared.paths.Side.{Side};
    ghost use Rattle.srs_path.specs.Paths.{sides_of, digits_then, IsPacked};

    ghost Value = { List Side };

    ghost view = { λ p. sides_of p.len p.digits };

    ghost invariant = { λ p. IsPacked p.len p.digits };

    ghost inverse = { λ v. record { digits = digits_then 0 v; len = length v } };

    ghost inverse_ok = { λ p h i. record { digits = h.digits i; len = h.count i } };
}

impl Path {
    /// The path of the root, with no side.
    pub fn root() -> Path
        ensures { result ≡ [] }
    {
        Path { digits: 0, len: 0 }
    }

    /// How many sides it has: 0 to `MOST_DEPTH`.
    pub fn len(&self) -> u32
        ensures len { result ≡ length self.now }
        ensures short { result ≤ MOST_DEPTH }
    {
        self.len
    }

    /// The side number `i`, counted from the root and from 0.
    pub fn side(&self, i: u32) -> Side
        requires { i < length self.now }
        ensures { slice_get self.now i ≡ Some result }
    {
        if (self.digits >> (self.len - 1 - i)) % 2 == 0 {
            Side::Ge
        } else {
            Side::Lt
        }
    }

    /// The number of its cell, where the root has the number 1, and the parts of the cell k have
    /// 2k and 2k + 1.
    pub fn number(&self) -> u64
        ensures { result ≡ digits_then 1 self.now }
    {
        (1 << self.len) + self.digits
    }

    /// The path without its last side. `None` exactly at the root.
    pub fn parent(&self) -> Option<Path>
        ensures { MatchOption result (self.now ≡ []) (λ p. (s : Side) × (self.now ≡ p ++ s ∷ [])) }
    {
        if self.len == 0 {
            return None;
        }
        Some(Path {
            digits: self.digits / 2,
            len: self.len - 1,
        })
    }

    /// The path with one side more. `None` exactly where it has `MOST_DEPTH`.
    pub fn child(&self, s: Side) -> Option<Path>
        ensures child { MatchOption result (length self.now ≡ MOST_DEPTH)
            (λ p. p ≡ self.now ++ s ∷ []) }
        ensures room { IsSome result → length self.now < MOST_DEPTH }
    {
        if self.len == MOST_DEPTH {
            return None;
        }
        Some(Path {
            digits: self.digits * 2 + s.digit(),
            len: self.len + 1,
        })
    }

    /// Whether both are the same path.
    pub fn same(&self, other: &Path) -> bool
        ensures { IsTrue result ↔ (self.now ≡ other.now) }
    {
        self.digits == other.digits && self.len == other.len
    }
}
