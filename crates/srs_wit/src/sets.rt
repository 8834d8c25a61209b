// Sets of witnesses, and why there is none.
ghost use Rattle.std.specs.Prelude.{◌≡◌, ◌<◌, length, slice_get, Some, AllPairs};
ghost use Rattle.srs_path.specs.Core.{Precedes};

use srs_num::{Pairs, V2};
use std::marker::Model;

/// What shows that a cell isn't small.
#[derive(Drop)]
pub enum Big {
    /// One more witness than the bound.
    Many(Pairs),
    /// A witness with an entry past 2^37 in magnitude.
    Wide(V2),
}

/// Why there is no set of witnesses.
#[derive(Drop)]
pub enum WitErr {
    /// The cell isn't small.
    Large(Big),
    NoMemory,
}

/// Witnesses, seen as the strictly ascending list of them.
#[derive(Drop)]
pub struct WitSet {
    pairs: Vec<V2>,
}

impl Model for WitSet {
    ghost use Rattle.std.specs.Prelude.{List, AllPairs};
    ghost use Rattle.srs_num.specs.declared.pairs.V2.{V2};
    ghost use Rattle.srs_path.specs.Core.{Precedes};

    ghost Value = { List V2 };

    ghost view = { λ set. set.pairs.items };

    ghost invariant = { λ set. AllPairs Precedes set.pairs.items };
}

impl WitSet {
    // The set of these pairs.
    pub(crate) fn new(pairs: Vec<V2>) -> WitSet
        requires { AllPairs Precedes pairs.items }
        ensures { result ≡ pairs.items }
    {
        WitSet { pairs }
    }

    /// How many there are.
    pub fn len(&self) -> u64
        ensures { result ≡ length self.now }
    {
        self.pairs.len() as u64
    }

    /// The one at place `i`, counted from 0.
    pub fn get(&self, i: u64) -> &V2
        requires { i < length self.now }
        ensures { slice_get self.now i ≡ Some result.now }
    {
        &self.pairs[i as usize]
    }

    /// All of them.
    pub fn as_slice(&self) -> &[V2]
        ensures value { result.now ≡ self.now }
        ensures ascending { AllPairs Precedes self.now }
    {
        self.pairs.as_slice()
    }
}
