//! The witnesses of a cell: the least set of pairs that holds the units and is closed under both
//! links at every point of the cell.
#![tactic(auto)]

mod closure;
mod halves;
pub mod laws;
mod marks;
mod pair_set;
mod runs;
mod sets;
mod spans;

pub use closure::{Searcher, small_witnesses, witnesses};
pub use sets::{Big, WitErr, WitSet};
