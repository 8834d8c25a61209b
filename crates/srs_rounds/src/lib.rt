//! The tree of a region by a plan: round by round, each cell gets the outcome of its region.
#![tactic(auto)]

mod refining;

pub use refining::rounds;
