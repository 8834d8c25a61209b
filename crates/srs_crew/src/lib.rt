//! Workers that refine the cells of a round beside each other.
#![tactic(auto)]

mod cells;
mod rounds;
mod runs;
mod sessions;
mod single;
mod transcripts;
mod workers;

pub use rounds::{Job, level};
pub use runs::run_levels;
