//! Outcomes of regions: what is claimed, by which definitions, and the findings that are sound by their type.
#![tactic(auto)]

mod cycles;
mod events;
mod findings;
pub mod laws;
mod limits;
mod outcomes;
mod paths;
mod ranks;
mod sharing;

pub use cycles::Cycle;
pub use events::Event;
pub use findings::Finding;
pub use limits::{Last, Limits, MOST_CELLS, MOST_DEPTH, MOST_PRODUCT, MOST_WITNESSES};
pub use outcomes::{Cause, Outcome, Why};
pub use paths::{Path, Side};
pub use ranks::Ranks;
pub use sharing::shared;
