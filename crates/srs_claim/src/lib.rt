//! Numbers that threads draw, each once.
#![tactic(auto)]

mod claims;
mod sharing;
mod view;

pub use claims::{ClaimSeat, Claims, NoMemory};
pub use sharing::shared;
