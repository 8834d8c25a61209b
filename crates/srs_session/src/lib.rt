//! Sessions beside workers: how a segment is played, and the gate before which both call.
#![tactic(auto)]

mod gate;
mod playing;
mod sharing;

pub use gate::{FreeGate, Gate};
pub use playing::play;
pub use sharing::shared;
