//! A book that threads use in turn, as one history: the list of entries that it stands for only
//! grows, and what a thread has seen of it is always a beginning of it.
#![tactic(auto)]

mod sharing;
mod steps;
mod told;
mod turn;
mod view;

pub use sharing::shared;
pub use told::{Act, Told};
pub use turn::{NoMemory, Pass, Turn};
