//! A list whose items are linked by index: each is taken out, or brought to the front, in at most
//! six link writes.
#![tactic(auto)]

mod front;
mod links;

pub use front::{Front, MOST_WRITES};
pub use links::{LinkPlace, Links, NO_SLOT};
