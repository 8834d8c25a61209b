//! Inputs of `live` that are made from a number.
#![tactic(auto)]

mod draws;
mod inputs;
mod samples;

pub use inputs::make;
pub use samples::{Points, Sample, made_sample};
