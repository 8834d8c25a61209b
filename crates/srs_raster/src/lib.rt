//! The map of a version: one character for each point of a grid over its polygon.
#![tactic(auto)]

mod frames;
mod grids;
mod maps;

pub use maps::map_text;
