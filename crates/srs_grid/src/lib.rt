//! Grid lines: the first line 2^m*x = k or 2^m*y = k that divides a cell.
#![tactic(auto)]

mod floor_ranges;
mod lines;

pub use lines::line;
