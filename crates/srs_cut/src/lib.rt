//! Cutouts: the forms of a cycle, whether it covers a cell, and the first of its forms that divides one.
#![tactic(auto)]

mod forms;
mod judgement;

pub use forms::cutout;
pub use judgement::{Judged, judge};
