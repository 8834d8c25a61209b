//! What worked examples have in common: corners of polygons, parts of cells, and outcomes and paths
//! as a table has them.
#![tactic(auto)]

mod parts;
mod plain;

pub use parts::{Cut, DOWN, LEFT, OVER, RIGHT, UNDER, UP, part_of, with_kind};
pub use plain::{Plain, is_cycle, is_outcome, is_plain, path_of};
