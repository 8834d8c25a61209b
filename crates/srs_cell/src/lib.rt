//! Cells: regions that have a point, with their corners.
#![tactic(auto)]

mod bounds;
mod cells;
mod corners;
mod divisions;
mod doubles;
mod ends;
mod floors;
mod moves;
mod sharing;
mod sides;
mod spans;
mod tallies;
mod values;

pub use bounds::Bound;
pub use cells::Cell;
pub use divisions::Parts;
pub use sharing::shared;
pub use sides::{divides, is_above, is_below};
pub use spans::Span;
