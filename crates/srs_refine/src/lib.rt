//! The outcome of one cell: it is finite with ranks, it has one cycle at every point, a form
//! divides it, or it is left with a cause.
#![tactic(auto)]

mod refinement;

pub use refinement::{Refiner, refine};
