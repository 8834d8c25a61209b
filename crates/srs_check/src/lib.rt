//! The checker of certificates: each node shows by itself what it claims, and is tested in
//! preorder. It stands on cells, their cuts and their bounds, and on nothing that finds witnesses,
//! cycles or outcomes.
#![tactic(auto)]

mod builds;
mod checks;
mod faults;
mod laws;
mod line_check;
mod listed;
mod nodes;
mod places;
mod stream;
mod tally;
mod waiting;
mod walk;

pub use builds::{Built, build};
pub use checks::{check, polygon_cell};
pub use faults::{Checked, Counts, Fault};
pub use laws::{separates, whole_certificates};
pub use stream::{CheckErr, check_from};
pub use tally::count_nodes;
