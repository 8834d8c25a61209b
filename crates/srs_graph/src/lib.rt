//! The graph of a cell: its witnesses, and the edges between them. From it come the core, the ranks
//! and the chosen cycle.
#![tactic(auto)]

mod descent;
mod graphs;
mod listing;
mod peeling;
mod rows;
mod walks;

pub use graphs::Graph;
