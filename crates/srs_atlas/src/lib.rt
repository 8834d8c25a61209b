//! A tree that threads refine and ask at the same time, as one history.
#![tactic(auto)]

mod atlas;
mod book;
mod commits;
mod counts;
mod frontier;
mod lists;
mod operations;
mod sharing;

pub use atlas::{Atlas, AtlasPass};
pub use book::{Book, Terms};
pub use commits::Commit;
pub use counts::Counts;
pub use lists::shared_cell;
pub use sharing::shared;
pub use srs_tree::PendingList;
