//! Lists that share their blocks: a copy takes little, and a change copies a block and a row.
#![tactic(auto)]

mod few;
mod list;
mod share;
mod sharing;

pub use list::BlockList;
pub use share::Share;
pub use sharing::shared;
