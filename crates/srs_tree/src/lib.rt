//! The tree of a history: its cells, when a history is legal, and plans; and versions of a tree.
#![tactic(auto)]

mod answers;
mod builders;
mod descents;
mod growth;
mod in_place;
mod journals;
mod laws;
mod meetings;
mod nodes;
mod queries;
mod refusals;
mod sessions;
mod sharing;
mod versions;
mod waiting;
mod walks;

pub use answers::{Answer, Met, Reply};
pub use builders::TreeBuilder;
pub use growth::parts_ahead;
pub use in_place::GrowingTree;
pub use journals::Journal;
pub use laws::{histories, one_answer, whole_trees};
pub use queries::{Askable, Queries, Query, Said};
pub use refusals::TreeErr;
pub use sessions::{Ascending, Few, Run, Script, Segment, Session, Transcript, Transcripts};
pub use sharing::shared;
pub use versions::{Grown, Version};
pub use waiting::{Added, Ahead, Pending, PendingList, Prepared};
