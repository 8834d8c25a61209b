// Threads share an atlas and pass its passes and lists on.
use crate::{Atlas, AtlasPass, Commit, PendingList};

fn is_shared<T: Send + Sync>() {}

fn is_sent<T: Send>() {}

/// Threads may share atlases, lists of cells and answers, and pass passes on: that it is compiled shows it.
pub fn shared() {
    is_shared::<Atlas>();
    is_shared::<PendingList>();
    is_shared::<Commit>();
    is_sent::<AtlasPass>();
}
