// Threads pass lists of blocks on and share them.
use crate::BlockList;
use crate::few::{Block, Row};
use crate::share::Shared;

fn is_shared<T: Send + Sync>() {}

// Threads may pass lists of items that they share on, and share them: that it is compiled shows it.
pub fn shared() {
    is_shared::<Block<u64>>();
    is_shared::<Row<u64>>();
    is_shared::<Shared<Row<u64>>>();
    is_shared::<BlockList<u64>>();
}
