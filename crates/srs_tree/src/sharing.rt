// Threads pass versions, journals and refusals on and share them.
use crate::{
    Answer, GrowingTree, Journal, Pending, Queries, Reply, Said, TreeBuilder, TreeErr, Version,
};

fn is_shared<T: Send + Sync>() {}

/// Threads may pass versions, journals, open cells, refusals, questions and answers on and share
/// them: that it is compiled shows it.
pub fn shared() {
    is_shared::<Answer<'_>>();
    is_shared::<Reply>();
    is_shared::<Said>();
    is_shared::<Queries>();
    is_shared::<Version>();
    is_shared::<GrowingTree>();
    is_shared::<TreeBuilder>();
    is_shared::<Journal>();
    is_shared::<Pending>();
    is_shared::<TreeErr>();
}
