// Threads share a turn, and pass passes on.
use crate::{Pass, Told, Turn};

fn is_shared<T: Send + Sync>() {}

fn is_sent<T: Send>() {}

/// Threads may share a turn round a book that they may pass on, and may pass its passes on: that it
/// is compiled shows it.
pub fn shared<B: Told + Send>() {
    is_shared::<Turn<B>>();
    is_sent::<Pass<B>>();
}
