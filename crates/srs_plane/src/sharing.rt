// Threads pass regions on and share them.
use crate::Region;

fn is_shared<T: Send + Sync>() {}

/// Threads may pass regions on and share them: that it is compiled shows it.
pub fn shared() {
    is_shared::<Region>();
}
