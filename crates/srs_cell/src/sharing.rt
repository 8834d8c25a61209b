// Threads pass cells on and share them.
use crate::{Cell, Parts};

fn is_shared<T: Send + Sync>() {}

/// Threads may pass cells on and share them: that it is compiled shows it.
pub fn shared() {
    is_shared::<Cell>();
    is_shared::<Parts>();
}
