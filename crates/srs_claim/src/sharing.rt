// Threads share claims, and pass seats on.
use crate::{ClaimSeat, Claims};

fn is_shared<T: Send + Sync>() {}

fn is_sent<T: Send>() {}

/// Threads may share claims, and may pass seats on: that it is compiled shows it.
pub fn shared() {
    is_shared::<Claims>();
    is_sent::<ClaimSeat>();
}
