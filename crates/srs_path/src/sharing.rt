// Threads pass outcomes, events and findings on and share them.
use crate::{Event, Finding, Outcome};

fn is_shared<T: Send + Sync>() {}

/// Threads may pass outcomes, events and findings on and share them: that it is compiled shows it.
pub fn shared() {
    is_shared::<Outcome>();
    is_shared::<Event>();
    is_shared::<Finding>();
}
