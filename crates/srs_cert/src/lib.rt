//! Certificates: what they hold, their texts, and where their nodes stand in them.
#![tactic(auto)]

mod certificates;
mod words;

pub use certificates::Cert;
pub use words::word_of;
