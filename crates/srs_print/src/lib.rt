//! Writes the texts of certificates, and the lines of what is said.
#![tactic(auto)]

mod certificate;
mod line;
mod live;
mod node;
mod numbers;
mod said;

pub use certificate::{put_cert, put_ring};
pub use line::{put_count, put_line, put_words};
pub use live::put_live;
pub use numbers::sayable;
pub use said::{put_answer, put_said};
