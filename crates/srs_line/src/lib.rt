//! Texts that are read line by line, and the fields of a line.
#![tactic(auto)]

mod laws;
mod machine;
mod many;
mod shape;
mod slip;
mod tokens;

pub use laws::{never_both, one_slip, read_once, read_or_slips};
pub use machine::{LineMachine, read_lines};
pub use many::numbers_of;
pub use shape::{count_of, fields, has_word, one, one_line, six, three};
pub use slip::{FileErr, LineErr, Slip};
pub use tokens::Tokens;
