//! Worked examples of the calls that threads share: the turn round a book of numbers, and numbers
//! that are drawn.
#![tactic(auto)]

#[cfg(test)]
mod book;
#[cfg(test)]
mod claims;
#[cfg(test)]
mod turns;
