//! Worked examples of texts: what the readers refuse, on which line and why, what is read and
//! written back, and how what is said is written; of sources that are read line by line, and of
//! certificates that are fed their lines. The texts and the answers come from outside.
#![tactic(auto)]

#[cfg(test)]
mod certificates;
#[cfg(test)]
mod feeds;
#[cfg(test)]
mod refusals;
#[cfg(test)]
mod said;
#[cfg(test)]
mod sources;
#[cfg(test)]
mod texts;
