//! Worked examples of the calls of an atlas, by one thread and by several, and of trees that grow in place.
#![tactic(auto)]

#[cfg(test)]
mod calls;
#[cfg(test)]
mod cells;
#[cfg(test)]
mod commits;
#[cfg(test)]
mod plans;
#[cfg(test)]
mod threads;
#[cfg(test)]
mod trees;
