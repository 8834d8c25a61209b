//! Tests of lists that are linked by index.
#![tactic(auto)]

#[cfg(test)]
mod fronts;
#[cfg(test)]
mod links;
#[cfg(test)]
mod plays;
#[cfg(test)]
mod walks;
