//! Worked examples of the check that reads line by line: sources that give a byte a call, two, and
//! all at once; what goes before what.
#![tactic(auto)]

#[cfg(test)]
mod large;
#[cfg(test)]
mod streams;
