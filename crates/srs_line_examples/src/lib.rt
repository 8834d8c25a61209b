//! Worked examples of the calls of srs_text and srs_line: each call once with ample memory, its
//! answer compared with a value from outside. A table a subject.
#![tactic(auto)]

#[cfg(test)]
mod ends;
#[cfg(test)]
mod fields;
#[cfg(test)]
mod machines;
#[cfg(test)]
mod numbers;
