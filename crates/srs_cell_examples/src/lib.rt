//! Worked examples of the calls of srs_cell: each call once with ample memory, its answer compared
//! with a value from outside. A table a subject.
#![tactic(auto)]

#[cfg(test)]
mod cells;
#[cfg(test)]
mod cuts;
#[cfg(test)]
mod shapes;
#[cfg(test)]
mod sides;
