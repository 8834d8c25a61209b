//! Worked examples of the calls of srs_path, srs_cut, srs_grid, srs_wit, srs_graph and srs_refine:
//! each call once with ample memory, its answer compared with a value from outside. A table a
//! subject.
#![tactic(auto)]

#[cfg(test)]
mod findings;
#[cfg(test)]
mod graphs;
#[cfg(test)]
mod parts;
#[cfg(test)]
mod refinement;
#[cfg(test)]
mod witnesses;
