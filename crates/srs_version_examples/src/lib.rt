//! Worked examples of the calls of srs_tree, srs_raster, srs_check and of certificates: each call
//! once with ample memory, its answer compared with a value from outside. A table a subject.
#![tactic(auto)]

#[cfg(test)]
mod answers;
#[cfg(test)]
mod blocks;
#[cfg(test)]
mod builds;
#[cfg(test)]
mod certificates;
#[cfg(test)]
mod meetings;
#[cfg(test)]
mod parts;
#[cfg(test)]
mod versions;
