//! Worked examples of the calls of srs_num, srs_map and srs_plane: each call once with ample
//! memory, its answer compared with a value from outside. A table a subject.
#![tactic(auto)]

#[cfg(test)]
mod blocks;
#[cfg(test)]
mod counting;
#[cfg(test)]
mod numbers;
#[cfg(test)]
mod orbits;
#[cfg(test)]
mod polygons;
