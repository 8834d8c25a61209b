//! Worked examples of the crew.
#![tactic(auto)]

#[cfg(test)]
mod cells;
#[cfg(test)]
mod gates;
#[cfg(test)]
mod levels;
#[cfg(test)]
mod runs;
#[cfg(test)]
mod scripts;
#[cfg(test)]
mod sessions;
