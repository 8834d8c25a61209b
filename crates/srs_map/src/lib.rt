//! The shift radix map of a parameter, its orbits, and the laws that a finite set of pairs decides by.
//!
//! The map and the set of finite parameters are those of Akiyama, Borbély, Brunotte, Pethő and Thuswaldner,
//! "Generalized radix representations and dynamical systems I" (2005).
#![tactic(auto)]

mod chase;
pub mod laws;
mod orbits;
mod steps;

pub use orbits::{MOST_STEPS, OrbitEnd, orbit};
pub use steps::{MOST_ENTRY, is_narrow, is_origin, minus, step};
