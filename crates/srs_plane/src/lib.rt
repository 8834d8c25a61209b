//! Halves of the parameter plane, regions, and convex polygons.
#![tactic(auto)]

mod chains;
mod halves;
mod laws;
mod polygons;
mod regions;
mod sharing;
mod vertices;

pub use chains::Halves;
pub use halves::{Half, Kind};
pub use laws::convexity;
pub use polygons::{MOST_VERTEX_DENOMINATOR, MOST_VERTICES, PolyErr, Vertex, polygon};
pub use regions::{MOST_HALVES, Region};
pub use sharing::shared;
pub use vertices::Vertices;
