// What is asked of a version, and what is said.
ghost use Rattle.std.specs.Prelude.{All};
ghost use Rattle.srs_tree.specs.Questions.{IsAskable};

use crate::{Met, Reply};
use srs_cell::Cell;
use srs_map::OrbitEnd;
use srs_num::{Items, Kept, Pt, V2};

/// A question: for the newest version, how many outcomes there are now, the answer at a point, the
/// answers that a polygon meets (a cell of at most 16 halves), or how the first steps of a pair's
/// orbit at a parameter end (at most 100,000, from entries within 2^37, at a parameter within 4 of
/// both axes).
#[derive(Drop)]
pub enum Query {
    Fresh,
    Count,
    Point(Pt),
    Polygon(Cell),
    Orbit(Pt, V2, u32),
}

/// What is said: the round of a segment, the number of the version that was taken, how many
/// outcomes there are, and the answers to the other questions.
#[derive(Drop)]
pub enum Said {
    At(u32),
    Version(u64),
    Point(Pt, Reply),
    Count(u64),
    Polygon(Met),
    Orbit(OrbitEnd),
}

/// Each question of a list is askable: a polygon's cell has at most 16 halves, and an orbit is one
/// that `orbit` follows.
pub struct Askable;

impl Kept<Query> for Askable {
    ghost keeps = { All IsAskable };
}

/// Questions, seen as the list of them; each is askable.
pub type Queries = Items<Query, Askable>;
