// Sessions, what they are told, and what a run made.
ghost use Rattle.std.specs.Prelude.{◌≤◌, length};
ghost use Rattle.srs_tree.specs.Sessions.{AreAscending};

use crate::{Journal, Queries, Said, Version};
use srs_num::{Items, Kept};

/// What is asked behind the round `at`, in its order.
#[derive(Drop)]
pub struct Segment {
    pub at: u32,
    pub queries: Queries,
}

/// The segments of a list stand in ascending order of their rounds, none twice.
pub struct Ascending;

impl Kept<Segment> for Ascending {
    ghost keeps = { AreAscending };
}

/// Segments, seen as the list of them, strictly ascending by their rounds.
pub type Session = Items<Segment, Ascending>;

/// A list has at most eight sessions.
pub struct Few;

impl Kept<Session> for Few {
    ghost keeps = { λ sessions. length sessions ≤ 8 };
}

/// At most eight sessions, seen as the list of them.
pub type Script = Items<Session, Few>;

/// What a session was told, seen as the list of it.
pub type Transcript = Items<Said>;

/// What each session was told, seen as the list of the lists, in the order of the sessions.
pub type Transcripts = Items<Transcript>;

/// What a run made: the version, the history that it stands for, and what each session was told.
#[derive(Drop)]
pub struct Run {
    pub version: Version,
    pub journal: Journal,
    pub transcripts: Transcripts,
}
