// Cells without an event.
ghost use Rattle.std.specs.Prelude.{◌≡◌};

use srs_cell::Cell;
use srs_num::Items;
use srs_path::{Finding, Outcome, Path};
use std::marker::Model;
use std::sync::Arc;

/// A cell without an event: its path, and its region, which the tree shares.
#[derive(Drop)]
pub struct Pending {
    pub path: Path,
    pub cell: Arc<Cell>,
    /// Where its tree keeps it: `TreeBuilder::add` looks there first. It tells nothing else.
    pub place: usize,
}

impl Model for Pending {
    ghost use Rattle.std.specs.Arc.{arc_value};
    ghost use Rattle.srs_tree.specs.Queue.{WaitingCell};

    ghost Value = { WaitingCell };

    ghost view = { λ p. record { path = p.path; region = arc_value p.cell } };
}

impl Pending {
    // The same cell, which its tree keeps at this place.
    pub(crate) fn at(self, place: usize) -> Pending
        ensures { result ≡ self }
    {
        let Pending { path, cell, .. } = self;
        Pending { path, cell, place }
    }
}

/// Cells without an event, seen as the list of them.
pub type PendingList = Items<Pending>;

/// What comes with an entry: an owner of its outcome, and the two cells that a cut makes, Ge first.
#[derive(Drop)]
pub struct Added {
    pub outcome: Arc<Outcome>,
    pub parts: Option<(Pending, Pending)>,
}

/// What is made of a finding before it comes to a tree: the two cells of a cut, if they are made yet.
#[derive(Drop)]
pub struct Ahead {
    pub parts: Option<(Pending, Pending)>,
    /// Where the tree keeps the cell: it looks there first. It tells nothing else.
    pub near: usize,
}

/// A finding that may be entered in a tree, with the two cells that a cut makes, Ge first.
#[derive(Drop)]
pub struct Prepared {
    pub finding: Finding,
    pub parts: Option<(Pending, Pending)>,
    /// Where the tree keeps the cell: it looks there first. It tells nothing else.
    pub near: usize,
}
