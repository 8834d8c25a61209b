// What is answered where a finding is to be entered.
ghost use Rattle.std.specs.Prelude.{◌≡◌};
ghost use Rattle.srs_tree.specs.Growth.{IsShortCut};
ghost use Rattle.srs_tree.specs.Ahead.{AreMadeBy};
ghost use Rattle.srs_atlas.specs.Commits.{commit_of};

use srs_cell::Cell;
use srs_path::{Finding, Outcome, Path};
use srs_plane::MOST_HALVES;
use srs_tree::{Ahead, Pending, TreeErr, parts_ahead};
use std::alloc::Global;
use std::sync::Arc;

/// What became of a finding at a path: the history has this many events, the last of which is the
/// finding's; the cell had this outcome; the path is no cell, and this is its longest beginning
/// that is one; this is the cell there, and the finding is of another region; want of memory, with
/// the finding.
#[derive(Drop)]
pub enum Commit {
    Done(u64),
    Late(Arc<Outcome>),
    NotThere(Path),
    OtherCell(Arc<Cell>),
    NoMemory(Finding),
}

// The answer by a version's refusal.
pub(crate) fn refused(refusal: TreeErr) -> Commit
    ensures { result ≡ commit_of refusal }
{
    match refusal {
        TreeErr::NotThere(path) => Commit::NotThere(path),
        TreeErr::Done(outcome) => Commit::Late(outcome),
        TreeErr::OtherCell(cell) => Commit::OtherCell(cell),
        TreeErr::NoMemory(finding) => Commit::NoMemory(finding),
    }
}

// The finding, with its outcome where it can have more owners, so that less is to be done under the
// turn. Where there is no memory for that, it is done there.
pub(crate) fn prepared(alloc: Global, f: Finding) -> Finding
    ensures { result ≡ f }
{
    match f.share_outcome(alloc) {
        Ok((_, f)) => f,
        Err(f) => f,
    }
}

// What is made of the finding for the cell before the turn. Where there is no memory for that, it is
// made under the turn.
pub(crate) fn ahead_of(alloc: Global, cell: &Pending, f: &Finding) -> Ahead
    requires { IsShortCut cell.now.path f.now.outcome }
    ensures { AreMadeBy (record { path = cell.now.path; region = f.now.region })
        f.now.outcome result.parts }
{
    if cell.cell.region().len() < MOST_HALVES {
        if let Ok(ahead) = parts_ahead(alloc, cell, f) {
            return ahead;
        }
    }
    Ahead {
        parts: None,
        near: cell.place,
    }
}
