// What becomes of findings that are committed.
ghost use Rattle.std.specs.Prelude.{◌≡◌, None};
ghost use Rattle.srs_turn.specs.Passes.{IsPassOf};

use srs_atlas::{Atlas, AtlasPass, Commit};
use srs_cell::Cell;
use srs_path::{Outcome, Path, Side};
use srs_refine::refine;
use srs_tree::Pending;
use std::alloc::Global;
use std::sync::{Arc, Wait};

// What became of a finding: how many events there are; the form that cuts; the length and the last
// side of the cell that is named; how many halves the cell has, and the last of them; no memory.
#[derive(Clone, Copy, Debug, PartialEq, Eq, Drop)]
pub enum Told {
    Done(u64),
    Late(Option<(i64, i64, i64)>),
    NotThere(u32, Option<Side>),
    OtherCell(u32, Option<(i64, i64, i64)>),
    NoMemory,
}

// Commits the finding of the cell at the path to an atlas without a plan.
pub fn committed<R: Wait>(
    rt: &R,
    alloc: Global,
    atlas: &Atlas,
    pass: &mut AtlasPass,
    path: Path,
    cell: &Cell,
) -> Told
    requires own { IsPassOf atlas.now pass.old }
    requires free { atlas.now.fixed.plan ≡ None }
    ensures { IsPassOf atlas.now pass.new }
{
    if path.len() >= 48 {
        return Told::NoMemory;
    }
    match refine(alloc, cell, None, atlas.w()) {
        Ok(finding) => told_of(&atlas.commit(rt, alloc, pass, path, finding)),
        Err(_) => Told::NoMemory,
    }
}

// As `committed`, by the call that is given the cell. Where it says that it stands, no cell stands.
pub fn committed_at<R: Wait>(
    rt: &R,
    alloc: Global,
    atlas: &Atlas,
    pass: &mut AtlasPass,
    path: Path,
    cell: Cell,
) -> Told
    requires own { IsPassOf atlas.now pass.old }
    requires free { atlas.now.fixed.plan ≡ None }
    ensures { IsPassOf atlas.now pass.new }
{
    if path.len() >= 48 {
        return Told::NoMemory;
    }
    let Ok(finding) = refine(alloc, &cell, None, atlas.w()) else {
        return Told::NoMemory;
    };
    let Ok(cell) = Arc::new(alloc, cell) else {
        return Told::NoMemory;
    };
    let cell = Pending {
        path,
        cell,
        place: 99,
    };
    told_of(&atlas.commit_at(rt, alloc, pass, &cell, finding))
}

pub fn told_of(commit: &Commit) -> Told {
    match commit {
        Commit::Done(count) => Told::Done(*count),
        Commit::Late(outcome) => Told::Late(cut(outcome)),
        Commit::NotThere(longest) => Told::NotThere(longest.len(), last_side(longest)),
        Commit::OtherCell(cell) => Told::OtherCell(cell.region().len(), last_half(cell)),
        Commit::NoMemory(_) => Told::NoMemory,
    }
}

// The numbers of the form that cuts.
fn cut(outcome: &Outcome) -> Option<(i64, i64, i64)> {
    match outcome {
        Outcome::Cut(form) => Some(form.parts()),
        _ => None,
    }
}

// The last side of the path.
fn last_side(path: &Path) -> Option<Side> {
    if path.len() == 0 {
        return None;
    }
    Some(path.side(path.len() - 1))
}

// The numbers of the last half of the cell.
fn last_half(cell: &Cell) -> Option<(i64, i64, i64)> {
    let region = cell.region();
    if region.len() == 0 {
        return None;
    }
    Some(region.half(region.len() - 1).form.parts())
}
