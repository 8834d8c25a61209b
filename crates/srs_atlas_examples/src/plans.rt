// An atlas with a plan.
ghost use Rattle.std.specs.Prelude.{◌≡◌, Some};
ghost use Rattle.srs_turn.specs.Passes.{IsPassOf};

use crate::cells::{SPLIT, cell_of};
use crate::commits::{Told, told_of};
use srs_atlas::{Atlas, AtlasPass};
use srs_cell::Cell;
use srs_path::{Limits, Path};
use srs_refine::refine;
use std::alloc::Global;
use std::sync::Wait;
use std::test::Fail;

// Commits the finding of the root, by the plan.
fn committed_root<R: Wait>(
    rt: &R,
    alloc: Global,
    atlas: &Atlas,
    pass: &mut AtlasPass,
    limits: &Limits,
    root: &Cell,
) -> Told
    requires own { IsPassOf atlas.now pass.old }
    requires root { atlas.now.fixed.root ≡ root.now }
    requires plan { atlas.now.fixed.plan ≡ Some limits.now }
    ensures { IsPassOf atlas.now pass.new }
{
    // A root is one cell, which waits.
    match refine(alloc, root, limits.last(0, 1, 1), atlas.w()) {
        Ok(finding) => told_of(&atlas.commit(rt, alloc, pass, Path::root(), finding)),
        Err(_) => Told::NoMemory,
    }
}

// How many cells there are on paths of this length at most, and of this length.
fn counts_at<R: Wait>(rt: &R, atlas: &Atlas, pass: &mut AtlasPass, round: u32) -> (u64, u64)
    requires { IsPassOf atlas.now pass.old }
    ensures { IsPassOf atlas.now pass.new }
{
    let counts = atlas.counts(rt, pass, round);
    (counts.cells, counts.row)
}

// Whether there are so many at rounds 0, 1 and 2, once the root is cut.
fn are_counted<R: Wait>(rt: &R, atlas: &Atlas, pass: &mut AtlasPass) -> bool
    requires { IsPassOf atlas.now pass.old }
    ensures { IsPassOf atlas.now pass.new }
{
    let first = counts_at(rt, atlas, pass, 0) == (1, 1);
    let second = counts_at(rt, atlas, pass, 1) == (3, 2);
    let third = counts_at(rt, atlas, pass, 2) == (3, 0);
    first && second && third
}

#[test]
fn root_of_a_plan(rt: HostRuntime) -> Result<(), Fail> {
    let alloc = rt.alloc();
    let root = cell_of(alloc, &SPLIT)?;
    let cell = root.copy(alloc)?;
    let limits = Limits::new(2, 64, 16).ok_or("they are limits")?;
    let (atlas, mut pass) = Atlas::start_plan(&rt, alloc, cell, limits)?;
    let terms = (atlas.w(), atlas.plan()) == (16, Some(limits));
    let told = committed_root(&rt, alloc, &atlas, &mut pass, &limits, &root);
    let counted = are_counted(&rt, &atlas, &mut pass);
    let (version, events) = atlas.finish(&rt, pass);
    assert!(rt; terms && counted);
    assert_eq!(rt; told, Told::Done(1));
    assert_eq!(rt; (version.count(), events.len()), (1, 1));
    Ok(())
}
