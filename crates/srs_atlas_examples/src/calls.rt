// The calls of an atlas, one after another.
ghost use Rattle.std.specs.Prelude.{◌≡◌, None};
ghost use Rattle.srs_turn.specs.Passes.{IsPassOf};

use crate::cells::{DOWN, SPLIT, UP, cell_of, part, path_of};
use crate::commits::{Told, committed, committed_at};
use srs_atlas::{Atlas, AtlasPass, PendingList, shared_cell};
use srs_path::{Path, Side};
use std::alloc::Global;
use std::sync::Wait;
use std::test::Fail;

// A path, the side of y = 0 of the part whose finding is committed there, and what becomes of it.
type Row = (&'static str, Option<Side>, Told);

const CALLS: [Row; 5] = [
    ("", None, Told::Done(1)),
    ("", None, Told::Late(Some((0, 1, 0)))),
    ("gg", None, Told::NotThere(1, Some(Side::Ge))),
    ("g", DOWN, Told::OtherCell(4, Some((0, 1, 0)))),
    ("g", UP, Told::Done(2)),
];

const LAST: [Row; 1] = [("l", DOWN, Told::Done(3))];

// Commits the findings one after another, by the call that is given a path or by the one that is
// given a cell. The place of the first row that isn't so; none where all are.
fn first_other<R: Wait>(
    rt: &R,
    alloc: Global,
    atlas: &Atlas,
    pass: &mut AtlasPass,
    rows: &[Row],
    by_cell: bool,
) -> Result<Option<usize>, Fail>
    requires own { IsPassOf atlas.now pass.old }
    requires free { atlas.now.fixed.plan ≡ None }
    ensures { IsPassOf atlas.now pass.new }
{
    for i in 0..rows.len() {
        let (sides, side, wanted) = rows[i];
        let cell = part(alloc, &SPLIT, side)?;
        let path = path_of(sides)?;
        let told = if by_cell {
            committed_at(rt, alloc, atlas, pass, path, cell)
        } else {
            committed(rt, alloc, atlas, pass, path, &cell)
        };
        if told != wanted {
            return Ok(Some(i));
        }
    }
    Ok(None)
}

// The cells that wait behind the second event.
const WAITING: [&str; 3] = ["l", "gg", "gl"];

// Whether the cells are those on these paths, and so are shared owners of them.
fn are_at(cells: &PendingList, paths: &[&str]) -> Result<bool, Fail> {
    let cells = cells.as_slice();
    let mut all = cells.len() == paths.len();
    for (cell, sides) in cells.iter().zip(paths) {
        let shared = shared_cell(cell)?;
        let path: Path = path_of(sides)?;
        all = all && cell.path == path && shared.path == path;
        all = all && shared.cell.region().same(cell.cell.region());
    }
    Ok(all)
}

// How many events the pass sees by a count.
fn count_of(atlas: &Atlas, pass: &mut AtlasPass) -> u64
    requires { IsPassOf atlas.now pass.old }
    ensures { IsPassOf atlas.now pass.new }
{
    atlas.newest(pass)
}

// How many it sees by a version.
fn version_of<R: Wait>(
    rt: &R,
    alloc: Global,
    atlas: &Atlas,
    pass: &mut AtlasPass,
) -> Result<u64, Fail>
    requires { IsPassOf atlas.now pass.old }
    ensures { IsPassOf atlas.now pass.new }
{
    let version = atlas.refresh(rt, alloc, pass)?;
    Ok(version.count())
}

// Whether it sees that the cells on these paths wait.
fn waits_at<R: Wait>(
    rt: &R,
    alloc: Global,
    atlas: &Atlas,
    pass: &mut AtlasPass,
    paths: &[&str],
) -> Result<bool, Fail>
    requires { IsPassOf atlas.now pass.old }
    ensures { IsPassOf atlas.now pass.new }
{
    let cells = atlas.pending(rt, alloc, pass)?;
    are_at(&cells, paths)
}

// All that one pass sees behind the second event.
fn sees<R: Wait>(
    rt: &R,
    alloc: Global,
    atlas: &Atlas,
    pass: &mut AtlasPass,
) -> Result<(u64, u64, bool), Fail>
    requires { IsPassOf atlas.now pass.old }
    ensures { IsPassOf atlas.now pass.new }
{
    let count = count_of(atlas, pass);
    let version = version_of(rt, alloc, atlas, pass)?;
    Ok((count, version, waits_at(rt, alloc, atlas, pass, &WAITING)?))
}

// Whether the calls are answered so, where the other passes were split off before the first of them.
fn are_answered<R: Wait>(
    rt: &R,
    alloc: Global,
    atlas: &Atlas,
    pass: &mut AtlasPass,
    one: &mut AtlasPass,
    two: &mut AtlasPass,
    three: &mut AtlasPass,
    four: &mut AtlasPass,
) -> Result<bool, Fail>
    requires own { IsPassOf atlas.now pass.old × IsPassOf atlas.now one.old
        × IsPassOf atlas.now two.old × IsPassOf atlas.now three.old × IsPassOf atlas.now four.old }
    requires free { atlas.now.fixed.plan ≡ None }
{
    let none = count_of(atlas, pass) == 0;
    let calls = first_other(rt, alloc, atlas, pass, &CALLS, false)? == None;
    let seen = sees(rt, alloc, atlas, pass)? == (2, 2, true);
    let counted = count_of(atlas, one) == 2;
    let shared = version_of(rt, alloc, atlas, two)? == 2;
    let waiting = waits_at(rt, alloc, atlas, three, &WAITING)?;
    let last = first_other(rt, alloc, atlas, four, &LAST, true)? == None;
    Ok(none && calls && seen && counted && shared && waiting && last)
}

#[test]
fn atlas_calls(rt: HostRuntime) -> Result<(), Fail> {
    let alloc = rt.alloc();
    let (atlas, mut pass) = Atlas::start(&rt, alloc, cell_of(alloc, &SPLIT)?, 16)?;
    let mut one = atlas.split_pass(&mut pass);
    let mut two = atlas.split_pass(&mut pass);
    let mut three = atlas.split_pass(&mut pass);
    let mut four = atlas.split_pass(&mut pass);
    let terms = (atlas.w(), atlas.plan()) == (16, None);
    assert!(rt; terms);
    assert!(rt;
        are_answered(
            &rt, alloc, &atlas, &mut pass, &mut one, &mut two, &mut three, &mut four
        )?
    );
    Ok(())
}

#[test]
fn findings_at_cells(rt: HostRuntime) -> Result<(), Fail> {
    let alloc = rt.alloc();
    let (atlas, mut pass) = Atlas::start(&rt, alloc, cell_of(alloc, &SPLIT)?, 16)?;
    let other = first_other(&rt, alloc, &atlas, &mut pass, &CALLS, true)?;
    assert_eq!(rt; other, None);
    assert_eq!(rt; sees(&rt, alloc, &atlas, &mut pass)?, (2, 2, true));
    Ok(())
}
