// Threads that commit to one atlas.
ghost use Rattle.std.specs.Prelude.{◌≡◌, ◌≤◌, length, None};
ghost use Rattle.std.specs.Thread.{IsSync};
ghost use Rattle.srs_turn.specs.Passes.{IsPassOf};

use crate::cells::{SPLIT, WHOLE, cell_of};
use crate::commits::{Told, committed};
use srs_atlas::{Atlas, AtlasPass, PendingList};
use srs_cell::Cell;
use srs_path::Path;
use srs_refine::refine;
use srs_tree::{GrowingTree, Journal, Pending, Version};
use std::alloc::Global;
use std::sync::Wait;
use std::test::Fail;
use std::thread::{Threads, join};

// Commits the finding of the root.
fn commit_root<R: Wait>(
    rt: &R,
    alloc: Global,
    atlas: &Atlas,
    mut pass: AtlasPass,
    root: &Cell,
) -> (AtlasPass, Told)
    requires own { IsPassOf atlas.now pass }
    requires free { atlas.now.fixed.plan ≡ None }
    ensures { IsPassOf atlas.now result.0 }
{
    let told = committed(rt, alloc, atlas, &mut pass, Path::root(), root);
    (pass, told)
}

// Two threads commit the finding of the root. The passes come back as one.
fn two_commit<R: Threads + Wait + Sync>(
    rt: &R,
    alloc: Global,
    atlas: &Atlas,
    mut pass: AtlasPass,
    root: &Cell,
) -> (AtlasPass, Told, Told)
    requires own { IsPassOf atlas.now pass }
    requires free { atlas.now.fixed.plan ≡ None }
    ensures { IsPassOf atlas.now result.0 }
{
    let other = atlas.split_pass(&mut pass);
    let (one, other) = join(
        rt,
        move ||
            requires { IsPassOf atlas.now pass × (atlas.now.fixed.plan ≡ None) }
            ensures { IsPassOf atlas.entry.now result.0 }
        { commit_root(rt, alloc, atlas, pass, root) },
        move ||
            requires { IsPassOf atlas.now other × (atlas.now.fixed.plan ≡ None) }
            ensures { IsPassOf atlas.entry.now result.0 }
        { commit_root(rt, alloc, atlas, other, root) },
    );
    let (mut pass, first) = one;
    let (other, second) = other;
    atlas.join_pass(&mut pass, other);
    (pass, first, second)
}

// The event came, and the cell had an outcome, whichever thread was told which.
const DONE: Told = Told::Done(1);

const LATE: Told = Told::Late(Some((0, 1, 0)));

#[test]
fn two_threads_at_the_root(rt: HostRuntime) -> Result<(), Fail> {
    let alloc = rt.alloc();
    let root = cell_of(alloc, &SPLIT)?;
    for _ in 0..100 {
        let (atlas, pass) = Atlas::start(&rt, alloc, cell_of(alloc, &SPLIT)?, 16)?;
        let (pass, first, second) = two_commit(&rt, alloc, &atlas, pass, &root);
        assert!(rt; (first, second) == (DONE, LATE) || (first, second) == (LATE, DONE));
        let (version, events) = atlas.finish(&rt, pass);
        assert_eq!(rt; (version.count(), events.len()), (1, 1));
    }
    Ok(())
}

// Enters the outcomes of the cells.
fn enter_all(alloc: Global, tree: &mut GrowingTree, cells: &PendingList) -> Result<(), Fail> {
    for cell in cells.as_slice() {
        if cell.path.len() >= 48 {
            Err("it is short")?;
        }
        let finding = refine(alloc, &cell.cell, None, 16)?;
        if tree.enter(alloc, cell.path, finding).is_err() {
            Err("it is entered")?;
        }
    }
    Ok(())
}

// The cells of the first three rounds.
fn rounds_of(alloc: Global, root: Cell) -> Result<Vec<PendingList>, Fail>
    requires { length root ≤ 16 }
{
    let mut tree = GrowingTree::start(alloc, root)?;
    let mut rounds = Vec::new(alloc);
    for _ in 0..3 {
        let cells = tree.waiting(alloc)?;
        enter_all(alloc, &mut tree, &cells)?;
        rounds.push(cells)?;
    }
    Ok(rounds)
}

// The numbers of a thread's own events, and their paths, in the order in which it was told of them.
type Own = Vec<(u64, Path)>;

// Commits the findings of the cells, from the cell number `first` on and then from the front.
fn commit_all<R: Wait>(
    rt: &R,
    alloc: Global,
    atlas: &Atlas,
    pass: &mut AtlasPass,
    cells: &[Pending],
    first: usize,
    own: &mut Own,
)
    requires own { IsPassOf atlas.now pass.old }
    requires free { atlas.now.fixed.plan ≡ None }
    ensures { IsPassOf atlas.now pass.new }
{
    for i in 0..cells.len() {
        let cell = &cells[i.wrapping_add(first) % cells.len()];
        if let Told::Done(number) = committed(rt, alloc, atlas, pass, cell.path, &cell.cell) {
            let _ = own.push((number, cell.path));
        }
    }
}

// Commits the findings of all cells, round by round.
fn work<R: Wait>(
    rt: &R,
    alloc: Global,
    atlas: &Atlas,
    mut pass: AtlasPass,
    rounds: &[PendingList],
    first: usize,
) -> (AtlasPass, Own)
    requires own { IsPassOf atlas.now pass }
    requires free { atlas.now.fixed.plan ≡ None }
    ensures { IsPassOf atlas.now result.0 }
{
    let mut own = Vec::new(alloc);
    for cells in rounds {
        commit_all(
            rt,
            alloc,
            atlas,
            &mut pass,
            cells.as_slice(),
            first,
            &mut own,
        );
    }
    (pass, own)
}

// Two threads commit all, each in its order.
fn two_work<R: Threads + Wait + Sync>(
    rt: &R,
    alloc: Global,
    atlas: &Atlas,
    mut pass: AtlasPass,
    rounds: &[PendingList],
    first: usize,
) -> (AtlasPass, Own, Own)
    requires own { IsPassOf atlas.now pass }
    requires free { atlas.now.fixed.plan ≡ None }
    ensures { IsPassOf atlas.now result.0 }
{
    let other = atlas.split_pass(&mut pass);
    let (one, other) = join(
        rt,
        move ||
            requires { IsPassOf atlas.now pass × (atlas.now.fixed.plan ≡ None) }
            ensures { IsPassOf atlas.entry.now result.0 }
        { work(rt, alloc, atlas, pass, rounds, first) },
        move ||
            requires { IsPassOf atlas.now other × (atlas.now.fixed.plan ≡ None) }
            ensures { IsPassOf atlas.entry.now result.0 }
        { work(rt, alloc, atlas, other, rounds, first.wrapping_add(1)) },
    );
    let (mut pass, first) = one;
    let (other, second) = other;
    atlas.join_pass(&mut pass, other);
    (pass, first, second)
}

// Four threads commit all, each in its order.
fn four_work<R: Threads + Wait + Sync>(
    rt: &R,
    alloc: Global,
    atlas: &Atlas,
    mut pass: AtlasPass,
    rounds: &[PendingList],
) -> (AtlasPass, (Own, Own), (Own, Own))
    requires own { IsPassOf atlas.now pass }
    requires free { atlas.now.fixed.plan ≡ None }
    ensures { IsPassOf atlas.now result.0 }
{
    let other = atlas.split_pass(&mut pass);
    let (one, other) = join(
        rt,
        move ||
            requires { IsPassOf atlas.now pass × (atlas.now.fixed.plan ≡ None) × IsSync R.row }
            ensures { IsPassOf atlas.entry.now result.0 }
        { two_work(rt, alloc, atlas, pass, rounds, 0) },
        move ||
            requires { IsPassOf atlas.now other × (atlas.now.fixed.plan ≡ None) × IsSync R.row }
            ensures { IsPassOf atlas.entry.now result.0 }
        { two_work(rt, alloc, atlas, other, rounds, 2) },
    );
    let (mut pass, one, two) = one;
    let (other, three, four) = other;
    atlas.join_pass(&mut pass, other);
    (pass, (one, two), (three, four))
}

// Whether the numbers ascend, and the history has the paths at them.
fn in_order(own: &[(u64, Path)], events: &Journal) -> bool {
    let mut before = 0;
    for (number, path) in own {
        if *number <= before || *number > events.len() || events.get(*number - 1).path != *path {
            return false;
        }
        before = *number;
    }
    true
}

// Whether each cell has an outcome, and how many cells there are.
fn all_entered(version: &Version, rounds: &[PendingList]) -> (bool, usize) {
    let mut all = true;
    let mut count = 0;
    for cells in rounds {
        for cell in cells.as_slice() {
            all = all && version.outcome(cell.path).is_some();
        }
        count = cells.as_slice().len().wrapping_add(count);
    }
    (all, count)
}

#[test]
fn four_threads_in_three_rounds(rt: HostRuntime) -> Result<(), Fail> {
    let alloc = rt.alloc();
    let rounds = rounds_of(alloc, cell_of(alloc, &WHOLE)?)?;
    for _ in 0..25 {
        let (atlas, pass) = Atlas::start(&rt, alloc, cell_of(alloc, &WHOLE)?, 16)?;
        let (pass, (one, two), (three, four)) = four_work(&rt, alloc, &atlas, pass, &rounds);
        let (version, events) = atlas.finish(&rt, pass);
        assert_eq!(rt; all_entered(&version, &rounds), (true, 7));
        assert_eq!(rt; (version.count(), events.len()), (7, 7));
        assert!(rt; in_order(&one, &events) && in_order(&two, &events));
        assert!(rt; in_order(&three, &events) && in_order(&four, &events));
        let halves = (
            one.len().wrapping_add(two.len()),
            three.len().wrapping_add(four.len()),
        );
        assert_eq!(rt; halves.0.wrapping_add(halves.1), 7);
    }
    Ok(())
}
