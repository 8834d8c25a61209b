// Trees that grow in place, and versions of them.
use crate::cells::{SPLIT, UP, cell_of, part};
use srs_path::{Cause, Finding, Last, Outcome, Path};
use srs_plane::MOST_HALVES;
use srs_refine::refine;
use srs_tree::{Answer, GrowingTree, Pending, Version, parts_ahead};
use std::alloc::Global;
use std::test::Fail;

// Whether the cell that waits is the root, of three halves.
fn is_root(cell: &Pending) -> bool {
    cell.path.same(&Path::root()) && cell.cell.region().len() == 3
}

// Whether the version's root is the cell, how many outcomes it has, and whether the root has one.
fn told(version: &Version) -> Result<(bool, u64, bool), Fail> {
    let root = version.root()?;
    let found = version.outcome(Path::root()).is_some();
    Ok((is_root(&root), version.count(), found))
}

// The outcome of the root is entered.
fn enter(alloc: Global, tree: &mut GrowingTree) -> Result<(), Fail> {
    let finding = refine(alloc, &cell_of(alloc, &SPLIT)?, Some(Last::Depth), 16)?;
    if tree.enter(alloc, Path::root(), finding).is_err() {
        Err("it is entered")?;
    }
    Ok(())
}

// What a version tells that is taken before the outcome of the root is entered, asked after that;
// and what one tells that is taken then.
fn taken(alloc: Global, tree: &mut GrowingTree) -> Result<[(bool, u64, bool); 2], Fail> {
    let before = tree.version(alloc)?;
    enter(alloc, tree)?;
    let after = tree.version(alloc)?;
    Ok([told(&before)?, told(&after)?])
}

#[test]
fn versions_of_a_tree(rt: HostRuntime) -> Result<(), Fail> {
    let alloc = rt.alloc();
    let mut tree = GrowingTree::start(alloc, cell_of(alloc, &SPLIT)?)?;
    let taken = taken(alloc, &mut tree)?;
    let root = is_root(&tree.root()?);
    let last = tree.finish();
    assert!(rt; root);
    assert_eq!(rt; taken, [(true, 0, false), (true, 1, true)]);
    assert_eq!(rt; told(&last)?, (true, 1, true));
    Ok(())
}

// The numbers of the cells that are made ahead of the finding's entry, at the root.
fn made_ahead(
    alloc: Global,
    root: &Pending,
    finding: &Finding,
) -> Result<Option<(u64, u64)>, Fail> {
    if root.path.len() >= 48 || root.cell.region().len() >= MOST_HALVES {
        Err("it is a root")?;
    }
    match parts_ahead(alloc, root, finding)?.parts {
        Some((ge, lt)) => Ok(Some((ge.path.number(), lt.path.number()))),
        None => Ok(None),
    }
}

#[test]
fn cells_made_ahead(rt: HostRuntime) -> Result<(), Fail> {
    let alloc = rt.alloc();
    let root = GrowingTree::start(alloc, cell_of(alloc, &SPLIT)?)?.root()?;
    let cut = refine(alloc, &root.cell, None, 16)?;
    let left = refine(alloc, &root.cell, Some(Last::Depth), 16)?;
    let part = refine(alloc, &part(alloc, &SPLIT, UP)?, None, 16)?;
    assert_eq!(rt; made_ahead(alloc, &root, &cut)?, Some((2, 3)));
    assert_eq!(rt; made_ahead(alloc, &root, &left)?, None);
    assert_eq!(rt; made_ahead(alloc, &root, &part)?, None);
    Ok(())
}

#[test]
fn answer_of_a_leaf(rt: HostRuntime) {
    let left = Outcome::Left(Cause::Thin);
    let answer = Answer::of(&left);
    assert!(rt; matches!(answer, Answer::Undecided(Some(Cause::Thin))));
}
