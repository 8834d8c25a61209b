// Versions of a tree, and why they don't take a finding.
use crate::parts::{SPLIT, cell_of, part};
use srs_cell::Cell;
use srs_path::{Finding, Last, Outcome, Path, Side};
use srs_refine::refine;
use srs_shapes::{Cut, DOWN, Plain, UP, is_outcome, path_of};
use srs_tree::{Pending, TreeBuilder, TreeErr, Version};
use std::alloc::Global;
use std::test::Fail;

// Why a finding isn't entered: the length and the first side of the cell that is named; the form
// that cuts it; or how many halves it has, and the last of them.
#[derive(Clone, Copy, Debug, PartialEq, Eq, Drop)]
enum Refusal {
    NotThere(u32, Option<Side>),
    Done(Option<(i64, i64, i64)>),
    OtherCell(u32, Option<(i64, i64, i64)>),
    NoMemory,
}

// A path, the cuts of the part whose finding comes there, and why it isn't entered.
type Row = (&'static str, &'static [Cut], Option<Refusal>);

// The root is a cut; its Ge part has four halves, and is no cut yet.
const REFUSALS: [Row; 4] = [
    ("", &[], Some(Refusal::Done(Some((0, 1, 0))))),
    ("gg", &[], Some(Refusal::NotThere(1, Some(Side::Ge)))),
    ("g", &[DOWN], Some(Refusal::OtherCell(4, Some((0, 1, 0))))),
    ("g", &[UP], None),
];

fn finding_of(alloc: Global, cuts: &[Cut], last: Option<Last>) -> Result<Finding, Fail> {
    let finding = refine(alloc, &part(alloc, SPLIT, cuts)?, last, 16)?;
    Ok(finding)
}

// The version without an outcome.
pub fn start(alloc: Global) -> Result<Version, Fail> {
    let cell = cell_of(alloc, SPLIT)?;
    if cell.region().len() > 16 {
        Err("it has three halves")?;
    }
    let version = Version::start(alloc, cell)?;
    Ok(version)
}

fn with(
    alloc: Global,
    version: &Version,
    path: Path,
    f: Finding,
) -> Result<Result<Version, TreeErr>, Fail> {
    if path.len() >= 48 {
        Err("it is short")?;
    }
    Ok(version.with(alloc, path, f))
}

// The version with the finding of the part entered.
pub fn entered(
    alloc: Global,
    version: &Version,
    sides: &str,
    cuts: &[Cut],
    last: Option<Last>,
) -> Result<Version, Fail> {
    let finding = finding_of(alloc, cuts, last)?;
    match with(alloc, version, path_of(sides)?, finding)? {
        Ok(next) => Ok(next),
        Err(_) => Err("it is entered")?,
    }
}

// Paths and their outcomes.
type Outcomes = &'static [(&'static str, Option<Plain>)];

const NONE: Outcomes = &[("", None), ("g", None), ("l", None)];

const ONE: Outcomes = &[("", Some(Plain::Cut(0, 1, 0))), ("g", None), ("l", None)];

const TWO: Outcomes = &[
    ("", Some(Plain::Cut(0, 1, 0))),
    ("g", Some(Plain::Cut(1, 0, 0))),
    ("l", None),
    ("gg", None),
    ("lg", None),
];

// The place of the first path that has another outcome; none where all have theirs.
pub fn first_other_outcome(
    version: &Version,
    rows: &[(&str, Option<Plain>)],
) -> Result<Option<usize>, Fail> {
    for (i, (sides, wanted)) in rows.iter().enumerate() {
        if !is_outcome(version.outcome(path_of(sides)?), *wanted) {
            return Ok(Some(i));
        }
    }
    Ok(None)
}

// Whether the version has so many outcomes, in preorder too, and these among them.
fn has(
    alloc: Global,
    version: &Version,
    count: u64,
    rows: &[(&str, Option<Plain>)],
) -> Result<bool, Fail> {
    let events = version.preorder(alloc)?.len();
    let all = first_other_outcome(version, rows)?.is_none();
    Ok(all && version.count() == count && events == count)
}

// Two paths and the cuts that lead there, in the order in which their outcomes come.
const ENTRIES: [(&str, &[Cut]); 2] = [("", &[]), ("g", &[UP])];

// The version without an outcome, those with one and with two, and a copy of the last.
fn versions(alloc: Global) -> Result<Vec<Version>, Fail> {
    let mut versions = Vec::new(alloc);
    let mut newest = start(alloc)?;
    for (sides, cuts) in ENTRIES {
        let next = entered(alloc, &newest, sides, cuts, None)?;
        versions.push(newest)?;
        newest = next;
    }
    let shared = newest.share(alloc)?;
    versions.push(newest)?;
    versions.push(shared)?;
    Ok(versions)
}

// How many outcomes they have, and what stands at some paths.
const GROWN: [(u64, Outcomes); 4] = [(0, NONE), (1, ONE), (2, TWO), (2, TWO)];

// Whether the versions have these outcomes.
fn have_grown(alloc: Global, versions: &[Version]) -> Result<bool, Fail> {
    for (i, (count, rows)) in GROWN.iter().enumerate() {
        if i >= versions.len() || !has(alloc, &versions[i], *count, rows)? {
            return Ok(false);
        }
    }
    Ok(true)
}

#[test]
fn entries(rt: HostRuntime) -> Result<(), Fail> {
    let versions = versions(rt.alloc())?;
    assert!(rt; have_grown(rt.alloc(), &versions)?);
    Ok(())
}

// How many halves the parts have, where there are two.
fn halves(parts: &Option<(Pending, Pending)>) -> Option<(u32, u32)> {
    match parts {
        Some((ge, lt)) => Some((ge.cell.region().len(), lt.cell.region().len())),
        None => None,
    }
}

// The tree with the root's finding, which is looked for at this place first, and how many halves
// the two cells have that it makes.
fn built(alloc: Global, near: usize) -> Result<(Version, Option<(u32, u32)>), Fail> {
    let cell = cell_of(alloc, SPLIT)?;
    if cell.region().len() > 16 {
        Err("it has three halves")?;
    }
    let finding = refine(alloc, &cell, None, 16)?;
    let mut tree = TreeBuilder::start(alloc, cell)?;
    let parts = tree.add(alloc, near, Path::root(), finding)?;
    Ok((tree.finish(), halves(&parts)))
}

// The same by a version that grows.
fn grown(alloc: Global) -> Result<(Version, Option<(u32, u32)>, bool), Fail> {
    let version = start(alloc)?;
    match version.grown(alloc, Path::root(), finding_of(alloc, &[], None)?) {
        Ok(grown) => {
            let same = cut(&grown.outcome) == Some((0, 1, 0));
            Ok((
                grown.version,
                halves(&grown.parts),
                same && version.count() == 0,
            ))
        }
        Err(_) => Err("it is entered")?,
    }
}

#[test]
fn cells_of_a_cut(rt: HostRuntime) -> Result<(), Fail> {
    let alloc = rt.alloc();
    for near in 0..2 {
        let (version, parts) = built(alloc, near)?;
        assert_eq!(rt; parts, Some((4, 4)));
        assert!(rt; has(alloc, &version, 1, ONE)?);
    }
    let (other, parts, same) = grown(alloc)?;
    assert_eq!(rt; (parts, same), (Some((4, 4)), true));
    assert!(rt; has(alloc, &other, 1, ONE)?);
    Ok(())
}

// The numbers of the form that cuts.
fn cut(outcome: &Outcome) -> Option<(i64, i64, i64)> {
    match outcome {
        Outcome::Cut(form) => Some(form.parts()),
        _ => None,
    }
}

// The first side of the path.
fn first_side(path: &Path) -> Option<Side> {
    if path.len() == 0 {
        return None;
    }
    Some(path.side(0))
}

// The numbers of the last half of the cell.
fn last_half(cell: &Cell) -> Option<(i64, i64, i64)> {
    let region = cell.region();
    let count = region.len();
    if count == 0 {
        return None;
    }
    Some(region.half(count - 1).form.parts())
}

fn kind_of(refused: &TreeErr) -> Refusal {
    match refused {
        TreeErr::NotThere(longest) => Refusal::NotThere(longest.len(), first_side(longest)),
        TreeErr::Done(outcome) => Refusal::Done(cut(outcome)),
        TreeErr::OtherCell(cell) => Refusal::OtherCell(cell.region().len(), last_half(cell)),
        TreeErr::NoMemory(_) => Refusal::NoMemory,
    }
}

// Why the finding of the part isn't entered at the path.
fn why_not(
    alloc: Global,
    version: &Version,
    sides: &str,
    cuts: &[Cut],
) -> Result<Option<Refusal>, Fail> {
    let finding = finding_of(alloc, cuts, None)?;
    match with(alloc, version, path_of(sides)?, finding)? {
        Ok(_) => Ok(None),
        Err(refused) => Ok(Some(kind_of(&refused))),
    }
}

// The place of the first row that isn't so; none where all are.
fn first_other_refusal(
    alloc: Global,
    version: &Version,
    rows: &[Row],
) -> Result<Option<usize>, Fail> {
    for (i, (sides, cuts, wanted)) in rows.iter().enumerate() {
        if why_not(alloc, version, sides, cuts)? != *wanted {
            return Ok(Some(i));
        }
    }
    Ok(None)
}

#[test]
fn refused_entries(rt: HostRuntime) -> Result<(), Fail> {
    let alloc = rt.alloc();
    let version = entered(alloc, &start(alloc)?, "", &[], None)?;
    assert_eq!(rt; first_other_refusal(alloc, &version, &REFUSALS)?, None);
    Ok(())
}
