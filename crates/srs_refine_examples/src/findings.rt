// Findings, limits and paths.
use crate::parts::{SPLIT, part};
use srs_path::{Cause, Finding, Last, Limits};
use srs_refine::refine;
use srs_shapes::{Cut, DOWN, Plain, UNDER, is_plain, path_of};
use std::alloc::Global;
use std::test::Fail;

// The outside cell of the split triangle.
const OUTSIDE: [Cut; 2] = [DOWN, UNDER];

// Whether a finding made of copies of another one's parts has them.
fn is_found_again(alloc: Global, finding: &Finding) -> Result<bool, Fail> {
    let region = finding.region().copy(alloc)?;
    let outcome = finding.outcome().copy(alloc)?;
    let again = Finding::found(region, finding.w(), outcome);
    let same = again.region().same(finding.region());
    Ok(same && again.w() == 16 && is_plain(again.outcome(), Plain::Outside(&[1])))
}

// Whether the owner of the outcome and the finding both have it, and whether the finding's parts do.
fn is_shared(alloc: Global, finding: Finding) -> Result<bool, Fail> {
    let (owner, finding) = finding.share_outcome(alloc).map_err(|_| "want of memory")?;
    let both = is_plain(owner.as_ref(), Plain::Outside(&[1]))
        && is_plain(finding.outcome(), Plain::Outside(&[1]));
    let (_, w, outcome) = finding.parts(alloc)?;
    Ok(both && w == 16 && is_plain(&outcome, Plain::Outside(&[1])))
}

#[test]
fn findings(rt: HostRuntime) -> Result<(), Fail> {
    let alloc = rt.alloc();
    let cell = part(alloc, &SPLIT, &OUTSIDE)?;
    let finding = refine(alloc, &cell, None, 16)?;
    assert!(rt; is_found_again(alloc, &finding)?);
    assert!(rt; is_shared(alloc, finding)?);
    let left = Finding::unfound(cell.region().copy(alloc)?, 16);
    assert!(rt; is_plain(left.outcome(), Plain::Left(Cause::Memory)));
    Ok(())
}

// A round, how many cells there are, how many of them wait, and which of the limits 2, 64 and 16 is spent.
const SPENT: [(u32, u64, u64, Option<Last>); 5] = [
    (0, 1, 1, None),
    (1, 60, 2, None),
    (1, 61, 2, Some(Last::Cells)),
    (2, 61, 2, Some(Last::Depth)),
    (2, 1, 1, Some(Last::Depth)),
];

// The place of the first row that isn't so; none where all are.
fn first_other(limits: &Limits, rows: &[(u32, u64, u64, Option<Last>)]) -> Option<usize> {
    for (i, (round, cells, pending, last)) in rows.iter().enumerate() {
        if *cells > 1000 || *pending > 1000 || limits.last(*round, *cells, *pending) != *last {
            return Some(i);
        }
    }
    None
}

#[test]
fn limits(rt: HostRuntime) -> Result<(), Fail> {
    let limits = Limits::new(2, 64, 16).ok_or("they are limits")?;
    assert_eq!(rt;
        (limits.depth(), limits.cells(), limits.wits()),
        (2, 64, 16)
    );
    assert_eq!(rt; first_other(&limits, &SPENT), None);
    assert!(rt; Limits::new(48, 65536, 64).is_some());
    assert!(rt; Limits::new(48, 65536, 65).is_none() && Limits::new(49, 1, 1).is_none());
    Ok(())
}

// Whether the path that these sides end is one of the other sides.
fn is_below(sides: &str, above: &str) -> Result<bool, Fail> {
    let parent = path_of(sides)?.parent().ok_or("it isn't the root")?;
    Ok(parent == path_of(above)?)
}

#[test]
fn numbers(rt: HostRuntime) -> Result<(), Fail> {
    assert_eq!(rt; path_of("")?.number(), 1);
    assert_eq!(rt; path_of("lgl")?.number(), 13);
    Ok(())
}

#[test]
fn parents(rt: HostRuntime) -> Result<(), Fail> {
    assert!(rt; is_below("gl", "g")? && is_below("l", "")? && !is_below("gl", "l")?);
    assert!(rt; path_of("")?.parent().is_none());
    Ok(())
}
