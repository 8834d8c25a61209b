// Rounds of an atlas, one by one.
ghost use Rattle.std.specs.Prelude.{◌≤◌};

use crate::cells::{SPLIT, cell_of};
use crate::gates::Holding;
use srs_atlas::Atlas;
use srs_crew::{Job, level};
use srs_path::{Last, Path, Side};
use srs_session::FreeGate;
use srs_tree::Script;
use std::alloc::Global;
use std::sync::Wait;
use std::test::Fail;
use std::thread::Threads;

// Three rounds of SPLIT, the last by two workers, of which the gate holds the one that drew `held`.
// It answers the path of the first event of the last round.
fn first_where_held<R: Threads + Wait + Sync>(
    rt: &R,
    alloc: Global,
    held: u64,
) -> Result<Path, Fail> {
    let (atlas, mut pass) = Atlas::start(rt, alloc, cell_of(alloc, SPLIT)?, 16)?;
    let first = Job {
        round: 0,
        last: None,
        workers: 1,
    };
    let script = Script::new(alloc);
    level(rt, alloc, &atlas, &mut pass, &first, &script, &FreeGate)?;
    let second = Job {
        round: 1,
        last: None,
        workers: 1,
    };
    level(rt, alloc, &atlas, &mut pass, &second, &script, &FreeGate)?;
    let third = Job {
        round: 2,
        last: Some(Last::Depth),
        workers: 2,
    };
    level(
        rt,
        alloc,
        &atlas,
        &mut pass,
        &third,
        &script,
        &Holding::of(held),
    )?;
    let (version, journal) = atlas.finish(rt, pass);
    if version.count() != 7 || journal.len() != 7 {
        Err("there are seven cells")?;
    }
    Ok(journal.get(3).path)
}

#[test]
fn events_in_either_order(rt: HostRuntime) -> Result<(), Fail> {
    let ge = Path::root().child(Side::Ge).ok_or("it is short")?;
    let both = ge.child(Side::Ge).ok_or("it is short")?;
    let last = ge.child(Side::Lt).ok_or("it is short")?;
    assert_eq!(rt; first_where_held(&rt, rt.alloc(), 1)?, both);
    assert_eq!(rt; first_where_held(&rt, rt.alloc(), 0)?, last);
    Ok(())
}
