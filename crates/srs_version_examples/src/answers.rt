// What a version answers at a point, with the steps counted on a ledger of the caller's.
ghost use Rattle.std.specs.Prelude.{◌≡◌, ◌<◌};

use crate::certificates::{LEFT_SEGMENT, OPEN_EDGE, SPLIT, version_of};
use crate::versions::{entered, start};
use srs_num::{Pt, Steps};
use srs_path::{Cause, Last, Path, Why};
use srs_shapes::{is_cycle, path_of};
use srs_tree::{Answer, Reply, Version};
use std::alloc::Global;
use std::marker::Brand;
use std::sync::ledger::{Blank, Ledger};
use std::test::Fail;

// An answer as a table has it.
#[derive(Clone, Copy, Drop)]
enum Told {
    Inside,
    Outside(&'static [i64]),
    Undecided(Option<Cause>),
    Beyond,
}

// A point p/d, q/d, the answer, and the path of its leaf.
type Row = ((i64, i64, i64), Told, Option<&'static str>);

// The greatest denominator.
const DEEPEST: i64 = 1 << 40;

// An eighth of it.
const EIGHTH: i64 = 1 << 37;

const DEPTH: Told = Told::Undecided(Some(Cause::Depth(Why::Cycle)));

const MEMORY: Told = Told::Undecided(Some(Cause::Memory));

// The corners; the middles of the edges.
const EDGES: [Row; 6] = [
    ((-1, 0, 8), Told::Outside(&[0, 1]), Some("gl")),
    ((0, -1, 8), Told::Outside(&[1]), Some("ll")),
    ((1, 0, 8), Told::Inside, Some("gg")),
    ((-1, -1, 16), Told::Outside(&[1]), Some("ll")),
    ((1, -1, 16), Told::Inside, Some("lg")),
    ((0, 0, 1), Told::Inside, Some("gg")),
];

// Within y = 0 on both sides of x = 0; on the line x + y = 0, and on both sides of it; just below y
// = 0 on both sides of x + y = 0.
const LINES: [Row; 8] = [
    ((1, 0, DEEPEST), Told::Inside, Some("gg")),
    ((-1, 0, DEEPEST), Told::Outside(&[0, 1]), Some("gl")),
    ((1, -1, 32), Told::Inside, Some("lg")),
    (
        (1 + (1 << 35), -(1 << 35), DEEPEST),
        Told::Inside,
        Some("lg"),
    ),
    (
        (-1 + (1 << 35), -(1 << 35), DEEPEST),
        Told::Outside(&[1]),
        Some("ll"),
    ),
    ((1, -1, DEEPEST), Told::Inside, Some("lg")),
    ((0, -1, DEEPEST), Told::Outside(&[1]), Some("ll")),
    ((-1, -1, DEEPEST), Told::Outside(&[1]), Some("ll")),
];

// The corner (1/8, 0), just inside it and just outside; past the edge y = 0, past the other corners
// and past another edge; far away.
const BEYOND: [Row; 8] = [
    ((EIGHTH, 0, DEEPEST), Told::Inside, Some("gg")),
    ((EIGHTH - 1, 0, DEEPEST), Told::Inside, Some("gg")),
    ((EIGHTH + 1, 0, DEEPEST), Told::Beyond, None),
    ((0, 1, DEEPEST), Told::Beyond, None),
    ((0, -EIGHTH - 1, DEEPEST), Told::Beyond, None),
    ((-EIGHTH - 1, 0, DEEPEST), Told::Beyond, None),
    ((1, -2, 16), Told::Beyond, None),
    ((1 << 42, 1 << 42, 1), Told::Beyond, None),
];

// The open edge with its ends, and beside it; the closed edge from (0, -1/8) to (1/8, 0).
const OPEN: [Row; 7] = [
    ((-1, 0, 8), Told::Beyond, None),
    ((0, -1, 8), Told::Beyond, None),
    ((-1, -1, 16), Told::Beyond, None),
    (
        (1 - (EIGHTH / 2), -(EIGHTH / 2), DEEPEST),
        Told::Outside(&[1]),
        Some("ll"),
    ),
    ((1 - EIGHTH, 0, DEEPEST), Told::Outside(&[0, 1]), Some("gl")),
    ((1, -1, 16), Told::Inside, Some("lg")),
    ((1, 0, 8), Told::Inside, Some("gg")),
];

// The segment that is left, whose cause isn't taken over.
const LEFT: [Row; 3] = [
    ((-1, 0, 8), MEMORY, Some("gl")),
    ((-1, 0, DEEPEST), MEMORY, Some("gl")),
    ((0, 0, 1), Told::Inside, Some("gg")),
];

// A version without an outcome, and one whose root is left.
const NOTHING: [Row; 2] = [
    ((0, 0, 1), Told::Undecided(None), Some("")),
    ((0, 1, 8), Told::Beyond, None),
];

const LEFT_ROOT: [Row; 2] = [
    ((0, 0, 1), DEPTH, Some("")),
    ((0, 1, 8), Told::Beyond, None),
];

fn is_told(answer: &Answer<'_>, told: Told) -> bool {
    match (answer, told) {
        (Answer::Inside, Told::Inside) => true,
        (Answer::Outside(cycle), Told::Outside(entries)) => is_cycle(cycle, entries),
        (Answer::Undecided(cause), Told::Undecided(other)) => *cause == other,
        (Answer::Beyond, Told::Beyond) => true,
        _ => false,
    }
}

// The same of a reply.
fn is_reply(reply: &Reply, told: Told) -> bool {
    match (reply, told) {
        (Reply::Inside, Told::Inside) => true,
        (Reply::Outside(cycle), Told::Outside(entries)) => is_cycle(cycle, entries),
        (Reply::Undecided(cause), Told::Undecided(other)) => *cause == other,
        (Reply::Beyond, Told::Beyond) => true,
        _ => false,
    }
}

// Whether the version answers so at the point, and so does the reply; and the path of the leaf that
// holds the point.
fn answers<L: Ledger>(
    alloc: Global,
    version: &Version,
    r: &Pt,
    told: Told,
    blank: Blank,
) -> Result<(bool, Option<Path>), Fail>
    requires name { blank.name ≡ L.name }
    requires parts { blank.parts ≡ L.parts }
    requires some { 0 < blank.parts }
{
    let mut steps = Steps::<L>::new(blank);
    let answer = version.locate(r, &mut steps);
    let reply = answer.reply(alloc)?;
    let so = is_told(&answer, told) && is_reply(&reply, told) && is_told(&reply.lent(), told);
    Ok((so, version.leaf(r, &mut steps)))
}

// Whether the version answers as the row says.
fn agrees(alloc: Global, version: &Version, row: &Row) -> Result<bool, Fail> {
    let ((p, q, d), told, sides) = *row;
    let r = Pt::new(p, q, d).ok_or("it is a point")?;
    let path = match sides {
        Some(sides) => Some(path_of(sides)?),
        None => None,
    };
    let (so, leaf) = answers::<Brand>(alloc, version, &r, told, Blank::new(1))?;
    Ok(so && leaf == path)
}

// The place of the first row that isn't so; none where all are.
fn first_other(alloc: Global, version: &Version, rows: &[Row]) -> Result<Option<usize>, Fail> {
    for (i, row) in rows.iter().enumerate() {
        if !agrees(alloc, version, row)? {
            return Ok(Some(i));
        }
    }
    Ok(None)
}

#[test]
fn points_of_leaves(rt: HostRuntime) -> Result<(), Fail> {
    let alloc = rt.alloc();
    let version = version_of(alloc, SPLIT)?;
    for rows in [&EDGES[..], &LINES[..], &BEYOND[..]] {
        assert_eq!(rt; first_other(alloc, &version, rows)?, None);
    }
    Ok(())
}

#[test]
fn points_beside_an_open_edge(rt: HostRuntime) -> Result<(), Fail> {
    let alloc = rt.alloc();
    let version = version_of(alloc, OPEN_EDGE)?;
    assert_eq!(rt; first_other(alloc, &version, &OPEN)?, None);
    Ok(())
}

#[test]
fn points_of_a_left_cell(rt: HostRuntime) -> Result<(), Fail> {
    let alloc = rt.alloc();
    let version = version_of(alloc, LEFT_SEGMENT)?;
    assert_eq!(rt; first_other(alloc, &version, &LEFT)?, None);
    Ok(())
}

#[test]
fn points_of_a_root(rt: HostRuntime) -> Result<(), Fail> {
    let alloc = rt.alloc();
    let version = start(alloc)?;
    assert_eq!(rt; first_other(alloc, &version, &NOTHING)?, None);
    let left = entered(alloc, &version, "", &[], Some(Last::Depth))?;
    assert_eq!(rt; first_other(alloc, &left, &LEFT_ROOT)?, None);
    Ok(())
}
