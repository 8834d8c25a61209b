// What segments are told.
ghost use Rattle.std.specs.Prelude.{◌≡◌, None};
ghost use Rattle.srs_turn.specs.Passes.{IsPassOf};
ghost use Rattle.srs_tree.specs.Questions.{IsAskable};

use crate::cells::{SPLIT, cell_of};
use srs_atlas::{Atlas, AtlasPass, Commit};
use srs_map::OrbitEnd;
use srs_num::{Pt, V2};
use srs_path::Cause;
use srs_refine::refine;
use srs_session::{FreeGate, play};
use srs_tree::{Met, Pending, Queries, Query, Reply, Said, Segment};
use std::alloc::Global;
use std::sync::Wait;
use std::test::Fail;

// What is said, to be compared: of a cycle its length alone.
#[derive(Clone, Copy, Debug, PartialEq, Eq, Drop)]
enum Line {
    At(u32),
    Version(u64),
    Count(u64),
    Inside(i64, i64, i64),
    Outside(i64, i64, i64, u32),
    Undecided(i64, i64, i64, Option<Cause>),
    Beyond(i64, i64, i64),
    Met(Met),
    Orbit(OrbitEnd),
}

fn line_of(said: &Said) -> Line {
    match said {
        Said::At(round) => Line::At(*round),
        Said::Version(number) => Line::Version(*number),
        Said::Count(count) => Line::Count(*count),
        Said::Point(r, reply) => reply_line(r, reply),
        Said::Polygon(met) => Line::Met(*met),
        Said::Orbit(end) => Line::Orbit(*end),
    }
}

fn reply_line(r: &Pt, reply: &Reply) -> Line {
    let (p, q, d) = r.parts();
    match reply {
        Reply::Inside => Line::Inside(p, q, d),
        Reply::Outside(cycle) => Line::Outside(p, q, d, cycle.len()),
        Reply::Undecided(cause) => Line::Undecided(p, q, d, *cause),
        Reply::Beyond => Line::Beyond(p, q, d),
    }
}

fn ask(queries: &mut Queries, query: Query) -> Result<(), Fail>
    requires { IsAskable query }
{
    // Each question so far is askable.
    let _ = queries.len();
    match queries.push(query) {
        Ok(()) => Ok(()),
        Err(_) => Err("there is memory")?,
    }
}

fn ask_point(queries: &mut Queries, p: i64, q: i64, d: i64) -> Result<(), Fail> {
    ask(
        queries,
        Query::Point(Pt::new(p, q, d).ok_or("it is small")?),
    )
}

// The orbit of (1,1) at (1/4,-1/4), of 100 steps at most.
fn ask_orbit(queries: &mut Queries) -> Result<(), Fail> {
    let r = Pt::new(1, -1, 4).ok_or("it is small")?;
    if !r.near() {
        Err("it is near")?;
    }
    ask(queries, Query::Orbit(r, V2 { a: 1, b: 1 }, 100))
}

// Each kind of question, and points in each cell of SPLIT that is a leaf once all were refined.
fn ask_each(alloc: Global, queries: &mut Queries) -> Result<(), Fail> {
    ask_point(queries, 1, -1, 16)?;
    ask(queries, Query::Count)?;
    ask_point(queries, -1, -1, 32)?;
    ask_point(queries, 1, 0, 1)?;
    ask(queries, Query::Fresh)?;
    ask(queries, Query::Polygon(cell_of(alloc, SPLIT)?))?;
    ask_orbit(queries)
}

// The list of them.
fn questions(alloc: Global) -> Result<Queries, Fail> {
    let mut queries = Queries::new(alloc);
    ask_each(alloc, &mut queries)?;
    Ok(queries)
}

// What they are told before any event.
const FIRST: [Line; 9] = [
    Line::At(0),
    Line::Version(0),
    Line::Undecided(1, -1, 16, None),
    Line::Count(0),
    Line::Undecided(-1, -1, 32, None),
    Line::Beyond(1, 0, 1),
    Line::Version(0),
    Line::Met(Met {
        inside: false,
        outside: false,
        undecided: true,
        beyond: false,
    }),
    Line::Orbit(OrbitEnd::Zero(2)),
];

// What they are told once all seven cells have their events.
const LAST: [Line; 9] = [
    Line::At(3),
    Line::Version(7),
    Line::Inside(1, -1, 16),
    Line::Count(7),
    Line::Outside(-1, -1, 32, 1),
    Line::Beyond(1, 0, 1),
    Line::Version(7),
    Line::Met(Met {
        inside: true,
        outside: true,
        undecided: false,
        beyond: false,
    }),
    Line::Orbit(OrbitEnd::Zero(2)),
];

// Whether a segment at this round is told so.
fn is_told<R: Wait>(
    rt: &R,
    alloc: Global,
    atlas: &Atlas,
    pass: &mut AtlasPass,
    at: u32,
    wanted: &[Line],
) -> Result<bool, Fail>
    requires { IsPassOf atlas.now pass.old }
    ensures { IsPassOf atlas.now pass.new }
{
    let segment = Segment {
        at,
        queries: questions(alloc)?,
    };
    let told = play(rt, alloc, atlas, pass, 101, &segment, &FreeGate)?;
    let told = told.as_slice();
    let mut all = told.len() == wanted.len();
    for (said, line) in told.iter().zip(wanted) {
        all = all && line_of(said) == *line;
    }
    Ok(all)
}

// Refines the cell, and commits what was found.
fn settle<R: Wait>(
    rt: &R,
    alloc: Global,
    atlas: &Atlas,
    pass: &mut AtlasPass,
    cell: &Pending,
) -> Result<(), Fail>
    requires own { IsPassOf atlas.now pass.old }
    requires free { atlas.now.fixed.plan ≡ None }
    ensures { IsPassOf atlas.now pass.new }
{
    if cell.path.len() >= 48 {
        Err("it is short")?;
    }
    let found = refine(alloc, &cell.cell, None, atlas.w())?;
    match atlas.commit(rt, alloc, pass, cell.path, found) {
        Commit::Done(_) => Ok(()),
        _ => Err("it waits")?,
    }
}

// Settles each cell that waits.
fn settle_all<R: Wait>(
    rt: &R,
    alloc: Global,
    atlas: &Atlas,
    pass: &mut AtlasPass,
) -> Result<(), Fail>
    requires own { IsPassOf atlas.now pass.old }
    requires free { atlas.now.fixed.plan ≡ None }
    ensures { IsPassOf atlas.now pass.new }
{
    let cells = atlas.pending(rt, alloc, pass)?;
    for cell in cells.as_slice() {
        settle(rt, alloc, atlas, pass, cell)?;
    }
    Ok(())
}

// Settles the cells of three rounds.
fn settle_rounds<R: Wait>(
    rt: &R,
    alloc: Global,
    atlas: &Atlas,
    pass: &mut AtlasPass,
) -> Result<(), Fail>
    requires own { IsPassOf atlas.now pass.old }
    requires free { atlas.now.fixed.plan ≡ None }
    ensures { IsPassOf atlas.now pass.new }
{
    settle_all(rt, alloc, atlas, pass)?;
    settle_all(rt, alloc, atlas, pass)?;
    settle_all(rt, alloc, atlas, pass)
}

#[test]
fn each_question_is_answered(rt: HostRuntime) -> Result<(), Fail> {
    let alloc = rt.alloc();
    let (atlas, mut pass) = Atlas::start(&rt, alloc, cell_of(alloc, SPLIT)?, 16)?;
    assert!(rt; is_told(&rt, alloc, &atlas, &mut pass, 0, &FIRST)?);
    settle_rounds(&rt, alloc, &atlas, &mut pass)?;
    assert!(rt; is_told(&rt, alloc, &atlas, &mut pass, 3, &LAST)?);
    Ok(())
}

#[test]
fn pass_that_saw_less_is_told_the_newest(rt: HostRuntime) -> Result<(), Fail> {
    let alloc = rt.alloc();
    let (atlas, mut pass) = Atlas::start(&rt, alloc, cell_of(alloc, SPLIT)?, 16)?;
    let mut other = atlas.split_pass(&mut pass);
    settle_rounds(&rt, alloc, &atlas, &mut pass)?;
    assert!(rt; is_told(&rt, alloc, &atlas, &mut other, 3, &LAST)?);
    Ok(())
}
