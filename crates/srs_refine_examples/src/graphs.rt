// The graph of a cell's witnesses, and what a cycle does at the points of a cell.
use crate::parts::{CORNER, CYCLE_ONE, ORIGIN, Polygon, cell_of};
use crate::witnesses::{MOST, are};
use srs_cell::Cell;
use srs_cut::{Judged, cutout, judge};
use srs_graph::Graph;
use srs_num::{Forms, Pairs, V2};
use srs_path::{Cycle, Outcome, Ranks};
use srs_shapes::is_cycle;
use srs_text::Nums;
use srs_wit::witnesses;
use std::alloc::Global;
use std::test::Fail;

// A polygon, the core, and the chosen cycle.
type Row = (Polygon, &'static [(i64, i64)], Option<&'static [i64]>);

// In the second the least pair of the core only leads to the cycle; in the third the core has all
// witnesses but (0, 0), and (1, 0) and (0, 1) lead to each other, as (-1, 0) and (0, -1) do.
const CORES: [Row; 3] = [
    (CORNER, &[], None),
    (CYCLE_ONE, &[(0, 1), (1, 0), (1, 1)], Some(&[1])),
    (
        ORIGIN,
        &[
            (-1, -1),
            (-1, 0),
            (-1, 1),
            (0, -1),
            (0, 1),
            (1, -1),
            (1, 0),
            (1, 1),
        ],
        Some(&[0, 1]),
    ),
];

fn graph_of(alloc: Global, polygon: &Polygon) -> Result<Graph, Fail> {
    let cell = cell_of(alloc, polygon)?;
    match witnesses(alloc, &cell, MOST) {
        Ok(set) => Ok(Graph::of(alloc, &cell, &set)?),
        Err(_) => Err("it is small")?,
    }
}

// Whether the chosen cycle has these entries; none where there is no core.
fn has_cycle(alloc: Global, graph: &Graph, wanted: Option<&[i64]>) -> Result<bool, Fail> {
    match (graph.cycle(alloc)?, wanted) {
        (Some(cycle), Some(entries)) => Ok(is_cycle(&cycle, entries)),
        (None, None) => Ok(true),
        _ => Ok(false),
    }
}

// Whether the core and the cycle are these, and there are ranks exactly where there is no core.
fn has_core(
    alloc: Global,
    graph: &Graph,
    core: &[(i64, i64)],
    cycle: Option<&[i64]>,
) -> Result<bool, Fail> {
    let ranked = graph.ranks(alloc)?.is_some();
    let is_core = are(graph.core(alloc)?.as_slice(), core);
    Ok(ranked == core.is_empty() && is_core && has_cycle(alloc, graph, cycle)?)
}

// The place of the first row that isn't so; none where all are.
fn first_other_core(alloc: Global, rows: &[Row]) -> Result<Option<usize>, Fail> {
    for (i, (polygon, core, cycle)) in rows.iter().enumerate() {
        let graph = graph_of(alloc, polygon)?;
        if !has_core(alloc, &graph, core, *cycle)? {
            return Ok(Some(i));
        }
    }
    Ok(None)
}

#[test]
fn cores_and_cycles(rt: HostRuntime) -> Result<(), Fail> {
    assert_eq!(rt; first_other_core(rt.alloc(), &CORES)?, None);
    Ok(())
}

// The pairs of the corner and their ranks; the longest walk meets five of the nine.
const RANKS: [((i64, i64), u32); 9] = [
    ((-1, -1), 4),
    ((-1, 0), 3),
    ((-1, 1), 3),
    ((0, -1), 4),
    ((0, 0), 0),
    ((0, 1), 2),
    ((1, -1), 4),
    ((1, 0), 1),
    ((1, 1), 2),
];

// Whether the ranks are these, by place and by pair, and no pair beside them has one.
fn are_ranks(ranks: &Ranks, wanted: &[((i64, i64), u32)]) -> bool {
    if ranks.len() as usize != wanted.len() || ranks.rank(V2 { a: 2, b: 0 }).is_some() {
        return false;
    }
    for i in 0..ranks.len() {
        let ((a, b), rank) = wanted[i as usize];
        let w = V2 { a, b };
        if ranks.entry(i) != (w, rank) || ranks.rank(w) != Some(rank) {
            return false;
        }
    }
    true
}

#[test]
fn ranks_of_a_corner(rt: HostRuntime) -> Result<(), Fail> {
    let alloc = rt.alloc();
    let graph = graph_of(alloc, &CORNER)?;
    let ranks = graph.ranks(alloc)?.ok_or("no walk goes on")?;
    assert!(rt; are_ranks(&ranks, &RANKS));
    Ok(())
}

// The pairs with their ranks, where they make such a list.
fn ranks_of(alloc: Global, rows: &[((i64, i64), u32)]) -> Result<Option<Ranks>, Fail> {
    let mut pairs = Pairs::new(alloc);
    let mut ranks = Nums::new(alloc);
    for ((a, b), rank) in rows {
        if pairs.push(V2 { a: *a, b: *b }).is_err() {
            Err("there is memory")?;
        }
        ranks.push(i64::from(*rank))?;
    }
    Ok(Ranks::of(pairs, ranks))
}

#[test]
fn ranks_of_a_list(rt: HostRuntime) -> Result<(), Fail> {
    let alloc = rt.alloc();
    let ranks = ranks_of(alloc, &RANKS)?.ok_or("they ascend")?;
    assert!(rt; are_ranks(&ranks, &RANKS));
    assert!(rt; ranks_of(alloc, &[((1, 0), 1), ((0, 0), 0)])?.is_none());
    Ok(())
}

// Whether a copy of the inside outcome has these ranks, which are copied first.
fn inside_is_copied(
    alloc: Global,
    ranks: &Ranks,
    wanted: &[((i64, i64), u32)],
) -> Result<bool, Fail> {
    let outcome = Outcome::Inside(ranks.copy(alloc)?);
    match outcome.copy(alloc)? {
        Outcome::Inside(copy) => Ok(are_ranks(&copy, wanted)),
        _ => Ok(false),
    }
}

// The same of an outside outcome.
fn outside_is_copied(alloc: Global, cycle: &Cycle, wanted: &[i64]) -> Result<bool, Fail> {
    let outcome = Outcome::Outside(cycle.copy(alloc)?);
    match outcome.copy(alloc)? {
        Outcome::Outside(copy) => Ok(is_cycle(&copy, wanted)),
        _ => Ok(false),
    }
}

#[test]
fn copies_of_outcomes(rt: HostRuntime) -> Result<(), Fail> {
    let alloc = rt.alloc();
    let ranks = graph_of(alloc, &CORNER)?
        .ranks(alloc)?
        .ok_or("no walk goes on")?;
    assert!(rt; inside_is_copied(alloc, &ranks, &RANKS)?);
    let cycle = graph_of(alloc, &ORIGIN)?
        .cycle(alloc)?
        .ok_or("there is a core")?;
    assert!(rt; outside_is_copied(alloc, &cycle, &[0, 1])?);
    Ok(())
}

fn cycle_of(alloc: Global, entries: &[i64]) -> Result<Cycle, Fail> {
    let mut numbers = Nums::new(alloc);
    for entry in entries {
        numbers.push(*entry)?;
    }
    let cycle = Cycle::of(numbers).ok_or("it is a cycle")?;
    Ok(cycle)
}

// Whether the numbers of the forms are these, in this order.
fn are_forms(forms: &Forms, wanted: &[(i64, i64, i64)]) -> bool {
    if forms.len() != wanted.len() as u64 {
        return false;
    }
    for i in 0..forms.len() {
        if forms.get(i).parts() != wanted[i as usize] {
            return false;
        }
    }
    true
}

#[test]
fn the_cutout_of_a_cycle(rt: HostRuntime) -> Result<(), Fail> {
    let alloc = rt.alloc();
    let forms = cutout(alloc, &cycle_of(alloc, &[1])?)?;
    assert!(rt; are_forms(&forms, &[(1, 1, 1), (1, 1, 0)]));
    Ok(())
}

// Where a cycle breaks first, and the numbers of the form that divides the cell there.
type Failure = (u32, Option<(i64, i64, i64)>);

// A polygon, and how the cycle 1 fails; none where it covers the cell. In the corner x + y is at
// least 0, round (0, 0) it is of both signs.
const FAILURES: [(Polygon, Option<Failure>); 3] = [
    (CYCLE_ONE, None),
    (CORNER, Some((0, None))),
    (ORIGIN, Some((0, Some((1, 1, 0))))),
];

fn failure(cell: &Cell, c: &Cycle) -> Option<Failure> {
    match judge(cell, c) {
        Judged::Covers => None,
        Judged::Fails { at, divides } => match divides {
            Some(form) => Some((at, Some(form.parts()))),
            None => Some((at, None)),
        },
    }
}

// The place of the first row that isn't so; none where all are.
fn first_other_failure(
    alloc: Global,
    c: &Cycle,
    rows: &[(Polygon, Option<Failure>)],
) -> Result<Option<usize>, Fail> {
    for (i, (polygon, wanted)) in rows.iter().enumerate() {
        if failure(&cell_of(alloc, polygon)?, c) != *wanted {
            return Ok(Some(i));
        }
    }
    Ok(None)
}

#[test]
fn what_a_cycle_covers(rt: HostRuntime) -> Result<(), Fail> {
    let alloc = rt.alloc();
    let one = cycle_of(alloc, &[1])?;
    assert_eq!(rt; first_other_failure(alloc, &one, &FAILURES)?, None);
    Ok(())
}
