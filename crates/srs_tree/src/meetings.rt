// Which answers the points of a cell have.
ghost use Rattle.std.specs.Prelude.{◌≡◌, ◌+◌, ◌<◌, ◌≤◌, true, false, length, slice_get, Some, None};
ghost use Rattle.std.specs.Prelude.{IfOk, IfSome};
ghost use Rattle.srs_plane.specs.declared.halves.Kind.TheVariants.{Ge as IsGe, Gt as IsGt};
ghost use Rattle.srs_plane.specs.Regions.{IsIn, IsInHalf};
ghost use Rattle.srs_tree.specs.Nodes.{Spot, AreSpots, HoldsAll, root_of, spots_tree};
ghost use Rattle.srs_tree.specs.Answers.{IsMet};
ghost use Rattle.srs_tree.specs.Clips.{IsClip};

use crate::Met;
use crate::nodes::Nodes;
use srs_cell::{Cell, Parts};
use srs_num::NoMemory;
use srs_path::Path;
use srs_plane::{Half, Kind, Region};
use std::alloc::Global;

// What a cell has inside something, and whether it has a point beyond it.
#[derive(Drop)]
pub(crate) struct Clip {
    inside: Option<Cell>,
    beyond: bool,
}

impl Clip {
    // A part inside and a part beyond.
    fn part(inside: Cell) -> Clip
        ensures { result ≡ record { inside = Some inside; beyond = true } }
    {
        Clip {
            inside: Some(inside),
            beyond: true,
        }
    }

    // All inside.
    fn whole(cell: Cell) -> Clip
        ensures { result ≡ record { inside = Some cell; beyond = false } }
    {
        Clip {
            inside: Some(cell),
            beyond: false,
        }
    }

    // All beyond.
    fn nothing() -> Clip
        ensures { result ≡ record { inside = None; beyond = true } }
    {
        Clip {
            inside: None,
            beyond: true,
        }
    }
}

// The answers that the cell meets, for a cell of at most 16 halves. An `Err` is want of memory.
pub(crate) fn met_by(alloc: Global, nodes: &Nodes, q: &Cell) -> Result<Met, NoMemory>
    requires spots { AreSpots nodes.now }
    requires few { length q.now ≤ 16 }
    ensures { IfOk result (λ met. IsMet (root_of nodes.now) (spots_tree nodes.now) q.now met) }
{
    let clip = within(alloc, q, nodes.get(0).region())?;
    match &clip.inside {
        Some(cell) => Ok(met_below(alloc, nodes, 0, cell)?.with_beyond(clip.beyond)),
        None => Ok(Met::none().with_beyond(clip.beyond)),
    }
}

// What the cell has inside the region. An `Err` is want of memory.
fn within(alloc: Global, q: &Cell, root: &Region) -> Result<Clip, NoMemory>
    requires few { length q.now + length root.now ≤ 80 }
    ensures clip { IfOk result (λ clip. IsClip q.now (IsIn root.now) clip) }
    ensures halves { IfOk result
        (λ clip. IfSome clip.inside (λ cell. length cell ≤ length q.now + length root.now)) }
{
    let mut inside = q.copy(alloc)?;
    let mut beyond = false;
    for i in 0..root.len() {
        let clip = clipped(alloc, inside, &root.half(i))?;
        beyond = beyond || clip.beyond;
        match clip.inside {
            Some(cell) => inside = cell,
            None => return Ok(Clip {
                inside: None,
                beyond,
            }),
        }
    }
    Ok(Clip {
        inside: Some(inside),
        beyond,
    })
}

// What the cell has inside the half. An `Err` is want of memory.
fn clipped(alloc: Global, cell: Cell, half: &Half) -> Result<Clip, NoMemory>
    requires { length cell < 80 }
    ensures clip { IfOk result (λ clip. IsClip cell (IsInHalf half.now) clip) }
    ensures halves { IfOk result
        (λ clip. IfSome clip.inside (λ inside. length inside ≤ length cell + 1)) }
{
    match half.kind {
        Kind::Ge => clipped_closed(alloc, cell, half),
        Kind::Gt => clipped_open(alloc, cell, half),
    }
}

// What the cell has inside the closed half.
fn clipped_closed(alloc: Global, cell: Cell, half: &Half) -> Result<Clip, NoMemory>
    requires few { length cell < 80 }
    requires closed { half.now.kind ≡ IsGe }
    ensures clip { IfOk result (λ clip. IsClip cell (IsInHalf half.now) clip) }
    ensures halves { IfOk result
        (λ clip. IfSome clip.inside (λ inside. length inside ≤ length cell + 1)) }
{
    // A cell has a point.
    let _ = cell.region();
    match cell.cut(alloc, &half.form)? {
        Parts::Both(inside, _) => Ok(Clip::part(inside)),
        Parts::AllGe => Ok(Clip::whole(cell)),
        Parts::AllLt => Ok(Clip::nothing()),
    }
}

// What the cell has inside the open half, where the opposite of its form is below 0.
fn clipped_open(alloc: Global, cell: Cell, half: &Half) -> Result<Clip, NoMemory>
    requires few { length cell < 80 }
    requires strict { half.now.kind ≡ IsGt }
    ensures clip { IfOk result (λ clip. IsClip cell (IsInHalf half.now) clip) }
    ensures halves { IfOk result
        (λ clip. IfSome clip.inside (λ inside. length inside ≤ length cell + 1)) }
{
    // A cell has a point.
    let _ = cell.region();
    match cell.cut(alloc, &half.form.opposite())? {
        Parts::Both(_, inside) => Ok(Clip::part(inside)),
        Parts::AllGe => Ok(Clip::nothing()),
        Parts::AllLt => Ok(Clip::whole(cell)),
    }
}

// The answers that the cell meets, which is within the region of the cell at the place `i`. An
// `Err` is want of memory.
fn met_below(alloc: Global, nodes: &Nodes, i: usize, cell: &Cell) -> Result<Met, NoMemory>
    requires spots { AreSpots nodes.now }
    requires there { i < length nodes.now }
    requires holds { HoldsAll nodes.now i cell.now }
    requires few { (x : Spot) → slice_get nodes.now i ≡ Some x →
        length cell.now ≤ 32 + length x.path }
    ensures { IfOk result (λ met. IsMet (root_of nodes.now) (spots_tree nodes.now) cell.now met) }
{
    let node = nodes.get(i);
    let Some((form, ge)) = node.cut() else {
        // A cell has a point.
        let _ = cell.region();
        return Ok(Met::of(node.answer()));
    };
    // Paths have at most 48 sides, also that of a part: so the calls end, and the cell has fewer
    // than 80 halves.
    let path = path_at(nodes, ge);
    let _ = path.len();
    match cell.cut(alloc, form)? {
        Parts::Both(above, below) => {
            let met = met_below(alloc, nodes, ge, &above)?;
            Ok(met.or(met_below(alloc, nodes, ge + 1, &below)?))
        }
        Parts::AllGe => met_below(alloc, nodes, ge, cell),
        Parts::AllLt => met_below(alloc, nodes, ge + 1, cell),
    }
}

// The path of the cell at the place `i`.
fn path_at(nodes: &Nodes, i: usize) -> Path
    requires { i < length nodes.now }
    ensures { (x : Spot) → slice_get nodes.now i ≡ Some x → result ≡ x.path }
{
    nodes.get(i).path()
}
