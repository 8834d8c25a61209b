// How a tree takes an outcome.
ghost use Rattle.std.specs.Prelude.{◌≡◌, ◌+◌, ◌^◌, ◌<◌, ◌≤◌, [], ◌∷◌, ◌++◌, length, map, slice_get};
ghost use Rattle.std.specs.Prelude.{Some, None, All, IfOk, IfErr, OnOk, OnErr};
ghost use Rattle.std.specs.Arc.{arc_value};
ghost use Rattle.srs_plane.specs.Regions.{Divides};
ghost use Rattle.srs_path.specs.declared.paths.Side.TheVariants.{Ge as OnGe, Lt as OnLt};
ghost use Rattle.srs_path.specs.Soundness.{IsSound};
ghost use Rattle.srs_plane.specs.declared.regions.TheConstants.{MOST_HALVES};
ghost use Rattle.srs_tree.specs.Ahead.{cell_on, cells_made, AreMadeBy};
ghost use Rattle.srs_tree.specs.Growth.{IsProvedOf, IsShortCut, IsTreeErr, SaysDone, SaysOther};
ghost use Rattle.srs_tree.specs.Nodes.{Spot, AreSpots, MaySettle, IsReadyFor, IsOpenAt};
ghost use Rattle.srs_tree.specs.Nodes.{parts_from, spots_from, spot_of, waiting_of, grown};
ghost use Rattle.srs_tree.specs.Nodes.{snapshot_of, HasGrown};
ghost use Rattle.srs_tree.specs.Queue.{cell_in, cells_from};
ghost use Rattle.srs_tree.specs.Rounds.{parts_by};
ghost use Rattle.srs_tree.specs.Snapshots.{with_entry};

use crate::nodes::{Node, Nodes, find_near, shared};
use crate::waiting::{Added, Ahead};
use crate::{Pending, TreeErr};
use srs_cell::{Cell, Parts};
use srs_num::{Form, NoMemory};
use srs_path::{Finding, Outcome, Path, Side};
use std::alloc::Global;
use std::sync::Arc;

// The place of the open cell at the path, and the finding, if it is of this cell's region.
// It is looked for at the place `near` first.
pub(crate) fn place_for(
    nodes: &Nodes,
    near: usize,
    path: &Path,
    f: Finding,
) -> Result<(usize, Finding), TreeErr>
    requires { AreSpots nodes.now }
    ensures place { IfOk result (λ p. IsOpenAt nodes.now path.now f.region p.0) }
    ensures finding { IfOk result (λ p. p.1 ≡ f) }
    ensures refused { IfErr result (λ e. IsTreeErr (snapshot_of nodes.now) path.now f e) }
{
    let i = match find_near(nodes, near, path) {
        Ok(i) => i,
        Err(longest) => return Err(TreeErr::NotThere(longest)),
    };
    let node = nodes.get(i);
    if let Some(outcome) = node.outcome() {
        return Err(done(outcome, f));
    }
    if !node.region().same(f.region()) {
        return Err(other_cell(node.cell(), f));
    }
    Ok((i, f))
}

// The cell has this outcome.
fn done(outcome: &Arc<Outcome>, f: Finding) -> TreeErr
    ensures { SaysDone (arc_value outcome.now) f result }
{
    match shared(outcome) {
        Ok(outcome) => TreeErr::Done(outcome),
        Err(NoMemory) => TreeErr::NoMemory(f),
    }
}

// The cell there is this one.
fn other_cell(cell: &Arc<Cell>, f: Finding) -> TreeErr
    ensures { SaysOther (arc_value cell.now) f result }
{
    match shared(cell) {
        Ok(cell) => TreeErr::OtherCell(cell),
        Err(NoMemory) => TreeErr::NoMemory(f),
    }
}

// The outcome of the finding comes to the cell at the path, which is open and stands at the place
// `i`, and what came is given. An `Err` is want of memory: the cells stay as they were, and the
// finding comes back.
pub(crate) fn enter(
    nodes: &mut Nodes,
    alloc: Global,
    path: &Path,
    i: usize,
    f: Finding,
) -> Result<Added, Finding>
    requires spots { AreSpots nodes.old }
    requires there { IsOpenAt nodes.old path.now f.region i }
    requires short { IsShortCut path.now f.outcome }
    ensures grown { OnOk result (HasGrown nodes.old nodes.new path.now f) }
    ensures parts { IfOk result (λ added.
        cells_from added.parts ≡ map (cell_in (snapshot_of nodes.new)) (parts_by path.now f.outcome)) }
    ensures outcome { IfOk result (λ added. arc_value added.outcome ≡ f.outcome) }
    ensures err { IfErr result (λ g. g ≡ f) }
    ensures same { OnErr result (nodes.new ≡ nodes.old) }
{
    // A path has at most 48 sides, so a cell has at most 64 halves.
    let _ = path.len();
    enter_at(nodes, alloc, i, f)
}

// The cells that the finding's outcome makes of the open cell at the path, which stands at the place
// `i`, as the tree will keep them. Those that were made ahead are taken, if there are any.
pub(crate) fn parts_for(
    nodes: &Nodes,
    alloc: Global,
    path: &Path,
    i: usize,
    f: &Finding,
    ahead: Option<(Pending, Pending)>,
) -> Result<Option<(Pending, Pending)>, NoMemory>
    requires spots { AreSpots nodes.now }
    requires there { IsOpenAt nodes.now path.now f.now.region i }
    requires short { IsShortCut path.now f.now.outcome }
    requires ahead { AreMadeBy (record { path = path.now; region = f.now.region })
        f.now.outcome ahead }
    ensures { IfOk result (λ parts. cells_from parts
        ≡ map (cell_in (with_entry (snapshot_of nodes.now) path.now f.now.outcome)) (parts_by path.now f.now.outcome)) }
{
    // A path has at most 48 sides, so a cell has at most 64 halves; and a finding is sound.
    let _ = path.len();
    let _ = f.w();
    let place = nodes.len();
    let parts = match ahead {
        Some(parts) => Some(parts),
        None => cells_of(alloc, path, nodes.get(i).cell(), f.outcome())?,
    };
    Ok(placed(parts, place))
}

// The two cells, if there are any, which the tree will keep from this place on.
fn placed(parts: Option<(Pending, Pending)>, place: usize) -> Option<(Pending, Pending)>
    requires { place ≤ 2 ^ 48 }
    ensures { cells_from result ≡ cells_from parts }
{
    match parts {
        Some((ge, lt)) => Some((ge.at(place), lt.at(place + 1))),
        None => None,
    }
}

// As `enter`, with the parts that were made for it.
pub(crate) fn enter_parts(
    nodes: &mut Nodes,
    alloc: Global,
    path: &Path,
    i: usize,
    f: Finding,
    parts: Option<(Pending, Pending)>,
) -> Result<Arc<Outcome>, Finding>
    requires spots { AreSpots nodes.old }
    requires there { IsOpenAt nodes.old path.now f.region i }
    requires parts { cells_from parts
        ≡ map (cell_in (with_entry (snapshot_of nodes.old) path.now f.outcome)) (parts_by path.now f.outcome) }
    ensures grown { OnOk result (HasGrown nodes.old nodes.new path.now f) }
    ensures outcome { IfOk result (λ outcome. arc_value outcome ≡ f.outcome) }
    ensures err { IfErr result (λ g. g ≡ f) }
    ensures same { OnErr result (nodes.new ≡ nodes.old) }
{
    let _ = nodes.len();
    // A finding is sound.
    let _ = f.w();
    let (outcome, f) = f.share_outcome(alloc)?;
    let (other, f) = f.share_outcome(alloc)?;
    match settle(nodes, alloc, i, outcome, nodes_of(parts)) {
        Ok(()) => Ok(other),
        Err(NoMemory) => Err(f),
    }
}

// The cells, as open nodes.
fn nodes_of(parts: Option<(Pending, Pending)>) -> Option<(Node, Node)>
    ensures { spots_from result ≡ map spot_of (cells_from parts) }
{
    match parts {
        Some((ge, lt)) => Some((Node::open(ge.path, ge.cell), Node::open(lt.path, lt.cell))),
        None => None,
    }
}

// As `enter`, by the cell at the place `i`.
fn enter_at(nodes: &mut Nodes, alloc: Global, i: usize, f: Finding) -> Result<Added, Finding>
    requires there { i < length nodes.old }
    requires may { (x : Spot) → slice_get nodes.old i ≡ Some x → IsReadyFor x f }
    ensures grown { OnOk result ((x : Spot) → slice_get nodes.old i ≡ Some x
        → nodes.new ≡ grown nodes.old i x f.outcome) }
    ensures few { OnOk result (length nodes.old ≤ 2 ^ 48) }
    ensures sound { OnOk result (IsSound f.region f.w f.outcome) }
    ensures parts { IfOk result (λ added. (x : Spot) → slice_get nodes.old i ≡ Some x
        → cells_from added.parts ≡ map waiting_of (parts_from x f.outcome)) }
    ensures outcome { IfOk result (λ added. arc_value added.outcome ≡ f.outcome) }
    ensures err { IfErr result (λ g. g ≡ f) }
    ensures same { OnErr result (nodes.new ≡ nodes.old) }
{
    let parts = match parts_of(alloc, nodes.get(i), f.outcome()) {
        Ok(parts) => parts,
        Err(NoMemory) => return Err(f),
    };
    let open = match open_parts(&parts, nodes.len()) {
        Ok(open) => open,
        Err(NoMemory) => return Err(f),
    };
    let (outcome, f) = f.share_outcome(alloc)?;
    let (other, f) = f.share_outcome(alloc)?;
    match settle(nodes, alloc, i, outcome, parts) {
        Ok(()) => Ok(Added {
            outcome: other,
            parts: open,
        }),
        Err(NoMemory) => Err(f),
    }
}

// The outcome and its parts are written. An `Err` is want of memory, and leaves the cells as they were.
fn settle(
    nodes: &mut Nodes,
    alloc: Global,
    i: usize,
    outcome: Arc<Outcome>,
    parts: Option<(Node, Node)>,
) -> Result<(), NoMemory>
    requires { i < length nodes.old }
    ensures ok { OnOk result ((x : Spot) → slice_get nodes.old i ≡ Some x
        → spots_from parts ≡ parts_from x (arc_value outcome)
        → nodes.new ≡ grown nodes.old i x (arc_value outcome)) }
    ensures err { OnErr result (nodes.new ≡ nodes.old) }
{
    let place = nodes.len();
    let node = nodes.get(i).settled(alloc, outcome, place)?;
    append(nodes, alloc, parts)?;
    match nodes.set(alloc, i, node) {
        Ok(()) => Ok(()),
        Err(NoMemory) => {
            nodes.truncate(place);
            Err(NoMemory)
        }
    }
}

// The parts come behind the last cell. An `Err` is want of memory, and leaves the cells as they were.
fn append(nodes: &mut Nodes, alloc: Global, parts: Option<(Node, Node)>) -> Result<(), NoMemory>
    ensures ok { OnOk result (nodes.new ≡ nodes.old ++ spots_from parts) }
    ensures err { OnErr result (nodes.new ≡ nodes.old) }
{
    let Some((ge, lt)) = parts else {
        return Ok(());
    };
    let place = nodes.len();
    nodes.push(alloc, ge)?;
    if nodes.push(alloc, lt).is_err() {
        nodes.truncate(place);
        return Err(NoMemory);
    }
    Ok(())
}

// The parts that the outcome makes of the cell: two for a cut, else none.
fn parts_of(alloc: Global, node: &Node, outcome: &Outcome) -> Result<Option<(Node, Node)>, NoMemory>
    requires { MaySettle node.now outcome.now }
    ensures { IfOk result (λ parts. spots_from parts ≡ parts_from node.now outcome.now) }
{
    Ok(nodes_of(cells_of(alloc, &node.path(), node.cell(), outcome)?))
}

// The parts, which will stand from this place on, as open cells.
fn open_parts(
    parts: &Option<(Node, Node)>,
    place: usize,
) -> Result<Option<(Pending, Pending)>, NoMemory>
    requires place { place ≤ 2 ^ 48 }
    requires open { All (λ x. x.outcome ≡ None) (spots_from parts.now) }
    ensures { IfOk result (λ cells. cells_from cells ≡ map waiting_of (spots_from parts.now)) }
{
    match parts {
        Some((ge, lt)) => Ok(Some((ge.waiting(place)?, lt.waiting(place + 1)?))),
        None => Ok(None),
    }
}

/// The cells that the finding's outcome makes of the cell, where the finding is of its region, so
/// that they are made before the tree is waited for. Where it is of another region, nothing is made
/// that `prepare` could take. An `Err` is want of memory.
pub fn parts_ahead(alloc: Global, cell: &Pending, f: &Finding) -> Result<Ahead, NoMemory>
    requires short { IsShortCut cell.now.path f.now.outcome }
    requires few { length cell.now.region < MOST_HALVES }
    ensures made { IfOk result (λ ahead. cell.now.region ≡ f.now.region →
        cells_from ahead.parts ≡ cells_made cell.now f.now.outcome) }
    ensures only { IfOk result (λ ahead. AreMadeBy
        (record { path = cell.now.path; region = f.now.region }) f.now.outcome ahead.parts) }
{
    // A finding is sound.
    let _ = f.w();
    let parts = if cell.cell.region().same(f.region()) {
        cells_of(alloc, &cell.path, &cell.cell, f.outcome())?
    } else {
        None
    };
    Ok(Ahead {
        parts,
        near: cell.place,
    })
}

// The cells that the outcome makes of the cell at the path: two for a cut, else none.
fn cells_of(
    alloc: Global,
    path: &Path,
    cell: &Cell,
    outcome: &Outcome,
) -> Result<Option<(Pending, Pending)>, NoMemory>
    requires short { IsShortCut path.now outcome.now }
    requires proved { IsProvedOf cell.now outcome.now }
    requires few { length cell.now < MOST_HALVES }
    ensures { IfOk result (λ parts. cells_from parts
        ≡ cells_made (record { path = path.now; region = cell.now }) outcome.now) }
{
    match outcome {
        Outcome::Cut(h) => Ok(Some(halves(alloc, path, cell, h)?)),
        Outcome::Inside(_) | Outcome::Outside(_) | Outcome::Left(_) => Ok(None),
    }
}

// The two parts of the cell at the path, which the form divides.
fn halves(alloc: Global, path: &Path, cell: &Cell, h: &Form) -> Result<(Pending, Pending), NoMemory>
    requires divides { Divides cell.now h.now }
    requires room { length path.now < 48 }
    requires few { length cell.now < MOST_HALVES }
    ensures ge { IfOk result
        (λ p. p.0 ≡ cell_on OnGe h.now (record { path = path.now; region = cell.now })) }
    ensures lt { IfOk result
        (λ p. p.1 ≡ cell_on OnLt h.now (record { path = path.now; region = cell.now })) }
{
    match cell.cut(alloc, h)? {
        Parts::Both(ge, lt) => Ok((
            part(alloc, path, Side::Ge, ge)?,
            part(alloc, path, Side::Lt, lt)?,
        )),
        Parts::AllGe | Parts::AllLt => unreachable!(),
    }
}

// A part of the cell at the path, which no tree keeps yet.
fn part(alloc: Global, path: &Path, s: Side, cell: Cell) -> Result<Pending, NoMemory>
    requires { length path.now < 48 }
    ensures { IfOk result
        (λ made. made ≡ record { path = path.now ++ s ∷ []; region = cell }) }
{
    let Some(path) = path.child(s) else {
        unreachable!()
    };
    match Arc::new(alloc, cell) {
        Ok(cell) => Ok(Pending {
            path,
            cell,
            place: 0,
        }),
        Err(_) => Err(NoMemory),
    }
}
