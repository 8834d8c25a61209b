// The cells of a tree in the order in which they were made.
ghost use Rattle.std.specs.Prelude.{◌≡◌, ◌⊎◌, [], length, ◌++◌, ◌+◌, ◌<◌, ◌^◌, Some, None, IfOk, IfErr};
ghost use Rattle.std.specs.Prelude.{IfSome, IfNone, MatchOption, OnOk, OnErr};
ghost use Rattle.srs_num.specs.Points.{LinearForm};
ghost use Rattle.srs_path.specs.declared.outcomes.Outcome.TheVariants.{Cut as IsCut};
ghost use Rattle.srs_tree.specs.Nodes.{Spot, AreSpots, IsPlaceOf, part_place, spots_tree};
ghost use Rattle.srs_tree.specs.Nodes.{waiting_of, spot_with, if_open, open_cells, IsPartWith};
ghost use Rattle.srs_tree.specs.Answers.{reply_of, reply_by};
ghost use Rattle.srs_tree.specs.Growth.{IsLongestCell};
ghost use Rattle.srs_tree.specs.Tree.{IsCellOf};

use crate::{Answer, Pending, PendingList};
use srs_blocks::{BlockList, Share};
use srs_cell::Cell;
use srs_num::{Form, NoMemory, Pt, Steps};
use srs_path::{Outcome, Path, Side};
use srs_plane::Region;
use std::alloc::Global;
use std::marker::Model;
use std::sync::Arc;
use std::sync::ledger::Ledger;

// The region of a cell whose corners were let go.
#[derive(Drop)]
pub(crate) struct Bare {
    region: Region,
    // For copies.
    alloc: Global,
}

impl Model for Bare {
    ghost use Rattle.std.specs.Prelude.{List};
    ghost use Rattle.srs_plane.specs.declared.halves.Half.{Half};

    ghost Value = { List Half };

    ghost view = { λ b. b.region };
}

impl Bare {
    // That of the region.
    fn of(alloc: Global, region: &Region) -> Result<Bare, NoMemory>
        ensures { IfOk result (λ bare. bare ≡ region.now) }
    {
        Ok(Bare {
            region: region.copy(alloc)?,
            alloc,
        })
    }

    // An equal one.
    fn copy(&self) -> Result<Bare, NoMemory>
        ensures { IfOk result (λ bare. bare ≡ self.now) }
    {
        Bare::of(self.alloc, &self.region)
    }

    fn region(&self) -> &Region
        ensures { result.now ≡ self.now }
    {
        &self.region
    }
}

// A cell of the tree. Where its outcome is a cut, the Ge part stands at the place `parts`, and the
// Lt part after it.
#[derive(Drop)]
pub(crate) struct Node {
    path: Path,
    // The cell, while it has no outcome, and of the root, which can be asked for later too. Of another
    // one the region alone is kept, so that the corners are let go.
    cell: Option<Arc<Cell>>,
    bare: Option<Bare>,
    outcome: Option<Arc<Outcome>>,
    parts: usize,
}

impl Model for Node {
    ghost use Rattle.std.specs.Option.{option_map};
    ghost use Rattle.std.specs.Arc.{arc_value};
    ghost use Rattle.std.specs.Prelude.{◌≡◌, ◌⊎◌, [], None, IsSome};
    ghost use Rattle.srs_tree.specs.Nodes.{Spot};
    ghost use Rattle.srs_tree.specs.KeptCells.{region_kept};

    ghost Value = { Spot };

    ghost view = { λ n. record { path = n.path; region = region_kept (option_map arc_value n.cell) n.bare; outcome = option_map arc_value n.outcome; parts = n.parts } };

    ghost invariant = { λ n. (IsSome n.cell ⊎ IsSome n.bare)
        × (option_map arc_value n.outcome ≡ None → IsSome n.cell)
        × (n.path ≡ [] → IsSome n.cell) };
}

impl Node {
    // The cell without an outcome.
    pub(crate) fn open(path: Path, cell: Arc<Cell>) -> Node
        ensures { result ≡ record { path = path; region = cell.value; outcome = None; parts = 0 } }
    {
        Node {
            path,
            cell: Some(cell),
            bare: None,
            outcome: None,
            parts: 0,
        }
    }

    pub(crate) fn path(&self) -> Path
        ensures { result ≡ self.now.path }
    {
        self.path
    }

    // The cell, where it is kept whole.
    pub(crate) fn cell(&self) -> &Arc<Cell>
        requires { (self.now.outcome ≡ None) ⊎ (self.now.path ≡ []) }
        ensures { result.now.value ≡ self.now.region }
    {
        let Some(cell) = &self.cell else {
            unreachable!()
        };
        cell
    }

    pub(crate) fn region(&self) -> &Region
        ensures { result.now ≡ self.now.region }
    {
        if let Some(cell) = &self.cell {
            return cell.region();
        }
        let Some(bare) = &self.bare else {
            unreachable!()
        };
        bare.region()
    }

    pub(crate) fn outcome(&self) -> Option<&Arc<Outcome>>
        ensures { MatchOption result (self.now.outcome ≡ None)
            (λ o. self.now.outcome ≡ Some o.now.value) }
    {
        self.outcome.as_ref()
    }

    // The cell with this outcome; its parts, if it has any, stand from the place `parts` on. An
    // `Err` is want of memory.
    pub(crate) fn settled(
        &self,
        alloc: Global,
        outcome: Arc<Outcome>,
        parts: usize,
    ) -> Result<Node, NoMemory>
        ensures { IfOk result (λ node. node ≡ spot_with self.now outcome.value parts) }
    {
        let cell = if self.path.len() == 0 {
            Some(shared(self.cell())?)
        } else {
            None
        };
        Ok(Node {
            path: self.path,
            cell,
            bare: Some(Bare::of(alloc, self.region())?),
            outcome: Some(outcome),
            parts,
        })
    }

    // The place of the part on the side `s` of the cut, if there is one.
    pub(crate) fn part(&self, s: Side) -> Option<usize>
        requires { (h : LinearForm) → self.now.outcome ≡ Some (IsCut h) →
            self.now.parts + 1 < 2 ^ 64 }
        ensures none { IfNone result ((h : LinearForm) → self.now.outcome ≡ Some (IsCut h) → ⊥) }
        ensures some { IfSome result
            (λ i. (i ≡ part_place self.now.parts s) ×
            ((h : LinearForm) × (self.now.outcome ≡ Some (IsCut h)))) }
    {
        match (self.outcome()?).as_ref() {
            Outcome::Cut(_) => Some(match s {
                Side::Ge => self.parts,
                Side::Lt => self.parts + 1,
            }),
            _ => None,
        }
    }

    // The form of its cut, if it has one, with the place of the Ge part.
    pub(crate) fn cut(&self) -> Option<(&Form, usize)>
        ensures { MatchOption result ((h : LinearForm) → self.now.outcome ≡ Some (IsCut h) → ⊥)
            (λ cut. (self.now.outcome ≡ Some (IsCut cut.0.now)) × (cut.1 ≡ self.now.parts)) }
    {
        match (self.outcome()?).as_ref() {
            Outcome::Cut(form) => Some((form, self.parts)),
            _ => None,
        }
    }

    // The place of the part that is on the point's side of the cut, if there is a cut. It is one step.
    pub(crate) fn part_with<L: Ledger>(&self, r: &Pt, steps: &mut Steps<L>) -> Option<usize>
        requires { (h : LinearForm) → self.now.outcome ≡ Some (IsCut h) →
            self.now.parts + 1 < 2 ^ 64 }
        ensures none { IfNone result ((h : LinearForm) → self.now.outcome ≡ Some (IsCut h) → ⊥) }
        ensures some { IfSome result (λ i. IsPartWith self.now r.now i) }
        ensures no_step { IfNone result (steps.new ≡ steps.old) }
        ensures one_step { IfSome result (λ _. steps.new ≡ steps.old + 1) }
    {
        let (form, ge) = self.cut()?;
        if form.at(r, steps) >= 0 {
            Some(ge)
        } else {
            Some(ge + 1)
        }
    }

    // What the cell answers where it is a leaf.
    pub(crate) fn answer(&self) -> Answer<'_>
        ensures { reply_of result ≡ reply_by self.now.outcome }
    {
        let Some(outcome) = self.outcome() else {
            return Answer::Undecided(None);
        };
        Answer::of(outcome.as_ref())
    }

    // The cell, which stands at this place, as one that waits.
    pub(crate) fn waiting(&self, place: usize) -> Result<Pending, NoMemory>
        requires { (self.now.outcome ≡ None) ⊎ (self.now.path ≡ []) }
        ensures { IfOk result (λ cell. cell ≡ waiting_of self.now) }
    {
        Ok(Pending {
            path: self.path,
            cell: shared(self.cell())?,
            place,
        })
    }
}

impl Share for Node {
    // The same cell, shared.
    fn share(&self) -> Result<Node, NoMemory> {
        Ok(Node {
            path: self.path,
            cell: match &self.cell {
                Some(cell) => Some(shared(cell)?),
                None => None,
            },
            bare: match &self.bare {
                Some(bare) => Some(bare.copy()?),
                None => None,
            },
            outcome: match &self.outcome {
                Some(outcome) => Some(shared(outcome)?),
                None => None,
            },
            parts: self.parts,
        })
    }
}

// The cells of a tree in the order in which they were made, seen as the list of them.
pub(crate) type Nodes = BlockList<Node>;

// One owner more.
pub(crate) fn shared<T>(value: &Arc<T>) -> Result<Arc<T>, NoMemory>
    ensures { IfOk result (λ copy. copy.value ≡ value.now.value) }
{
    match Arc::try_clone(value) {
        Ok(copy) => Ok(copy),
        Err(_) => Err(NoMemory),
    }
}

// The cells without an outcome, in order. An `Err` is want of memory.
pub(crate) fn open_in(alloc: Global, nodes: &Nodes) -> Result<PendingList, NoMemory>
    ensures { IfOk result (λ cells. cells ≡ open_cells nodes.now) }
{
    let mut cells = Vec::new(alloc);
    for i in 0..nodes.len() {
        list_open(nodes.get(i), i, &mut cells)?;
    }
    Ok(PendingList::of(cells))
}

// Lists the cell, which stands at this place, if it has no outcome. An `Err` is want of memory.
fn list_open(node: &Node, place: usize, cells: &mut Vec<Pending>) -> Result<(), NoMemory>
    ensures { OnOk result (cells.new.items ≡ cells.old.items ++ if_open node.now node.now.outcome) }
{
    match node.outcome() {
        Some(_) => Ok(()),
        None => {
            cells.push(node.waiting(place)?)?;
            Ok(())
        }
    }
}

// The place of the cell at the path, or else the longest beginning of the path that is a cell.
pub(crate) fn find(nodes: &Nodes, path: &Path) -> Result<usize, Path>
    requires { AreSpots nodes.now }
    ensures found { IfOk result (λ i. IsPlaceOf nodes.now path.now i) }
    ensures within { IfOk result (λ i. i < length nodes.now) }
    ensures not_there { IfErr result (λ p. IsLongestCell (spots_tree nodes.now) path.now p) }
    ensures no_cell { OnErr result (IsCellOf (spots_tree nodes.now) path.now → ⊥) }
{
    let mut at = 0;
    for i in 0..path.len() {
        let node = nodes.get(at);
        match node.part(path.side(i)) {
            Some(place) => at = place,
            None => return Err(node.path()),
        }
    }
    Ok(at)
}

// As `find`. It is looked for at the place `near` first.
pub(crate) fn find_near(nodes: &Nodes, near: usize, path: &Path) -> Result<usize, Path>
    requires { AreSpots nodes.now }
    ensures found { IfOk result (λ i. IsPlaceOf nodes.now path.now i) }
    ensures within { IfOk result (λ i. i < length nodes.now) }
    ensures not_there { IfErr result (λ p. IsLongestCell (spots_tree nodes.now) path.now p) }
    ensures no_cell { OnErr result (IsCellOf (spots_tree nodes.now) path.now → ⊥) }
{
    if near < nodes.len() && nodes.get(near).path().same(path) {
        return Ok(near);
    }
    find(nodes, path)
}

// The place of the cell at the path. It is looked for at the place `near` first.
pub(crate) fn place_near(nodes: &Nodes, near: usize, path: &Path) -> usize
    requires spots { AreSpots nodes.now }
    requires cell { IsCellOf (spots_tree nodes.now) path.now }
    ensures { IsPlaceOf nodes.now path.now result }
{
    match find_near(nodes, near, path) {
        Ok(i) => i,
        Err(_) => unreachable!(),
    }
}

// The outcome at the path, if it has one.
pub(crate) fn outcome_at<'a>(nodes: &'a Nodes, path: &Path) -> Option<&'a Outcome>
    requires { AreSpots nodes.now }
    ensures { MatchOption result (spots_tree nodes.now path.now ≡ None)
        (λ o. spots_tree nodes.now path.now ≡ Some o.now) }
{
    let Ok(i) = find(nodes, path) else {
        return None;
    };
    match nodes.get(i).outcome() {
        Some(outcome) => Some(outcome),
        None => None,
    }
}
