// Versions of a tree.
ghost use Rattle.std.specs.Prelude.{◌≡◌, ◌≤◌, [], length, map as map_list, None, Some, IfOk, IfErr};
ghost use Rattle.std.specs.Prelude.{OnOk, OnErr, MatchOption};
ghost use Rattle.std.specs.Arc.{arc_value};
ghost use Rattle.std.specs.FinMap as map;
ghost use Rattle.srs_plane.specs.Regions.{IsIn};
ghost use Rattle.srs_tree.specs.Tree.{HoldsAt};
ghost use Rattle.srs_tree.specs.Answers.{Answers, IsDescent, IsMet, reply_of};
ghost use Rattle.srs_tree.specs.Snapshots.{tree_of, with_entry};
ghost use Rattle.srs_tree.specs.Preorder.{preorder_of};
ghost use Rattle.srs_tree.specs.Rounds.{parts_by};
ghost use Rattle.srs_tree.specs.Queue.{cell_in, cells_from};
ghost use Rattle.srs_tree.specs.Nodes.{snapshot_of, IsCounted};
ghost use Rattle.srs_tree.specs.Growth.{IsVersion, IsShortCut, MayEnter, IsTreeErr};

use crate::descents::leaf_with;
use crate::growth::{enter, place_for};
use crate::meetings::met_by;
use crate::nodes::{Node, Nodes, outcome_at};
use crate::waiting::Added;
use crate::walks::walk;
use crate::{Answer, Journal, Met, Pending, TreeErr};
use srs_cell::Cell;
use srs_num::{NoMemory, Pt, Steps};
use srs_path::{Finding, Outcome, Path};
use std::alloc::Global;
use std::marker::Model;
use std::sync::Arc;
use std::sync::ledger::Ledger;

/// A region of at most 16 halves, and the outcomes that were found of the cells of its tree. Each
/// path with an outcome is the root, or its parent has a cut; and each outcome that is inside,
/// outside or a cut is sound on its cell.
#[derive(Drop)]
pub struct Version {
    nodes: Nodes,
    count: u64,
}

/// A version with one entry more, and what came with the entry: an owner of its outcome, and the
/// two cells that a cut makes, Ge first.
#[derive(Drop)]
pub struct Grown {
    pub version: Version,
    pub outcome: Arc<Outcome>,
    pub parts: Option<(Pending, Pending)>,
}

impl Model for Version {
    ghost use Rattle.srs_tree.specs.Snapshots.{Snapshot, snapshot_code};

    ghost Value = { Snapshot };

    ghost coded = { snapshot_code };

    ghost use Rattle.srs_tree.specs.Nodes.{snapshot_of, IsCounted};

    ghost view = { λ v. snapshot_of v.nodes };

    ghost invariant = { λ v. IsCounted v.nodes v.count };
}

impl Version {
    // The version of these cells, of which so many have an outcome.
    pub(crate) fn of(nodes: Nodes, count: u64) -> Version
        requires { IsCounted nodes count }
        ensures { result ≡ snapshot_of nodes }
    {
        Version { nodes, count }
    }

    /// The version of the cell without an outcome, for a cell of at most 16 halves.
    pub fn start(alloc: Global, cell: Cell) -> Result<Version, NoMemory>
        requires { length cell ≤ 16 }
        ensures { IfOk result (λ v. v ≡ record { region = cell; entries = map.empty }) }
    {
        // A cell has a point.
        let _ = cell.region();
        let cell = Arc::new(alloc, cell)?;
        let mut nodes = Nodes::new(alloc);
        nodes.push(alloc, Node::open(Path::root(), cell))?;
        Ok(Version { nodes, count: 0 })
    }

    /// The root cell, which has no event where the version has none.
    pub fn root(&self) -> Result<Pending, NoMemory>
        ensures { IfOk result (λ root. root ≡ record { path = []; region = self.now.region }) }
    {
        self.nodes.get(0).waiting(0)
    }

    /// How many outcomes it has.
    pub fn count(&self) -> u64
        ensures count { result ≡ map.len self.now.entries }
        ensures version { IsVersion self.now }
    {
        self.count
    }

    /// The outcome at the path, if it has one.
    pub fn outcome(&self, path: Path) -> Option<&Outcome>
        ensures { MatchOption result (tree_of self.now path ≡ None)
            (λ o. tree_of self.now path ≡ Some o.now) }
    {
        outcome_at(&self.nodes, &path)
    }

    /// The answer at the point. It takes at most one step for each of the region's halves, and one
    /// for each cut on the way to the leaf that holds the point; no memory.
    pub fn locate<'v, L: Ledger>(&'v self, r: &Pt, steps: &mut Steps<L>) -> Answer<'v>
        ensures answer { Answers self.now.region (tree_of self.now) r.now (reply_of result) }
        ensures at_most { IsDescent self.now.region (tree_of self.now) r.now steps.old steps.new }
    {
        match leaf_with(&self.nodes, r, steps) {
            Some(leaf) => leaf.answer(),
            None => Answer::Beyond,
        }
    }

    /// The path of the leaf that holds the point. `None` exactly where the answer is beyond. The
    /// steps are those of `locate`.
    pub fn leaf<L: Ledger>(&self, r: &Pt, steps: &mut Steps<L>) -> Option<Path>
        ensures leaf { MatchOption result (IsIn self.now.region r.now → ⊥)
            (λ path. HoldsAt self.now.region (tree_of self.now) r.now path) }
        ensures at_most { IsDescent self.now.region (tree_of self.now) r.now steps.old steps.new }
    {
        match leaf_with(&self.nodes, r, steps) {
            Some(leaf) => Some(leaf.path()),
            None => None,
        }
    }

    /// For each kind of answer, whether some point of the cell has it, for a cell of at most 16
    /// halves. An `Err` is want of memory.
    pub fn meet(&self, alloc: Global, q: &Cell) -> Result<Met, NoMemory>
        requires { length q.now ≤ 16 }
        ensures { IfOk result (λ met. IsMet self.now.region (tree_of self.now) q.now met) }
    {
        met_by(alloc, &self.nodes, q)
    }

    /// An equal version, which shares all cells.
    pub fn share(&self, alloc: Global) -> Result<Version, NoMemory>
        ensures { IfOk result (λ v. v ≡ self.now) }
    {
        Ok(Version {
            nodes: self.nodes.share(alloc)?,
            count: self.count,
        })
    }

    /// The outcomes as events in preorder: a cell's, then those below its Ge part, then those below
    /// its Lt part.
    pub fn preorder(&self, alloc: Global) -> Result<Journal, NoMemory>
        ensures { IfOk result (λ events. events ≡ preorder_of self.now) }
    {
        // Each cell has at most one event.
        let mut events = Journal::of(Vec::with_capacity(alloc, self.nodes.len())?);
        walk(&self.nodes, 0, &mut events)?;
        Ok(events)
    }

    /// The version with the outcome of the finding entered at the path; a cut's path is shorter
    /// than 48. With it come an owner of the outcome, and the two cells that a cut makes, Ge first.
    /// This version stays as it is. The refusals but want of memory come before anything of the new
    /// version is made.
    pub fn grown(&self, alloc: Global, path: Path, f: Finding) -> Result<Grown, TreeErr>
        requires { IsShortCut path f.outcome }
        ensures may { OnOk result (MayEnter self.now path f) }
        ensures entered { IfOk result (λ g. g.version ≡ with_entry self.now path f.outcome) }
        ensures outcome { IfOk result (λ g. arc_value g.outcome ≡ f.outcome) }
        ensures parts { IfOk result (λ g.
            cells_from g.parts ≡ map_list (cell_in g.version) (parts_by path f.outcome)) }
        ensures refused { IfErr result (λ e. IsTreeErr self.now path f e) }
    {
        let (i, f) = place_for(&self.nodes, 0, &path, f)?;
        let mut nodes = match self.nodes.share(alloc) {
            Ok(nodes) => nodes,
            Err(NoMemory) => return Err(TreeErr::NoMemory(f)),
        };
        match enter(&mut nodes, alloc, &path, i, f) {
            Ok(Added { outcome, parts }) => Ok(Grown {
                version: Version {
                    nodes,
                    count: self.count + 1,
                },
                outcome,
                parts,
            }),
            Err(f) => Err(TreeErr::NoMemory(f)),
        }
    }

    /// As `grown`, but it gives the version alone.
    pub fn with(&self, alloc: Global, path: Path, f: Finding) -> Result<Version, TreeErr>
        requires { IsShortCut path f.outcome }
        ensures may { OnOk result (MayEnter self.now path f) }
        ensures entered { IfOk result (λ v. v ≡ with_entry self.now path f.outcome) }
        ensures refused { IfErr result (λ e. IsTreeErr self.now path f e) }
    {
        Ok(self.grown(alloc, path, f)?.version)
    }
}
