// Trees that grow in place.
ghost use Rattle.std.specs.Prelude.{◌≡◌, ◌≤◌, ◌++◌, [], ◌∷◌, length, map as map_list, IfOk, IfErr};
ghost use Rattle.std.specs.Prelude.{OnOk, OnErr};
ghost use Rattle.std.specs.Arc.{arc_value};
ghost use Rattle.std.specs.FinMap as map;
ghost use Rattle.srs_tree.specs.Snapshots.{with_entry};
ghost use Rattle.srs_tree.specs.Rounds.{parts_by};
ghost use Rattle.srs_tree.specs.Queue.{cell_in, cells_from, without};
ghost use Rattle.srs_tree.specs.Ahead.{AreMadeBy};
ghost use Rattle.srs_tree.specs.Growth.{IsShortCut, MayEnter, IsTreeErr};

use crate::growth::{enter, enter_parts, parts_for, place_for};
use crate::nodes::{Node, Nodes, open_in, place_near};
use crate::waiting::{Added, Ahead, Prepared};
use crate::{Pending, PendingList, TreeErr, Version};
use srs_cell::Cell;
use srs_num::NoMemory;
use srs_path::{Finding, Outcome, Path};
use std::alloc::Global;
use std::marker::Model;
use std::sync::Arc;

/// A tree that grows in place, seen as a version and the cells that have no outcome, in the order
/// in which they were made. Versions can be had of it at any time; they share its cells, and don't
/// change when it grows.
#[derive(Drop)]
pub struct GrowingTree {
    nodes: Nodes,
    count: u64,
}

impl Model for GrowingTree {
    ghost use Rattle.srs_tree.specs.Queue.{Growing, growing_code};

    ghost Value = { Growing };

    ghost coded = { growing_code };

    ghost use Rattle.srs_tree.specs.Nodes.{snapshot_of, open_cells, IsCounted};

    ghost view = { λ t. record { version = snapshot_of t.nodes; waiting = open_cells t.nodes } };

    ghost invariant = { λ t. IsCounted t.nodes t.count };
}

impl GrowingTree {
    /// The tree of the cell without an outcome, for a cell of at most 16 halves.
    pub fn start(alloc: Global, cell: Cell) -> Result<GrowingTree, NoMemory>
        requires { length cell ≤ 16 }
        ensures version { IfOk result
            (λ t. t.version ≡ record { region = cell; entries = map.empty }) }
        ensures waiting { IfOk result (λ t. t.waiting ≡ record { path = []; region = cell } ∷ []) }
    {
        // A cell has a point.
        let _ = cell.region();
        let cell = Arc::new(alloc, cell)?;
        let mut nodes = Nodes::new(alloc);
        nodes.push(alloc, Node::open(Path::root(), cell))?;
        Ok(GrowingTree { nodes, count: 0 })
    }

    /// The root cell, as one that waits.
    pub fn root(&self) -> Result<Pending, NoMemory>
        ensures { IfOk result
            (λ root. root ≡ record { path = []; region = self.now.version.region }) }
    {
        self.nodes.get(0).waiting(0)
    }

    /// The outcome of the finding is entered at the path; a cut's path is shorter than 48. It gives
    /// an owner of the outcome, and the two cells that a cut makes, Ge first, which then wait
    /// behind the others. An `Err` leaves the tree as it was.
    pub fn enter(&mut self, alloc: Global, path: Path, f: Finding) -> Result<Added, TreeErr>
        requires { IsShortCut path f.outcome }
        ensures may { OnOk result (MayEnter self.old.version path f) }
        ensures entered { OnOk result
            (self.new.version ≡ with_entry self.old.version path f.outcome) }
        ensures waiting { OnOk result (self.new.waiting ≡ without path self.old.waiting
            ++ map_list (cell_in self.new.version) (parts_by path f.outcome)) }
        ensures outcome { IfOk result (λ added. arc_value added.outcome ≡ f.outcome) }
        ensures parts { IfOk result (λ added.
            cells_from added.parts ≡ map_list (cell_in self.new.version) (parts_by path f.outcome)) }
        ensures refused { IfErr result (λ e. IsTreeErr self.old.version path f e) }
        ensures same { OnErr result (self.new ≡ self.old) }
    {
        let (i, f) = place_for(&self.nodes, 0, &path, f)?;
        match enter(&mut self.nodes, alloc, &path, i, f) {
            Ok(added) => {
                self.count += 1;
                Ok(added)
            }
            Err(f) => Err(TreeErr::NoMemory(f)),
        }
    }

    /// The finding, if it may be entered at the path, with the cells that a cut makes: for who has
    /// to find memory for these before the tree grows. Cells that were made ahead are taken. A
    /// cut's path is shorter than 48.
    pub fn prepare(
        &self,
        alloc: Global,
        path: Path,
        f: Finding,
        ahead: Ahead,
    ) -> Result<Prepared, TreeErr>
        requires short { IsShortCut path f.outcome }
        requires ahead { AreMadeBy (record { path = path; region = f.region }) f.outcome ahead.parts }
        ensures may { OnOk result (MayEnter self.now.version path f) }
        ensures finding { IfOk result (λ p. p.finding ≡ f) }
        ensures parts { IfOk result (λ p. cells_from p.parts
            ≡ map_list (cell_in (with_entry self.now.version path f.outcome)) (parts_by path f.outcome)) }
        ensures refused { IfErr result (λ e. IsTreeErr self.now.version path f e) }
    {
        let Ahead { parts, near } = ahead;
        let (i, finding) = place_for(&self.nodes, near, &path, f)?;
        match parts_for(&self.nodes, alloc, &path, i, &finding, parts) {
            Ok(parts) => Ok(Prepared {
                finding,
                parts,
                near: i,
            }),
            Err(NoMemory) => Err(TreeErr::NoMemory(finding)),
        }
    }

    /// Enters what was prepared, and gives an owner of the outcome. An `Err` is want of memory: it
    /// gives the finding back, and leaves the tree as it was.
    pub fn enter_prepared(
        &mut self,
        alloc: Global,
        path: Path,
        prepared: Prepared,
    ) -> Result<Arc<Outcome>, Finding>
        requires may { MayEnter self.old.version path prepared.finding }
        requires parts { cells_from prepared.parts
            ≡ map_list (cell_in (with_entry self.old.version path prepared.finding.outcome))
            (parts_by path prepared.finding.outcome) }
        ensures entered { OnOk result
            (self.new.version ≡ with_entry self.old.version path prepared.finding.outcome) }
        ensures outcome { IfOk result (λ outcome. arc_value outcome ≡ prepared.finding.outcome) }
        ensures err { IfErr result (λ g. g ≡ prepared.finding) }
        ensures same { OnErr result (self.new ≡ self.old) }
    {
        let Prepared {
            finding,
            parts,
            near,
        } = prepared;
        let i = place_near(&self.nodes, near, &path);
        let outcome = enter_parts(&mut self.nodes, alloc, &path, i, finding, parts)?;
        self.count += 1;
        Ok(outcome)
    }

    // As `enter`, where it is known that the finding may be entered; the cell is looked for at the
    // place `near` first.
    pub(crate) fn enter_near(
        &mut self,
        alloc: Global,
        near: usize,
        path: Path,
        f: Finding,
    ) -> Result<Added, Finding>
        requires may { MayEnter self.old.version path f }
        requires short { IsShortCut path f.outcome }
        ensures entered { OnOk result
            (self.new.version ≡ with_entry self.old.version path f.outcome) }
        ensures parts { IfOk result (λ added.
            cells_from added.parts ≡ map_list (cell_in self.new.version) (parts_by path f.outcome)) }
        ensures err { IfErr result (λ g. g ≡ f) }
        ensures same { OnErr result (self.new ≡ self.old) }
    {
        let i = place_near(&self.nodes, near, &path);
        let added = enter(&mut self.nodes, alloc, &path, i, f)?;
        self.count += 1;
        Ok(added)
    }

    /// The version, which shares all cells. An `Err` is want of memory.
    pub fn version(&self, alloc: Global) -> Result<Version, NoMemory>
        ensures { IfOk result (λ v. v ≡ self.now.version) }
    {
        Ok(Version::of(self.nodes.share(alloc)?, self.count))
    }

    /// The cells that wait. An `Err` is want of memory.
    pub fn waiting(&self, alloc: Global) -> Result<PendingList, NoMemory>
        ensures { IfOk result (λ cells. cells ≡ self.now.waiting) }
    {
        open_in(alloc, &self.nodes)
    }

    /// The version with what was entered. It takes no memory.
    pub fn finish(self) -> Version
        ensures { result ≡ self.version }
    {
        let GrowingTree { nodes, count } = self;
        Version::of(nodes, count)
    }
}
