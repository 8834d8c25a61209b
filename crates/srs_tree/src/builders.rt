// Trees that are still made.
ghost use Rattle.std.specs.Prelude.{◌≡◌, ◌≤◌, [], length, map as map_list, IfOk, OnOk, OnErr};
ghost use Rattle.std.specs.FinMap as map;
ghost use Rattle.srs_tree.specs.Snapshots.{with_entry};
ghost use Rattle.srs_tree.specs.Rounds.{parts_by};
ghost use Rattle.srs_tree.specs.Queue.{cell_in, cells_from};
ghost use Rattle.srs_tree.specs.Growth.{IsShortCut, MayEnter};

use crate::{GrowingTree, Pending, Version};
use srs_cell::Cell;
use srs_num::NoMemory;
use srs_path::{Finding, Path};
use std::alloc::Global;
use std::marker::Model;

/// A tree that one owner makes, outcome by outcome, and of which a version is made at the end. It
/// keeps what a version keeps.
#[derive(Drop)]
pub struct TreeBuilder {
    tree: GrowingTree,
}

impl Model for TreeBuilder {
    ghost use Rattle.srs_tree.specs.Snapshots.{Snapshot, snapshot_code};

    ghost Value = { Snapshot };

    ghost coded = { snapshot_code };

    ghost view = { λ b. b.tree.version };
}

impl TreeBuilder {
    /// The tree of the cell without an outcome, for a cell of at most 16 halves.
    pub fn start(alloc: Global, cell: Cell) -> Result<TreeBuilder, NoMemory>
        requires { length cell ≤ 16 }
        ensures { IfOk result (λ b. b ≡ record { region = cell; entries = map.empty }) }
    {
        Ok(TreeBuilder {
            tree: GrowingTree::start(alloc, cell)?,
        })
    }

    /// The root cell, which has no event where the tree has none.
    pub fn root(&self) -> Result<Pending, NoMemory>
        ensures { IfOk result (λ root. root ≡ record { path = []; region = self.now.region }) }
    {
        self.tree.root()
    }

    /// The outcome of the finding is entered at the path, which is an open cell, and the finding is
    /// of its region; a cut's path is shorter than 48. The cell is looked for first at the place
    /// `near`, where a `Pending` says that it is. It gives the two cells that a cut makes, Ge
    /// first. An `Err` is want of memory, and leaves the tree as it was.
    pub fn add(
        &mut self,
        alloc: Global,
        near: usize,
        path: Path,
        f: Finding,
    ) -> Result<Option<(Pending, Pending)>, NoMemory>
        requires may { MayEnter self.old path f }
        requires short { IsShortCut path f.outcome }
        ensures entered { OnOk result (self.new ≡ with_entry self.old path f.outcome) }
        ensures parts { IfOk result (λ parts.
            cells_from parts ≡ map_list (cell_in self.new) (parts_by path f.outcome)) }
        ensures same { OnErr result (self.new ≡ self.old) }
    {
        match self.tree.enter_near(alloc, near, path, f) {
            Ok(added) => Ok(added.parts),
            Err(_) => Err(NoMemory),
        }
    }

    /// The version with what was entered. It takes no memory.
    pub fn finish(self) -> Version
        ensures { result ≡ self }
    {
        self.tree.finish()
    }
}
