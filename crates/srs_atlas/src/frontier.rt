// The cells that wait for an event, in their order.
ghost use Rattle.std.specs.Prelude.{◌≡◌, ◌<◌, [], ◌∷◌, ◌++◌, map, IfOk, OnOk, OnErr};
ghost use Rattle.srs_tree.specs.Queue.{cells_from, without};
ghost use Rattle.srs_atlas.specs.Frontiers.{cells_of, LacksPath, LackPaths, paths_from, without_paths};

use crate::lists::shared_cell;
use srs_front::Front;
use srs_num::{NoMemory, Steps};
use srs_path::Path;
use srs_tree::{Pending, PendingList};
use std::alloc::Global;
use std::collections::HashMap;
use std::marker::{Brand, Model};
use std::sync::ledger::{Blank, Ledger};

// The cells that wait, seen as the list of them. They are linked by index, and a map gives the slot
// of a cell by the number of its path, so that one is taken out wherever it stands.
#[derive(Drop)]
pub(crate) struct Frontier {
    cells: Front<Pending>,
    slots: HashMap<u64, u64>,
}

impl Model for Frontier {
    ghost use Rattle.std.specs.Prelude.{List};
    ghost use Rattle.std.specs.Coded.{coded_list};
    ghost use Rattle.srs_tree.specs.Queue.{WaitingCell, waiting_code};

    ghost Value = { List WaitingCell };

    ghost coded = { coded_list waiting_code };

    ghost use Rattle.srs_atlas.specs.Frontiers.{cells_of, AreSlotsOf};

    ghost view = { λ f. cells_of f.cells };

    ghost invariant = { λ f. AreSlotsOf f.slots f.cells };
}

impl Frontier {
    // No cell. It takes no memory.
    pub(crate) fn new(alloc: Global) -> Frontier
        ensures { result ≡ [] }
    {
        Frontier {
            cells: Front::new(alloc),
            slots: HashMap::new(alloc),
        }
    }

    // The cell comes last. An `Err` is want of memory, and leaves the list as it was.
    pub(crate) fn push(&mut self, cell: Pending) -> Result<(), NoMemory>
        requires { LacksPath cell.path self.old }
        ensures ok { OnOk result (self.new ≡ self.old ++ cell ∷ []) }
        ensures err { OnErr result (self.new ≡ self.old) }
    {
        self.push_uncounted::<Brand>(cell, Blank::new(1))
    }

    fn push_uncounted<L: Ledger>(&mut self, cell: Pending, blank: Blank) -> Result<(), NoMemory>
        requires name { blank.name ≡ L.name }
        requires parts { blank.parts ≡ L.parts }
        requires some { 0 < blank.parts }
        requires other { LacksPath cell.path self.old }
        ensures ok { OnOk result (self.new ≡ self.old ++ cell ∷ []) }
        ensures err { OnErr result (self.new ≡ self.old) }
    {
        let mut steps = Steps::<L>::new(blank);
        let number = cell.path.number();
        let Ok(slot) = self.cells.push_back(cell, &mut steps) else {
            return Err(NoMemory);
        };
        if self.slots.insert(number, slot).is_err() {
            let _ = self.cells.unlink(slot, &mut steps);
            return Err(NoMemory);
        }
        Ok(())
    }

    // The two cells come last, if there are any. An `Err` is want of memory, and leaves the list as it was.
    pub(crate) fn push_parts(&mut self, parts: &Option<(Pending, Pending)>) -> Result<(), NoMemory>
        requires { LackPaths (cells_from parts.now) self.old }
        ensures ok { OnOk result (self.new ≡ self.old ++ cells_from parts.now) }
        ensures err { OnErr result (self.new ≡ self.old) }
    {
        let Some((ge, lt)) = parts else {
            return Ok(());
        };
        let first = shared_cell(ge)?;
        let second = shared_cell(lt)?;
        self.push(first)?;
        if self.push(second).is_err() {
            self.remove(&ge.path);
            return Err(NoMemory);
        }
        Ok(())
    }

    // Takes out the cells at the two paths, if there are any. It takes no memory.
    pub(crate) fn remove_parts(&mut self, paths: &Option<(Path, Path)>)
        ensures { self.new ≡ without_paths (paths_from paths.now) self.old }
    {
        if let Some((ge, lt)) = paths {
            self.remove(ge);
            self.remove(lt);
        }
    }

    // Takes out the cell at the path, if there is one. It takes no memory.
    pub(crate) fn remove(&mut self, path: &Path)
        ensures { self.new ≡ without path.now self.old }
    {
        self.remove_uncounted::<Brand>(path, Blank::new(1));
    }

    fn remove_uncounted<L: Ledger>(&mut self, path: &Path, blank: Blank)
        requires name { blank.name ≡ L.name }
        requires parts { blank.parts ≡ L.parts }
        requires some { 0 < blank.parts }
        ensures { self.new ≡ without path.now self.old }
    {
        let mut steps = Steps::<L>::new(blank);
        if let Some(slot) = self.slots.remove(&path.number()) {
            let _ = self.cells.unlink(slot, &mut steps);
        }
    }

    // The cells, shared. An `Err` is want of memory.
    pub(crate) fn list(&self, alloc: Global) -> Result<PendingList, NoMemory>
        ensures { IfOk result (λ list. list ≡ self.now) }
    {
        Ok(PendingList::of(walked(alloc, &self.cells)?))
    }
}

// The paths of the two cells, if there are any.
pub(crate) fn paths_of(parts: &Option<(Pending, Pending)>) -> Option<(Path, Path)>
    ensures { paths_from result ≡ map (λ c. c.path) (cells_from parts.now) }
{
    match parts {
        Some((ge, lt)) => Some((ge.path, lt.path)),
        None => None,
    }
}

// The cells of the list from front to back, shared. An `Err` is want of memory.
fn walked(alloc: Global, cells: &Front<Pending>) -> Result<Vec<Pending>, NoMemory>
    ensures { IfOk result (λ list. list.items ≡ cells_of cells.now) }
{
    let mut list = Vec::new(alloc);
    let mut slot = cells.first();
    while let Some(at) = slot {
        list.push(shared_cell(cells.get(at))?)?;
        slot = cells.next(at);
    }
    Ok(list)
}
