// The cells of a round.
ghost use Rattle.std.specs.Prelude.{◌≡◌, ◌≤◌, length, IfOk, OnOk};
ghost use Rattle.srs_crew.specs.Rounds.{AreFromRound, TakesOfRound};

use srs_atlas::{PendingList, shared_cell};
use srs_num::NoMemory;
use srs_tree::Pending;
use std::alloc::Global;

const MOST: u64 = 65536;

// The first cells of the list that are on paths of this length, at most 65536. An `Err` is want of
// memory.
pub(crate) fn of_round(
    alloc: Global,
    cells: &PendingList,
    round: u32,
) -> Result<PendingList, NoMemory>
    ensures from { IfOk result (AreFromRound cells.now round) }
    ensures few { IfOk result (λ list. length list ≤ 65536) }
{
    let mut list = PendingList::new(alloc);
    for i in 0..cells.len() {
        if list.len() == MOST {
            break;
        }
        take_of_round(&mut list, cells.get(i), round)?;
    }
    Ok(list)
}

// The cell comes to the list if it is on a path of this length. An `Err` is want of memory.
fn take_of_round(list: &mut PendingList, cell: &Pending, round: u32) -> Result<(), NoMemory>
    ensures { OnOk result (TakesOfRound round cell.now list.old list.new) }
{
    if cell.path.len() != round {
        return Ok(());
    }
    match list.push(shared_cell(cell)?) {
        Ok(()) => Ok(()),
        Err(_) => Err(NoMemory),
    }
}
