// Cells that wait.
ghost use Rattle.std.specs.Prelude.{◌≡◌, IfOk};

use srs_num::NoMemory;
use srs_tree::Pending;
use std::sync::Arc;

/// The same cell, with one owner more of its region. An `Err` is want of memory.
pub fn shared_cell(cell: &Pending) -> Result<Pending, NoMemory>
    ensures { IfOk result (λ copy. copy ≡ cell.now) }
{
    match Arc::try_clone(&cell.cell) {
        Ok(region) => Ok(Pending {
            path: cell.path,
            cell: region,
            place: cell.place,
        }),
        Err(_) => Err(NoMemory),
    }
}
