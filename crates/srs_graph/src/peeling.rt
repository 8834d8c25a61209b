// Ranks by peeling: a pair has its rank as soon as all its successors have theirs. What can't be
// peeled is the core.
ghost use Rattle.std.specs.Prelude.{◌≡◌, ◌<◌, ◌≤◌, length, IfOk};
ghost use Rattle.srs_graph.specs.Networks.{AreRows};
ghost use Rattle.srs_graph.specs.Marks.{HasNoMarks, IsPeeled};
ghost use Rattle.srs_path.specs.declared.limits.TheConstants.{MOST_WITNESSES};

use crate::descent::Descent;
use crate::rows::Row;
use srs_num::{NoMemory, V2};
use std::alloc::Global;

// A mark for each of n places: none yet.
pub(crate) fn no_marks(alloc: Global, n: usize) -> Result<Vec<Option<u32>>, NoMemory>
    ensures { IfOk result (λ marks. HasNoMarks n marks.items) }
{
    Ok(vec![in alloc; None; n]?)
}

// The marks that nothing can be added to.
pub(crate) fn peel(alloc: Global, pairs: &[V2], rows: &[Row]) -> Result<Vec<Option<u32>>, NoMemory>
    requires rows { AreRows (length pairs.now) rows.now }
    requires few { length pairs.now ≤ MOST_WITNESSES }
    ensures { IfOk result (λ marks. IsPeeled pairs.now rows.now marks.items) }
{
    let mut marks = no_marks(alloc, pairs.len())?;
    let mut descent = Descent::new(alloc, pairs.len())?;
    for start in 0..pairs.len() {
        if !descent.entered[start] {
            descent.descend(pairs, rows, &mut marks, start)?;
        }
    }
    Ok(marks)
}
