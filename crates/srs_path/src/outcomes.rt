// The outcome of a cell.
ghost use Rattle.std.specs.Prelude.{◌≡◌, IfOk};

use crate::{Cycle, Ranks};
use srs_num::{Form, NoMemory};
use std::alloc::Global;

/// Why a cell stays open: its chosen cycle doesn't cover it, or it isn't small.
#[derive(Clone, Copy, Debug, PartialEq, Eq, Drop)]
pub enum Why {
    Cycle,
    Witness,
}

/// The cause of a cell that is left: the depth or the number of cells is spent, no grid line
/// divides it, or want of memory.
#[derive(Clone, Copy, Debug, PartialEq, Eq, Drop)]
pub enum Cause {
    Depth(Why),
    Cells(Why),
    Thin,
    Memory,
}

/// What was found of a cell: it is finite with these ranks of its witnesses, it has this cycle at
/// every point, a form divides it, or it is left with a cause.
#[derive(Drop)]
pub enum Outcome {
    Inside(Ranks),
    Outside(Cycle),
    Cut(Form),
    Left(Cause),
}

impl Outcome {
    /// An equal value. An `Err` is want of memory.
    pub fn copy(&self, alloc: Global) -> Result<Outcome, NoMemory>
        ensures { IfOk result (λ o. o ≡ self.now) }
    {
        match self {
            Outcome::Inside(ranks) => Ok(Outcome::Inside(ranks.copy(alloc)?)),
            Outcome::Outside(cycle) => Ok(Outcome::Outside(cycle.copy(alloc)?)),
            Outcome::Cut(form) => Ok(Outcome::Cut(*form)),
            Outcome::Left(cause) => Ok(Outcome::Left(*cause)),
        }
    }
}
