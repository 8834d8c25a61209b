// The limits of a run.
ghost use Rattle.std.specs.Prelude.{◌≡◌, ◌≤◌, ◌^◌, IfSome, IfNone};
ghost use Rattle.srs_path.specs.Views.{Budget, IsBudget, last_of};

use std::marker::Model;

/// The most cuts on the way to a cell.
pub const MOST_DEPTH: u32 = 48;

/// The most cells that may be asked for.
pub const MOST_CELLS: u32 = 65536;

/// The most witnesses of a cell that may be asked for.
pub const MOST_WITNESSES: u32 = 16384;

/// The most that the number of cells and that of the witnesses of a cell may be, multiplied.
pub const MOST_PRODUCT: u64 = 1 << 22;

/// Which limit is spent.
#[derive(Clone, Copy, Debug, PartialEq, Eq, Drop)]
pub enum Last {
    Depth,
    Cells,
}

/// The greatest depth of a cell (0 to `MOST_DEPTH`), the most cells (1 to `MOST_CELLS`), and the
/// most witnesses of a cell (1 to `MOST_WITNESSES`); the product of the last two is at most
/// `MOST_PRODUCT`.
#[derive(Clone, Copy, Debug, PartialEq, Eq, Drop)]
pub struct Limits {
    depth: u32,
    cells: u32,
    wits: u32,
}

impl Model for Limits {
    ghost use Rattle.srs_path.specs.Views.{Budget, IsBudget};

    ghost Value = { Budget };

    ghost view = { λ l. record { depth = l.depth; cells = l.cells; wits = l.wits } };

    ghost invariant = { λ l. IsBudget (record {
      depth = l.depth;
      cells = l.cells;
      wits = l.wits;
    }) };

    ghost inverse = { λ v. record { depth = v.depth; cells = v.cells; wits = v.wits } };
}

impl Limits {
    /// `None` exactly where one of the ranges is broken.
    pub fn new(depth: u32, cells: u32, wits: u32) -> Option<Limits>
        ensures some { IfSome result (λ l. l ≡ record {
          depth = depth;
          cells = cells;
          wits = wits;
        }) }
        ensures none { IfNone result (IsBudget (record {
          depth = depth;
          cells = cells;
          wits = wits;
        }) → ⊥) }
    {
        if depth > MOST_DEPTH
            || cells < 1
            || cells > MOST_CELLS
            || wits < 1
            || wits > MOST_WITNESSES
        {
            return None;
        }
        if u64::from(wits) * u64::from(cells) > MOST_PRODUCT {
            return None;
        }
        Some(Limits { depth, cells, wits })
    }

    pub fn depth(&self) -> u32
        ensures depth { result ≡ self.now.depth }
        ensures budget { IsBudget self.now }
    {
        self.depth
    }

    pub fn cells(&self) -> u32
        ensures cells { result ≡ self.now.cells }
        ensures budget { IsBudget self.now }
    {
        self.cells
    }

    pub fn wits(&self) -> u32
        ensures wits { result ≡ self.now.wits }
        ensures budget { IsBudget self.now }
    {
        self.wits
    }

    /// Which limit is spent in the round, of `cells` cells so far with `pending` more that may each
    /// be cut in two: at most 2^32 of either. `None`: neither is.
    pub fn last(&self, round: u32, cells: u64, pending: u64) -> Option<Last>
        requires cells { cells ≤ 2 ^ 32 }
        requires pending { pending ≤ 2 ^ 32 }
        ensures { result ≡ last_of self.now round cells pending }
    {
        if round == self.depth {
            return Some(Last::Depth);
        }
        if cells + 2 * pending > self.cells as u64 {
            return Some(Last::Cells);
        }
        None
    }
}
