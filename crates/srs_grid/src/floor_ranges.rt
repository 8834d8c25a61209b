// The floors of a form over a cell.
ghost use Rattle.std.specs.Prelude.{ℕ, ◌≤◌, ◌^◌, MatchOption};
ghost use Rattle.srs_num.specs.Points.{LinearForm, IsWithin};
ghost use Rattle.srs_map.specs.Step.{IsNarrow};
ghost use Rattle.srs_plane.specs.Regions.{Area};
ghost use Rattle.srs_cell.specs.Floors.{form_of};
ghost use Rattle.srs_grid.specs.Levels.{IsTimes, IsFirstLevel, HasNoLevel};
ghost use Rattle.srs_grid.specs.FloorRanges.{HasFloors};

use srs_cell::Cell;
use srs_num::V2;

// The floors of a form at the points of a cell: each whole number from `low` to `high`, and no other.
#[derive(Clone, Copy)]
pub(crate) struct FloorRange {
    pub(crate) low: i64,
    pub(crate) high: i64,
}

impl FloorRange {
    // Those of the form w.a*x + w.b*y: the second entries to which the step leads from `w` are their
    // opposites.
    pub(crate) fn of(cell: &Cell, w: V2) -> FloorRange
        requires { IsNarrow w }
        ensures { HasFloors cell.now (form_of w) result }
    {
        let (low, high) = cell.moves(w);
        FloorRange {
            low: -high,
            high: -low,
        }
    }

    // The least whole number that splits the cell for the form of which this one is 2^finer times.
    pub(crate) fn first_level(&self, finer: u32) -> Option<i64>
        requires finer { finer ≤ 36 }
        requires sized { IsWithin (2 ^ 41) self.now.low }
        ensures { (R : Area) (f g : LinearForm) → IsTimes (2 ^ finer) f g → HasFloors R g self.now
            → MatchOption result (HasNoLevel R f) (IsFirstLevel R f) }
    {
        let below = self.low >> finer;
        if below < self.high >> finer {
            Some(below + 1)
        } else {
            None
        }
    }
}
