// Cells, and how they are made.
ghost use Rattle.std.specs.Prelude.{◌≡◌, ◌<◌, ◌↔◌, [], ◌∷◌, ◌++◌, length, IsTrue, IfOk, IsSome};
ghost use Rattle.std.specs.Prelude.{MatchOption, All, pos, ◌≤ℤ◌};
ghost use Rattle.srs_plane.specs.Regions.{IsIn, IsInHalf, HasPoint};
ghost use Rattle.srs_num.specs.Points.{Point, value};
ghost use Rattle.srs_map.specs.Step.{IsNarrow};
ghost use Rattle.srs_cell.specs.Hull.{IsInHalves};
ghost use Rattle.srs_cell.specs.Corners.{boxed, AreCorners, IsCell};
ghost use Rattle.srs_cell.specs.Cutting.{IsSection};
ghost use Rattle.srs_cell.specs.Floors.{form_of, AreLeastFloors};

use crate::corners::corners_of;
use crate::floors::{CornerList, Floors};
use srs_num::{Corner, Form, NoMemory, V2, sum};
use srs_plane::Region;
use std::alloc::Global;
use std::marker::Model;

/// A region that has a point, with the corners of its halves, where open edges count as closed: 1
/// to 84 of them.
#[derive(Drop)]
pub struct Cell {
    pub(crate) region: Region,
    pub(crate) corners: CornerList,
}

impl Model for Cell {
    ghost use Rattle.std.specs.Prelude.{List};
    ghost use Rattle.srs_plane.specs.declared.halves.Half.{Half};
    ghost use Rattle.srs_num.specs.Points.{Point};
    ghost use Rattle.srs_cell.specs.Corners.{IsCell};

    ghost Value = { List Half };

    ghost view = { λ s. s.region };

    ghost invariant = { λ s. (sample : Point) × IsCell s.region s.corners sample };
}

impl Cell {
    /// The cell of the region, which may be a segment or a single point. `None` exactly where the
    /// region has no point. An `Err` is want of memory. Both let the region go.
    pub fn of(alloc: Global, region: Region) -> Result<Option<Cell>, NoMemory>
        ensures { IfOk result (λ found. MatchOption found (HasPoint region → ⊥)
            (λ cell. cell ≡ region)) }
    {
        let Some(corners) = corners_of(alloc, &region)? else {
            return Ok(None);
        };
        Ok(inhabited(region, corners))
    }

    /// The region.
    pub fn region(&self) -> &Region
        ensures value { result.now ≡ self.now }
        ensures has_point { HasPoint self.now }
    {
        &self.region
    }

    /// A point of the cell: it adds up the corners.
    // Where some point is strictly inside an open edge, so is the sum of all corners.
    pub fn sample(&self) -> Corner
        ensures { IsIn self.now result }
    {
        sum(self.corners.as_slice())
    }

    /// An equal cell. An `Err` is want of memory.
    pub fn copy(&self, alloc: Global) -> Result<Cell, NoMemory>
        ensures { IfOk result (λ cell. cell ≡ self.now) }
    {
        Ok(Cell {
            region: self.region.copy(alloc)?,
            corners: self.corners.copy(alloc)?,
        })
    }

    // The corners, at most 84 of them.
    pub(crate) fn corners(&self) -> &CornerList
        ensures { (sample : Point) × IsCell self.now result.now sample }
    {
        &self.corners
    }

    // The least floors of the value of a pair, and of the value negated, at the cell's points.
    #[inline(always)]
    pub(crate) fn floors(&self, w: V2) -> Floors
        requires { IsNarrow w }
        ensures { AreLeastFloors self.now (form_of w) result }
    {
        self.corners.floors(w)
    }
}

// The cell of the region, whose corners these are. `None` exactly where it has no point.
pub(crate) fn inhabited(region: Region, corners: Vec<Corner>) -> Option<Cell>
    requires { AreCorners region corners.items }
    ensures cell { MatchOption result (HasPoint region → ⊥) (λ cell. cell ≡ region) }
    ensures point { IsSome result → HasPoint region }
{
    // A region has at most `MOST_HALVES` halves, and its points are near.
    let _ = region.len();
    // Where some point is strictly inside an open edge, so is the sum of all corners.
    let sample = sum(&corners);
    if !is_inside(&region, &sample) {
        return None;
    }
    Some(Cell {
        region,
        corners: CornerList::new(corners),
    })
}

// Whether the corner, which is in the halves with their edges, is in each half of the region: it
// looks at the open edges alone.
pub(crate) fn is_inside(region: &Region, corner: &Corner) -> bool
    requires { IsInHalves (boxed region.now) corner.now }
    ensures { IsTrue result ↔ All (λ h. IsInHalf h corner.now) region.now }
{
    region.has_corner(corner)
}
