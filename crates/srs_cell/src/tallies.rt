// How many corners are on each side of a line.
ghost use Rattle.std.specs.Prelude.{◌≡◌, ◌^◌, ◌≤◌, List, All, IsTrue};
ghost use Rattle.srs_num.specs.Points.{Point, LinearForm, value, opposite, IsPointWithin};
ghost use Rattle.srs_cell.specs.Tallies.{IsTally};

use crate::values::value_of;
use srs_num::{Corner, Form};

// How many corners have a form above 0, at 0 and below 0.
#[derive(Clone, Copy, Drop)]
pub(crate) struct Tally {
    pub(crate) above: usize,
    pub(crate) on: usize,
    pub(crate) below: usize,
}

impl Tally {
    // That of the opposite form.
    pub(crate) fn turned(self) -> Tally
        ensures tally { (g : LinearForm) (cs : List Point) → IsTally g cs self → IsTally
            (opposite g) cs result }
        ensures above { result.above ≡ self.below }
    {
        Tally {
            above: self.below,
            on: self.on,
            below: self.above,
        }
    }

    // Whether an end of the line may be one of the corners, or the two ends one point: these are
    // the corners on the line, or the one point at which the line crosses a segment.
    pub(crate) fn may_double(self) -> bool {
        self.on > 0 || self.above == 1 && self.below == 1
    }
}

// How many of the corners are on each side of the line.
pub(crate) fn tally_of(corners: &[Corner], short: bool, line: &Form) -> Tally
    requires short { IsTrue short → All (IsPointWithin (2 ^ 38)) corners.now }
    ensures { IsTally line.now corners.now result }
{
    let mut tally = Tally {
        above: 0,
        on: 0,
        below: 0,
    };
    for corner in corners {
        let value = value_of(line, corner, short);
        if value > 0 {
            tally.above += 1;
        } else if value < 0 {
            tally.below += 1;
        } else {
            tally.on += 1;
        }
    }
    tally
}
