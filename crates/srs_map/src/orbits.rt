// The orbits.
ghost use Rattle.std.specs.Prelude.{◌≡◌, ◌≤◌};
ghost use Rattle.srs_num.specs.Points.{IsNear};
ghost use Rattle.srs_map.specs.Step.{IsNarrow};
ghost use Rattle.srs_map.specs.Orbits.{IsOrbitEnd};
ghost use Rattle.srs_map.specs.Chase.{IsMeeting};
ghost use Rattle.srs_map.specs.declared.orbits.TheConstants.{MOST_STEPS};

use crate::chase::{Finish, Place, period, race, start};
use crate::is_origin;
use srs_num::{Pt, V2};

/// The most steps of an orbit that may be asked for.
pub const MOST_STEPS: u32 = 100_000;

/// How an orbit ended: at (0,0) after so many steps, past the bound of its entries after so many
/// steps, at a pair that was met before (after how many steps, and how many more lead back to it),
/// or without any of these.
#[derive(Clone, Copy, Debug, PartialEq, Eq)]
pub enum OrbitEnd {
    Zero(u32),
    Wide(u32),
    Loop(u32, u32),
    Spent,
}

/// The first event of the first `n` steps from `z`: a pair (0,0), a pair with an entry beyond
/// `MOST_ENTRY`, or a pair that was met before. It takes no memory, and at most six steps for each
/// of n: three in the race, two up to the start of the loop, and one round it.
pub fn orbit(r: &Pt, z: V2, n: u32) -> OrbitEnd
    requires near { IsNear r.now }
    requires narrow { IsNarrow z }
    requires few { n ≤ MOST_STEPS }
    ensures { IsOrbitEnd r.now z n result }
{
    if is_origin(z) {
        return OrbitEnd::Zero(0);
    }
    match race(r, z, n) {
        Finish::Origin(k) => {
            if k <= n {
                OrbitEnd::Zero(k)
            } else {
                OrbitEnd::Spent
            }
        }
        Finish::Beyond(k) => {
            if k <= n {
                OrbitEnd::Wide(k)
            } else {
                OrbitEnd::Spent
            }
        }
        Finish::Meeting(meeting) => looped(r, z, n, meeting),
        Finish::Apart => OrbitEnd::Spent,
    }
}

// The end of an orbit of plain pairs on which the runners met.
fn looped(r: &Pt, z: V2, n: u32, meeting: Place) -> OrbitEnd
    requires near { IsNear r.now }
    requires met { IsMeeting r.now z meeting }
    requires few { n ≤ MOST_STEPS }
    requires within { meeting.steps ≤ n }
    ensures { IsOrbitEnd r.now z n result }
{
    let first = start(r, z, meeting);
    let length = period(r, first.pair, meeting.steps);
    if first.steps + length <= n {
        OrbitEnd::Loop(first.steps, length)
    } else {
        OrbitEnd::Spent
    }
}
