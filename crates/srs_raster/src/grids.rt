// The points of a map.
ghost use Rattle.std.specs.Prelude.{◌≡◌, ◌<◌, ◌≤◌, ◌^◌, pos, ◌*ℤ◌};
ghost use Rattle.srs_num.specs.Points.{IsWithin};
ghost use Rattle.srs_raster.specs.Maps.{across_of, up_of, map_point, IsGrid};

use crate::frames::Frame;
use srs_num::Pt;

// A frame, divided into so many columns and rows, each 1 to 200.
#[derive(Clone, Copy, Drop)]
pub(crate) struct Grid {
    pub(crate) frame: Frame,
    pub(crate) width: u32,
    pub(crate) height: u32,
}

impl Grid {
    // The middle of the box in column `i`, from the left, and row `j`, from the top.
    pub(crate) fn point(&self, i: u32, j: u32) -> Pt
        requires grid { IsGrid self.now }
        requires column { i < self.now.width }
        requires row { j < self.now.height }
        ensures { result ≡ map_point self.now i j }
    {
        let p = times(self.height, self.across(i));
        let q = times(self.width, self.up(j));
        let d = times(self.height, times(self.width, 128));
        let Some(r) = Pt::new(p, q, d) else {
            unreachable!()
        };
        r
    }

    // Where the middle of column `i` is, in 128ths times the width.
    fn across(&self, i: u32) -> i64
        requires grid { IsGrid self.now }
        requires column { i < self.now.width }
        ensures value { result ≡ across_of self.now i }
        ensures within { IsWithin (2 ^ 20) result }
    {
        let frame = &self.frame;
        times(2 * self.width, frame.left) + times(2 * i + 1, frame.right - frame.left)
    }

    // Where the middle of row `j` is, in 128ths times the height.
    fn up(&self, j: u32) -> i64
        requires grid { IsGrid self.now }
        requires row { j < self.now.height }
        ensures value { result ≡ up_of self.now j }
        ensures within { IsWithin (2 ^ 20) result }
    {
        let frame = &self.frame;
        times(2 * self.height, frame.top) - times(2 * j + 1, frame.top - frame.bottom)
    }
}

// The product, for n at most 400 and z within 2^20.
fn times(n: u32, z: i64) -> i64
    requires few { n ≤ 400 }
    requires small { IsWithin (2 ^ 20) z }
    ensures { result ≡ pos n *ℤ z }
{
    n as i64 * z
}
