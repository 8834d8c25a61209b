// The text of a map.
ghost use Rattle.std.specs.Prelude.{◌≡◌, ◌≤◌, ◌<◌, [], ◌∷◌, ◌++◌, IfOk, OnOk};
ghost use Rattle.srs_plane.specs.Polygons.{IsPolygon, region_of};
ghost use Rattle.srs_tree.specs.Snapshots.{tree_of};
ghost use Rattle.srs_tree.specs.Answers.{reply_of};
ghost use Rattle.srs_raster.specs.Maps.{map_char, IsGrid, HasRow, IsText, IsMapText};

use crate::frames::frame_of;
use crate::grids::Grid;
use srs_num::{NoMemory, Steps};
use srs_plane::Vertex;
use srs_text::Bytes;
use srs_tree::{Answer, Version};
use std::alloc::Global;
use std::marker::Brand;
use std::sync::ledger::{Blank, Ledger};

/// The map of the version whose polygon has these vertices: `h` lines of `w` characters, each 1 to
/// 200, from the top. They stand for the middles of equal boxes over the least frame of whole 64ths
/// that holds the polygon: `#` inside, `o` outside, `?` undecided, `.` beyond the polygon. An `Err`
/// is want of memory.
pub fn map_text(
    alloc: Global,
    v: &Version,
    vs: &[Vertex],
    w: u32,
    h: u32,
) -> Result<Bytes, NoMemory>
    requires columns { (1 ≤ w) × (w ≤ 200) }
    requires rows { (1 ≤ h) × (h ≤ 200) }
    requires polygon { IsPolygon vs.now }
    requires region { v.now.region ≡ region_of vs.now }
    ensures { IfOk result (λ text. IsMapText v.now.region (tree_of v.now) vs.now w h text) }
{
    let grid = Grid {
        frame: frame_of(vs),
        width: w,
        height: h,
    };
    drawn::<Brand>(alloc, v, &grid, Blank::new(1))
}

// The text of the grid's rows. The steps aren't counted.
fn drawn<L: Ledger>(
    alloc: Global,
    v: &Version,
    grid: &Grid,
    blank: Blank,
) -> Result<Bytes, NoMemory>
    requires grid { IsGrid grid.now }
    requires name { blank.name ≡ L.name }
    requires parts { blank.parts ≡ L.parts }
    requires some { 0 < blank.parts }
    ensures { IfOk result
        (λ text. IsText v.now.region (tree_of v.now) grid.now grid.now.height text) }
{
    let mut steps = Steps::<L>::new(blank);
    let mut text = Bytes::new(alloc);
    for j in 0..grid.height {
        put_row(&mut text, v, grid, j, &mut steps)?;
    }
    Ok(text)
}

// Appends row `j`. An `Err` is want of memory.
fn put_row<L: Ledger>(
    text: &mut Bytes,
    v: &Version,
    grid: &Grid,
    j: u32,
    steps: &mut Steps<L>,
) -> Result<(), NoMemory>
    requires grid { IsGrid grid.now }
    requires row { j < grid.now.height }
    ensures { OnOk result (HasRow v.now.region (tree_of v.now) grid.now j text.old text.new) }
{
    for i in 0..grid.width {
        put(text, shown(v.locate(&grid.point(i, j), steps)))?;
    }
    put(text, b'\n')
}

// The character of the answer.
fn shown(answer: Answer<'_>) -> u8
    ensures { result ≡ map_char (reply_of answer.entry) }
{
    match answer {
        Answer::Inside => b'#',
        Answer::Outside(_) => b'o',
        Answer::Undecided(_) => b'?',
        Answer::Beyond => b'.',
    }
}

// Appends the byte. An `Err` is want of memory.
fn put(text: &mut Bytes, byte: u8) -> Result<(), NoMemory>
    ensures { OnOk result (text.new ≡ text.old ++ byte ∷ []) }
{
    match text.push(byte) {
        Ok(()) => Ok(()),
        Err(_) => Err(NoMemory),
    }
}
