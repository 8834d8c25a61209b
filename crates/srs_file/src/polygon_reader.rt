// Reads the text of a polygon.
ghost use Rattle.std.specs.Prelude.{List, ℕ, ◌≡◌, ◌≢◌, ◌+◌, ◌^◌, ◌<◌, codes, OnOk, IfOk, IfErr, length};
ghost use Rattle.srs_plane.specs.declared.polygons.Vertex.{Vertex};
ghost use Rattle.srs_plane.specs.Regions.{HasPoint};
ghost use Rattle.srs_plane.specs.Polygons.{region_of};
ghost use Rattle.srs_line.specs.declared.slip.Slip.{Slip};
ghost use Rattle.srs_line.specs.declared.slip.Slip.TheVariants.{Word};
ghost use Rattle.srs_file.specs.Grammar.{SpellsPolygon};
ghost use Rattle.srs_file.specs.PolygonReading.{start, ReadsAs, FirstSlip, IsPolygonOrSlips};
ghost use Rattle.srs_file.specs.PolygonReading.{IsRefusal, IsNotSpelled};

use crate::Outline;
use srs_cell::Cell;
use srs_line::{
    FileErr, LineErr, LineMachine, Slip, never_both, one_slip, read_lines, read_once, read_or_slips,
};
use srs_num::NoMemory;
use srs_plane::{Region, Vertices};
use std::alloc::Global;

/// A reader of the text of a polygon, which takes it line by line. It has ended with the line
/// behind the last vertex.
#[derive(Drop)]
pub struct PolygonReader {
    pub outline: Outline,
    pub ended: bool,
}

impl PolygonReader {
    /// A reader before the first line. It takes no memory.
    pub fn new(alloc: Global) -> PolygonReader
        ensures { result ≡ start }
    {
        PolygonReader {
            outline: Outline::new(alloc),
            ended: false,
        }
    }
}

impl LineMachine for PolygonReader {
    ghost use Rattle.srs_file.specs.PolygonReading.{Steps, Slips, IsEnd};

    ghost steps = { Steps };

    ghost slips = { Slips };

    ghost is_end = { IsEnd };

    fn is_done(&self) -> bool {
        self.ended
    }

    fn take(&mut self, line: &[u8]) -> Result<(), LineErr> {
        if !self.outline.is_whole() {
            return self.outline.take(line);
        }
        end(line)?;
        self.ended = true;
        Ok(())
    }
}

// The line `end`. It takes no memory.
pub(crate) fn end(line: &[u8]) -> Result<(), Slip>
    ensures ok { OnOk result (line.now ≡ codes "end") }
    ensures err { IfErr result (λ slip. (line.now ≢ codes "end") × (slip ≡ Word)) }
{
    if line != b"end".as_slice() {
        return Err(Slip::Word);
    }
    Ok(())
}

/// The vertices of the polygon that the text spells, and the cell of its region; or the first slip
/// of the text, its lines counted from 1. The text is shorter than 2^32 - 1 bytes.
pub fn read_polygon(alloc: Global, text: &[u8]) -> Result<(Vertices, Cell), FileErr>
    requires { length text.now + 1 < 2 ^ 32 }
    ensures accepted { IfOk result (λ r. SpellsPolygon text.now r.0 × (r.1 ≡ region_of r.0)) }
    ensures refused { IfErr result (IsRefusal text.now) }
    ensures outside { IfErr result (IsNotSpelled text.now) }
{
    let mut reader = PolygonReader::new(alloc);
    read_lines(&mut reader, text)?;
    let (vertices, region) = reader.outline.into_parts();
    let Some(region) = region else { unreachable!() };
    Ok((vertices, inhabited(alloc, region)?))
}

// The cell of a region that has a point. An `Err` is want of memory.
pub(crate) fn inhabited(alloc: Global, region: Region) -> Result<Cell, NoMemory>
    requires { HasPoint region }
    ensures { IfOk result (λ cell. cell ≡ region) }
{
    match Cell::of(alloc, region) {
        Ok(Some(cell)) => Ok(cell),
        Ok(None) => unreachable!(),
        Err(e) => Err(e),
    }
}

/// A text is that of a polygon or has a first slip, one of the two and never both; it has one first
/// slip, and spells one list of vertices; and it is read as these vertices exactly where it spells
/// them.
pub fn one_polygon()
    ensures never_both { (text : List ℕ) (vs : List Vertex) (line : ℕ) (slip : Slip) →
        SpellsPolygon text vs → FirstSlip text line slip → ⊥ }
    ensures one_slip { (text : List ℕ) (m n : ℕ) (d e : Slip) → FirstSlip text m d →
        FirstSlip text n e → (m ≡ n) × (d ≡ e) }
    ensures either { (text : List ℕ) → IsPolygonOrSlips text }
    ensures one_list { (text : List ℕ) (vs ws : List Vertex) → SpellsPolygon text vs →
        SpellsPolygon text ws → vs ≡ ws }
    ensures spelled { (text : List ℕ) (vs : List Vertex) → ReadsAs text vs → SpellsPolygon text vs }
    ensures read { (text : List ℕ) (vs : List Vertex) → SpellsPolygon text vs → ReadsAs text vs }
{
    never_both::<PolygonReader>();
    one_slip::<PolygonReader>();
    read_once::<PolygonReader>();
    read_or_slips::<PolygonReader>();
}
