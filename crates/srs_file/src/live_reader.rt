// Reads the input of `live`: a polygon, and sessions.
ghost use Rattle.std.specs.Prelude.{List, ℕ, ◌≡◌, ◌+◌, ◌^◌, ◌<◌, ◌↔◌, IsTrue, OnOk, IfOk, IfErr, length};
ghost use Rattle.srs_plane.specs.declared.polygons.Vertex.{Vertex};
ghost use Rattle.srs_plane.specs.Polygons.{region_of};
ghost use Rattle.srs_tree.specs.declared.sessions.Segment.{Segment};
ghost use Rattle.srs_line.specs.declared.slip.Slip.{Slip};
ghost use Rattle.srs_line.specs.Refusal.{IsSlip};
ghost use Rattle.srs_cert.specs.Lives.{LiveTextIsOne};
ghost use Rattle.srs_file.specs.Grammar.{SpellsLive};
ghost use Rattle.srs_file.specs.SessionReading.{SlipsSession};
ghost use Rattle.srs_file.specs.LiveReading.{live_start, SessionsEnd, StepsInSessions};
ghost use Rattle.srs_file.specs.LiveReading.{FirstLiveSlip, IsLiveOrSlips, IsLiveRefusal, IsNoLive};

use crate::polygon_reader::inhabited;
use crate::{Outline, SessionLines, one_certificate};
use srs_cell::Cell;
use srs_line::{
    FileErr, LineErr, LineMachine, Slip, never_both, one_slip, read_lines, read_once, read_or_slips,
};
use srs_plane::Vertices;
use srs_tree::Script;
use std::alloc::Global;

/// A reader of a polygon and the sessions behind it, which takes them line by line. It has ended
/// with the line behind the last session.
#[derive(Drop)]
pub struct LiveReader {
    pub outline: Outline,
    pub sessions: SessionLines,
    pub ended: bool,
}

impl LiveReader {
    /// A reader before the first line. It takes no memory.
    pub fn new(alloc: Global) -> LiveReader
        ensures { result ≡ live_start }
    {
        LiveReader {
            outline: Outline::new(alloc),
            sessions: SessionLines::new(alloc),
            ended: false,
        }
    }

    // Whether the line is the one behind the last session.
    fn ends_with(&self, line: &[u8]) -> bool
        ensures { IsTrue result ↔ SessionsEnd self.now line.now }
    {
        !self.sessions.wants_more() && line == b"end".as_slice()
    }

    // Takes a line behind the polygon.
    fn session(&mut self, line: &[u8]) -> Result<(), LineErr>
        ensures ok { OnOk result (StepsInSessions self.old line.now self.new) }
        ensures err { IfErr result
            (IsSlip
            (λ slip back. (¬ (SessionsEnd self.old line.now)) ×
            SlipsSession self.old.sessions line.now slip back)) }
    {
        if self.ends_with(line) {
            self.sessions.close()?;
            self.ended = true;
            return Ok(());
        }
        self.sessions.take(line)
    }
}

impl LineMachine for LiveReader {
    ghost use Rattle.srs_file.specs.LiveReading.{LiveSteps, LiveSlips, LiveEnds};

    ghost steps = { LiveSteps };

    ghost slips = { LiveSlips };

    ghost is_end = { LiveEnds };

    fn is_done(&self) -> bool {
        self.ended
    }

    fn take(&mut self, line: &[u8]) -> Result<(), LineErr> {
        if !self.outline.is_whole() {
            return self.outline.take(line);
        }
        self.session(line)
    }
}

/// The vertices of the polygon that the text spells, the cell of its region, and the sessions; or
/// the first slip of the text, its lines counted from 1. The text is shorter than 2^32 - 1 bytes.
pub fn read_live(alloc: Global, text: &[u8]) -> Result<(Vertices, Cell, Script), FileErr>
    requires { length text.now + 1 < 2 ^ 32 }
    ensures accepted { IfOk result (λ r. SpellsLive text.now r.0 r.2 × (r.1 ≡ region_of r.0)) }
    ensures refused { IfErr result (IsLiveRefusal text.now) }
    ensures outside { IfErr result (IsNoLive text.now) }
{
    let mut reader = LiveReader::new(alloc);
    read_lines(&mut reader, text)?;
    let (vertices, region) = reader.outline.into_parts();
    let Some(region) = region else { unreachable!() };
    let cell = inhabited(alloc, region)?;
    Ok((vertices, cell, reader.sessions.into_script()))
}

/// A text is an input of `live` or has a first slip, one of the two and never both; it has one first
/// slip, and spells one list of vertices and one list of sessions.
pub fn one_live_input()
    ensures never_both { (text : List ℕ) (vs : List Vertex) (script : List (List Segment))
        (line : ℕ) (slip : Slip) → SpellsLive text vs script → FirstLiveSlip text line slip → ⊥ }
    ensures one_slip { (text : List ℕ) (m n : ℕ) (d e : Slip) → FirstLiveSlip text m d →
        FirstLiveSlip text n e → (m ≡ n) × (d ≡ e) }
    ensures either { (text : List ℕ) → IsLiveOrSlips text }
    ensures one_value { (text : List ℕ) (vs ws : List Vertex) (a b : List (List Segment)) →
        SpellsLive text vs a → SpellsLive text ws b → (vs ≡ ws) × (a ≡ b) }
{
    never_both::<LiveReader>();
    one_slip::<LiveReader>();
    read_once::<LiveReader>();
    read_or_slips::<LiveReader>();
}

/// A text of a live run is that of one run: one polygon, one history, what each session was told,
/// one certificate.
pub fn one_live_text()
    ensures { LiveTextIsOne }
{
    one_certificate();
}
