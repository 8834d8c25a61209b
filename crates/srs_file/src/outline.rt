// The lines of a polygon, read line by line.
ghost use Rattle.std.specs.Prelude.{◌≡◌, ◌↔◌, IsTrue, IfErr, OnOk, OnErr};
ghost use Rattle.srs_line.specs.Refusal.{IsSlip};
ghost use Rattle.srs_file.specs.Outline.{no_outline, IsWholeOutline, TakesOutline, SlipsOutline};

use crate::Ring;
use srs_line::LineErr;
use srs_plane::{Region, Vertex, Vertices};
use std::alloc::Global;

/// A polygon while its lines are read: whether the line with the number of its vertices was, and its ring.
#[derive(Drop)]
pub struct Outline {
    pub opened: bool,
    pub ring: Ring,
}

impl Outline {
    /// Before the first line. It takes no memory.
    pub fn new(alloc: Global) -> Outline
        ensures { result ≡ no_outline }
    {
        Outline {
            opened: false,
            ring: Ring::new(alloc),
        }
    }

    /// Whether all the vertices are there.
    pub fn is_whole(&self) -> bool
        ensures { IsTrue result ↔ IsWholeOutline self.now }
    {
        self.opened && !self.ring.wants_more()
    }

    /// The vertices that came. It takes no memory.
    pub fn vertices(&self) -> &[Vertex]
        ensures { result.now ≡ self.now.ring.vertices }
    {
        self.ring.vertices()
    }

    /// Takes the next line: of the number of vertices, or of a vertex. An `Err` changes nothing.
    pub fn take(&mut self, line: &[u8]) -> Result<(), LineErr>
        requires { ¬ (IsWholeOutline self.old) }
        ensures ok { OnOk result (TakesOutline self.old line.now self.new) }
        ensures err { IfErr result (IsSlip (SlipsOutline self.old line.now)) }
        ensures kept { OnErr result (self.new ≡ self.old) }
    {
        if self.opened {
            return self.ring.take(line);
        }
        self.ring.open(b"polygon", line)?;
        self.opened = true;
        Ok(())
    }

    /// The vertices, and their region once all of them are there.
    pub fn into_parts(self) -> (Vertices, Option<Region>)
        ensures vertices { result.0 ≡ self.ring.vertices }
        ensures region { result.1 ≡ self.ring.region }
    {
        self.ring.into_parts()
    }
}
