// A certificate that is checked as its lines come.
ghost use Rattle.std.specs.Prelude.{◌≡◌, ◌++◌, [], ◌∷◌, List, ℕ, IfOk, IfErr, OnOk, length};
ghost use Rattle.srs_text.specs.Line.{HasNoLf};
ghost use Rattle.srs_plane.specs.Polygons.{IsPolygon};
ghost use Rattle.srs_cert.specs.Certificates.{CertView, IsCertificate};
ghost use Rattle.srs_file.specs.declared.cert_reader.CertReader.{CertReader};
ghost use Rattle.srs_check.specs.Walks.{HasCome};
ghost use Rattle.srs_line.specs.Machine.{lines_text};
ghost use Rattle.srs_file.specs.declared.cert_feed.NodeAt.{NodeAt};
ghost use Rattle.srs_file.specs.CertReading.{IsCertRefusal};
ghost use Rattle.srs_check.specs.LineChecks.{GoesOn, WalksWith, HasBegun, HasTaken, TakesNode};
ghost use Rattle.srs_check.specs.LineChecks.{GoodSoFar, ChecksText};

use crate::Checked;
use crate::checks::polygon_cell;
use crate::walk::Walk;
use srs_file::{CertFeed, FileErr, NodeAt};
use srs_num::NoMemory;
use srs_plane::Vertex;
use std::alloc::Global;

// A reader of the text, and the walk over the nodes that were read, once there is one. After a slip
// no node comes any more.
#[derive(Drop)]
pub(crate) struct LineCheck {
    feed: CertFeed,
    walk: Option<Walk>,
}

impl LineCheck {
    // Before the first line.
    pub(crate) fn new(alloc: Global) -> Result<LineCheck, NoMemory>
        ensures { IfOk result (λ check. HasTaken check []) }
    {
        Ok(LineCheck {
            feed: CertFeed::new(alloc)?,
            walk: None,
        })
    }

    // Takes the next line, be it good or not.
    pub(crate) fn line(&mut self, alloc: Global, line: &[u8]) -> Result<(), NoMemory>
        requires plain { HasNoLf line.now }
        requires some { (lines : List (List ℕ)) × HasTaken self.old lines }
        ensures { OnOk result ((lines : List (List ℕ)) → HasTaken self.old lines →
            HasTaken self.new (lines ++ line.now ∷ [])) }
    {
        match self.feed.line(line) {
            Ok(Some(node)) => self.node(alloc, &node),
            Ok(None) => Ok(()),
            // A slip stays, and is told at the end.
            Err(FileErr::At(_, _)) => Ok(()),
            Err(FileErr::NoMemory) => Err(NoMemory),
        }
    }

    // Takes what follows the last LF, and answers.
    pub(crate) fn end(self, rest: &[u8]) -> Result<Checked, FileErr>
        requires plain { HasNoLf rest.now }
        requires some { (lines : List (List ℕ)) × HasTaken self lines }
        ensures accepted { IfOk result (λ answer. (lines : List (List ℕ)) → HasTaken self lines →
            ChecksText (lines_text lines ++ rest.now) answer) }
        ensures refused { IfErr result (λ error. (lines : List (List ℕ)) → HasTaken self lines →
            IsCertRefusal (lines_text lines ++ rest.now) error) }
    {
        let limits = self.feed.limits();
        self.feed.end(rest)?;
        // A certificate has limits and a node.
        let Some(limits) = limits else { unreachable!() };
        let Some(walk) = self.walk else {
            unreachable!()
        };
        Ok(walk.end(&limits))
    }

    // Meets the node that ended with the last line.
    fn node(&mut self, alloc: Global, node: &NodeAt) -> Result<(), NoMemory>
        requires { (lines : List (List ℕ)) × (line : List ℕ) × TakesNode self.old lines line node.now }
        ensures { OnOk result ((lines : List (List ℕ)) (line : List ℕ) →
            TakesNode self.old lines line node.now →
            GoodSoFar self.new (lines ++ line ∷ [])) }
    {
        let Some(limits) = self.feed.limits() else {
            unreachable!()
        };
        begin(&mut self.walk, alloc, self.feed.vertices())?;
        // The walk is large, and stays where it is.
        let Some(walk) = &mut self.walk else {
            unreachable!()
        };
        walk.node(alloc, &limits, node.line, node.depth, &node.outcome)
    }
}

// There is a walk then: that so far, or one that begins with the cell of the polygon.
fn begin(walk: &mut Option<Walk>, alloc: Global, vertices: &[Vertex]) -> Result<(), NoMemory>
    requires { IsPolygon vertices.now }
    ensures { OnOk result ((s : CertReader) (c : CertView) → WalksWith s walk.old → GoesOn s c →
        c.vertices ≡ vertices.now → HasBegun c (length s.tree.events) walk.new) }
{
    if walk.is_some() {
        return Ok(());
    }
    start(walk, alloc, vertices)
}

// A walk begins with the cell of the polygon. It comes once, and its locals are large: inlined, each
// node would pay for them.
#[cold]
#[inline(never)]
fn start(walk: &mut Option<Walk>, alloc: Global, vertices: &[Vertex]) -> Result<(), NoMemory>
    requires { IsPolygon vertices.now }
    ensures { OnOk result ((c : CertView) → IsCertificate c → c.vertices ≡ vertices.now →
        HasBegun c 0 walk.new) }
{
    *walk = Some(Walk::of(alloc, polygon_cell(alloc, vertices)?));
    Ok(())
}
