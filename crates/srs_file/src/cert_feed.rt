// A certificate that is read as its lines come.
ghost use Rattle.std.specs.Prelude.{◌≡◌, ◌+◌, ◌++◌, [], List, ℕ, OnOk, OnErr, IfOk, IfErr, IfSome, Err, Some};
ghost use Rattle.srs_text.specs.Line.{HasNoLf};
ghost use Rattle.srs_line.specs.Machine.{lines_text};
ghost use Rattle.srs_cert.specs.Heights.{height};
ghost use Rattle.srs_file.specs.Grammar.{SpellsCertificate};
ghost use Rattle.srs_file.specs.declared.cert_reader.CertReader.{CertReader};
ghost use Rattle.srs_file.specs.CertReading.{cert_start, read_view, IsCertRefusal, IsNoCert};
ghost use Rattle.srs_file.specs.Feeding.{IsTold, Refuses};

use crate::{CertReader, Node};
use srs_line::{FileErr, LineErr, LineMachine, Slip};
use srs_num::NoMemory;
use srs_path::{Limits, Outcome};
use srs_plane::Vertex;
use std::alloc::Global;
use std::marker::Model;

/// A node whose last line was fed: the line on which it begins, the first line being 1, the length of its path, and its
/// outcome.
#[derive(Drop)]
pub struct NodeAt {
    pub line: u32,
    pub depth: u32,
    pub outcome: Outcome,
}

/// A reader of the text of a certificate that is fed its lines, tells each node as it ends, and keeps none.
#[derive(Drop)]
pub struct CertFeed {
    reader: CertReader,
    count: u32,
    failed: Option<FileErr>,
}

impl Model for CertFeed {
    ghost use Rattle.srs_file.specs.Feeding.{CertFeedView};

    ghost Value = { CertFeedView };

    ghost view = { λ f. record { reader = f.reader; count = f.count; failed = f.failed } };
}

impl CertFeed {
    ghost use Rattle.srs_file.specs.Feeding.{IsFed, FeedsLine, IsLineRefusal, ShowsSame, fed_limits};

    /// A feed before the first line.
    pub fn new(alloc: Global) -> Result<CertFeed, NoMemory>
        ensures { IfOk result (λ feed. IsFed feed [] cert_start) }
    {
        Ok(CertFeed {
            reader: CertReader::new(alloc),
            count: 0,
            failed: None,
        })
    }

    /// Takes the next line, without its LF: the node that ends with it, if one does. After an `Err` the feed answers the
    /// same error from then on, and shows what was fed before.
    pub fn line(&mut self, line: &[u8]) -> Result<Option<NodeAt>, FileErr>
        requires { HasNoLf line.now }
        ensures good { IfOk result (λ node. (lines : List (List ℕ)) (s : CertReader) →
            IsFed self.old lines s → FeedsLine lines s line.now node self.new) }
        ensures refused { IfErr result (λ error. (lines : List (List ℕ)) (s : CertReader) →
            IsFed self.old lines s → IsLineRefusal lines line.now error) }
        ensures failed { IfErr result (λ error. self.new.failed ≡ Some error) }
        ensures shown { OnErr result (ShowsSame self.old self.new) }
        ensures again { IfSome self.old.failed
            (λ error. (result ≡ Err error) × (self.new ≡ self.old)) }
    {
        if let Some(error) = self.failed {
            return Err(error);
        }
        match self.take(line) {
            Ok(node) => Ok(node),
            Err(error) => {
                self.failed = Some(error);
                Err(error)
            }
        }
    }

    // Takes the next line. An `Err` is not kept yet.
    fn take(&mut self, line: &[u8]) -> Result<Option<NodeAt>, FileErr>
        requires { HasNoLf line.now }
        ensures good { IfOk result (λ node. (lines : List (List ℕ)) (s : CertReader) →
            IsFed self.old lines s → FeedsLine lines s line.now node self.new) }
        ensures refused { IfErr result (λ error. (lines : List (List ℕ)) (s : CertReader) →
            IsFed self.old lines s → IsLineRefusal lines line.now error) }
        ensures shown { OnErr result (ShowsSame self.old self.new) }
    {
        let at = next_line(self.count)?;
        if self.reader.is_done() {
            return Err(FileErr::At(at, Slip::Tail));
        }
        match self.reader.advance(line) {
            Ok(node) => {
                self.count = at;
                Ok(told(at, node))
            }
            Err(error) => Err(refusal(at, error)),
        }
    }

    /// Takes what follows the last LF: the text of the certificate is whole, or this is its first slip.
    pub fn end(self, rest: &[u8]) -> Result<(), FileErr>
        requires { HasNoLf rest.now }
        ensures accepted { OnOk result ((lines : List (List ℕ)) (s : CertReader) →
            IsFed self lines s → SpellsCertificate (lines_text lines ++ rest.now) (read_view s)) }
        ensures refused { IfErr result (λ error. (lines : List (List ℕ)) (s : CertReader) →
            IsFed self lines s → IsCertRefusal (lines_text lines ++ rest.now) error) }
        ensures outside { IfErr result (λ error. (lines : List (List ℕ)) (s : CertReader) →
            IsFed self lines s → IsNoCert (lines_text lines ++ rest.now) error) }
        ensures again { IfSome self.failed (λ error. result ≡ Err error) }
    {
        if let Some(error) = self.failed {
            return Err(error);
        }
        let at = next_line(self.count)?;
        if !self.reader.is_done() {
            return Err(FileErr::At(at, Slip::Missing));
        }
        if !rest.is_empty() {
            return Err(FileErr::At(at, Slip::Tail));
        }
        Ok(())
    }

    /// The vertices that were fed. It takes no memory.
    pub fn vertices(&self) -> &[Vertex]
        ensures { result.now ≡ self.now.reader.outline.ring.vertices }
    {
        self.reader.outline.vertices()
    }

    /// The limits: `None` exactly where their line wasn't fed. It takes no memory.
    pub fn limits(&self) -> Option<Limits>
        ensures { result ≡ fed_limits self.now }
    {
        self.reader.limits_read()
    }
}

// The number of the line after so many. A certificate within its limits has far fewer lines than a u32 counts, so this is
// never an `Err`.
fn next_line(count: u32) -> Result<u32, FileErr>
    ensures ok { IfOk result (λ at. at ≡ count + 1) }
    ensures err { IfErr result (λ error. error ≡ FileErr.NoMemory) }
{
    match count.checked_add(1) {
        Some(at) => Ok(at),
        None => Err(FileErr::NoMemory),
    }
}

// The node that ended with this line: an inside leaf has a line more for each witness.
fn told(at: u32, node: Option<Node>) -> Option<NodeAt>
    ensures { IsTold at node result }
{
    let node = node?;
    Some(NodeAt {
        line: at.saturating_sub(lines_below(&node.outcome)),
        depth: node.path.len(),
        outcome: node.outcome,
    })
}

// How many lines an outcome has below its first.
fn lines_below(outcome: &Outcome) -> u32
    ensures { result + 1 ≡ height outcome.now }
{
    match outcome {
        Outcome::Inside(ranks) => ranks.len(),
        Outcome::Outside(_) | Outcome::Cut(_) | Outcome::Left(_) => 0,
    }
}

// Where the slip stands that this line shows.
fn refusal(at: u32, error: LineErr) -> FileErr
    ensures { Refuses at error result }
{
    match error {
        LineErr::Slip(slip, back) => FileErr::At((at as u64).saturating_sub(back) as u32, slip),
        LineErr::NoMemory => FileErr::NoMemory,
    }
}
