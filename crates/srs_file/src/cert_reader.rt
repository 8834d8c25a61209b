// Reads the text of a certificate.
ghost use Rattle.std.specs.Prelude.{List, ℕ, ℤ, ◌≡◌, ◌≢◌, ◌↔◌, ◌+◌, ◌^◌, ◌<◌, [], ◌∷◌, pos, IsTrue};
ghost use Rattle.std.specs.Prelude.{OnOk, OnErr, IfOk, IfErr, IfSome, IfNone, length};
ghost use Rattle.srs_path.specs.Views.{Budget, IsBudget};
ghost use Rattle.srs_line.specs.declared.slip.Slip.{Slip};
ghost use Rattle.srs_line.specs.Refusal.{IsSlip};
ghost use Rattle.srs_file.specs.Grammar.{SpellsCertificate};
ghost use Rattle.srs_cert.specs.Certificates.{CertView, IsCertificate, cert_text};
ghost use Rattle.srs_file.specs.CertReading.{cert_start, CertSteps, CertSlips, CertEnds, gathers};
ghost use Rattle.srs_file.specs.CertReading.{KeepsHead, limits_in, read_view, StepsFirst};
ghost use Rattle.srs_file.specs.CertReading.{SlipsFirst, StepsInPolygon, SlipsInPolygon};
ghost use Rattle.srs_file.specs.CertReading.{SaysLimits, AreNoLimits, IsLimitsSlip, StepsLimits};
ghost use Rattle.srs_file.specs.CertReading.{StepsNodes, SlipsNodes, ReadsAsCert, FirstCertSlip};
ghost use Rattle.srs_file.specs.CertReading.{IsCertOrSlips, IsCertRefusal, IsNoCert};

use crate::polygon_reader::end;
use crate::{Node, Outline, Tree};
use srs_cert::Cert;
use srs_line::{
    FileErr, LineErr, LineMachine, Slip, never_both, one, one_slip, read_lines, read_once,
    read_or_slips, three,
};
use srs_num::NoMemory;
use srs_path::Limits;
use std::alloc::Global;

/// What a reader of a certificate waits for: the version, a line of the polygon or the limits, a
/// line of the tree or the last line, or nothing.
#[derive(Clone, Copy, Debug, PartialEq, Eq)]
pub enum CertPhase {
    First,
    Polygon,
    Nodes,
    Done,
}

/// A reader of the text of a certificate, which takes it line by line.
#[derive(Drop)]
pub struct CertReader {
    pub phase: CertPhase,
    pub outline: Outline,
    pub tree: Tree,
}

impl CertReader {
    /// A reader before the first line. It takes no memory.
    pub fn new(alloc: Global) -> CertReader
        ensures { result ≡ cert_start }
    {
        CertReader {
            phase: CertPhase::First,
            outline: Outline::new(alloc),
            tree: Tree::new(alloc),
        }
    }

    /// What was read, once it is a certificate. An `Err` is want of memory.
    pub fn into_cert(self, alloc: Global) -> Result<Cert, NoMemory>
        requires { IsCertificate (read_view self) }
        ensures { IfOk result (λ c. c ≡ read_view self) }
    {
        let (vertices, _) = self.outline.into_parts();
        let (limits, events) = self.tree.into_parts();
        Cert::new(alloc, vertices.as_slice(), limits, events)
    }

    /// The limits, once their line was read.
    pub fn limits_read(&self) -> Option<Limits>
        ensures { result ≡ limits_in self.now.phase self.now.tree.limits }
    {
        match self.phase {
            CertPhase::First | CertPhase::Polygon => None,
            CertPhase::Nodes | CertPhase::Done => Some(self.tree.limits),
        }
    }

    /// Takes the next line: the node that ends with it, if one does, whose event isn't gathered
    /// yet. A refused line leaves what is waited for, the polygon and the limits.
    pub fn advance(&mut self, line: &[u8]) -> Result<Option<Node>, LineErr>
        requires { ¬ (CertEnds self.old) }
        ensures ok { IfOk result (λ node. CertSteps self.old line.now (gathers self.new node)) }
        ensures err { IfErr result (IsSlip (CertSlips self.old line.now)) }
        ensures bare { self.old.tree.events ≡ [] → self.new.tree.events ≡ [] }
        ensures head { OnErr result (KeepsHead self.old self.new) }
    {
        match self.phase {
            CertPhase::First => self.first(line),
            CertPhase::Polygon => self.polygon(line),
            CertPhase::Nodes => self.node(line),
            CertPhase::Done => unreachable!(),
        }
    }

    fn first(&mut self, line: &[u8]) -> Result<Option<Node>, LineErr>
        ensures ok { IfOk result (λ node. StepsFirst self.old line.now (gathers self.new node)) }
        ensures err { IfErr result (IsSlip (SlipsFirst line.now)) }
        ensures bare { self.old.tree.events ≡ [] → self.new.tree.events ≡ [] }
        ensures kept { OnErr result (self.new ≡ self.old) }
    {
        if one(line, b"srs")? != 1 {
            return Err(LineErr::Slip(Slip::Version, 0));
        }
        self.phase = CertPhase::Polygon;
        Ok(None)
    }

    fn polygon(&mut self, line: &[u8]) -> Result<Option<Node>, LineErr>
        ensures ok { IfOk result
            (λ node. StepsInPolygon self.old line.now (gathers self.new node)) }
        ensures err { IfErr result (IsSlip (SlipsInPolygon self.old line.now)) }
        ensures bare { self.old.tree.events ≡ [] → self.new.tree.events ≡ [] }
        ensures kept { OnErr result (self.new ≡ self.old) }
    {
        if self.outline.is_whole() {
            return self.limits(line);
        }
        self.outline.take(line)?;
        Ok(None)
    }

    fn limits(&mut self, line: &[u8]) -> Result<Option<Node>, LineErr>
        ensures ok { IfOk result (λ node. StepsLimits self.old line.now (gathers self.new node)) }
        ensures err { IfErr result (IsSlip (λ slip back. IsLimitsSlip line.now slip × (back ≡ 0))) }
        ensures bare { self.old.tree.events ≡ [] → self.new.tree.events ≡ [] }
        ensures kept { OnErr result (self.new ≡ self.old) }
    {
        self.tree.plant(limits(line)?)?;
        self.phase = CertPhase::Nodes;
        Ok(None)
    }

    fn node(&mut self, line: &[u8]) -> Result<Option<Node>, LineErr>
        ensures ok { IfOk result (λ node. StepsNodes self.old line.now (gathers self.new node)) }
        ensures err { IfErr result (IsSlip (SlipsNodes self.old line.now)) }
        ensures bare { self.old.tree.events ≡ [] → self.new.tree.events ≡ [] }
        ensures head { OnErr result (KeepsHead self.old self.new) }
    {
        if !self.tree.is_whole() {
            return self.tree.take(line);
        }
        end(line)?;
        self.phase = CertPhase::Done;
        Ok(None)
    }
}

impl LineMachine for CertReader {
    ghost use Rattle.srs_file.specs.CertReading.{CertSteps, CertSlips, CertEnds};

    ghost steps = { CertSteps };

    ghost slips = { CertSlips };

    ghost is_end = { CertEnds };

    fn is_done(&self) -> bool {
        self.phase == CertPhase::Done
    }

    fn take(&mut self, line: &[u8]) -> Result<(), LineErr> {
        let node = self.advance(line)?;
        self.tree.gather(node)
    }
}

// Reads the line of the limits.
fn limits(line: &[u8]) -> Result<Limits, Slip>
    ensures ok { IfOk result (λ b. SaysLimits b line.now) }
    ensures err { IfErr result (IsLimitsSlip line.now) }
{
    let said = three(line, b"limits")?;
    match limits_of(said.0, said.1, said.2) {
        Some(limits) => Ok(limits),
        None => Err(Slip::Range),
    }
}

// The three numbers as limits.
fn limits_of(depth: i64, cells: i64, wits: i64) -> Option<Limits>
    ensures some { IfSome result
        (λ b. (depth ≡ pos b.depth) × (cells ≡ pos b.cells) × (wits ≡ pos b.wits) × IsBudget b) }
    ensures none { IfNone result (AreNoLimits depth cells wits) }
{
    let depth = u32::try_from(depth).ok()?;
    let cells = u32::try_from(cells).ok()?;
    let wits = u32::try_from(wits).ok()?;
    Limits::new(depth, cells, wits)
}

/// The certificate that the text spells, or the first slip of the text, its lines counted from 1.
/// The text is shorter than 2^32 - 1 bytes.
pub fn read_cert(alloc: Global, text: &[u8]) -> Result<Cert, FileErr>
    requires { length text.now + 1 < 2 ^ 32 }
    ensures accepted { IfOk result (λ c. SpellsCertificate text.now c) }
    ensures refused { IfErr result (IsCertRefusal text.now) }
    ensures outside { IfErr result (IsNoCert text.now) }
{
    let mut reader = CertReader::new(alloc);
    read_lines(&mut reader, text)?;
    Ok(reader.into_cert(alloc)?)
}

/// A text is that of a certificate or has a first slip, one of the two and never both; it has one
/// first slip, and spells one certificate; and it is read as this certificate exactly where it
/// spells it. So the one text of a certificate is read as that certificate.
pub fn one_certificate()
    ensures never_both { (text : List ℕ) (c : CertView) (line : ℕ) (slip : Slip) →
        SpellsCertificate text c → FirstCertSlip text line slip → ⊥ }
    ensures one_slip { (text : List ℕ) (m n : ℕ) (d e : Slip) → FirstCertSlip text m d →
        FirstCertSlip text n e → (m ≡ n) × (d ≡ e) }
    ensures either { (text : List ℕ) → IsCertOrSlips text }
    ensures one_value { (text : List ℕ) (b c : CertView) → SpellsCertificate text b →
        SpellsCertificate text c → b ≡ c }
    ensures spelled { (text : List ℕ) (c : CertView) → ReadsAsCert text c →
        SpellsCertificate text c }
    ensures read { (text : List ℕ) (c : CertView) → SpellsCertificate text c → ReadsAsCert text c }
    ensures back { (c : CertView) → IsCertificate c → ReadsAsCert (cert_text c) c }
{
    never_both::<CertReader>();
    one_slip::<CertReader>();
    read_once::<CertReader>();
    read_or_slips::<CertReader>();
}
