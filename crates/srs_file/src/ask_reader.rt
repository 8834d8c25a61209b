// Reads a certificate, and the questions behind it.
ghost use Rattle.std.specs.Prelude.{List, ℕ, ◌≡◌, ◌+◌, ◌^◌, ◌<◌, IfOk, IfErr, OnOk, length};
ghost use Rattle.srs_tree.specs.declared.queries.Query.{Query};
ghost use Rattle.srs_line.specs.declared.slip.Slip.{Slip};
ghost use Rattle.srs_line.specs.Refusal.{IsSlip};
ghost use Rattle.srs_cert.specs.Certificates.{CertView};
ghost use Rattle.srs_file.specs.Grammar.{SpellsAsk};
ghost use Rattle.srs_file.specs.QuestionReading.{SlipsQuestion};
ghost use Rattle.srs_file.specs.AskReading.{ask_start, EndsHere, StepsAsking, ReadsAsAsk};
ghost use Rattle.srs_file.specs.AskReading.{FirstAskSlip, IsAskOrSlips, IsAskRefusal, IsNoAsk};

use crate::{CertReader, Questions};
use srs_cert::Cert;
use srs_line::{
    FileErr, LineErr, LineMachine, Slip, never_both, one_slip, read_lines, read_once, read_or_slips,
};
use srs_tree::Queries;
use std::alloc::Global;

/// A reader of a certificate and the questions behind it, which takes them line by line. It has
/// ended with the line behind the last question.
#[derive(Drop)]
pub struct AskReader {
    pub cert: CertReader,
    pub questions: Questions,
    pub ended: bool,
}

impl AskReader {
    /// A reader before the first line. It takes no memory.
    pub fn new(alloc: Global) -> AskReader
        ensures { result ≡ ask_start }
    {
        AskReader {
            cert: CertReader::new(alloc),
            questions: Questions::new(alloc),
            ended: false,
        }
    }

    // Takes a line behind the certificate.
    fn question(&mut self, line: &[u8]) -> Result<(), LineErr>
        ensures ok { OnOk result (StepsAsking self.old line.now self.new) }
        ensures err { IfErr result
            (IsSlip
            (λ slip back. (¬ (EndsHere self.old line.now)) ×
            SlipsQuestion self.old.questions line.now slip back)) }
    {
        if !self.questions.wants_more() && line == b"end".as_slice() {
            self.ended = true;
            return Ok(());
        }
        self.questions.take(line)
    }
}

impl LineMachine for AskReader {
    ghost use Rattle.srs_file.specs.AskReading.{AskSteps, AskSlips, AskEnds};

    ghost steps = { AskSteps };

    ghost slips = { AskSlips };

    ghost is_end = { AskEnds };

    fn is_done(&self) -> bool {
        self.ended
    }

    fn take(&mut self, line: &[u8]) -> Result<(), LineErr> {
        if !self.cert.is_done() {
            return self.cert.take(line);
        }
        self.question(line)
    }
}

/// The certificate that the text spells and the questions behind it, or the first slip of the text,
/// its lines counted from 1. The text is shorter than 2^32 - 1 bytes.
pub fn read_ask(alloc: Global, text: &[u8]) -> Result<(Cert, Queries), FileErr>
    requires { length text.now + 1 < 2 ^ 32 }
    ensures accepted { IfOk result (λ r. SpellsAsk text.now r.0 r.1) }
    ensures refused { IfErr result (IsAskRefusal text.now) }
    ensures outside { IfErr result (IsNoAsk text.now) }
{
    let mut reader = AskReader::new(alloc);
    read_lines(&mut reader, text)?;
    Ok((reader.cert.into_cert(alloc)?, reader.questions.queries))
}

/// A text is a certificate with questions or has a first slip, one of the two and never both; it
/// has one first slip, and spells one certificate and one list of questions; and it is read as
/// these exactly where it spells them.
pub fn one_ask_input()
    ensures never_both { (text : List ℕ) (c : CertView) (queries : List Query) (line : ℕ)
        (slip : Slip) → SpellsAsk text c queries → FirstAskSlip text line slip → ⊥ }
    ensures one_slip { (text : List ℕ) (m n : ℕ) (d e : Slip) → FirstAskSlip text m d →
        FirstAskSlip text n e → (m ≡ n) × (d ≡ e) }
    ensures either { (text : List ℕ) → IsAskOrSlips text }
    ensures one_value { (text : List ℕ) (b c : CertView) (ps qs : List Query) →
        SpellsAsk text b ps → SpellsAsk text c qs → (b ≡ c) × (ps ≡ qs) }
    ensures spelled { (text : List ℕ) (c : CertView) (queries : List Query) →
        ReadsAsAsk text c queries → SpellsAsk text c queries }
    ensures read { (text : List ℕ) (c : CertView) (queries : List Query) →
        SpellsAsk text c queries → ReadsAsAsk text c queries }
{
    never_both::<AskReader>();
    one_slip::<AskReader>();
    read_once::<AskReader>();
    read_or_slips::<AskReader>();
}
