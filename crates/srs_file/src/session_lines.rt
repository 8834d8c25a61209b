// Sessions, read line by line.
ghost use Rattle.std.specs.Prelude.{◌≡◌, ◌↔◌, ◌<◌, [], IsTrue, IfOk, IfErr, OnOk, codes};
ghost use Rattle.srs_line.specs.Fields.{HasWord};
ghost use Rattle.srs_line.specs.Refusal.{IsSlip};
ghost use Rattle.srs_file.specs.QuestionReading.{no_questions};
ghost use Rattle.srs_file.specs.SessionReading.{no_sessions, IsBegun, IsLater, SaysRound};
ghost use Rattle.srs_file.specs.SessionReading.{IsRoundSlip, segments_of, closed, StepsSession};
ghost use Rattle.srs_file.specs.SessionReading.{SlipsNinth, StepsAt, StepsBehind, TakesSession};
ghost use Rattle.srs_file.specs.SessionReading.{SlipsBehind, SlipsSession};

use crate::Questions;
use srs_line::{LineErr, Slip, count_of, has_word};
use srs_tree::{Script, Segment, Session};
use std::alloc::Global;
use std::marker::Model;
use std::mem;

/// What is open while sessions are read: nothing before the first of them, a session that has no
/// segment, or a session with a segment behind this round.
#[derive(Clone, Copy)]
pub enum Stage {
    Nothing,
    Session,
    At(u32),
}

impl Stage {
    /// Whether a session is open.
    pub fn is_begun(self) -> bool
        ensures { IsTrue result ↔ IsBegun self }
    {
        match self {
            Stage::Nothing => false,
            Stage::Session | Stage::At(_) => true,
        }
    }

    // Whether a segment behind the round may follow in the open session.
    fn is_before(self, round: u32) -> bool
        ensures { IsTrue result ↔ IsLater self round }
    {
        match self {
            Stage::Nothing => false,
            Stage::Session => true,
            Stage::At(last) => last < round,
        }
    }
}

/// Sessions while their lines are read: those that are whole, and of the open one the segments that
/// are whole and the questions of the open segment.
#[derive(Drop)]
pub struct SessionLines {
    alloc: Global,
    script: Script,
    stage: Stage,
    segments: Session,
    questions: Questions,
}

impl Model for SessionLines {
    ghost use Rattle.srs_file.specs.SessionReading.{SessionsView, IsOpenFit};

    ghost Value = { SessionsView };

    ghost view = { λ s. record { script = s.script; stage = s.stage; segments = s.segments; questions = s.questions } };

    ghost invariant = { λ s. IsOpenFit s.stage s.script s.segments };
}

impl SessionLines {
    /// No session. It takes no memory.
    pub fn new(alloc: Global) -> SessionLines
        ensures { result ≡ no_sessions }
    {
        SessionLines {
            alloc,
            script: Script::new(alloc),
            stage: Stage::Nothing,
            segments: Session::new(alloc),
            questions: Questions::new(alloc),
        }
    }

    /// Whether a vertex is still to come. It must come before anything else.
    pub fn wants_more(&self) -> bool
        ensures { IsTrue result ↔ (0 < self.now.questions.ring.left) }
    {
        self.questions.wants_more()
    }

    /// Takes the next line: of a vertex where one is to come, and else that which begins a session or
    /// a segment, or asks. An `Err` may leave any sessions.
    pub fn take(&mut self, line: &[u8]) -> Result<(), LineErr>
        ensures ok { OnOk result (TakesSession self.old line.now self.new) }
        ensures err { IfErr result (IsSlip (SlipsSession self.old line.now)) }
    {
        if self.wants_more() {
            return self.behind(line);
        }
        if line == b"session".as_slice() {
            return self.session();
        }
        if self.has_round(line) {
            return self.at(line);
        }
        self.behind(line)
    }

    // Whether a session is open, and the line is one of a round.
    fn has_round(&self, line: &[u8]) -> bool
        ensures { IsTrue result ↔ (IsBegun self.now.stage × HasWord (codes "at") line.now) }
    {
        self.stage.is_begun() && has_word(line, b"at")
    }

    // The line `session`.
    fn session(&mut self) -> Result<(), LineErr>
        ensures ok { OnOk result (StepsSession self.old self.new) }
        ensures err { IfErr result (IsSlip (SlipsNinth self.old)) }
    {
        self.close()?;
        if self.script.len() >= 8 {
            return Err(LineErr::Slip(Slip::Count, 0));
        }
        self.stage = Stage::Session;
        Ok(())
    }

    // A line of a round, in an open session.
    fn at(&mut self, line: &[u8]) -> Result<(), LineErr>
        requires { IsBegun self.old.stage }
        ensures ok { OnOk result (StepsAt self.old line.now self.new) }
        ensures err { IfErr result
            (IsSlip (λ slip back. IsRoundSlip self.old.stage line.now slip × (back ≡ 0))) }
    {
        let round = round(self.stage, line)?;
        self.segments = self.take_segments()?;
        self.stage = Stage::At(round);
        Ok(())
    }

    // A question of the open segment.
    fn behind(&mut self, line: &[u8]) -> Result<(), LineErr>
        ensures ok { OnOk result (StepsBehind self.old line.now self.new) }
        ensures err { IfErr result (IsSlip (SlipsBehind self.old line.now)) }
    {
        match self.stage {
            Stage::At(_) => self.questions.take_in_session(line),
            Stage::Nothing | Stage::Session => Err(LineErr::Slip(Slip::Word, 0)),
        }
    }

    /// Closes what is open. An `Err` is want of memory, and may leave any sessions.
    pub fn close(&mut self) -> Result<(), LineErr>
        ensures ok { OnOk result (self.new ≡ closed self.old) }
        ensures err { IfErr result (IsSlip (λ slip back. ⊥)) }
    {
        let segments = self.take_segments()?;
        if self.stage.is_begun() {
            let Ok(()) = self.script.push(segments) else {
                return Err(LineErr::NoMemory);
            };
        }
        self.stage = Stage::Nothing;
        Ok(())
    }

    // Takes out the segments, the open one behind those that are whole.
    fn take_segments(&mut self) -> Result<Session, LineErr>
        ensures ok { IfOk result (λ segments. segments ≡ segments_of self.old) }
        ensures emptied { OnOk result
            (self.new ≡ record self.old { segments = []; questions = no_questions }) }
        ensures err { IfErr result (IsSlip (λ slip back. ⊥)) }
    {
        let mut segments = mem::replace(&mut self.segments, Session::new(self.alloc));
        let queries = mem::replace(&mut self.questions, Questions::new(self.alloc)).queries;
        if let Stage::At(at) = self.stage {
            // Each round so far is above those before it.
            let _ = segments.len();
            let Ok(()) = segments.push(Segment { at, queries }) else {
                return Err(LineErr::NoMemory);
            };
        }
        Ok(segments)
    }

    /// The sessions that are whole.
    pub fn into_script(self) -> Script
        ensures { result ≡ self.script }
    {
        self.script
    }
}

// Reads the line of the round of a segment that follows in the open session.
fn round(stage: Stage, line: &[u8]) -> Result<u32, Slip>
    ensures ok { IfOk result (λ round. SaysRound stage round line.now) }
    ensures err { IfErr result (IsRoundSlip stage line.now) }
{
    let round = count_of(line, b"at", 0, 99, Slip::Range)?;
    if !stage.is_before(round) {
        return Err(Slip::Order);
    }
    Ok(round)
}
