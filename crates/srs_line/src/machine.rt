// Any grammar that is read line by line.
ghost use Rattle.std.specs.Prelude.{◌≡◌, ◌+◌, ◌^◌, ◌<◌, ◌↔◌, List, ℕ, IsTrue, OnOk, IfErr, length};
ghost use Rattle.srs_line.specs.Machine.{IsRead};
ghost use Rattle.srs_line.specs.Refusal.{IsSlip, IsRefused};
ghost use Rattle.srs_line.specs.declared.slip.Slip.{Slip};

use crate::{FileErr, LineErr, Slip};
use srs_text::Lines;

/// A reader of lines: a state, which a good line changes.
pub trait LineMachine {
    /// What a good line does to the state.
    ghost steps: { Self → List ℕ → Self → Type 0 };

    /// What is wrong with a line, and how many lines before it that stands.
    ghost slips: { Self → List ℕ → Slip → ℕ → Type 0 };

    /// Here the text may end.
    ghost is_end: { Self → Type 0 };

    /// Whether the text may end here. It then must.
    fn is_done(&self) -> bool
        ensures { IsTrue result ↔ is_end self.now };

    /// Takes the line, without its LF. An `Err` may leave any state.
    fn take(&mut self, line: &[u8]) -> Result<(), LineErr>
        requires { ¬ (is_end self.old) }
        ensures ok { OnOk result (steps self.old line.now self.new) }
        ensures err { IfErr result (IsSlip (slips self.old line.now)) };
}

/// Reads the whole text, or names its first slip. Lines are counted from 1. A refusal leaves the
/// machine in any state.
pub fn read_lines<M: LineMachine>(machine: &mut M, text: &[u8]) -> Result<(), FileErr>
    requires { length text.now + 1 < 2 ^ 32 }
    ensures read { OnOk result (IsRead M.steps M.is_end machine.old text.now machine.new) }
    ensures refused { IfErr result (IsRefused M.steps M.slips M.is_end machine.old text.now) }
{
    let mut lines = Lines::new(text);
    let mut at = 1u32;
    while !machine.is_done() {
        let Some(line) = lines.next() else {
            return Err(FileErr::At(at, Slip::Missing));
        };
        match machine.take(line) {
            Ok(()) => at += 1,
            Err(LineErr::Slip(slip, back)) => return Err(FileErr::At(
                (at as u64).saturating_sub(back) as u32,
                slip,
            )),
            Err(LineErr::NoMemory) => return Err(FileErr::NoMemory),
        }
    }
    if !lines.rest().is_empty() {
        return Err(FileErr::At(at, Slip::Tail));
    }
    Ok(())
}
