// The command `check`.
ghost use Rattle.std.specs.Prelude.{◌≡◌, IfOk, IfErr, Ok, IsErrOf};
ghost use Rattle.srs_text.specs.Ends.{Rose};
ghost use Rattle.srs_check.specs.Streams.{ChecksAll};
ghost use Rattle.srs_tool.specs.declared.commands.Command.TheVariants.{Check};
ghost use Rattle.srs_tool.specs.declared.commands.Input.TheVariants.{Certificate};
ghost use Rattle.srs_tool.specs.Verdicts.{IsVerdict};
ghost use Rattle.srs_tool.specs.Ends.{Brings, IsOverlong, IsCut};

use crate::commands::Input;
use crate::lines::{bad, refused, valid};
use crate::output::Output;
use srs_check::{CheckErr, Checked, check_from};
use srs_num::NoMemory;
use srs_text::{ReadErr, Source};
use std::alloc::Global;

#[tactic(auto, using(crate::proofs::Checking::answered, crate::proofs::Checking::slipped))]
/// What the check of the certificate that the source has says, or the refusal of what it has. The
/// source is read to its end, and checked as its lines come.
pub fn check<S: Source>(alloc: Global, source: &mut S) -> Result<Output, ReadErr>
    ensures owed { IfOk result
        (λ o. Brings Check (S.left source.old) (S.left source.new) o.status o.text) }
    ensures long { IsErrOf result ReadErr.TooLong →
        IsOverlong Certificate (S.left source.old) (S.left source.new) }
    ensures fault { IsErrOf result ReadErr.Fault →
        Rose (S.faults source.old) (S.faults source.new) }
    ensures cut { IsErrOf result ReadErr.Fault →
        IsCut Certificate (S.left source.old) (S.left source.new) }
{
    match check_from(alloc, source, Input::Certificate.longest()) {
        Ok(answer) => enough(verdict(alloc, answer)),
        Err(CheckErr::At(line, slip)) => enough(refused(alloc, line, slip)),
        Err(CheckErr::Read(error)) => Err(error),
        Err(CheckErr::NoMemory) => Err(ReadErr::NoMemory),
    }
}

// The output, if there was memory for it.
fn enough(output: Result<Output, NoMemory>) -> Result<Output, ReadErr>
    ensures ok { IfOk result (λ o. output ≡ Ok o) }
    ensures err { IfErr result (λ error. error ≡ ReadErr.NoMemory) }
{
    match output {
        Ok(output) => Ok(output),
        Err(NoMemory) => Err(ReadErr::NoMemory),
    }
}

// The line that says what the check answered. An `Err` is want of memory.
fn verdict(alloc: Global, answer: Checked) -> Result<Output, NoMemory>
    ensures { IfOk result (λ o. IsVerdict answer o.status o.text) }
{
    match answer {
        Checked::Valid(counts) => valid(alloc, &counts),
        Checked::Bad(line, fault) => bad(alloc, line, &fault),
    }
}
