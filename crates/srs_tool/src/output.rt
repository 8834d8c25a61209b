// What a run writes, and the last step: that it was written.
ghost use Rattle.std.specs.Prelude.{◌≡◌, IfOk};
ghost use Rattle.srs_tool.specs.declared.status.Status.TheVariants.{Done as DoneStatus};
ghost use Rattle.srs_tool.specs.declared.status.Status.TheVariants.{Bad as BadStatus};
ghost use Rattle.srs_tool.specs.declared.status.Status.TheVariants.{Refused as RefusedStatus};
ghost use Rattle.srs_tool.specs.Verdicts.{valid_line, fault_line};
ghost use Rattle.srs_tool.specs.Output.{refusal_line};
ghost use Rattle.srs_tool.specs.Ends.{Says};

use crate::status::Status;
use srs_text::{Bytes, Sink, write_all};

/// What a run writes, and how it ends where all of that was written.
#[derive(Drop)]
pub struct Output {
    pub status: Status,
    pub text: Bytes,
}

/// Writes the whole text and answers the status, or answers that a write failed.
pub fn say<K: Sink>(status: Status, sink: &mut K, text: &[u8]) -> Status
    ensures { Says status result
        (K.got sink.old) (K.got sink.new) (K.faults sink.old) (K.faults sink.new) text.now }
{
    match write_all(sink, text) {
        Ok(()) => status,
        Err(_) => Status::WriteFault,
    }
}
