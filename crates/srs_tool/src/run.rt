// The top call: all that the program does.
ghost use Rattle.std.specs.Prelude.{◌≡◌, ◌≢◌, map, string_bytes};
ghost use Rattle.srs_text.specs.Ends.{Rose};
ghost use Rattle.srs_tool.specs.declared.commands.Command.{Command};
ghost use Rattle.srs_tool.specs.declared.commands.Command.TheVariants.{Live};
ghost use Rattle.srs_tool.specs.Words.{IsCrew, SpellsCommand};
ghost use Rattle.srs_tool.specs.Inputs.{input_of};
ghost use Rattle.srs_tool.specs.Output.{EndsWell};
ghost use Rattle.srs_tool.specs.Ends.{Ends, EndsBy, IsGoodRun, WritesNothing};

use crate::commands::Input;
use crate::live::live;
use crate::output::say;
use crate::plain::plain;
use crate::status::Status;
use crate::words::live_order;
use srs_num::NoMemory;
use srs_path::Limits;
use srs_session::Gate;
use srs_text::{ReadErr, Sink, Source, read_all};
use std::alloc::Global;
use std::sync::Wait;
use std::thread::Threads;

/// Does what the words ask for: reads the source, and writes to the sink. It may wait, and start
/// threads, only at `live`; what `plain` says of the other commands holds of them here.
///
/// At `Done` of `live` the source was read to its end, and its bytes are the text of a polygon with
/// sessions. The bytes that were written are the text of a live run with one history and with what
/// each session was told, both of which they determine (`one_live_text`). The history is whole
/// within the limits, and in rounds, and no cell has two events; at each of its beginnings its
/// undivided cells partition the polygon; each point of a cell that is inside is finite, and at each
/// point of one that is outside the printed cycle comes back. Each session's answers are those of
/// beginnings of that history, none older than one that it was told of before (`Fits`). The
/// certificate lists the events of the history in preorder, and is that of `certify` where no cell
/// was left for want of memory. All this holds for any number of workers and sessions, and whatever
/// the schedule and the gate.
pub fn run<R: Threads + Wait + Sync, S: Source, K: Sink, G: Gate>(
    rt: &R,
    alloc: Global,
    words: &[String],
    source: &mut S,
    sink: &mut K,
    gate: &G,
) -> Status
    ensures usage { result ≡ Status.Usage → (command : Command) →
        SpellsCommand (map string_bytes words.now) command → ⊥ }
    ensures idle { result ≡ Status.Usage → (source.new ≡ source.old) × (sink.new ≡ sink.old) }
    ensures ends { result ≢ Status.Usage → Ends SpellsCommand (map string_bytes words.now) result
        (S.left source.old) (S.left source.new) (S.faults source.old) (S.faults source.new)
        (K.got sink.old) (K.got sink.new) (K.faults sink.old) (K.faults sink.new) }
    ensures unwritten { WritesNothing result → sink.new ≡ sink.old }
    ensures unread { (command : Command) → SpellsCommand (map string_bytes words.now) command →
        input_of command ≡ Input.Nothing → source.new ≡ source.old }
    ensures complete { (good : IsGoodRun SpellsCommand (map string_bytes words.now) (S.left source.old)) →
        ¬ (Rose (S.faults source.old) (S.faults source.new)) →
        ¬ (Rose (K.faults sink.old) (K.faults sink.new)) → EndsWell good.command result }
{
    match live_order(words) {
        Some((limits, workers)) => read_and_live(rt, alloc, &limits, workers, source, sink, gate),
        None => plain(alloc, words, source, sink),
    }
}

// Reads the source to its end, and writes the text of a live run over what it gave.
fn read_and_live<R: Threads + Wait + Sync, S: Source, K: Sink, G: Gate>(
    rt: &R,
    alloc: Global,
    limits: &Limits,
    workers: u32,
    source: &mut S,
    sink: &mut K,
    gate: &G,
) -> Status
    requires { IsCrew workers }
    ensures other { result ≢ Status.Usage }
    ensures ends { EndsBy (Live limits.now workers) result
        (S.left source.old) (S.left source.new) (S.faults source.old) (S.faults source.new)
        (K.got sink.old) (K.got sink.new) (K.faults sink.old) (K.faults sink.new) }
    ensures unwritten { WritesNothing result → sink.new ≡ sink.old }
{
    match read_all(alloc, source, Input::Sessions.longest()) {
        Ok(input) => match live(rt, alloc, limits, workers, input.as_slice(), gate) {
            Ok(output) => say(output.status, sink, output.text.as_slice()),
            Err(NoMemory) => Status::NoMemory,
        },
        Err(ReadErr::Fault) => Status::ReadFault,
        Err(ReadErr::TooLong) => say(Status::TooLong, sink, b"refused long\n"),
        Err(ReadErr::NoMemory) => Status::NoMemory,
    }
}
