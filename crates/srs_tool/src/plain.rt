// The top call of the commands that start no thread.
ghost use Rattle.std.specs.Prelude.{◌≡◌, ◌≢◌, ◌⊎◌, ◌≤◌, length, map, string_bytes, IfOk, IsErrOf};
ghost use Rattle.srs_text.specs.Ends.{Rose};
ghost use Rattle.srs_tool.specs.declared.commands.Command.{Command};
ghost use Rattle.srs_tool.specs.Words.{AsksPlain, IsPlain, IsInBounds};
ghost use Rattle.srs_tool.specs.Inputs.{input_of, longest, ReadsFirst};
ghost use Rattle.srs_tool.specs.Output.{Owes, EndsWell};
ghost use Rattle.srs_tool.specs.Ends.{Ends, EndsBy, Brings, Reads, IsOverlong, IsCut, IsGoodRun};
ghost use Rattle.srs_tool.specs.Ends.{WritesNothing};

use crate::ask::ask;
use crate::bench::bench;
use crate::certify::certify;
use crate::check::check;
use crate::commands::{Command, Input};
use crate::make::make;
use crate::map::draw;
use crate::output::{Output, say};
use crate::status::Status;
use crate::words::plain_command;
use srs_num::NoMemory;
use srs_text::{Bytes, ReadErr, Sink, Source, read_all};
use std::alloc::Global;

/// Does what the words ask for, where that starts no thread: reads the source, and writes to the
/// sink. The words of `live` are answered with `Usage`, as words in no form are.
///
/// At `Done` the source was read to its end, but for the last two commands, and what the command
/// owes was written. `certify`: the bytes are the text of a polygon, and its certificate was
/// written, which lists the plan of its region. The leaves of the plan partition the region; each
/// point of a cell that is inside is finite, and at each point of one that is outside the printed
/// cycle comes back. `check`: the bytes are the text of a certificate, each node of which proves
/// itself, and so the same holds of its leaves. `map`: the same, and what was written is its map;
/// each character is that of the answer at its point, over the certificate's own events. `ask`: the
/// bytes are such a certificate and questions, and what was written has a line for each question in
/// order: the answer at a point over the certificate's own events, with the cause that they give;
/// for each kind of answer whether some point of a polygon has it; the first event of an orbit.
/// `make` and `bench` leave the source as it is, and end with `Done`, for want of memory, or with a
/// failed write: `make` writes the input of `live` that the seed gives, `bench` how many nodes of
/// each kind the plan of its polygon has, and how many of its points have an answer of each kind
/// over that plan. At `Bad` of `check`, `map` and `ask` what was written names the first node that
/// doesn't prove itself, and its fault. At `Refused` the bytes are no input of the command, and
/// what was written names the first slip and its line. A good input of at most 2^20 bytes, or 2^27
/// where a certificate is read, ends well or for want of memory, unless an end fails. After a
/// refusal the source has lost what was taken from it; at `NoMemory` nothing was written.
pub fn plain<S: Source, K: Sink>(
    alloc: Global,
    words: &[String],
    source: &mut S,
    sink: &mut K,
) -> Status
    ensures usage { result ≡ Status.Usage → (command : Command) →
        AsksPlain (map string_bytes words.now) command → ⊥ }
    ensures idle { result ≡ Status.Usage → (source.new ≡ source.old) × (sink.new ≡ sink.old) }
    ensures ends { result ≢ Status.Usage → Ends AsksPlain (map string_bytes words.now) result
        (S.left source.old) (S.left source.new) (S.faults source.old) (S.faults source.new)
        (K.got sink.old) (K.got sink.new) (K.faults sink.old) (K.faults sink.new) }
    ensures unwritten { WritesNothing result → sink.new ≡ sink.old }
    ensures unread { (command : Command) → AsksPlain (map string_bytes words.now) command →
        input_of command ≡ Input.Nothing → source.new ≡ source.old }
    ensures complete { (good : IsGoodRun AsksPlain (map string_bytes words.now)
        (S.left source.old)) →
        ¬ (Rose (S.faults source.old) (S.faults source.new)) →
        ¬ (Rose (K.faults sink.old) (K.faults sink.new)) → EndsWell good.command result }
{
    match plain_command(words) {
        Some(command) => read_and_answer(alloc, &command, source, sink),
        None => Status::Usage,
    }
}

// Reads what the command reads, and answers for that.
fn read_and_answer<S: Source, K: Sink>(
    alloc: Global,
    command: &Command,
    source: &mut S,
    sink: &mut K,
) -> Status
    requires range { IsInBounds command.now }
    requires plain { IsPlain command.now }
    ensures other { result ≢ Status.Usage }
    ensures ends { EndsBy command.now result
        (S.left source.old) (S.left source.new) (S.faults source.old) (S.faults source.new)
        (K.got sink.old) (K.got sink.new) (K.faults sink.old) (K.faults sink.new) }
    ensures unwritten { WritesNothing result → sink.new ≡ sink.old }
    ensures unread { input_of command.now ≡ Input.Nothing → source.new ≡ source.old }
{
    match bring(alloc, command, source) {
        Ok(output) => say(output.status, sink, output.text.as_slice()),
        Err(ReadErr::Fault) => Status::ReadFault,
        Err(ReadErr::TooLong) => say(Status::TooLong, sink, b"refused long\n"),
        Err(ReadErr::NoMemory) => Status::NoMemory,
    }
}

// Reads what the command reads, and makes what is owed for that: `check` as the lines come, each
// other command once all is read.
fn bring<S: Source>(alloc: Global, command: &Command, source: &mut S) -> Result<Output, ReadErr>
    requires range { IsInBounds command.now }
    requires plain { IsPlain command.now }
    ensures owed { IfOk result (λ o. Brings command.now (S.left source.old) (S.left source.new)
        o.status o.text) }
    ensures long { IsErrOf result ReadErr.TooLong →
        IsOverlong (input_of command.now) (S.left source.old) (S.left source.new) }
    ensures fault { IsErrOf result ReadErr.Fault →
        Rose (S.faults source.old) (S.faults source.new) }
    ensures cut { IsErrOf result ReadErr.Fault →
        IsCut (input_of command.now) (S.left source.old) (S.left source.new) }
    ensures unread { input_of command.now ≡ Input.Nothing → source.new ≡ source.old }
{
    match command {
        Command::Check => check(alloc, source),
        _ => read_and_bring(alloc, command, source),
    }
}

// Reads all that the command reads, and makes what is owed for that.
fn read_and_bring<S: Source>(
    alloc: Global,
    command: &Command,
    source: &mut S,
) -> Result<Output, ReadErr>
    requires range { IsInBounds command.now }
    requires first { ReadsFirst command.now }
    ensures owed { IfOk result (λ o. Brings command.now (S.left source.old) (S.left source.new)
        o.status o.text) }
    ensures long { IsErrOf result ReadErr.TooLong →
        IsOverlong (input_of command.now) (S.left source.old) (S.left source.new) }
    ensures fault { IsErrOf result ReadErr.Fault →
        Rose (S.faults source.old) (S.faults source.new) }
    ensures cut { IsErrOf result ReadErr.Fault →
        IsCut (input_of command.now) (S.left source.old) (S.left source.new) }
    ensures unread { input_of command.now ≡ Input.Nothing → source.new ≡ source.old }
{
    let input = read_input(alloc, command.input(), source)?;
    match answer(alloc, command, input.as_slice()) {
        Ok(output) => Ok(output),
        Err(NoMemory) => Err(ReadErr::NoMemory),
    }
}

// Reads such an input: all that the source has, or nothing.
fn read_input<S: Source>(alloc: Global, input: Input, source: &mut S) -> Result<Bytes, ReadErr>
    ensures reads { IfOk result (Reads input (S.left source.old) (S.left source.new)) }
    ensures short { IfOk result (λ text. length text ≤ longest input) }
    ensures long { IsErrOf result ReadErr.TooLong →
        IsOverlong input (S.left source.old) (S.left source.new) }
    ensures fault { IsErrOf result ReadErr.Fault →
        Rose (S.faults source.old) (S.faults source.new) }
    ensures cut { IsErrOf result ReadErr.Fault →
        IsCut input (S.left source.old) (S.left source.new) }
    ensures unread { input ≡ Input.Nothing → source.new ≡ source.old }
{
    match input {
        Input::Nothing => Ok(Bytes::new(alloc)),
        Input::Polygon | Input::Sessions | Input::Certificate | Input::Questions => {
            read_all(alloc, source, input.longest())
        }
    }
}

// What is owed for what was read. An `Err` is want of memory.
fn answer(alloc: Global, command: &Command, input: &[u8]) -> Result<Output, NoMemory>
    requires range { IsInBounds command.now }
    requires first { ReadsFirst command.now }
    requires short { length input.now ≤ longest (input_of command.now) }
    ensures { IfOk result (λ o. Owes command.now input.now o.status o.text) }
{
    match command {
        Command::Certify(limits) => certify(alloc, limits, input),
        Command::Map(columns, rows) => draw(alloc, *columns, *rows, input),
        Command::Ask => ask(alloc, input),
        Command::Make(s, n) => make(alloc, *s, *n),
        Command::Bench(s, n) => bench(alloc, *s, *n),
        Command::Check | Command::Live(_, _) => unreachable!(),
    }
}
