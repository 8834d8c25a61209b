// What is written where that is one line: a refusal, a fault, or the numbers of nodes.
ghost use Rattle.std.specs.Prelude.{◌≡◌, ◌++◌, IfOk, OnOk};
ghost use Rattle.srs_tool.specs.Verdicts.{counts_line, valid_line, fault_text, fault_line};
ghost use Rattle.srs_tool.specs.Output.{refusal_line};

use crate::output::Output;
use crate::status::Status;
use srs_check::{Counts, Fault};
use srs_file::Slip;
use srs_num::NoMemory;
use srs_print::put_words;
use srs_text::{Bytes, put_number};
use std::alloc::Global;

/// The line that says that each node proves itself, and how many there are of each kind. An `Err`
/// is want of memory.
pub fn valid(alloc: Global, counts: &Counts) -> Result<Output, NoMemory>
    ensures { IfOk result (λ o. (o.status ≡ Status.Done) × (o.text ≡ valid_line counts.now)) }
{
    match valid_line(alloc, counts) {
        Ok(text) => Ok(Output {
            status: Status::Done,
            text,
        }),
        Err(_) => Err(NoMemory),
    }
}

/// The line that names the first fault, and the line of its node. An `Err` is want of memory.
pub fn bad(alloc: Global, line: u32, fault: &Fault) -> Result<Output, NoMemory>
    ensures { IfOk result (λ o. (o.status ≡ Status.Bad) × (o.text ≡ fault_line line fault.now)) }
{
    match fault_line(alloc, line, fault) {
        Ok(text) => Ok(Output {
            status: Status::Bad,
            text,
        }),
        Err(_) => Err(NoMemory),
    }
}

/// The line that names the first slip of an input, and its line. An `Err` is want of memory.
pub fn refused(alloc: Global, line: u32, slip: Slip) -> Result<Output, NoMemory>
    ensures { IfOk result (λ o. (o.status ≡ Status.Refused) × (o.text ≡ refusal_line line slip)) }
{
    match refusal_line(alloc, line, slip) {
        Ok(text) => Ok(Output {
            status: Status::Refused,
            text,
        }),
        Err(_) => Err(NoMemory),
    }
}

fn valid_line(alloc: Global, counts: &Counts) -> Result<Bytes, srs_text::NoMemory>
    ensures { IfOk result (λ text. text ≡ valid_line counts.now) }
{
    let mut text = Bytes::new(alloc);
    text.extend(b"valid ")?;
    put_counts(&mut text, counts)?;
    Ok(text)
}

/// Appends the line that says how many nodes there are, and how many of each kind.
pub fn put_counts(text: &mut Bytes, counts: &Counts) -> Result<(), srs_text::NoMemory>
    ensures { OnOk result (text.new ≡ text.old ++ counts_line counts.now) }
{
    put_words(text, b"cells", &[counts.cells as i64])?;
    put_words(text, b" in", &[counts.inside as i64])?;
    put_words(text, b" out", &[counts.outside as i64])?;
    put_words(text, b" cut", &[counts.cut as i64])?;
    put_words(text, b" left", &[counts.left as i64])?;
    text.extend(b"\n")
}

fn fault_line(alloc: Global, line: u32, fault: &Fault) -> Result<Bytes, srs_text::NoMemory>
    ensures { IfOk result (λ text. text ≡ fault_line line fault.now) }
{
    let mut text = Bytes::new(alloc);
    put_words(&mut text, b"line", &[line as i64])?;
    put_fault(&mut text, fault)?;
    text.extend(b"\n")?;
    Ok(text)
}

// Appends what is wrong with a node.
fn put_fault(text: &mut Bytes, fault: &Fault) -> Result<(), srs_text::NoMemory>
    ensures { OnOk result (text.new ≡ text.old ++ fault_text fault.now) }
{
    match fault {
        Fault::NoUnit(w) => put_words(text, b" unit", &[w.a, w.b]),
        Fault::NotClosed(w, j) => put_words(text, b" closed", &[w.a, w.b, *j]),
        Fault::NoFall(w, j) => put_words(text, b" fall", &[w.a, w.b, *j]),
        Fault::NotCycle(i) => put_words(text, b" cycle", &[*i as i64]),
        Fault::NotProper => text.extend(b" proper"),
        Fault::NoBudget => text.extend(b" budget"),
    }
}

fn refusal_line(alloc: Global, line: u32, slip: Slip) -> Result<Bytes, srs_text::NoMemory>
    ensures { IfOk result (λ text. text ≡ refusal_line line slip) }
{
    let mut text = Bytes::new(alloc);
    text.extend(b"refused line ")?;
    put_number(&mut text, line as i128)?;
    text.extend(b" ")?;
    text.extend(slip.word())?;
    text.extend(b"\n")?;
    Ok(text)
}
