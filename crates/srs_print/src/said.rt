// The lines of what is said.
ghost use Rattle.std.specs.Prelude.{◌≡◌, ◌++◌, ◌∷◌, OnOk, OnErr};
ghost use Rattle.srs_tree.specs.Answers.{reply_of};
ghost use Rattle.srs_cert.specs.Sayings.{open_text, reply_text, place_text, answer_text, word_if};
ghost use Rattle.srs_cert.specs.Sayings.{met_text, orbit_text, said_text};
ghost use Rattle.srs_print.specs.Fronts.{StopsIn};

use crate::line::{put_count, put_line, put_words};
use crate::node::{cause_bytes, put_cycle};
use srs_map::OrbitEnd;
use srs_num::Pt;
use srs_path::Cause;
use srs_text::{Bytes, NoMemory};
use srs_tree::{Answer, Met, Said};

/// Appends the line of what is said. An `Err` is want of memory, and leaves a front of the line
/// behind what was there.
pub fn put_said(out: &mut Bytes, s: &Said) -> Result<(), NoMemory>
    ensures ok { OnOk result (out.new ≡ out.old ++ said_text s.now) }
    ensures err { OnErr result (StopsIn out.old (said_text s.now) out.new) }
{
    match s {
        Said::At(round) => put_count(out, b"at", *round as u64),
        Said::Version(number) => put_count(out, b"version", *number),
        Said::Point(r, reply) => put_answer(out, r, &reply.lent()),
        Said::Count(outcomes) => put_count(out, b"count", *outcomes),
        Said::Polygon(met) => put_met(out, *met),
        Said::Orbit(end) => put_orbit(out, *end),
    }
}

/// Appends the line of the answer at the point. An `Err` is want of memory, and leaves a front of
/// the line behind what was there.
pub fn put_answer(out: &mut Bytes, r: &Pt, answer: &Answer<'_>) -> Result<(), NoMemory>
    ensures ok { OnOk result (out.new ≡ out.old ++ answer_text r.now (reply_of answer.now)) }
    ensures err { OnErr result (StopsIn out.old (answer_text r.now (reply_of answer.now)) out.new) }
{
    put_place(out, r)?;
    put_spaced_reply(out, answer)?;
    out.extend(b"\n")
}

fn put_place(out: &mut Bytes, r: &Pt) -> Result<(), NoMemory>
    ensures ok { OnOk result (out.new ≡ out.old ++ place_text r.now) }
    ensures err { OnErr result (StopsIn out.old (place_text r.now) out.new) }
{
    let (p, q, d) = r.parts();
    put_words(out, b"point", &[p, q, d])
}

fn put_spaced_reply(out: &mut Bytes, answer: &Answer<'_>) -> Result<(), NoMemory>
    ensures ok { OnOk result (out.new ≡ out.old ++ 32 ∷ reply_text (reply_of answer.now)) }
    ensures err { OnErr result (StopsIn out.old (32 ∷ reply_text (reply_of answer.now)) out.new) }
{
    out.extend(b" ")?;
    put_reply(out, answer)
}

fn put_reply(out: &mut Bytes, answer: &Answer<'_>) -> Result<(), NoMemory>
    ensures ok { OnOk result (out.new ≡ out.old ++ reply_text (reply_of answer.now)) }
    ensures err { OnErr result (StopsIn out.old (reply_text (reply_of answer.now)) out.new) }
{
    match answer {
        Answer::Inside => out.extend(b"in"),
        Answer::Outside(cycle) => put_cycle(out, cycle),
        Answer::Undecided(cause) => put_open(out, *cause),
        Answer::Beyond => out.extend(b"beyond"),
    }
}

fn put_open(out: &mut Bytes, cause: Option<Cause>) -> Result<(), NoMemory>
    ensures ok { OnOk result (out.new ≡ out.old ++ open_text cause) }
    ensures err { OnErr result (StopsIn out.old (open_text cause) out.new) }
{
    match cause {
        None => out.extend(b"open"),
        Some(cause) => {
            out.extend(b"open ")?;
            out.extend(cause_bytes(cause))
        }
    }
}

fn put_met(out: &mut Bytes, met: Met) -> Result<(), NoMemory>
    ensures ok { OnOk result (out.new ≡ out.old ++ met_text met) }
    ensures err { OnErr result (StopsIn out.old (met_text met) out.new) }
{
    out.extend(b"region")?;
    put_word_if(out, met.inside, b"in")?;
    put_word_if(out, met.outside, b"out")?;
    put_word_if(out, met.undecided, b"open")?;
    put_word_if(out, met.beyond, b"beyond")?;
    out.extend(b"\n")
}

fn put_word_if(out: &mut Bytes, met: bool, word: &[u8]) -> Result<(), NoMemory>
    ensures ok { OnOk result (out.new ≡ out.old ++ word_if met word.now) }
    ensures err { OnErr result (StopsIn out.old (word_if met word.now) out.new) }
{
    if !met {
        return Ok(());
    }
    out.extend(b" ")?;
    out.extend(word)
}

fn put_orbit(out: &mut Bytes, end: OrbitEnd) -> Result<(), NoMemory>
    ensures ok { OnOk result (out.new ≡ out.old ++ orbit_text end) }
    ensures err { OnErr result (StopsIn out.old (orbit_text end) out.new) }
{
    match end {
        OrbitEnd::Zero(steps) => put_count(out, b"orbit zero", steps as u64),
        OrbitEnd::Wide(steps) => put_count(out, b"orbit wide", steps as u64),
        OrbitEnd::Loop(start, round) => put_line(out, b"orbit loop", &[start as i64, round as i64]),
        OrbitEnd::Spent => out.extend(b"orbit spent\n"),
    }
}
