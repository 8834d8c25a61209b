// The text of a live run.
ghost use Rattle.std.specs.Prelude.{◌≡◌, ◌++◌, ◌∷◌, codes, OnOk, OnErr};
ghost use Rattle.std.specs.List.{flat_map};
ghost use Rattle.srs_cert.specs.Texts.{count_text, ended, cause_text};
ghost use Rattle.srs_cert.specs.Sayings.{said_text};
ghost use Rattle.srs_cert.specs.Lives.{side_word, path_text, outcome_line, event_text};
ghost use Rattle.srs_cert.specs.Lives.{journal_text, session_text, sessions_text, live_text};
ghost use Rattle.srs_print.specs.Fronts.{StopsIn};

use crate::certificate::put_cert;
use crate::line::{put_count, put_words};
use crate::node::{cause_bytes, put_cycle};
use crate::said::put_said;
use srs_cert::Cert;
use srs_path::{Cause, Event, Outcome, Path, Side};
use srs_text::{Bytes, NoMemory};
use srs_tree::{Journal, Run, Transcript, Transcripts};

/// Appends the text of the run: its journal, what each session was told, and the certificate. An
/// `Err` is want of memory, and leaves a front of the text behind what was there.
pub fn put_live(out: &mut Bytes, run: &Run, c: &Cert) -> Result<(), NoMemory>
    ensures ok { OnOk result
        (out.new ≡ out.old ++ live_text run.now.journal run.now.transcripts c.now) }
    ensures err { OnErr result
        (StopsIn out.old (live_text run.now.journal run.now.transcripts c.now) out.new) }
{
    put_told(out, &run.journal, &run.transcripts)?;
    put_cert(out, c)
}

// All that stands before the certificate.
fn put_told(out: &mut Bytes, journal: &Journal, told: &Transcripts) -> Result<(), NoMemory>
    ensures ok { OnOk result
        (out.new ≡
        out.old ++
        (count_text (codes "live") 1 ++ journal_text journal.now ++ sessions_text told.now ++ ended
        (codes "end"))) }
    ensures err { OnErr result
        (StopsIn out.old
        (count_text (codes "live") 1 ++ journal_text journal.now ++ sessions_text told.now ++ ended
        (codes "end")) out.new) }
{
    put_count(out, b"live", 1)?;
    put_journal(out, journal)?;
    put_sessions(out, told)?;
    out.extend(b"end\n")
}

fn put_journal(out: &mut Bytes, journal: &Journal) -> Result<(), NoMemory>
    ensures ok { OnOk result (out.new ≡ out.old ++ journal_text journal.now) }
    ensures err { OnErr result (StopsIn out.old (journal_text journal.now) out.new) }
{
    put_count(out, b"journal", journal.len())?;
    put_events(out, journal)
}

fn put_events(out: &mut Bytes, journal: &Journal) -> Result<(), NoMemory>
    ensures ok { OnOk result (out.new ≡ out.old ++ flat_map event_text journal.now) }
    ensures err { OnErr result (StopsIn out.old (flat_map event_text journal.now) out.new) }
{
    for i in 0..journal.len() {
        put_event(out, journal.get(i))?;
    }
    Ok(())
}

fn put_event(out: &mut Bytes, event: &Event) -> Result<(), NoMemory>
    ensures ok { OnOk result (out.new ≡ out.old ++ event_text event.now) }
    ensures err { OnErr result (StopsIn out.old (event_text event.now) out.new) }
{
    put_event_path(out, &event.path)?;
    put_spaced_outcome(out, &event.outcome)?;
    out.extend(b"\n")
}

fn put_event_path(out: &mut Bytes, path: &Path) -> Result<(), NoMemory>
    ensures ok { OnOk result (out.new ≡ out.old ++ (codes "e " ++ path_text path.now)) }
    ensures err { OnErr result (StopsIn out.old (codes "e " ++ path_text path.now) out.new) }
{
    out.extend(b"e ")?;
    put_path(out, path)
}

fn put_path(out: &mut Bytes, path: &Path) -> Result<(), NoMemory>
    ensures ok { OnOk result (out.new ≡ out.old ++ path_text path.now) }
    ensures err { OnErr result (StopsIn out.old (path_text path.now) out.new) }
{
    if path.len() == 0 {
        return out.extend(b".");
    }
    put_sides(out, path)
}

fn put_sides(out: &mut Bytes, path: &Path) -> Result<(), NoMemory>
    ensures ok { OnOk result (out.new ≡ out.old ++ flat_map side_word path.now) }
    ensures err { OnErr result (StopsIn out.old (flat_map side_word path.now) out.new) }
{
    for i in 0..path.len() {
        put_side(out, path.side(i))?;
    }
    Ok(())
}

fn put_side(out: &mut Bytes, side: Side) -> Result<(), NoMemory>
    ensures ok { OnOk result (out.new ≡ out.old ++ side_word side) }
    ensures err { OnErr result (StopsIn out.old (side_word side) out.new) }
{
    match side {
        Side::Ge => out.extend(b"g"),
        Side::Lt => out.extend(b"l"),
    }
}

fn put_spaced_outcome(out: &mut Bytes, outcome: &Outcome) -> Result<(), NoMemory>
    ensures ok { OnOk result (out.new ≡ out.old ++ 32 ∷ outcome_line outcome.now) }
    ensures err { OnErr result (StopsIn out.old (32 ∷ outcome_line outcome.now) out.new) }
{
    out.extend(b" ")?;
    put_outcome_line(out, outcome)
}

// The outcome on one line, with no LF.
fn put_outcome_line(out: &mut Bytes, outcome: &Outcome) -> Result<(), NoMemory>
    ensures ok { OnOk result (out.new ≡ out.old ++ outcome_line outcome.now) }
    ensures err { OnErr result (StopsIn out.old (outcome_line outcome.now) out.new) }
{
    match outcome {
        Outcome::Inside(ranks) => put_words(out, b"in", &[ranks.len() as i64]),
        Outcome::Outside(cycle) => put_cycle(out, cycle),
        Outcome::Cut(form) => {
            let (a, b, c) = form.parts();
            put_words(out, b"cut", &[a, b, c])
        }
        Outcome::Left(cause) => put_cause(out, *cause),
    }
}

fn put_cause(out: &mut Bytes, cause: Cause) -> Result<(), NoMemory>
    ensures ok { OnOk result (out.new ≡ out.old ++ (codes "left " ++ cause_text cause)) }
    ensures err { OnErr result (StopsIn out.old (codes "left " ++ cause_text cause) out.new) }
{
    out.extend(b"left ")?;
    out.extend(cause_bytes(cause))
}

fn put_sessions(out: &mut Bytes, told: &Transcripts) -> Result<(), NoMemory>
    ensures ok { OnOk result (out.new ≡ out.old ++ sessions_text told.now) }
    ensures err { OnErr result (StopsIn out.old (sessions_text told.now) out.new) }
{
    for i in 0..told.len() {
        put_session(out, i + 1, told.get(i))?;
    }
    Ok(())
}

fn put_session(out: &mut Bytes, number: u64, told: &Transcript) -> Result<(), NoMemory>
    ensures ok { OnOk result (out.new ≡ out.old ++ session_text (number, told.now)) }
    ensures err { OnErr result (StopsIn out.old (session_text (number, told.now)) out.new) }
{
    put_count(out, b"session", number)?;
    put_all_said(out, told)
}

fn put_all_said(out: &mut Bytes, told: &Transcript) -> Result<(), NoMemory>
    ensures ok { OnOk result (out.new ≡ out.old ++ flat_map said_text told.now) }
    ensures err { OnErr result (StopsIn out.old (flat_map said_text told.now) out.new) }
{
    for i in 0..told.len() {
        put_said(out, told.get(i))?;
    }
    Ok(())
}
