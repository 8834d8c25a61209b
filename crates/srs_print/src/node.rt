// The lines of an outcome.
ghost use Rattle.std.specs.Prelude.{◌≡◌, ◌++◌, ◌∷◌, pos, length, codes, OnOk, OnErr};
ghost use Rattle.std.specs.List.{flat_map};
ghost use Rattle.std.specs.Fmt.{signed_decimal};
ghost use Rattle.srs_path.specs.declared.outcomes.Outcome.TheVariants.{Inside, Outside, Cut, Left};
ghost use Rattle.srs_line.specs.Fields.{line_of};
ghost use Rattle.srs_cert.specs.Texts.{cause_text, rank_text, outcome_text};
ghost use Rattle.srs_print.specs.Fronts.{StopsIn};

use crate::line::{put_count, put_field, put_line, put_signed};
use srs_num::{Form, V2};
use srs_path::{Cause, Cycle, Outcome, Ranks, Why};
use srs_text::{Bytes, NoMemory};

// The lines of the outcome.
pub(crate) fn put_outcome(out: &mut Bytes, outcome: &Outcome) -> Result<(), NoMemory>
    ensures ok { OnOk result (out.new ≡ out.old ++ outcome_text outcome.now) }
    ensures err { OnErr result (StopsIn out.old (outcome_text outcome.now) out.new) }
{
    match outcome {
        Outcome::Inside(ranks) => put_inside(out, ranks),
        Outcome::Outside(cycle) => put_outside(out, cycle),
        Outcome::Cut(form) => put_cut(out, form),
        Outcome::Left(cause) => put_left(out, *cause),
    }
}

fn put_inside(out: &mut Bytes, ranks: &Ranks) -> Result<(), NoMemory>
    ensures ok { OnOk result (out.new ≡ out.old ++ outcome_text (Inside ranks.now)) }
    ensures err { OnErr result (StopsIn out.old (outcome_text (Inside ranks.now)) out.new) }
{
    put_count(out, b"in", ranks.len() as u64)?;
    put_ranks(out, ranks)
}

fn put_ranks(out: &mut Bytes, ranks: &Ranks) -> Result<(), NoMemory>
    ensures ok { OnOk result (out.new ≡ out.old ++ flat_map rank_text ranks.now) }
    ensures err { OnErr result (StopsIn out.old (flat_map rank_text ranks.now) out.new) }
{
    for i in 0..ranks.len() {
        let (pair, rank) = ranks.entry(i);
        put_rank(out, &pair, rank)?;
    }
    Ok(())
}

fn put_rank(out: &mut Bytes, pair: &V2, rank: u32) -> Result<(), NoMemory>
    ensures ok { OnOk result (out.new ≡ out.old ++ rank_text (pair.now, rank)) }
    ensures err { OnErr result (StopsIn out.old (rank_text (pair.now, rank)) out.new) }
{
    put_line(out, b"w", &[pair.a, pair.b, rank as i64])
}

fn put_outside(out: &mut Bytes, cycle: &Cycle) -> Result<(), NoMemory>
    ensures ok { OnOk result (out.new ≡ out.old ++ outcome_text (Outside cycle.now)) }
    ensures err { OnErr result (StopsIn out.old (outcome_text (Outside cycle.now)) out.new) }
{
    put_cycle(out, cycle)?;
    out.extend(b"\n")
}

// The line of the cycle, with no LF.
pub(crate) fn put_cycle(out: &mut Bytes, cycle: &Cycle) -> Result<(), NoMemory>
    ensures ok { OnOk result
        (out.new ≡ out.old ++ line_of (codes "out") (pos (length cycle.now) ∷ cycle.now)) }
    ensures err { OnErr result
        (StopsIn out.old (line_of (codes "out") (pos (length cycle.now) ∷ cycle.now)) out.new) }
{
    out.extend(b"out")?;
    put_field(out, cycle.len() as i128)?;
    put_entries(out, cycle)
}

fn put_entries(out: &mut Bytes, cycle: &Cycle) -> Result<(), NoMemory>
    ensures ok { OnOk result
        (out.new ≡ out.old ++ flat_map (λ z. 32 ∷ signed_decimal z) cycle.now) }
    ensures err { OnErr result
        (StopsIn out.old (flat_map (λ z. 32 ∷ signed_decimal z) cycle.now) out.new) }
{
    for i in 0..cycle.len() {
        put_signed(out, cycle.entry(i))?;
    }
    Ok(())
}

fn put_cut(out: &mut Bytes, form: &Form) -> Result<(), NoMemory>
    ensures ok { OnOk result (out.new ≡ out.old ++ outcome_text (Cut form.now)) }
    ensures err { OnErr result (StopsIn out.old (outcome_text (Cut form.now)) out.new) }
{
    let (a, b, c) = form.parts();
    put_line(out, b"cut", &[a, b, c])
}

fn put_left(out: &mut Bytes, cause: Cause) -> Result<(), NoMemory>
    ensures ok { OnOk result (out.new ≡ out.old ++ outcome_text (Left cause)) }
    ensures err { OnErr result (StopsIn out.old (outcome_text (Left cause)) out.new) }
{
    out.extend(b"left ")?;
    out.extend(cause_bytes(cause))?;
    out.extend(b"\n")
}

pub(crate) fn cause_bytes(cause: Cause) -> &'static [u8]
    ensures { result.now ≡ cause_text cause }
{
    match cause {
        Cause::Depth(Why::Cycle) => b"depth cycle",
        Cause::Depth(Why::Witness) => b"depth witness",
        Cause::Cells(Why::Cycle) => b"cells cycle",
        Cause::Cells(Why::Witness) => b"cells witness",
        Cause::Thin => b"thin",
        Cause::Memory => b"memory",
    }
}
