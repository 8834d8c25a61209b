// The command `bench`.
ghost use Rattle.std.specs.Prelude.{◌≡◌, ◌+◌, ◌≤◌, ◌<◌, ◌++◌, [], length, cond, false, IsTrue, ◌↔◌};
ghost use Rattle.std.specs.Prelude.{IfOk, OnOk};
ghost use Rattle.srs_plane.specs.Polygons.{IsPolygon, region_of};
ghost use Rattle.srs_path.specs.declared.outcomes.Outcome.TheVariants.{Left};
ghost use Rattle.srs_path.specs.declared.outcomes.Cause.TheVariants.{Memory};
ghost use Rattle.srs_tree.specs.Snapshots.{tree_of};
ghost use Rattle.srs_tree.specs.Answers.{reply_of, kind_of};
ghost use Rattle.srs_tool.specs.declared.commands.Command.TheVariants.{Bench};
ghost use Rattle.srs_tool.specs.Benches.{bench_limits, IsCountedPlan, CountsAnswers, answers_line};
ghost use Rattle.srs_tool.specs.Benches.{bench_text, IsBenchText};
ghost use Rattle.srs_tool.specs.Plans.{HasNoMemory};
ghost use Rattle.srs_tool.specs.Words.{IsSampleSize};
ghost use Rattle.srs_tool.specs.Output.{Owes};

use crate::certify::refine_polygon;
use crate::lines::put_counts;
use crate::output::Output;
use crate::status::Status;
use srs_check::{Counts, count_nodes, polygon_cell};
use srs_gen::made_sample;
use srs_num::{NoMemory, Pt, Steps};
use srs_path::{Cause, Limits, Outcome};
use srs_plane::Vertex;
use srs_print::{put_line, put_words};
use srs_text::Bytes;
use srs_tree::{Answer, Journal, Version};
use std::alloc::Global;
use std::marker::Brand;
use std::sync::ledger::{Blank, Ledger};

/// How many points have an answer of each kind.
#[derive(Clone, Copy, Drop)]
pub struct AnswerCounts {
    pub inside: u32,
    pub outside: u32,
    pub undecided: u32,
    pub beyond: u32,
}

impl AnswerCounts {
    // With one answer more.
    fn with(self, answer: Answer<'_>) -> AnswerCounts
        requires few { self.inside + self.outside + self.undecided + self.beyond < 100000 }
        ensures inside { result.inside ≡
            self.inside + cond (kind_of (reply_of answer.entry)).inside 1 0 }
        ensures outside { result.outside ≡
            self.outside + cond (kind_of (reply_of answer.entry)).outside 1 0 }
        ensures undecided { result.undecided ≡
            self.undecided + cond (kind_of (reply_of answer.entry)).undecided 1 0 }
        ensures beyond { result.beyond ≡
            self.beyond + cond (kind_of (reply_of answer.entry)).beyond 1 0 }
    {
        match answer {
            Answer::Inside => AnswerCounts {
                inside: self.inside + 1,
                ..self
            },
            Answer::Outside(_) => AnswerCounts {
                outside: self.outside + 1,
                ..self
            },
            Answer::Undecided(_) => AnswerCounts {
                undecided: self.undecided + 1,
                ..self
            },
            Answer::Beyond => AnswerCounts {
                beyond: self.beyond + 1,
                ..self
            },
        }
    }
}

/// How many nodes of each kind the certificate of the polygon of the seed has, and how many of its
/// points have an answer of each kind. An `Err` is want of memory.
pub fn bench(alloc: Global, s: u32, n: u32) -> Result<Output, NoMemory>
    requires { IsSampleSize s n }
    ensures { IfOk result (λ o. Owes (Bench s n) [] o.status o.text) }
{
    let sample = made_sample(alloc, s, n)?;
    let (version, nodes) = counted_plan(alloc, &sample.vertices)?;
    let answers = answers_at(&version, sample.points.as_slice());
    match bench_text(alloc, s, n, &nodes, &answers) {
        Ok(text) => Ok(Output {
            status: Status::Done,
            text,
        }),
        Err(_) => Err(NoMemory),
    }
}

// Depth 10, 1024 cells and 256 witnesses.
fn bench_limits() -> Limits
    ensures { result ≡ bench_limits }
{
    match Limits::new(10, 1024, 256) {
        Some(limits) => limits,
        None => unreachable!(),
    }
}

// The plan of the polygon, and how many nodes it has. An `Err` is want of memory, for a cell too.
fn counted_plan(alloc: Global, vertices: &[Vertex]) -> Result<(Version, Counts), NoMemory>
    requires { IsPolygon vertices.now }
    ensures { IfOk result (λ r. IsCountedPlan (region_of vertices.now) r.0 r.1) }
{
    let cell = polygon_cell(alloc, vertices)?;
    // A cell has a point, and limits are within their ranges.
    let _ = cell.region();
    let limits = bench_limits();
    let _ = limits.wits();
    let (version, cert) = refine_polygon(alloc, &limits, vertices, cell)?;
    if lacks_memory(cert.events()) {
        return Err(NoMemory);
    }
    let nodes = count_nodes(&cert);
    Ok((version, nodes))
}

// Whether some cell was left for want of memory.
fn lacks_memory(events: &Journal) -> bool
    ensures { result ≡ false → HasNoMemory events.now }
{
    for i in 0..events.len() {
        if is_lack(&events.get(i).outcome) {
            return true;
        }
    }
    false
}

// Whether the outcome is that there was no memory for the cell.
fn is_lack(outcome: &Outcome) -> bool
    ensures { IsTrue result ↔ (outcome.now ≡ Left Memory) }
{
    match outcome {
        Outcome::Left(Cause::Memory) => true,
        _ => false,
    }
}

// How many of the points have an answer of each kind.
fn answers_at(version: &Version, points: &[Pt]) -> AnswerCounts
    requires { length points.now ≤ 10000 }
    ensures { CountsAnswers version.now.region (tree_of version.now) points.now result }
{
    uncounted::<Brand>(version, points, Blank::new(1))
}

// The same, over steps that aren't counted.
fn uncounted<L: Ledger>(version: &Version, points: &[Pt], blank: Blank) -> AnswerCounts
    requires few { length points.now ≤ 10000 }
    requires name { blank.name ≡ L.name }
    requires parts { blank.parts ≡ L.parts }
    requires some { 0 < blank.parts }
    ensures { CountsAnswers version.now.region (tree_of version.now) points.now result }
{
    let mut steps = Steps::<L>::new(blank);
    let mut counts = AnswerCounts {
        inside: 0,
        outside: 0,
        undecided: 0,
        beyond: 0,
    };
    for r in points {
        counts = counts.with(version.locate(r, &mut steps));
    }
    counts
}

// The three lines.
fn bench_text(
    alloc: Global,
    s: u32,
    n: u32,
    nodes: &Counts,
    answers: &AnswerCounts,
) -> Result<Bytes, srs_text::NoMemory>
    ensures { IfOk result (λ text. text ≡ bench_text s n nodes.now answers.now) }
{
    let mut text = Bytes::new(alloc);
    put_line(&mut text, b"bench", &[s as i64, n as i64])?;
    put_counts(&mut text, nodes)?;
    put_answers(&mut text, answers)?;
    Ok(text)
}

// Appends the line that says how many points have an answer of each kind.
fn put_answers(text: &mut Bytes, answers: &AnswerCounts) -> Result<(), srs_text::NoMemory>
    ensures { OnOk result (text.new ≡ text.old ++ answers_line answers.now) }
{
    put_words(text, b"points in", &[answers.inside as i64])?;
    put_words(text, b" out", &[answers.outside as i64])?;
    put_words(text, b" open", &[answers.undecided as i64])?;
    put_words(text, b" beyond", &[answers.beyond as i64])?;
    text.extend(b"\n")
}
