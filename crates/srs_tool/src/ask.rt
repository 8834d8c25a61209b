// The command `ask`.
ghost use Rattle.std.specs.Prelude.{◌≡◌, ◌≤◌, ◌<◌, ◌^◌, ◌++◌, length, IfOk, OnOk};
ghost use Rattle.srs_plane.specs.Polygons.{region_of};
ghost use Rattle.srs_tree.specs.declared.queries.Query.TheVariants.{Point as AsksPoint};
ghost use Rattle.srs_tree.specs.declared.queries.Query.TheVariants.{Polygon as AsksPolygon};
ghost use Rattle.srs_tree.specs.Questions.{IsAskable};
ghost use Rattle.srs_tree.specs.Tree.{outcome_at};
ghost use Rattle.srs_tree.specs.Answers.{Answers, reply_of, reply_by};
ghost use Rattle.srs_cert.specs.Sayings.{said_text};
ghost use Rattle.srs_cert.specs.Certificates.{CertView};
ghost use Rattle.srs_check.specs.Builds.{IsBuilt};
ghost use Rattle.srs_tool.specs.declared.commands.Command.TheVariants.{Ask};
ghost use Rattle.srs_tool.specs.Replies.{IsReplyText, AddsReply, IsAsked, AreAsked};
ghost use Rattle.srs_tool.specs.Output.{Owes};

use crate::lines::{bad, refused};
use crate::output::Output;
use crate::status::Status;
use srs_cell::Cell;
use srs_check::{Built, build};
use srs_file::{Cert, FileErr, read_ask};
use srs_map::orbit;
use srs_num::{NoMemory, Pt, Steps};
use srs_path::Path;
use srs_print::{put_answer, put_said};
use srs_text::Bytes;
use srs_tree::{Answer, Queries, Query, Said, Version};
use std::alloc::Global;
use std::marker::Brand;
use std::sync::ledger::{Blank, Ledger};

/// What is said to the questions that the input asks of its certificate, or its first fault, or the
/// refusal of the input. An `Err` is want of memory.
pub fn ask(alloc: Global, input: &[u8]) -> Result<Output, NoMemory>
    requires { length input.now ≤ 2 ^ 27 }
    ensures { IfOk result (λ o. Owes Ask input.now o.status o.text) }
{
    let (cert, queries) = match read_ask(alloc, input) {
        Ok(read) => read,
        Err(FileErr::At(line, slip)) => return refused(alloc, line, slip),
        Err(FileErr::NoMemory) => return Err(NoMemory),
    };
    match build(alloc, &cert)? {
        Built::Valid(version, _) => {
            let text = replies(alloc, &cert, &version, &queries)?;
            Ok(Output {
                status: Status::Done,
                text,
            })
        }
        Built::Bad(line, fault) => bad(alloc, line, &fault),
    }
}

// The lines of what is said to the questions, with the version of the certificate. An `Err` is want
// of memory.
fn replies(
    alloc: Global,
    cert: &Cert,
    version: &Version,
    queries: &Queries,
) -> Result<Bytes, NoMemory>
    requires built { IsBuilt cert.now version.now }
    requires asked { AreAsked queries.now }
    ensures { IfOk result (IsReplyText cert.now queries.now) }
{
    uncounted::<Brand>(alloc, cert, version, queries, Blank::new(1))
}

// The same, over steps that aren't counted.
fn uncounted<L: Ledger>(
    alloc: Global,
    cert: &Cert,
    version: &Version,
    queries: &Queries,
    blank: Blank,
) -> Result<Bytes, NoMemory>
    requires built { IsBuilt cert.now version.now }
    requires asked { AreAsked queries.now }
    requires name { blank.name ≡ L.name }
    requires parts { blank.parts ≡ L.parts }
    requires some { 0 < blank.parts }
    ensures { IfOk result (IsReplyText cert.now queries.now) }
{
    let mut steps = Steps::<L>::new(blank);
    let mut text = Bytes::new(alloc);
    for i in 0..queries.len() {
        put_reply(alloc, &mut text, cert, version, queries.get(i), &mut steps)?;
    }
    Ok(text)
}

// Appends the line of what is said to the question. An `Err` is want of memory.
fn put_reply<L: Ledger>(
    alloc: Global,
    text: &mut Bytes,
    cert: &Cert,
    version: &Version,
    query: &Query,
    steps: &mut Steps<L>,
) -> Result<(), NoMemory>
    requires built { IsBuilt cert.now version.now }
    requires asked { IsAsked query.now }
    requires askable { IsAskable query.now }
    ensures { OnOk result (AddsReply cert.now query.now text.old text.new) }
{
    match query {
        Query::Point(r) => put_point(text, cert, version, r, steps),
        Query::Polygon(q) => put_polygon(alloc, text, version, q),
        Query::Orbit(r, z, n) => put(text, &Said::Orbit(orbit(r, *z, *n))),
        Query::Fresh | Query::Count => unreachable!(),
    }
}

// Appends the line of the answer at the point.
fn put_point<L: Ledger>(
    text: &mut Bytes,
    cert: &Cert,
    version: &Version,
    r: &Pt,
    steps: &mut Steps<L>,
) -> Result<(), NoMemory>
    requires { IsBuilt cert.now version.now }
    ensures { OnOk result (AddsReply cert.now (AsksPoint r.now) text.old text.new) }
{
    match put_answer(text, r, &answer_at(cert, version, r, steps)) {
        Ok(()) => Ok(()),
        Err(_) => Err(NoMemory),
    }
}

// The answer at the point. The version knows no causes, so it only finds the leaf.
fn answer_at<'c, L: Ledger>(
    cert: &'c Cert,
    version: &Version,
    r: &Pt,
    steps: &mut Steps<L>,
) -> Answer<'c>
    requires { IsBuilt cert.now version.now }
    ensures { Answers (region_of cert.now.vertices) (outcome_at cert.now.events) r.now
        (reply_of result) }
{
    match version.leaf(r, steps) {
        Some(path) => leaf_answer(cert, path),
        None => Answer::Beyond,
    }
}

// What the leaf at the path answers.
fn leaf_answer(cert: &Cert, path: Path) -> Answer<'_>
    ensures { reply_of result ≡ reply_by (outcome_at cert.now.events path) }
{
    match cert.outcome(path) {
        Some(outcome) => Answer::of(outcome),
        None => Answer::Undecided(None),
    }
}

// Appends the line of the answers that the polygon meets, in whichever certificate the version was built of.
fn put_polygon(alloc: Global, text: &mut Bytes, version: &Version, q: &Cell) -> Result<(), NoMemory>
    requires few { length q.now ≤ 16 }
    ensures { (c : CertView) → IsBuilt c version.now →
        OnOk result (AddsReply c (AsksPolygon q.now) text.old text.new) }
{
    let met = version.meet(alloc, q)?;
    put(text, &Said::Polygon(met))
}

// Appends the line of what is said.
fn put(text: &mut Bytes, said: &Said) -> Result<(), NoMemory>
    ensures { OnOk result (text.new ≡ text.old ++ said_text said.now) }
{
    match put_said(text, said) {
        Ok(()) => Ok(()),
        Err(_) => Err(NoMemory),
    }
}
