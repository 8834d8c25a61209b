// Questions, read line by line.
ghost use Rattle.std.specs.Prelude.{◌≡◌, ◌≢◌, ◌↔◌, ◌<◌, ◌++◌, [], ◌∷◌, ℕ, pos, IsTrue, IfOk, IfErr};
ghost use Rattle.std.specs.Prelude.{IfSome, IfNone, OnOk, codes};
ghost use Rattle.srs_num.specs.declared.pairs.V2.{V2};
ghost use Rattle.srs_num.specs.Points.{Point};
ghost use Rattle.srs_plane.specs.Polygons.{region_of};
ghost use Rattle.srs_tree.specs.declared.queries.Query.{Query as Asked};
ghost use Rattle.srs_tree.specs.declared.queries.Query.TheVariants.{Polygon};
ghost use Rattle.srs_line.specs.Refusal.{IsSlip};
ghost use Rattle.srs_file.specs.Ring.{IsFull, no_ring, IsOpenSlip, SlipsVertex};
ghost use Rattle.srs_file.specs.Questions.{orbit_numbers};
ghost use Rattle.srs_tree.specs.Questions.{IsOrbitAsked, IsAskable};
ghost use Rattle.srs_file.specs.QuestionReading.{no_questions, AddsQuery, SaysPlace, IsPlaceSlip};
ghost use Rattle.srs_file.specs.QuestionReading.{SaysOrbit, IsOrbitSlip, StepsPoint, StepsRegion};
ghost use Rattle.srs_file.specs.QuestionReading.{StepsOrbit, StepsVertex, TakesQuestion};
ghost use Rattle.srs_file.specs.QuestionReading.{SlipsQuestion, AsksByWord, TakesInSession};
ghost use Rattle.srs_file.specs.QuestionReading.{SlipsInSession};

use crate::Ring;
use crate::polygon_reader::inhabited;
use srs_line::{LineErr, Slip, has_word, six, three};
use srs_map::{MOST_STEPS, is_narrow};
use srs_num::{Pt, V2};
use srs_tree::{Queries, Query};
use std::alloc::Global;

/// Questions while their lines are read: the ring of a polygon that is asked about, and the questions so far.
#[derive(Drop)]
pub struct Questions {
    pub ring: Ring,
    pub queries: Queries,
}

impl Questions {
    /// No question. It takes no memory.
    pub fn new(alloc: Global) -> Questions
        ensures { result ≡ no_questions }
    {
        Questions {
            ring: Ring::new(alloc),
            queries: Queries::new(alloc),
        }
    }

    /// Whether a vertex is still to come. It must come before anything else.
    pub fn wants_more(&self) -> bool
        ensures { IsTrue result ↔ (0 < self.now.ring.left) }
    {
        self.ring.wants_more()
    }

    /// Takes the next line: of a vertex where one is to come, and else of a question. An `Err` may
    /// leave any questions.
    pub fn take(&mut self, line: &[u8]) -> Result<(), LineErr>
        ensures ok { OnOk result (TakesQuestion self.old line.now self.new) }
        ensures err { IfErr result (IsSlip (SlipsQuestion self.old line.now)) }
    {
        if self.wants_more() {
            return self.vertex(line);
        }
        if has_word(line, b"point") {
            return self.point(line);
        }
        if has_word(line, b"region") {
            return self.region(line);
        }
        if has_word(line, b"orbit") {
            return self.orbit(line);
        }
        Err(LineErr::Slip(Slip::Word, 0))
    }

    /// Takes the next line in a session, where `fresh` and `count` ask too. An `Err` may leave any questions.
    pub fn take_in_session(&mut self, line: &[u8]) -> Result<(), LineErr>
        ensures ok { OnOk result (TakesInSession self.old line.now self.new) }
        ensures err { IfErr result (IsSlip (SlipsInSession self.old line.now)) }
    {
        if self.wants_more() {
            return self.take(line);
        }
        match asked_by_word(line) {
            Some(query) => self.ask(query),
            None => self.take(line),
        }
    }

    fn vertex(&mut self, line: &[u8]) -> Result<(), LineErr>
        requires { 0 < self.old.ring.left }
        ensures ok { OnOk result (StepsVertex self.old line.now self.new) }
        ensures err { IfErr result (IsSlip (SlipsVertex self.old.ring line.now)) }
    {
        self.ring.take(line)?;
        if self.ring.wants_more() {
            return Ok(());
        }
        self.close()
    }

    // The ring is whole: its polygon is asked about.
    fn close(&mut self) -> Result<(), LineErr>
        requires { IsFull self.old.ring }
        ensures ok { OnOk result
            (AddsQuery (record self.old { ring = no_ring })
            (Polygon (region_of self.old.ring.vertices)) self.new) }
        ensures err { IfErr result (IsSlip (λ slip back. ⊥)) }
    {
        let Some(region) = self.ring.close() else {
            unreachable!();
        };
        let cell = inhabited(self.ring.alloc(), region)?;
        self.ask(Query::Polygon(cell))
    }

    fn point(&mut self, line: &[u8]) -> Result<(), LineErr>
        ensures ok { OnOk result (StepsPoint self.old line.now self.new) }
        ensures err { IfErr result (IsSlip (λ slip back. IsPlaceSlip line.now slip × (back ≡ 0))) }
    {
        self.ask(Query::Point(place(line)?))
    }

    fn region(&mut self, line: &[u8]) -> Result<(), LineErr>
        ensures ok { OnOk result (StepsRegion self.old line.now self.new) }
        ensures err { IfErr result
            (IsSlip (λ slip back. IsOpenSlip (codes "region") line.now slip × (back ≡ 0))) }
    {
        Ok(self.ring.open(b"region", line)?)
    }

    fn orbit(&mut self, line: &[u8]) -> Result<(), LineErr>
        ensures ok { OnOk result (StepsOrbit self.old line.now self.new) }
        ensures err { IfErr result (IsSlip (λ slip back. IsOrbitSlip line.now slip × (back ≡ 0))) }
    {
        let (r, pair, steps) = orbit(line)?;
        self.ask(Query::Orbit(r, pair, steps))
    }

    // Puts the question at the end.
    fn ask(&mut self, query: Query) -> Result<(), LineErr>
        requires { IsAskable query }
        ensures ok { OnOk result (AddsQuery self.old query self.new) }
        ensures err { IfErr result (IsSlip (λ slip back. ⊥)) }
    {
        // Each question so far is askable.
        let _ = self.queries.len();
        let Ok(()) = self.queries.push(query) else {
            return Err(LineErr::NoMemory);
        };
        Ok(())
    }
}

// The question that the line asks by its one word.
fn asked_by_word(line: &[u8]) -> Option<Query>
    ensures some { IfSome result (AsksByWord line.now) }
    ensures none { IfNone result ((query : Asked) → AsksByWord line.now query → ⊥) }
{
    if line == b"fresh".as_slice() {
        return Some(Query::Fresh);
    }
    if line == b"count".as_slice() {
        return Some(Query::Count);
    }
    None
}

// Reads the line of a point that is asked about.
fn place(line: &[u8]) -> Result<Pt, Slip>
    ensures ok { IfOk result (λ r. SaysPlace r line.now) }
    ensures err { IfErr result (IsPlaceSlip line.now) }
{
    let said = three(line, b"point")?;
    match Pt::new(said.0, said.1, said.2) {
        Some(r) => Ok(r),
        None => Err(Slip::Range),
    }
}

// Reads the line of an orbit that is asked about: the parameter, the pair, and how many steps.
fn orbit(line: &[u8]) -> Result<(Pt, V2, u32), Slip>
    ensures ok { IfOk result (λ o. SaysOrbit o.0 o.1 o.2 line.now) }
    ensures err { IfErr result (IsOrbitSlip line.now) }
{
    let said = six(line, b"orbit")?;
    match orbit_of(&said) {
        Some(orbit) => Ok(orbit),
        None => Err(Slip::Range),
    }
}

// The six numbers as an orbit that may be asked about.
fn orbit_of(said: &(i64, i64, i64, i64, i64, i64)) -> Option<(Pt, V2, u32)>
    ensures some { IfSome result
        (λ o. IsOrbitAsked o.0 o.1 o.2 ×
        (said.now.0 ∷ said.now.1 ∷ said.now.2 ∷ said.now.3 ∷ said.now.4 ∷ said.now.5 ∷ [] ≡
        orbit_numbers o.0 o.1 (pos o.2))) }
    ensures none { IfNone result ((r : Point) (z : V2) (n : ℕ) → IsOrbitAsked r z n →
        said.now.0 ∷ said.now.1 ∷ said.now.2 ∷ said.now.3 ∷ said.now.4 ∷ said.now.5 ∷ [] ≢
        orbit_numbers r z (pos n)) }
{
    let (p, q, d, a, b, steps) = *said;
    let r = Pt::new(p, q, d)?;
    let pair = V2 { a, b };
    if !r.near() || !is_narrow(pair) || steps < 0 || steps > i64::from(MOST_STEPS) {
        return None;
    }
    Some((r, pair, steps as u32))
}
