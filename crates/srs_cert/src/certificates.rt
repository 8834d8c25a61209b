// Certificates.
ghost use Rattle.std.specs.Prelude.{◌≡◌, ◌<◌, ◌≤◌, [], ◌∷◌, ◌++◌, length, slice_get, IsTrue, ◌↔◌};
ghost use Rattle.std.specs.Prelude.{IfOk, OnOk, All, None, Some, IfNone, IfSome, MatchOption};
ghost use Rattle.srs_num.specs.Points.{LinearForm};
ghost use Rattle.srs_plane.specs.Polygons.{IsPolygon, IsCounted};
ghost use Rattle.srs_path.specs.declared.outcomes.Outcome.TheVariants.{Cut};
ghost use Rattle.srs_path.specs.Views.{Entry};
ghost use Rattle.srs_tree.specs.Tree.{outcome_at};
ghost use Rattle.srs_tree.specs.WholeTrees.{ListsWholeTree, IsWithin};
ghost use Rattle.srs_cert.specs.Heights.{height};
ghost use Rattle.srs_cert.specs.Certificates.{line_of_node, IsInRange, IsCertificate, ListsLines};
ghost use Rattle.srs_cert.specs.Certificates.{StandsAt, ListsLtParts};

use srs_num::NoMemory;
use srs_path::{Limits, Outcome, Path, Side};
use srs_plane::{Vertex, Vertices};
use srs_tree::Journal;
use std::alloc::Global;
use std::marker::Model;

/// A polygon, limits, and the events of a whole tree within them in preorder. Beside them it keeps
/// the line of each node in its text, and for each cut the place at which the events of its Lt part
/// begin.
#[derive(Drop)]
pub struct Cert {
    vertices: Vertices,
    limits: Limits,
    events: Journal,
    lines: Vec<u32>,
    lt_parts: Vec<u32>,
}

impl Model for Cert {
    ghost use Rattle.srs_cert.specs.Certificates.{CertView, IsKept};

    ghost Value = { CertView };

    ghost view = { λ c. record { vertices = c.vertices; limits = c.limits; events = c.events } };

    ghost invariant = { λ c. IsKept (record { vertices = c.vertices; limits = c.limits; events = c.events }) c.lines.items c.lt_parts.items };
}

impl Cert {
    /// The certificate of a polygon's vertices, limits, and the events of a whole tree within them
    /// in preorder. An `Err` is want of memory.
    pub fn new(
        alloc: Global,
        vertices: &[Vertex],
        limits: Limits,
        events: Journal,
    ) -> Result<Cert, NoMemory>
        requires polygon { IsPolygon vertices.now }
        requires tree { ListsWholeTree events }
        requires within { IsWithin limits events }
        ensures { IfOk result
            (λ c. c ≡ record { vertices = vertices.now; limits = limits; events = events }) }
    {
        // Limits are in their ranges.
        let _ = limits.wits();
        let lines = lines_of(alloc, vertices, &limits, &events)?;
        let lt_parts = lt_parts_of(alloc, &events)?;
        Ok(Cert {
            vertices: copied(alloc, vertices)?,
            limits,
            events,
            lines,
            lt_parts,
        })
    }

    /// The vertices as they were written. It takes no memory.
    pub fn vertices(&self) -> &[Vertex]
        ensures { result.now ≡ self.now.vertices }
    {
        self.vertices.as_slice()
    }

    pub fn limits(&self) -> Limits
        ensures { result ≡ self.now.limits }
    {
        self.limits
    }

    /// The events in preorder.
    pub fn events(&self) -> &Journal
        ensures events { result.now ≡ self.now.events }
        ensures certificate { IsCertificate self.now }
    {
        &self.events
    }

    /// The line on which the node number `i` begins in the certificate's text. Nodes count from 0,
    /// lines from 1.
    pub fn line(&self, i: u32) -> u32
        requires { i < length self.now.events }
        ensures { result ≡ line_of_node self.now i }
    {
        self.lines[i as usize]
    }

    /// The outcome of the node at the path. `None` exactly where no node has that path. It goes
    /// down from the root by the places of the parts, and takes no memory.
    pub fn outcome(&self, path: Path) -> Option<&Outcome>
        ensures { MatchOption result (outcome_at self.now.events path ≡ None)
            (λ o. outcome_at self.now.events path ≡ Some o.now) }
    {
        let events = self.events();
        let mut place = 0;
        for k in 0..path.len() {
            place = self.part(place, path.side(k))?;
        }
        Some(events.get(place as u64).outcome.as_ref())
    }

    // The place of the part on this side of the cut at the place `i`. `None` exactly where there is no cut.
    fn part(&self, i: u32, s: Side) -> Option<u32>
        requires { i < length self.now.events }
        ensures none { IfNone result
            ((e : Entry) (h : LinearForm) → slice_get self.now.events i ≡ Some e → e.outcome ≡
            Cut h → ⊥) }
        ensures part { IfSome result
            (λ j. (e : Entry) → slice_get self.now.events i ≡ Some e →
            StandsAt self.now.events (e.path ++ s ∷ []) j) }
    {
        // There are at most as many events as the limits allow.
        let _ = self.limits.cells();
        if !is_cut(&self.events.get(i as u64).outcome) {
            return None;
        }
        match s {
            Side::Ge => Some(i + 1),
            Side::Lt => Some(self.lt_parts[i as usize]),
        }
    }
}

// The same vertices, in memory of their own.
fn copied(alloc: Global, vertices: &[Vertex]) -> Result<Vertices, NoMemory>
    ensures { IfOk result (λ copy. copy ≡ vertices.now) }
{
    let mut copy = Vertices::new(alloc);
    for vertex in vertices {
        if copy.push(*vertex).is_err() {
            return Err(NoMemory);
        }
    }
    Ok(copy)
}

// The line of each node.
fn lines_of(
    alloc: Global,
    vertices: &[Vertex],
    limits: &Limits,
    events: &Journal,
) -> Result<Vec<u32>, NoMemory>
    requires counted { IsCounted vertices.now }
    requires within { IsWithin limits.now events.now }
    ensures lines { IfOk result
        (λ lines. ListsLines
        (record { vertices = vertices.now; limits = limits.now; events = events.now })
        lines.items) }
    ensures ranges { OnOk result (All (λ e. IsInRange e.outcome) events.now) }
{
    // The number of lines is bounded by these.
    let _ = limits.wits();
    let mut lines = Vec::with_capacity(alloc, events.len() as usize)?;
    let mut line = vertices.len() as u32 + 4;
    for i in 0..events.len() {
        if lines.push(line).is_err() {
            return Err(NoMemory);
        }
        line += height_of(&events.get(i).outcome);
    }
    Ok(lines)
}

// How many lines the outcome has; its numbers are in their ranges.
fn height_of(outcome: &Outcome) -> u32
    ensures height { result ≡ height outcome.now }
    ensures range { IsInRange outcome.now }
{
    match outcome {
        Outcome::Inside(ranks) => ranks.len() + 1,
        Outcome::Outside(cycle) => {
            let _ = cycle.len();
            1
        }
        Outcome::Cut(form) => {
            let _ = form.parts();
            1
        }
        Outcome::Left(_) => 1,
    }
}

// For each cut the place at which the events of its Lt part begin; for a leaf 0.
fn lt_parts_of(alloc: Global, events: &Journal) -> Result<Vec<u32>, NoMemory>
    requires tree { ListsWholeTree events.now }
    requires short { length events.now ≤ 65536 }
    ensures { IfOk result (λ places. ListsLtParts events.now places.items) }
{
    let mut places = Vec::with_capacity(alloc, events.len() as usize)?;
    // The cuts whose Lt part is still to come.
    let mut open: Vec<u32> = Vec::new(alloc);
    for i in 0..events.len() {
        if places.push(0).is_err() {
            return Err(NoMemory);
        }
        if is_cut(&events.get(i).outcome) {
            if open.push(i as u32).is_err() {
                return Err(NoMemory);
            }
        } else if let Some(cut) = open.pop() {
            places[cut as usize] = i as u32 + 1;
        }
    }
    Ok(places)
}

fn is_cut(outcome: &Outcome) -> bool
    ensures yes { IsTrue result → (h : LinearForm) × (outcome.now ≡ Cut h) }
    ensures no { ¬ (IsTrue result) → (h : LinearForm) → outcome.now ≡ Cut h → ⊥ }
{
    match outcome {
        Outcome::Cut(_) => true,
        Outcome::Inside(_) | Outcome::Outside(_) | Outcome::Left(_) => false,
    }
}
