// The numbers of nodes by their depth and by their kind.
ghost use Rattle.std.specs.Prelude.{◌≡◌, ◌<◌, ◌≤◌, ◌+◌, ◌^◌, ◌↔◌, ℕ, length, slice_get, Some, IsTrue};
ghost use Rattle.srs_path.specs.Views.{IsBudget, Entry};
ghost use Rattle.srs_tree.specs.Tree.{History};
ghost use Rattle.srs_cert.specs.Certificates.{IsCertificate};
ghost use Rattle.srs_check.specs.Budgets.{SpendsCells, CountsRows};
ghost use Rattle.srs_check.specs.Faults.{counts_of};
ghost use Rattle.srs_check.specs.Tallies.{IsTallied, HasRoomFor, IsNode};

use crate::Counts;
use srs_cert::Cert;
use srs_path::{Limits, Outcome};

// A number for each depth.
pub(crate) type Rows = [u32; 49];

// How many nodes there are of each depth, and of each kind.
#[derive(Drop)]
pub(crate) struct Tally {
    pub rows: Rows,
    pub counts: Counts,
}

impl Tally {
    // No node.
    pub(crate) fn new() -> Tally
        ensures { (H : History) → IsTallied H 0 result }
    {
        Tally {
            rows: [0; 49],
            counts: Counts {
                cells: 0,
                inside: 0,
                outside: 0,
                cut: 0,
                left: 0,
            },
        }
    }

    // One node more.
    pub(crate) fn add(&mut self, depth: u32, outcome: &Outcome)
        requires few { HasRoomFor self.old depth }
        ensures { (H : History) (i : ℕ) → IsNode H i depth outcome.now → IsTallied H i self.old →
            IsTallied H (i + 1) self.new }
    {
        self.rows[depth as usize] += 1;
        self.counts.cells += 1;
        match outcome {
            Outcome::Inside(_) => self.counts.inside += 1,
            Outcome::Outside(_) => self.counts.outside += 1,
            Outcome::Cut(_) => self.counts.cut += 1,
            Outcome::Left(_) => self.counts.left += 1,
        }
    }
}

// How many nodes there are.
pub(crate) fn node_count(c: &Cert) -> u32
    ensures count { result ≡ length c.now.events }
    ensures few { result ≤ 65536 }
    ensures certificate { IsCertificate c.now }
    ensures budget { IsBudget c.now.limits }
{
    // There are at most as many as the limits allow.
    let _ = c.limits().cells();
    c.events().len() as u32
}

// The numbers of all nodes.
pub(crate) fn tally_of(c: &Cert) -> Tally
    ensures rows { CountsRows c.now.events result.rows }
    ensures counts { result.counts ≡ counts_of c.now.events }
{
    let mut tally = Tally::new();
    for i in 0..node_count(c) {
        let event = c.events().get(i as u64);
        tally.add(event.path.len(), event.outcome.as_ref());
    }
    tally
}

/// How many nodes there are, and how many of each kind.
pub fn count_nodes(c: &Cert) -> Counts
    ensures { result ≡ counts_of c.now.events }
{
    tally_of(c).counts
}

// Whether the number of cells is spent at the depth: with two more for each of its nodes there are too many.
pub(crate) fn spends_cells(limits: &Limits, rows: &Rows, depth: u32) -> bool
    ensures { (H : History) → CountsRows H rows.now →
        (IsTrue result ↔ SpendsCells limits.now H depth) }
{
    if depth >= limits.depth() {
        return false;
    }
    let mut nodes = rows[0] as u64;
    for k in 0..depth {
        nodes += rows[k as usize + 1] as u64;
    }
    nodes + 2 * rows[depth as usize] as u64 > limits.cells() as u64
}
