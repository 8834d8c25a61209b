// A walk over the nodes of a certificate, which come in preorder, one by one.
ghost use Rattle.std.specs.Prelude.{◌≡◌, ◌<◌, ◌+◌, ℕ, length, OnOk};
ghost use Rattle.srs_plane.specs.Polygons.{region_of};
ghost use Rattle.srs_tree.specs.Tree.{History};
ghost use Rattle.srs_cert.specs.Certificates.{CertView, IsCertificate};
ghost use Rattle.srs_check.specs.Budgets.{CountsRows};
ghost use Rattle.srs_check.specs.Faults.{IsChecked};
ghost use Rattle.srs_check.specs.Certified.{Certifies};
ghost use Rattle.srs_check.specs.Walks.{Notes, IsFirstUnspent, IsSooner, Come, HasCome};

use crate::nodes::{Tested, test_node};
use crate::tally::{Rows, Tally, spends_cells};
use crate::waiting::Waiting;
use crate::{Checked, Fault};
use srs_cell::Cell;
use srs_num::NoMemory;
use srs_path::{Limits, Outcome};
use std::alloc::Global;

// What is known of a certificate some nodes of which were met. A node is tested as it comes, but
// for one thing: whether the number of cells is spent is known once all nodes are counted. So of
// the leaves that are left for that the first of each depth is kept.
#[derive(Drop)]
pub(crate) struct Walk {
    // The cells of the nodes to come, until a node fails.
    pub waiting: Waiting<Cell>,
    pub tally: Tally,
    // For each depth the line of the first leaf that is left for the number of cells, or 0.
    pub left: Rows,
    // The line of the first node that failed its test, and its fault.
    pub failed: Option<(u32, Fault)>,
}

impl Walk {
    // Before the first node, whose cell is the root.
    pub(crate) fn of(alloc: Global, root: Cell) -> Walk
        ensures { (c : CertView) → IsCertificate c → root ≡ region_of c.vertices →
            HasCome c 0 result }
    {
        Walk {
            waiting: Waiting::of(alloc, root),
            tally: Tally::new(),
            left: [0; 49],
            failed: None,
        }
    }

    // The next node, which begins on this line. After a node that failed no cell is computed.
    pub(crate) fn node(
        &mut self,
        alloc: Global,
        limits: &Limits,
        line: u32,
        depth: u32,
        outcome: &Outcome,
    ) -> Result<(), NoMemory>
        requires { (c : CertView) × (i : ℕ) × Come c i limits.now line depth outcome.now self.old }
        ensures { OnOk result ((c : CertView) (i : ℕ) →
            Come c i limits.now line depth outcome.now self.old → HasCome c (i + 1) self.new) }
    {
        self.tally.add(depth, outcome);
        if self.failed.is_some() {
            return Ok(());
        }
        let Some(cell) = self.waiting.take() else {
            unreachable!()
        };
        match test_node(alloc, limits, &cell, depth, outcome)? {
            Tested::Leaf => {}
            Tested::Divided(ge, lt) => self.waiting.divide(ge, lt),
            Tested::Unsettled => note(&mut self.left, depth, line),
            Tested::Wrong(fault) => self.failed = Some((line, fault)),
        }
        Ok(())
    }

    // What a check answers, after the last node.
    pub(crate) fn end(self, limits: &Limits) -> Checked
        ensures checked { (c : CertView) → IsCertificate c → c.limits ≡ limits.now →
            HasCome c (length c.events) self → IsChecked c result × Certifies c result }
    {
        if let Some(line) = first_unspent(limits, &self.tally.rows, &self.left) {
            return Checked::Bad(line, Fault::NoBudget);
        }
        match self.failed {
            Some((line, fault)) => Checked::Bad(line, fault),
            None => Checked::Valid(self.tally.counts),
        }
    }
}

// The line stands for the depth, if none does yet.
fn note(left: &mut Rows, depth: u32, line: u32)
    requires { depth < 49 }
    ensures { Notes left.old depth line left.new }
{
    if left[depth as usize] == 0 {
        left[depth as usize] = line;
    }
}

// The least line that stands for a depth at which the number of cells isn't spent.
fn first_unspent(limits: &Limits, rows: &Rows, left: &Rows) -> Option<u32>
    ensures { (H : History) → CountsRows H rows.now →
        IsFirstUnspent limits.now H left.now 49 result }
{
    let mut first = None;
    for depth in 0..49u32 {
        let line = left[depth as usize];
        if line != 0 && !spends_cells(limits, rows, depth) {
            first = Some(sooner(first, line));
        }
    }
    first
}

// The lesser of the two lines.
fn sooner(first: Option<u32>, line: u32) -> u32
    ensures { IsSooner first line result }
{
    match first {
        Some(other) => other.min(line),
        None => line,
    }
}
