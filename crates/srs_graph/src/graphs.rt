// The graph of a cell's witnesses.
ghost use Rattle.std.specs.Prelude.{IfOk, MatchOption};
ghost use Rattle.srs_plane.specs.Regions.{Area};
ghost use Rattle.srs_path.specs.Witnesses.{IsSmall};
ghost use Rattle.srs_path.specs.Core.{HasCore, HasNoCore, AreRanks};
ghost use Rattle.srs_path.specs.ChosenCycle.{IsChosen};
ghost use Rattle.srs_wit.specs.Listing.{AreAllWitnesses};
ghost use Rattle.srs_graph.specs.Networks.{network, IsNetwork, IsGraph};
ghost use Rattle.srs_graph.specs.Listings.{AreTheCore};
ghost use Rattle.srs_path.specs.declared.limits.TheConstants.{MOST_WITNESSES};

use crate::listing::{numbers, open_pairs};
use crate::peeling::peel;
use crate::rows::{Row, rows_of};
use crate::walks::{entries, first_open, walk};
use srs_cell::Cell;
use srs_num::{NoMemory, Pairs, V2};
use srs_path::{Cycle, Ranks};
use srs_wit::WitSet;
use std::alloc::Global;
use std::marker::Model;

/// The witnesses of a cell, strictly ascending, and the edges between them: for each pair a row of
/// the places of its successors, which stand side by side.
#[derive(Drop)]
pub struct Graph {
    pairs: Vec<V2>,
    rows: Vec<Row>,
}

impl Model for Graph {
    ghost use Rattle.srs_graph.specs.Networks.{Network, network, IsNetwork};

    ghost Value = { Network };

    ghost view = { λ g. network g.pairs.items g.rows.items };

    ghost invariant = { λ g. IsNetwork (network g.pairs.items g.rows.items) };
}

impl Graph {
    /// The graph of the cell, for the set of its witnesses. The cell is small for `MOST_WITNESSES` witnesses.
    pub fn of(alloc: Global, cell: &Cell, set: &WitSet) -> Result<Graph, NoMemory>
        requires small { IsSmall cell.now MOST_WITNESSES }
        requires all { AreAllWitnesses cell.now set.now }
        ensures { IfOk result (IsGraph cell.now) }
    {
        let rows = rows_of(alloc, cell, set.as_slice())?;
        let pairs = Vec::from_slice(alloc, set.as_slice())?;
        Ok(Graph { pairs, rows })
    }

    /// The core, strictly ascending.
    pub fn core(&self, alloc: Global) -> Result<Pairs, NoMemory>
        ensures { (R : Area) → IsGraph R self.now → IfOk result (AreTheCore R) }
    {
        core_of(alloc, &self.pairs, &self.rows)
    }

    /// All witnesses with their ranks. `None` exactly where the core isn't empty.
    pub fn ranks(&self, alloc: Global) -> Result<Option<Ranks>, NoMemory>
        ensures { (R : Area) → IsGraph R self.now → IfOk result
            (λ found. MatchOption found (HasCore R) (λ ranks. HasNoCore R × AreRanks R ranks)) }
    {
        ranks_of(alloc, &self.pairs, &self.rows)
    }

    /// The chosen cycle. `None` exactly where the core is empty.
    pub fn cycle(&self, alloc: Global) -> Result<Option<Cycle>, NoMemory>
        ensures { (R : Area) → IsGraph R self.now → IfOk result
            (λ found. MatchOption found (HasNoCore R) (λ cycle. HasCore R × IsChosen R cycle)) }
    {
        cycle_of(alloc, &self.pairs, &self.rows)
    }
}

// The core of a graph.
fn core_of(alloc: Global, pairs: &[V2], rows: &[Row]) -> Result<Pairs, NoMemory>
    requires { IsNetwork (network pairs.now rows.now) }
    ensures { (R : Area) → IsGraph R (network pairs.now rows.now) → IfOk result (AreTheCore R) }
{
    let marks = peel(alloc, pairs, rows)?;
    open_pairs(alloc, pairs, &marks)
}

// The ranks of a graph with no core.
fn ranks_of(alloc: Global, pairs: &[V2], rows: &[Row]) -> Result<Option<Ranks>, NoMemory>
    requires { IsNetwork (network pairs.now rows.now) }
    ensures { (R : Area) → IsGraph R (network pairs.now rows.now) → IfOk result
        (λ found. MatchOption found (HasCore R) (λ ranks. HasNoCore R × AreRanks R ranks)) }
{
    let marks = peel(alloc, pairs, rows)?;
    match numbers(alloc, &marks)? {
        Some(ranks) => Ok(Ranks::of(Pairs::from_slice(alloc, pairs)?, ranks)),
        None => Ok(None),
    }
}

// The chosen cycle of a graph with a core.
fn cycle_of(alloc: Global, pairs: &[V2], rows: &[Row]) -> Result<Option<Cycle>, NoMemory>
    requires { IsNetwork (network pairs.now rows.now) }
    ensures { (R : Area) → IsGraph R (network pairs.now rows.now) → IfOk result
        (λ found. MatchOption found (HasNoCore R) (λ cycle. HasCore R × IsChosen R cycle)) }
{
    let marks = peel(alloc, pairs, rows)?;
    match first_open(&marks, 0, marks.len()) {
        Some(first) => {
            let round = walk(alloc, rows, &marks, first)?;
            Ok(Cycle::of(entries(alloc, pairs, &round.path, round.from)?))
        }
        None => Ok(None),
    }
}
