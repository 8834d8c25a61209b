// The book that lies in the turn of an atlas.
ghost use Rattle.std.specs.Prelude.{◌≡◌, ◌≤◌, [], ◌∷◌, ◌++◌, length, IfOk};
ghost use Rattle.srs_turn.specs.Prefixes.{AddsAtMostOne};
ghost use Rattle.srs_tree.specs.Snapshots.{StandsFor};
ghost use Rattle.srs_atlas.specs.Books.{AreTerms, IsLawful, waiting_in};
ghost use Rattle.srs_atlas.specs.Counting.{AreCounts};
ghost use Rattle.srs_atlas.specs.Commits.{IsPrepared, Commits};

use crate::commits::{Commit, refused};
use crate::counts::{Counts, counts_of};
use crate::frontier::{Frontier, paths_of};
use srs_cell::Cell;
use srs_num::NoMemory;
use srs_path::{Event, Finding, Limits, Path};
use srs_plane::Region;
use srs_tree::{Ahead, GrowingTree, Journal, PendingList, Version};
use srs_turn::Told;
use std::alloc::Global;
use std::marker::Model;

/// What no operation on an atlas changes: the root region, the most witnesses of a cell, and the
/// plan, if there is one. No value of it is made.
pub struct Terms {
    pub root: Region,
    pub w: u32,
    pub plan: Option<Limits>,
}

/// A history, with the tree that stands for it, and the cells that wait.
#[derive(Drop)]
pub struct Book {
    tree: GrowingTree,
    frontier: Frontier,
    events: Vec<Event>,
    w: u32,
    plan: Option<Limits>,
}

impl Model for Book {
    ghost use Rattle.srs_atlas.specs.Books.{BookView, IsBook, terms_of};

    ghost Value = { BookView };

    ghost view = { λ b. record { history = b.events.items; terms = terms_of b.tree b.w b.plan } };

    ghost invariant = { λ b. IsBook (terms_of b.tree b.w b.plan) b.events.items b.tree b.frontier };
}

impl Told for Book {
    type Entry = Event;

    type Fixed = Terms;

    ghost told = { λ b. b.history };

    ghost fixed = { λ b. b.terms };

    fn count(&self) -> u64 {
        self.events.len() as u64
    }
}

impl Book {
    // The book of the cell without an event, for a cell of at most 16 halves. An `Err` is want of memory.
    pub(crate) fn new(
        alloc: Global,
        cell: Cell,
        w: u32,
        plan: &Option<Limits>,
    ) -> Result<Book, NoMemory>
        requires few { length cell ≤ 16 }
        requires terms { AreTerms (record { root = cell; w = w; plan = plan.now }) }
        ensures history { IfOk result (λ b. b.history ≡ []) }
        ensures terms { IfOk result
            (λ b. b.terms ≡ record { root = cell; w = w; plan = plan.now }) }
    {
        let tree = GrowingTree::start(alloc, cell)?;
        let mut frontier = Frontier::new(alloc);
        frontier.push(tree.root()?)?;
        Ok(Book {
            tree,
            frontier,
            events: Vec::new(alloc),
            w,
            plan: *plan,
        })
    }

    // The finding comes to the cell at the path, with what was made of it ahead. All memory is taken
    // before anything changes.
    pub(crate) fn enter(&mut self, alloc: Global, path: Path, f: Finding, ahead: Ahead) -> Commit
        requires { IsPrepared self.old.terms self.old.history path f ahead.parts }
        ensures did { Commits self.old.terms path f self.old.history result self.new.history }
        ensures grown { AddsAtMostOne self.old.history self.new.history }
        ensures terms { self.new.terms ≡ self.old.terms }
    {
        // A finding is sound.
        let _ = f.w();
        if self.events.reserve(1).is_err() {
            return Commit::NoMemory(f);
        }
        let prepared = match self.tree.prepare(alloc, path, f, ahead) {
            Ok(prepared) => prepared,
            Err(refusal) => return refused(refusal),
        };
        if self.frontier.push_parts(&prepared.parts).is_err() {
            return Commit::NoMemory(prepared.finding);
        }
        let pushed = paths_of(&prepared.parts);
        match self.tree.enter_prepared(alloc, path, prepared) {
            Ok(outcome) => {
                self.frontier.remove(&path);
                self.events.push_reserved(Event { path, outcome });
                Commit::Done(self.events.len() as u64)
            }
            Err(f) => {
                self.frontier.remove_parts(&pushed);
                Commit::NoMemory(f)
            }
        }
    }

    // The version, shared. An `Err` is want of memory.
    pub(crate) fn share(&self, alloc: Global) -> Result<Version, NoMemory>
        ensures version { IfOk result (StandsFor self.now.terms.root self.now.history) }
        ensures lawful { IsLawful self.now.terms self.now.history }
    {
        self.tree.version(alloc)
    }

    // The cells that wait, shared. An `Err` is want of memory.
    pub(crate) fn list(&self, alloc: Global) -> Result<PendingList, NoMemory>
        ensures cells { IfOk result
            (λ list. list ≡ waiting_in self.now.terms.root self.now.history) }
        ensures lawful { IsLawful self.now.terms self.now.history }
    {
        self.frontier.list(alloc)
    }

    // How many cells there are down to a round, and in it.
    pub(crate) fn counts(&self, round: u32) -> Counts
        ensures counts { AreCounts self.now.history round result }
        ensures lawful { IsLawful self.now.terms self.now.history }
    {
        counts_of(&self.events, round)
    }

    // The version and the history. It takes no memory.
    pub(crate) fn close(self) -> (Version, Journal)
        ensures history { result.1 ≡ self.history }
        ensures version { StandsFor self.terms.root self.history result.0 }
        ensures lawful { IsLawful self.terms self.history }
    {
        let Book { tree, events, .. } = self;
        (tree.finish(), Journal::of(events))
    }
}
