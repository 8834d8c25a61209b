// What is gathered while a tree is read: the paths that wait, and the events.
ghost use Rattle.std.specs.Prelude.{◌≡◌, ◌↔◌, ◌++◌, [], ◌∷◌, IsTrue, IfOk, IfErr, OnOk, MatchOption};
ghost use Rattle.std.specs.Arc.{arc_value};
ghost use Rattle.srs_path.specs.declared.outcomes.Outcome.TheVariants.{Left};
ghost use Rattle.srs_line.specs.Refusal.{IsSlip};
ghost use Rattle.srs_file.specs.TreeReading.{at_path};

use srs_line::LineErr;
use srs_path::{Cause, Event, Outcome, Path};
use srs_tree::Journal;
use std::alloc::Global;
use std::marker::Model;
use std::sync::Arc;

/// Paths that wait, seen as the list of them, the next one first.
#[derive(Drop)]
pub struct PathStack {
    paths: Vec<Path>,
}

impl Model for PathStack {
    ghost use Rattle.std.specs.Prelude.{List, reverse};
    ghost use Rattle.srs_path.specs.declared.paths.Side.{Side};

    ghost Value = { List (List Side) };

    ghost view = { λ s. reverse s.paths.items };
}

impl PathStack {
    /// No path. It takes no memory.
    pub fn new(alloc: Global) -> PathStack
        ensures { result ≡ [] }
    {
        PathStack {
            paths: Vec::new(alloc),
        }
    }

    pub fn is_empty(&self) -> bool
        ensures { IsTrue result ↔ (self.now ≡ []) }
    {
        self.paths.is_empty()
    }

    /// The path is the next one then. An `Err` is want of memory.
    pub fn push(&mut self, path: Path) -> Result<(), LineErr>
        ensures ok { OnOk result (self.new ≡ path ∷ self.old) }
        ensures err { IfErr result (IsSlip (λ slip back. ⊥)) }
    {
        Ok(self.paths.push(path)?)
    }

    /// The next path, which waits no longer.
    pub fn pop(&mut self) -> Option<Path>
        ensures { MatchOption result (self.old ≡ []) (λ path. self.old ≡ path ∷ self.new) }
    {
        self.paths.pop()
    }
}

// A cell that is left, for the cause.
#[derive(Drop)]
struct LeftCell {
    cause: Cause,
    outcome: Arc<Outcome>,
}

/// Events, seen as the list of them. Cells that are left in a row for one cause share their outcome.
#[derive(Drop)]
pub struct Events {
    alloc: Global,
    journal: Journal,
    // The last cell that was left.
    last: Option<LeftCell>,
}

impl Model for Events {
    ghost use Rattle.std.specs.Prelude.{◌≡◌, IfSome};
    ghost use Rattle.std.specs.Arc.{arc_value};
    ghost use Rattle.srs_path.specs.declared.outcomes.Outcome.TheVariants.{Left};
    ghost use Rattle.srs_tree.specs.Tree.{History};

    ghost Value = { History };

    ghost view = { λ s. s.journal };

    ghost invariant = { λ s. IfSome s.last (λ l. arc_value l.outcome ≡ Left l.cause) };
}

impl Events {
    /// No event. It takes no memory.
    pub fn new(alloc: Global) -> Events
        ensures { result ≡ [] }
    {
        Events {
            alloc,
            journal: Journal::new(alloc),
            last: None,
        }
    }

    /// Where its memory comes from.
    pub fn alloc(&self) -> Global {
        self.alloc
    }

    /// Appends the outcome as the event at the path. An `Err` is want of memory.
    pub fn add(&mut self, path: Path, outcome: Outcome) -> Result<(), LineErr>
        ensures ok { OnOk result (self.new ≡ self.old ++ at_path path outcome ∷ []) }
        ensures err { IfErr result (IsSlip (λ slip back. ⊥)) }
    {
        let outcome = match outcome {
            Outcome::Left(cause) => self.left(cause)?,
            other => Arc::new(self.alloc, other)?,
        };
        let Ok(()) = self.journal.push(Event { path, outcome }) else {
            return Err(LineErr::NoMemory);
        };
        Ok(())
    }

    // The outcome of a cell that is left. An `Err` is want of memory.
    fn left(&mut self, cause: Cause) -> Result<Arc<Outcome>, LineErr>
        ensures outcome { IfOk result (λ outcome. arc_value outcome ≡ Left cause) }
        ensures same { self.new ≡ self.old }
        ensures err { IfErr result (IsSlip (λ slip back. ⊥)) }
    {
        if let Some(last) = &self.last {
            if last.cause == cause {
                return Ok(Arc::try_clone(&last.outcome)?);
            }
        }
        let outcome = Arc::new(self.alloc, Outcome::Left(cause))?;
        self.last = Some(LeftCell {
            cause,
            outcome: Arc::try_clone(&outcome)?,
        });
        Ok(outcome)
    }

    pub fn into_journal(self) -> Journal
        ensures { result ≡ self }
    {
        self.journal
    }
}
