// The answer at a point, and the answers that a region meets.
ghost use Rattle.std.specs.Prelude.{◌≡◌, IfOk, Some};
ghost use Rattle.srs_tree.specs.Answers.{reply_of, reply_by, kind_of, no_kind, both};

use srs_num::NoMemory;
use srs_path::{Cause, Cycle, Outcome};
use std::alloc::Global;

/// What a version says of a point: it is in a cell that is inside, or outside with this cycle; its
/// cell is undecided, with the cause where the cell has one; or it is beyond the version's region.
#[derive(Clone, Copy, Drop)]
pub enum Answer<'v> {
    Inside,
    Outside(&'v Cycle),
    Undecided(Option<Cause>),
    Beyond,
}

/// What an [`Answer`] says, with a cycle of its own.
#[derive(Drop)]
pub enum Reply {
    Inside,
    Outside(Cycle),
    Undecided(Option<Cause>),
    Beyond,
}

impl<'v> Answer<'v> {
    /// The answer of a leaf with this outcome. A leaf has no cut.
    pub fn of(outcome: &'v Outcome) -> Answer<'v>
        ensures { reply_of result ≡ reply_by (Some outcome.now) }
    {
        match outcome {
            Outcome::Inside(_) => Answer::Inside,
            Outcome::Outside(cycle) => Answer::Outside(cycle),
            Outcome::Cut(_) => Answer::Undecided(None),
            Outcome::Left(cause) => Answer::Undecided(Some(*cause)),
        }
    }

    /// What it says. An `Err` is want of memory.
    pub fn reply(&self, alloc: Global) -> Result<Reply, NoMemory>
        ensures { IfOk result (λ reply. reply ≡ reply_of self.now) }
    {
        match self {
            Answer::Inside => Ok(Reply::Inside),
            Answer::Outside(cycle) => Ok(Reply::Outside(cycle.copy(alloc)?)),
            Answer::Undecided(cause) => Ok(Reply::Undecided(*cause)),
            Answer::Beyond => Ok(Reply::Beyond),
        }
    }
}

impl Reply {
    /// The same as an answer, with the cycle lent.
    pub fn lent(&self) -> Answer<'_>
        ensures { reply_of result ≡ self.now }
    {
        match self {
            Reply::Inside => Answer::Inside,
            Reply::Outside(cycle) => Answer::Outside(cycle),
            Reply::Undecided(cause) => Answer::Undecided(*cause),
            Reply::Beyond => Answer::Beyond,
        }
    }
}

/// For each kind of answer, whether it comes.
#[derive(Clone, Copy, Debug, PartialEq, Eq, Drop)]
pub struct Met {
    pub inside: bool,
    pub outside: bool,
    pub undecided: bool,
    pub beyond: bool,
}

impl Met {
    // No kind.
    pub(crate) fn none() -> Met
        ensures { result ≡ no_kind }
    {
        Met {
            inside: false,
            outside: false,
            undecided: false,
            beyond: false,
        }
    }

    // The kind of the answer alone.
    pub(crate) fn of(answer: Answer<'_>) -> Met
        ensures { result ≡ kind_of (reply_of answer.entry) }
    {
        let none = Met::none();
        match answer {
            Answer::Inside => Met {
                inside: true,
                ..none
            },
            Answer::Outside(_) => Met {
                outside: true,
                ..none
            },
            Answer::Undecided(_) => Met {
                undecided: true,
                ..none
            },
            Answer::Beyond => Met {
                beyond: true,
                ..none
            },
        }
    }

    // The kinds but for the last, and whether a point is beyond.
    pub(crate) fn with_beyond(self, beyond: bool) -> Met
        ensures { result ≡ record {
          inside = self.inside;
          outside = self.outside;
          undecided = self.undecided;
          beyond = beyond;
        } }
    {
        Met { beyond, ..self }
    }

    // The kinds of both.
    pub(crate) fn or(self, other: Met) -> Met
        ensures { result ≡ both self other }
    {
        Met {
            inside: self.inside || other.inside,
            outside: self.outside || other.outside,
            undecided: self.undecided || other.undecided,
            beyond: self.beyond || other.beyond,
        }
    }
}
