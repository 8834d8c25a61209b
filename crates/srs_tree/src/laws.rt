// The laws of histories and of answers.
ghost use Rattle.srs_tree.specs.Legality.{LegalIsPartition, LegalIsSound};
ghost use Rattle.srs_tree.specs.Snapshots.{SnapshotsStand, SnapshotsGrow};
ghost use Rattle.srs_tree.specs.Rounds.{PlansAreSame, PlannedIsWhole};
ghost use Rattle.srs_tree.specs.Answers.{AnswersAreOne};
ghost use Rattle.srs_tree.specs.Queue.{QueueIsOpen, QueueIsInOrder, PlannedEnds};
ghost use Rattle.srs_tree.specs.WholeTrees.{WholeIsBounded, WholeIsListed};

/// The leaves of each legal history partition its root region, where that has a point, and what
/// each of its events claims holds of its cell. There is at most one plan. A planned history in
/// which each cell has an event is whole, and in rounds. The queue of a legal history has exactly
/// the cells without an event; that of a planned history is in order of depth, and where it is
/// empty the history is whole. Exactly one snapshot stands for a legal history, and with one entry
/// more it stands for the history with one event more.
pub fn histories()
    ensures partition { LegalIsPartition }
    ensures sound { LegalIsSound }
    ensures one_plan { PlansAreSame }
    ensures whole { PlannedIsWhole }
    ensures queue { QueueIsOpen }
    ensures order { QueueIsInOrder }
    ensures ends { PlannedEnds }
    ensures stands { SnapshotsStand }
    ensures grows { SnapshotsGrow }
{}

/// A whole history has at most as many cells as its limits allow, and none is deeper than they
/// allow. In preorder its events list a whole tree within the limits: no list of ranks and no cycle
/// is longer than the number of witnesses.
pub fn whole_trees()
    ensures bounded { WholeIsBounded }
    ensures listed { WholeIsListed }
{}

/// A version has at most one answer at a point; `Version::locate` gives it.
pub fn one_answer()
    ensures { AnswersAreOne }
{}
