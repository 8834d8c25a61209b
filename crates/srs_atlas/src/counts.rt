// Counts of cells.
ghost use Rattle.std.specs.Prelude.{◌+◌, ◌*◌, ◌<◌, ◌^◌};
ghost use Rattle.srs_atlas.specs.Counting.{AreCounts, ArePartCounts, AreTwoAt};

use srs_path::{Event, Outcome};

/// How many cells a history has on paths of at most some length, and on paths of that length.
#[derive(Clone, Copy, Debug, Drop)]
pub struct Counts {
    pub cells: u64,
    pub row: u64,
}

// The counts of the history for paths of this length.
pub(crate) fn counts_of(events: &[Event], round: u32) -> Counts
    ensures { AreCounts events.now round result }
{
    let mut counts = Counts {
        cells: 1,
        row: if round == 0 { 1 } else { 0 },
    };
    for event in events {
        let parts = parts_counts(event, round);
        counts.cells += parts.cells;
        counts.row += parts.row;
    }
    counts
}

// The counts of the parts that the event makes.
fn parts_counts(event: &Event, round: u32) -> Counts
    ensures { ArePartCounts event.now round result }
{
    match event.outcome.as_ref() {
        Outcome::Cut(_) => two_at(event.path.len() + 1, round),
        Outcome::Inside(_) | Outcome::Outside(_) | Outcome::Left(_) => Counts { cells: 0, row: 0 },
    }
}

// The counts of two cells on paths of this length.
fn two_at(length: u32, round: u32) -> Counts
    ensures { AreTwoAt length round result }
{
    Counts {
        cells: if length <= round { 2 } else { 0 },
        row: if length == round { 2 } else { 0 },
    }
}
