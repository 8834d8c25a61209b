// Why a version doesn't take an entry.
use srs_cell::Cell;
use srs_path::{Finding, Outcome, Path};
use std::sync::Arc;

/// Why a finding isn't entered at a path: the path is no cell, and this is its longest beginning
/// that is one; the cell has this outcome; this is the cell there, and the finding is of another
/// region; want of memory, with the finding.
#[derive(Drop)]
pub enum TreeErr {
    NotThere(Path),
    Done(Arc<Outcome>),
    OtherCell(Arc<Cell>),
    NoMemory(Finding),
}
