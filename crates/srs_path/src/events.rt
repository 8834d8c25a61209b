// Events: what was found of a cell.
use crate::{Outcome, Path};
use std::marker::Model;
use std::sync::Arc;

/// What was found of the cell at the path.
#[derive(Drop)]
pub struct Event {
    pub path: Path,
    pub outcome: Arc<Outcome>,
}

impl Model for Event {
    ghost use Rattle.srs_path.specs.Views.{Entry};

    ghost Value = { Entry };

    ghost view = { λ e. record { path = e.path; outcome = e.outcome.value } };
}
