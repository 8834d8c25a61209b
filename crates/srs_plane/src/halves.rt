// Halves of the plane.
ghost use Rattle.std.specs.Prelude.{◌≡◌, ◌+◌, ◌↔◌, IsTrue};
ghost use Rattle.srs_plane.specs.Regions.{IsInHalf};

use srs_num::{Form, Pt, Steps};
use std::sync::ledger::Ledger;

/// Whether the line that bounds a half belongs to it.
#[derive(Clone, Copy, Debug, PartialEq, Eq, Drop)]
pub enum Kind {
    /// The form is at least 0.
    Ge,
    /// The form is above 0.
    Gt,
}

/// The points of one side of a line.
#[derive(Clone, Copy, Debug, PartialEq, Eq, Drop)]
pub struct Half {
    pub form: Form,
    pub kind: Kind,
}

impl Half {
    /// Whether the point is in the half. It is one step.
    pub fn holds<L: Ledger>(&self, r: &Pt, steps: &mut Steps<L>) -> bool
        ensures held { IsTrue result ↔ IsInHalf self.now r.now }
        ensures one_step { steps.new ≡ steps.old + 1 }
    {
        let value = self.form.at(r, steps);
        match self.kind {
            Kind::Ge => value >= 0,
            Kind::Gt => value > 0,
        }
    }
}
