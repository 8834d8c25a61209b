// Where the step of the points of a cell leads.
ghost use Rattle.std.specs.Prelude.{◌≡◌};
ghost use Rattle.srs_map.specs.Step.{IsNarrow};
ghost use Rattle.srs_cell.specs.Floors.{form_of};
ghost use Rattle.srs_cell.specs.Moves.{LeadsTo, LeadsBackTo, LinksTo, AreMoves};

use crate::{Cell, Span};
use srs_map::minus;
use srs_num::{Form, V2};

impl Cell {
    /// The second entries of the pairs to which both links of `w` lead, at the cell's points: each
    /// whole number of the span, and no other. It is given for entries within
    /// `srs_map::MOST_ENTRY`. It takes no memory and goes over the corners once.
    // At a point with the value x these entries are -floor(x) and -ceil(x). So the span's ends are
    // those of the corners, and open edges play no part.
    pub fn links(&self, w: V2) -> Span
        requires { IsNarrow w }
        ensures { AreMoves (LinksTo self.now) w result.low result.high }
    {
        let floors = self.floors(w);
        Span {
            low: floors.back,
            high: -floors.ahead,
        }
    }

    /// The least and the greatest second entry of the pairs to which the step of the cell's points
    /// leads from `w`: each whole number between is one too, and no other. It is given for entries
    /// within `srs_map::MOST_ENTRY`. It takes no memory, and costs what `links` does; where the
    /// greatest value at a corner is whole, it goes over the corners and the halves once more.
    pub fn moves(&self, w: V2) -> (i64, i64)
        requires { IsNarrow w }
        ensures { AreMoves (LeadsTo self.now) w result.0 result.1 }
    {
        let span = self.steps(w);
        (span.low, span.high)
    }

    // The span of these numbers.
    fn steps(&self, w: V2) -> Span
        requires { IsNarrow w }
        ensures { AreMoves (LeadsTo self.now) w result.low result.high }
    {
        let floors = self.floors(w);
        let low = floors.back;
        let high = -floors.ahead;
        if self.takes(&step_form(w).opposite(), low) {
            Span { low, high }
        } else {
            Span { low: low + 1, high }
        }
    }

    /// As `moves`, for the step mirrored at (0,0): the negated step of the negated pair.
    pub fn wmoves(&self, w: V2) -> (i64, i64)
        requires { IsNarrow w }
        ensures { AreMoves (LeadsBackTo self.now) w result.0 result.1 }
    {
        let span = self.steps(minus(w));
        (-span.high, -span.low)
    }
}

// The form whose floor the step takes at `w`.
pub(crate) fn step_form(w: V2) -> Form
    requires { IsNarrow w }
    ensures { result ≡ form_of w }
{
    let Some(form) = Form::new(w.a, w.b, 0) else {
        unreachable!()
    };
    form
}
