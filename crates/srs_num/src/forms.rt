// Linear forms and their values.
ghost use Rattle.std.specs.Prelude.{◌≡◌, ◌+◌, ◌-◌, ◌^◌, IfSome, IfNone};
ghost use Rattle.srs_num.specs.Points.{LinearForm, value, opposite, IsFormSized, IsWithin};

use crate::{Corner, Pt, Steps};
use std::marker::Model;
use std::sync::ledger::Ledger;

/// The linear form `a*x + b*y + c`. Its three numbers are at most `MOST_COEFFICIENT` in magnitude.
#[derive(Clone, Copy, Debug, PartialEq, Eq, Drop)]
pub struct Form {
    a: i64,
    b: i64,
    c: i64,
}

impl Model for Form {
    ghost use Rattle.srs_num.specs.Points.{LinearForm, IsFormSized};

    ghost Value = { LinearForm };

    ghost view = { λ f. record { a = f.a; b = f.b; c = f.c } };

    ghost invariant = { λ f. IsFormSized (record { a = f.a; b = f.b; c = f.c }) };

    ghost inverse = { λ f. record { a = f.a; b = f.b; c = f.c } };
}

/// The most in magnitude of each of the three numbers of a form.
pub const MOST_COEFFICIENT: u64 = 1 << 38;

impl Form {
    /// `None` exactly where one of the three is beyond `MOST_COEFFICIENT` in magnitude.
    pub fn new(a: i64, b: i64, c: i64) -> Option<Form>
        ensures some { IfSome result (λ f. f ≡ record { a = a; b = b; c = c }) }
        ensures none { IfNone result (IsFormSized (record { a = a; b = b; c = c }) → ⊥) }
    {
        if a.unsigned_abs() > MOST_COEFFICIENT
            || b.unsigned_abs() > MOST_COEFFICIENT
            || c.unsigned_abs() > MOST_COEFFICIENT
        {
            return None;
        }
        Some(Form { a, b, c })
    }

    /// The three numbers.
    pub fn parts(&self) -> (i64, i64, i64)
        ensures a { result.0 ≡ self.now.a }
        ensures b { result.1 ≡ self.now.b }
        ensures c { result.2 ≡ self.now.c }
        ensures sized { IsFormSized self.now }
    {
        (self.a, self.b, self.c)
    }

    /// All three numbers negated.
    pub fn opposite(&self) -> Form
        ensures { result ≡ opposite self.now }
    {
        Form {
            a: -self.a,
            b: -self.b,
            c: -self.c,
        }
    }

    /// The value at the point. It is one step.
    pub fn at<L: Ledger>(&self, r: &Pt, steps: &mut Steps<L>) -> i128
        ensures value { result ≡ value self.now r.now }
        ensures one_step { steps.new ≡ steps.old + 1 }
    {
        steps.tick();
        let (p, q, d) = r.parts();
        self.dot(p as i128, q as i128, d as i128)
    }

    /// The value at the corner.
    pub fn at_corner(&self, c: &Corner) -> i128
        ensures { result ≡ value self.now c.now }
    {
        let (p, q, d) = c.parts();
        self.dot(p, q, d)
    }

    // a*p + b*q + c*d.
    fn dot(&self, p: i128, q: i128, d: i128) -> i128
        requires p { IsWithin (2 ^ 84 - 1) p }
        requires q { IsWithin (2 ^ 84 - 1) q }
        requires d { IsWithin (2 ^ 84 - 1) d }
        ensures { result ≡ value self.now (record { p = p; q = q; d = d }) }
    {
        self.a as i128 * p + self.b as i128 * q + self.c as i128 * d
    }
}
