// Points with rational coordinates: those that are asked about, and the corners of cells.
ghost use Rattle.std.specs.Prelude.{◌≡◌, ◌-◌, ◌^◌, ◌↔◌, pos, neg_ℤ, ◌*ℤ◌, ◌≤ℤ◌, IsTrue, IfSome, IfNone};
ghost use Rattle.srs_num.specs.declared.points.TheConstants.{MOST_DENOMINATOR};
ghost use Rattle.srs_num.specs.Points.{IsPtSized, IsPointWithin, IsNear, IsWithin};
ghost use Rattle.srs_num.specs.Lines.{plus};

use std::marker::Model;

/// The point `(p / d, q / d)`, with `d` from 1 to `MOST_DENOMINATOR` and `p` and `q` at most
/// `MOST_NUMERATOR` in magnitude.
#[derive(Clone, Copy, Debug, PartialEq, Eq, Drop)]
pub struct Pt {
    p: i64,
    q: i64,
    d: i64,
}

impl Model for Pt {
    ghost use Rattle.srs_num.specs.Points.{Point, IsPtSized};

    ghost Value = { Point };

    ghost view = { λ r. record { p = r.p; q = r.q; d = r.d } };

    ghost invariant = { λ r. IsPtSized (record { p = r.p; q = r.q; d = r.d }) };

    ghost inverse = { λ r. record { p = r.p; q = r.q; d = r.d } };
}

/// The most that the denominator of a point that is asked about may be.
pub const MOST_DENOMINATOR: u64 = 1 << 40;

/// The most in magnitude of its two numerators.
pub const MOST_NUMERATOR: u64 = 1 << 42;

impl Pt {
    /// `None` exactly where `d` isn't 1 to `MOST_DENOMINATOR` or one of the others is beyond
    /// `MOST_NUMERATOR` in magnitude.
    pub fn new(p: i64, q: i64, d: i64) -> Option<Pt>
        ensures some { IfSome result (λ r. r ≡ record { p = p; q = q; d = d }) }
        ensures none { IfNone result (IsPtSized (record { p = p; q = q; d = d }) → ⊥) }
    {
        if d < 1 || d.unsigned_abs() > MOST_DENOMINATOR {
            return None;
        }
        if p.unsigned_abs() > MOST_NUMERATOR || q.unsigned_abs() > MOST_NUMERATOR {
            return None;
        }
        Some(Pt { p, q, d })
    }

    /// The three numbers.
    pub fn parts(&self) -> (i64, i64, i64)
        ensures p { result.0 ≡ self.now.p }
        ensures q { result.1 ≡ self.now.q }
        ensures d { result.2 ≡ self.now.d }
        ensures sized { IsPtSized self.now }
    {
        (self.p, self.q, self.d)
    }

    /// Whether both coordinates are at most 4 in magnitude.
    pub fn near(&self) -> bool
        ensures { IsTrue result ↔ IsNear self.now }
    {
        is_near(self.p, self.d) && is_near(self.q, self.d)
    }
}

// Whether z / d is at most 4 in magnitude.
fn is_near(z: i64, d: i64) -> bool
    requires low { pos 1 ≤ℤ d }
    requires high { IsWithin MOST_DENOMINATOR d }
    ensures { IsTrue result ↔ ((neg_ℤ (pos 4 *ℤ d) ≤ℤ z) × (z ≤ℤ (pos 4 *ℤ d))) }
{
    -4 * d <= z && z <= 4 * d
}

/// A corner of a cell, or a sum of corners: the point `(p / d, q / d)`, with `d` at least 1 and
/// magnitudes below 2^84.
#[derive(Clone, Copy, Debug, PartialEq, Eq, Drop)]
pub struct Corner {
    p: i128,
    q: i128,
    d: i128,
}

impl Model for Corner {
    ghost use Rattle.std.specs.Prelude.{◌-◌, ◌^◌};
    ghost use Rattle.srs_num.specs.Points.{Point, IsPointWithin};

    ghost Value = { Point };

    ghost view = { λ r. record { p = r.p; q = r.q; d = r.d } };

    ghost invariant = { λ r. IsPointWithin (2 ^ 84 - 1) (record { p = r.p; q = r.q; d = r.d }) };

    ghost inverse = { λ r. record { p = r.p; q = r.q; d = r.d } };
}

impl Corner {
    // The corner with these numbers.
    pub(crate) fn new(p: i128, q: i128, d: i128) -> Corner
        requires { IsPointWithin (2 ^ 84 - 1) (record { p = p; q = q; d = d }) }
        ensures { result ≡ record { p = p; q = q; d = d } }
    {
        Corner { p, q, d }
    }

    /// The numbers of the two added up, which gives a point between them.
    pub fn plus(&self, other: &Corner) -> Corner
        requires { IsPointWithin (2 ^ 84 - 1) (plus self.now other.now) }
        ensures { result ≡ plus self.now other.now }
    {
        Corner {
            p: self.p + other.p,
            q: self.q + other.q,
            d: self.d + other.d,
        }
    }

    /// The three numbers.
    pub fn parts(&self) -> (i128, i128, i128)
        ensures p { result.0 ≡ self.now.p }
        ensures q { result.1 ≡ self.now.q }
        ensures d { result.2 ≡ self.now.d }
        ensures sized { IsPointWithin (2 ^ 84 - 1) self.now }
    {
        (self.p, self.q, self.d)
    }
}
