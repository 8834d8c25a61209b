// The step.
ghost use Rattle.std.specs.Prelude.{◌≡◌, ◌+ℤ◌, ◌*ℤ◌, ◌↔◌, IsTrue};
ghost use Rattle.srs_num.specs.Points.{IsNear};
ghost use Rattle.srs_map.specs.Step.{step_of, origin, minus, IsNarrow};

use srs_num::{Pt, V2, floor_div};

/// The most in magnitude of the entries of a pair that a step is taken from.
pub const MOST_ENTRY: u64 = 1 << 37;

/// Whether the pair is (0,0).
pub fn is_origin(w: V2) -> bool
    ensures { IsTrue result ↔ w ≡ origin }
{
    w.a == 0 && w.b == 0
}

/// Whether both entries are within `MOST_ENTRY`.
pub fn is_narrow(w: V2) -> bool
    ensures { IsTrue result ↔ IsNarrow w }
{
    w.a.unsigned_abs() <= MOST_ENTRY && w.b.unsigned_abs() <= MOST_ENTRY
}

/// The pair on the other side of (0,0). It is given for entries within `MOST_ENTRY`.
pub fn minus(w: V2) -> V2
    requires { IsNarrow w }
    ensures value { result ≡ minus w }
    ensures narrow { IsNarrow result }
{
    V2 { a: -w.a, b: -w.b }
}

/// The step of the parameter `r` at the pair `z`, which takes `(a, b)` to `(b, -floor((p*a + q*b) /
/// d))`. It is given for a parameter of two coordinates within 4, and entries within `MOST_ENTRY`:
/// then the new entry is within 2^40.
pub fn step(r: &Pt, z: V2) -> V2
    requires near { IsNear r.now }
    requires narrow { IsNarrow z }
    ensures { result ≡ step_of r.now z }
{
    let (p, q, d) = r.parts();
    let floor = floor_div(weighed(p, q, z), i128::from(d));
    V2 {
        a: z.b,
        b: -(floor as i64),
    }
}

// p*a + q*b.
fn weighed(p: i64, q: i64, z: V2) -> i128
    requires { IsNarrow z }
    ensures { result ≡ p *ℤ z.a +ℤ q *ℤ z.b }
{
    i128::from(p) * i128::from(z.a) + i128::from(q) * i128::from(z.b)
}
