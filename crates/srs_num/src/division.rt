// Exact division of whole numbers.
ghost use Rattle.std.specs.Prelude.{◌≡◌, ◌↔◌, IsTrue, pos, ◌*ℤ◌, ◌≤ℤ◌, ◌<ℤ◌};
ghost use Rattle.srs_num.specs.Floor.{floor_quotient, IsFloor, IsCeiling};

/// The floor of `n / d`, for `d` at least 1.
pub fn floor_div(n: i128, d: i128) -> i128
    requires { pos 1 ≤ℤ d }
    ensures value { result ≡ floor_quotient n d }
    ensures floor { IsFloor n d result }
{
    n.div_euclid(d)
}

/// The ceiling of `n / d`, for `d` at least 1.
pub fn ceil_div(n: i128, d: i128) -> i128
    requires { pos 1 ≤ℤ d }
    ensures { IsCeiling n d result }
{
    if n.rem_euclid(d) == 0 {
        n.div_euclid(d)
    } else {
        n.div_euclid(d) + 1
    }
}

/// Whether `n1 / d1` is below `n2 / d2`, for `d1` and `d2` at least 1. It compares whole parts and
/// then remainders, as Euclid's algorithm does, since the products may not fit.
pub fn is_less_quotient(n1: i128, d1: i128, n2: i128, d2: i128) -> bool
    requires first { pos 1 ≤ℤ d1 }
    requires second { pos 1 ≤ℤ d2 }
    ensures { IsTrue result ↔ ((n1 *ℤ d2) <ℤ (n2 *ℤ d1)) }
{
    let whole1 = n1.div_euclid(d1);
    let whole2 = n2.div_euclid(d2);
    if whole1 < whole2 {
        return true;
    }
    if whole2 < whole1 {
        return false;
    }
    let rest1 = n1.rem_euclid(d1);
    let rest2 = n2.rem_euclid(d2);
    if rest2 == 0 {
        return false;
    }
    if rest1 == 0 {
        return true;
    }
    is_less_quotient(d2, rest2, d1, rest1)
}
