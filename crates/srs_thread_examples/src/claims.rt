// Numbers that are drawn.
ghost use Rattle.std.specs.Prelude.{◌≡◌};

use srs_claim::{ClaimSeat, Claims};
use std::test::Fail;

// What five draws answer.
fn five_draws(claims: &Claims, seat: &mut ClaimSeat) -> [Option<u64>; 5]
    requires { seat.old.of ≡ claims.now }
{
    [
        claims.draw(seat),
        claims.draw(seat),
        claims.draw(seat),
        claims.draw(seat),
        claims.draw(seat),
    ]
}

#[test]
fn claims_of_three(rt: HostRuntime) -> Result<(), Fail> {
    let Ok((claims, mut seat)) = Claims::new(rt.alloc(), 3, 1) else {
        panic!(rt; "no memory")
    };
    assert_eq!(rt;
        five_draws(&claims, &mut seat),
        [Some(0), Some(1), Some(2), None, None]
    );
    Ok(())
}

#[test]
fn claims_of_none(rt: HostRuntime) -> Result<(), Fail> {
    let Ok((claims, mut seat)) = Claims::new(rt.alloc(), 0, 1) else {
        panic!(rt; "no memory")
    };
    assert_eq!(rt; claims.draw(&mut seat), None);
    Ok(())
}

#[test]
fn seat_split_off_and_joined(rt: HostRuntime) -> Result<(), Fail> {
    let Ok((claims, mut seat)) = Claims::new(rt.alloc(), 3, 2) else {
        panic!(rt; "no memory")
    };
    let mut other = claims.split(&mut seat);
    assert_eq!(rt; claims.draw(&mut seat), Some(0));
    assert_eq!(rt; claims.draw(&mut other), Some(1));
    claims.join(&mut seat, other);
    assert_eq!(rt; claims.draw(&mut seat), Some(2));
    assert_eq!(rt; claims.draw(&mut seat), None);
    Ok(())
}
