// A book of numbers that threads use in turn.
ghost use Rattle.std.specs.Prelude.{◌≡◌, IfSome};
ghost use Rattle.srs_turn.specs.Passes.{IsPassOf};

use crate::book::{Add, Numbers};
use srs_turn::{Pass, Turn};
use std::sync::Wait;
use std::test::Fail;
use std::thread::{Threads, join};

// Adds a hundred numbers from the first on, and answers whether there was room for all.
fn add_hundred<R: Wait>(
    rt: &R,
    turn: &Turn<Numbers>,
    mut pass: Pass<Numbers>,
    first: u64,
) -> (Pass<Numbers>, bool)
    requires { IsPassOf turn.now pass }
    ensures { IsPassOf turn.now result.0 }
{
    let mut all = true;
    for i in 0..100 {
        all = turn.with_turn(rt, &mut pass, Add(first.wrapping_add(i))) && all;
    }
    (pass, all)
}

// Two threads add a hundred numbers each. The passes come back as one.
fn add_two_hundred<R: Threads + Wait + Sync>(
    rt: &R,
    turn: &Turn<Numbers>,
    mut pass: Pass<Numbers>,
) -> (Pass<Numbers>, bool)
    requires { IsPassOf turn.now pass }
    ensures { IsPassOf turn.now result.0 }
{
    let other = turn.split(&mut pass);
    let (one, other) = join(
        rt,
        move ||
            requires { IsPassOf turn.now pass }
            ensures { IsPassOf turn.entry.now result.0 }
        { add_hundred(rt, turn, pass, 0) },
        move ||
            requires { IsPassOf turn.now other }
            ensures { IsPassOf turn.entry.now result.0 }
        { add_hundred(rt, turn, other, 1000) },
    );
    let (mut pass, all) = one;
    let (other, rest) = other;
    turn.join(&mut pass, other);
    (pass, all && rest)
}

// How many of the numbers are the next of those from `first` on.
fn in_order(items: &[u64], first: u64) -> u64 {
    let mut next = 0;
    for x in items {
        if *x == first.wrapping_add(next) {
            next = next.wrapping_add(1);
        }
    }
    next
}

#[test]
fn two_threads_on_one_book(rt: HostRuntime) -> Result<(), Fail> {
    let Ok((turn, pass)) = Turn::start(&rt, rt.alloc(), Numbers::new(rt.alloc(), 1000)) else {
        panic!(rt; "no memory")
    };
    let (pass, all) = add_two_hundred(&rt, &turn, pass);
    let items = turn.finish(&rt, pass).items;
    assert!(rt; all && items.len() == 200);
    assert!(rt; in_order(items.as_slice(), 0) == 100 && in_order(items.as_slice(), 1000) == 100);
    Ok(())
}

#[test]
fn early_passes_see_the_newest_count(rt: HostRuntime) -> Result<(), Fail> {
    let Ok((turn, mut fifth)) = Turn::start(&rt, rt.alloc(), Numbers::new(rt.alloc(), 1000)) else {
        panic!(rt; "no memory")
    };
    let mut one = turn.split(&mut fifth);
    let mut two = turn.split(&mut fifth);
    let mut three = turn.split(&mut fifth);
    let mut four = turn.split(&mut fifth);
    assert!(rt; turn.count(&mut one) == 0);
    assert!(rt; turn.with_turn(&rt, &mut fifth, Add(7)) && turn.with_turn(&rt, &mut fifth, Add(8)));
    assert!(rt; turn.count(&mut one) == 2 && turn.count(&mut two) == 2);
    assert!(rt; turn.count(&mut three) == 2 && turn.count(&mut four) == 2);
    Ok(())
}
