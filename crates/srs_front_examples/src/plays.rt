// Many drawn changes, beside a plain `Vec`.
ghost use Rattle.std.specs.Prelude.{◌≡◌, ◌<◌};

use crate::walks::{push, raise_at, unlink_at, walk, walk_back};
use srs_front::Front;
use srs_num::{NoMemory, Steps};
use std::alloc::Global;
use std::marker::Brand;
use std::sync::ledger::{Blank, Ledger};

// How many changes are drawn.
const CHANGES: u64 = 10_000;

// The most items of the list.
const MOST: usize = 60;

// The number after this one, of a linear congruential generator.
fn drawn(seed: u64) -> u64 {
    seed.wrapping_mul(6_364_136_223_846_793_005)
        .wrapping_add(1_442_695_040_888_963_407)
}

// One change of both: the draw says which, and at which place.
fn change<L: Ledger>(
    front: &mut Front<u64>,
    items: &mut Vec<u64>,
    draw: u64,
    steps: &mut Steps<L>,
) -> Result<(), NoMemory> {
    let kind = draw % 4;
    let place = ((draw / 4) % 64) as usize;
    if kind < 2 {
        if items.len() < MOST {
            push(front, draw, steps)?;
            items.push(draw)?;
        }
    } else if place < items.len() {
        let item = items.remove(place);
        if kind == 2 {
            unlink_at(front, place, steps);
        } else {
            raise_at(front, place, steps);
            items.insert(0, item)?;
        }
    }
    Ok(())
}

// Whether the walk and the walk backwards of the list are the items.
fn agree(alloc: Global, front: &Front<u64>, items: &Vec<u64>) -> Result<bool, NoMemory> {
    let forth = walk(alloc, front)?;
    let mut back = walk_back(alloc, front)?;
    back.reverse();
    Ok(forth.as_slice() == items.as_slice() && back.as_slice() == items.as_slice())
}

// Whether the list agrees with the `Vec` after each hundredth change.
fn play<L: Ledger>(alloc: Global, blank: Blank) -> Result<bool, NoMemory>
    requires name { blank.name ≡ L.name }
    requires parts { blank.parts ≡ L.parts }
    requires some { 0 < blank.parts }
{
    let mut steps = Steps::<L>::new(blank);
    let mut front = Front::new(alloc);
    let mut items = Vec::new(alloc);
    let mut seed = 1;
    for turn in 0..CHANGES {
        seed = drawn(seed);
        change(&mut front, &mut items, seed >> 33, &mut steps)?;
        if turn % 100 == 99 && !agree(alloc, &front, &items)? {
            return Ok(false);
        }
    }
    Ok(true)
}

#[test]
fn drawn_changes(rt: HostRuntime) -> Result<(), NoMemory> {
    assert!(rt; play::<Brand>(rt.alloc(), Blank::new(1))?);
    Ok(())
}
