// Links alone.
ghost use Rattle.std.specs.Prelude.{◌≡◌, ◌<◌};

use srs_front::{LinkPlace, Links, NO_SLOT};
use srs_num::{NoMemory, Steps};
use std::alloc::Global;
use std::marker::Brand;
use std::sync::ledger::{Blank, Ledger};

// Two slots, of which the second is the first's next one: the numbers at the places.
fn numbers<L: Ledger>(alloc: Global, blank: Blank) -> Result<[u64; 6], NoMemory>
    requires name { blank.name ≡ L.name }
    requires parts { blank.parts ≡ L.parts }
    requires some { 0 < blank.parts }
{
    let mut steps = Steps::<L>::new(blank);
    let mut links = Links::new(alloc);
    let a = links.grow()?;
    let b = links.grow()?;
    links.put(LinkPlace::Next(a), b, &mut steps);
    links.put(LinkPlace::First, a, &mut steps);
    Ok([
        a,
        b,
        links.get(LinkPlace::Next(a)),
        links.get(LinkPlace::Prev(b)),
        links.get(LinkPlace::First),
        links.get(LinkPlace::Final),
    ])
}

#[test]
fn numbers_of_links(rt: HostRuntime) -> Result<(), NoMemory> {
    let found = numbers::<Brand>(rt.alloc(), Blank::new(1))?;
    assert_eq!(rt; found, [0, 1, 1, NO_SLOT, 0, NO_SLOT]);
    Ok(())
}
