// Lists that share their blocks.
use srs_blocks::{BlockList, Share};
use srs_num::NoMemory;
use std::alloc::Global;
use std::test::Fail;

// A number that is shared by a copy.
#[derive(Clone, Copy, Debug, PartialEq, Eq, Drop)]
struct Number(u64);

impl Share for Number {
    fn share(&self) -> Result<Number, NoMemory> {
        Ok(*self)
    }
}

// How many numbers there are: more than a row of 64 blocks of 64 holds.
const COUNT: u64 = 4200;

// The numbers from 0 on.
fn numbers(alloc: Global) -> Result<BlockList<Number>, NoMemory> {
    let mut list = BlockList::new(alloc);
    for i in 0..COUNT {
        list.push(alloc, Number(i))?;
    }
    Ok(list)
}

// The place and the number of the first item that isn't its place; none where each is.
fn first_other(list: &BlockList<Number>) -> Option<(usize, u64)> {
    for i in 0..list.len() {
        let Number(n) = *list.get(i);
        if n != i as u64 {
            return Some((i, n));
        }
    }
    None
}

// The number comes to the place, where there is one.
fn put(alloc: Global, list: &mut BlockList<Number>, i: usize, n: u64) -> Result<(), Fail> {
    if i >= list.len() {
        Err("there is such a place")?;
    }
    list.set(alloc, i, Number(n))?;
    Ok(())
}

// Only the first so many numbers stay.
fn cut(list: &mut BlockList<Number>, len: usize) {
    if len <= list.len() {
        list.truncate(len);
    }
}

#[test]
fn a_shared_list_stays(rt: HostRuntime) -> Result<(), Fail> {
    let alloc = rt.alloc();
    let list = numbers(alloc)?;
    let mut copy = list.share(alloc)?;
    assert_eq!(rt;
        (list.len(), first_other(&list), first_other(&copy)),
        (4200, None, None)
    );
    put(alloc, &mut copy, 70, 7)?;
    assert_eq!(rt;
        (first_other(&list), first_other(&copy)),
        (None, Some((70, 7)))
    );
    put(alloc, &mut copy, 70, 70)?;
    copy.push(alloc, Number(0))?;
    assert_eq!(rt; (list.len(), first_other(&copy)), (4200, Some((4200, 0))));
    cut(&mut copy, 64);
    copy.push(alloc, Number(3))?;
    assert_eq!(rt; (copy.len(), first_other(&copy)), (65, Some((64, 3))));
    assert_eq!(rt; (list.len(), first_other(&list)), (4200, None));
    Ok(())
}
