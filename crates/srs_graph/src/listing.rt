// What is listed from the marks: the pairs that have none, and the ranks where all have one.
ghost use Rattle.std.specs.Prelude.{◌≡◌, ◌≤◌, [], ◌∷◌, ◌++◌, length, IfOk, OnOk, MatchOption};
ghost use Rattle.srs_graph.specs.Listings.{AreOpenPairs, HasOpenPlace, AreNumbers};

use srs_num::{NoMemory, Pairs, V2};
use srs_text::Nums;
use std::alloc::Global;

// Appends the number.
pub(crate) fn add_number(numbers: &mut Nums, n: i64) -> Result<(), NoMemory>
    ensures { OnOk result (numbers.new ≡ numbers.old ++ n ∷ []) }
{
    numbers.push(n).or(Err(NoMemory))
}

// Appends the pair.
fn add_pair(pairs: &mut Pairs, w: V2) -> Result<(), NoMemory>
    ensures { OnOk result (pairs.new ≡ pairs.old ++ w ∷ []) }
{
    pairs.push(w).or(Err(NoMemory))
}

// The pairs with no mark, in their order.
pub(crate) fn open_pairs(
    alloc: Global,
    pairs: &[V2],
    marks: &[Option<u32>],
) -> Result<Pairs, NoMemory>
    requires { length pairs.now ≡ length marks.now }
    ensures { IfOk result (AreOpenPairs pairs.now marks.now (length marks.now)) }
{
    let mut found = Pairs::new(alloc);
    for i in 0..marks.len() {
        if marks[i].is_none() {
            add_pair(&mut found, pairs[i])?;
        }
    }
    Ok(found)
}

// The marks as numbers, or `None` where a place has no mark.
pub(crate) fn numbers(alloc: Global, marks: &[Option<u32>]) -> Result<Option<Nums>, NoMemory>
    ensures { IfOk result (λ found. MatchOption found (HasOpenPlace marks.now)
        (AreNumbers marks.now (length marks.now))) }
{
    let mut numbers = Nums::new(alloc);
    for i in 0..marks.len() {
        match marks[i] {
            None => return Ok(None),
            Some(n) => add_number(&mut numbers, i64::from(n))?,
        }
    }
    Ok(Some(numbers))
}
