// Marks for numbers, one bit each.
ghost use Rattle.std.specs.Prelude.{◌≡◌, ℕ, ◌≤◌, ◌<◌, ◌*◌, ◌^◌, false, length, vec_len, IfOk};
ghost use Rattle.srs_wit.specs.Marks.{is_marked, Marks};

use srs_num::NoMemory;
use std::alloc::Global;

// Takes all marks away.
fn unmark(words: &mut [u64])
    ensures { (k : ℕ) → is_marked words.new k ≡ false }
{
    for word in words.iter_mut() {
        *word = 0;
    }
}

// Words with the marks of 64 numbers each.
#[derive(Drop)]
pub(crate) struct MarkTable {
    pub(crate) words: Vec<u64>,
}

impl MarkTable {
    // Room for the marks of the numbers below `n`, none of them marked.
    pub(crate) fn new(alloc: Global, n: usize) -> Result<MarkTable, NoMemory>
        requires { n ≤ 2 ^ 32 }
        ensures room { IfOk result (λ table. n ≤ 64 * vec_len table.words) }
        ensures none { (k : ℕ) → IfOk result (λ table. is_marked table.words.items k ≡ false) }
    {
        Ok(MarkTable {
            words: vec![in alloc; 0; n / 64 + 1]?,
        })
    }

    // Takes all marks away.
    pub(crate) fn clear(&mut self)
        ensures room { vec_len self.new.words ≡ vec_len self.old.words }
        ensures none { (k : ℕ) → is_marked self.new.words.items k ≡ false }
    {
        unmark(&mut self.words);
    }
}

// Whether the number is marked.
#[inline(always)]
pub(crate) fn is_marked(words: &[u64], k: usize) -> bool
    requires { k < 64 * length words.now }
    ensures { result ≡ is_marked words.now k }
{
    (words[k / 64] >> (k % 64)) & 1 == 1
}

// Marks the number.
#[inline(always)]
pub(crate) fn mark(words: &mut [u64], k: usize)
    requires { k < 64 * length words.old }
    ensures { Marks words.old k words.new }
{
    let place = k / 64;
    words[place] = words[place] | (1 << (k % 64));
}
