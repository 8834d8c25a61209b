// A book of numbers, of which there is a most, for the examples of the turn.
ghost use Rattle.std.specs.Prelude.{◌≡◌, [], List};

use srs_turn::{Act, Told};
use std::alloc::Global;

#[derive(Drop)]
pub struct Numbers {
    pub items: Vec<u64>,
    most: u64,
}

impl Numbers {
    pub fn new(alloc: Global, most: u64) -> Numbers {
        Numbers {
            items: Vec::new(alloc),
            most,
        }
    }
}

impl Told for Numbers {
    type Entry = u64;

    type Fixed = u64;

    ghost told = { λ book. book.items.items };

    ghost fixed = { λ book. book.most };

    fn count(&self) -> u64 {
        self.items.len() as u64
    }
}

// Adds a number where there is room, and answers whether it did.
#[derive(Drop)]
pub struct Add(pub u64);

impl Act<Numbers> for Add {
    type Reply = bool;

    ghost use Rattle.std.specs.Prelude.{◌≡◌, ◌++◌, [], ◌∷◌, MatchBool, ⊤};

    ghost ready = { λ op most list. ⊤ };

    ghost did = { λ op most before reply after. MatchBool reply (after ≡ before ++ op.0 ∷ []) (after ≡ before) };

    fn act(self, book: &mut Numbers) -> bool {
        (book.items.len() as u64) < book.most && book.items.push(self.0).is_ok()
    }
}
