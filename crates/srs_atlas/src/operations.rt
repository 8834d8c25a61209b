// What is done to the book of an atlas.
use crate::book::Book;
use crate::commits::Commit;
use crate::counts::Counts;
use srs_num::NoMemory;
use srs_path::{Finding, Path};
use srs_tree::{Ahead, PendingList, Version};
use srs_turn::Act;
use std::alloc::Global;

// Enters the finding at the path, with what was made of it ahead.
#[derive(Drop)]
pub struct Enter {
    pub alloc: Global,
    pub path: Path,
    pub finding: Finding,
    pub ahead: Ahead,
}

impl Act<Book> for Enter {
    type Reply = Commit;

    ghost use Rattle.srs_atlas.specs.Commits.{IsPrepared, Commits};

    ghost ready = { λ op terms history. IsPrepared terms history op.path op.finding op.ahead.parts };

    ghost did = { λ op terms before reply after. Commits terms op.path op.finding before reply after };

    fn act(self, book: &mut Book) -> Commit {
        let Enter {
            alloc,
            path,
            finding,
            ahead,
        } = self;
        book.enter(alloc, path, finding, ahead)
    }
}

// Shares the version.
#[derive(Drop)]
pub struct Share {
    pub alloc: Global,
}

impl Act<Book> for Share {
    type Reply = Result<Version, NoMemory>;

    ghost use Rattle.std.specs.Prelude.{⊤};
    ghost use Rattle.srs_atlas.specs.Books.{Shares};

    ghost ready = { λ op terms history. ⊤ };

    ghost did = { λ op terms before reply after. Shares terms before reply after };

    fn act(self, book: &mut Book) -> Result<Version, NoMemory> {
        book.share(self.alloc)
    }
}

// Lists the cells that wait.
#[derive(Drop)]
pub struct List {
    pub alloc: Global,
}

impl Act<Book> for List {
    type Reply = Result<PendingList, NoMemory>;

    ghost use Rattle.std.specs.Prelude.{⊤};
    ghost use Rattle.srs_atlas.specs.Books.{Lists};

    ghost ready = { λ op terms history. ⊤ };

    ghost did = { λ op terms before reply after. Lists terms before reply after };

    fn act(self, book: &mut Book) -> Result<PendingList, NoMemory> {
        book.list(self.alloc)
    }
}

// Counts the cells down to a round.
#[derive(Drop)]
pub struct Count {
    pub round: u32,
}

impl Act<Book> for Count {
    type Reply = Counts;

    ghost use Rattle.std.specs.Prelude.{⊤};
    ghost use Rattle.srs_atlas.specs.Counting.{Counted};

    ghost ready = { λ op terms history. ⊤ };

    ghost did = { λ op terms before reply after. Counted terms op.round before reply after };

    fn act(self, book: &mut Book) -> Counts {
        book.counts(self.round)
    }
}
