// What a seat at the table of a turn knows, and what its steps tell. Word 0 is 1 while a seat holds
// the turn, and else 0. Word 1 is the length of the book's list. Word 2 is how many seats sleep, or
// are about to. Slot 0 has the book.
use crate::told::Told;
use atomic_table::{Join, Play, Split, TableRule};
use std::collections::LinkedList;
use std::marker::PhantomData;
use std::snapshot::Snapshot;

pub enum Role<E> {
    Idle,
    Holder,
    // It took in a seat that had seen this list, and hasn't compared it with its own yet.
    Joining(LinkedList<E>),
    Spent,
}

// What a seat knows: the list that it has seen, and what no operation changes, but for a spent
// seat. No value of it is made.
pub struct View<E, F> {
    pub role: Role<E>,
    pub seen: LinkedList<E>,
    pub fixed: Option<F>,
}

// What always holds of the table. Its key is the first book, whose `fixed` is that of the turn.
pub struct TurnRule<B> {
    book: PhantomData<B>,
}

impl<B: Told> TableRule<Option<B>, View<B::Entry, B::Fixed>, Snapshot<B>> for TurnRule<B> {
    ghost use Rattle.srs_turn.specs.TurnWords.{IsTurnTable, first_view};

    ghost holds = { λ key. IsTurnTable B.told B.fixed (B.fixed key.value) };

    ghost first = { λ key. first_view B.told B.fixed key.value };
}

// What becomes of views where a seat is split off or taken in.
pub struct Sharing;

impl<E, F> Split<View<E, F>> for Sharing {
    ghost left = { λ v. v };

    ghost right = { λ v. v };
}

impl<E, F> Join<View<E, F>> for Sharing {
    ghost use Rattle.srs_turn.specs.TurnWords.{joining_view, spent_view};

    ghost both = { joining_view };

    ghost spent = { spent_view };
}

// What the load of the count tells.
pub struct Counting;

impl<S, E, F> Play<S, View<E, F>> for Counting {
    ghost use Rattle.srs_turn.specs.TurnWords.{Counted};

    ghost then = { Counted };
}

// What the compare-exchange of the turn tells.
pub struct Winning<B> {
    book: PhantomData<B>,
}

impl<B: Told> Play<Option<B>, View<B::Entry, B::Fixed>> for Winning<B> {
    ghost use Rattle.srs_turn.specs.TurnWords.{Tried};

    ghost then = { Tried B.told B.fixed };
}

// What the store of the count tells, the book being in the slot.
pub struct Growing<B> {
    book: PhantomData<B>,
}

impl<B: Told> Play<Option<B>, View<B::Entry, B::Fixed>> for Growing<B> {
    ghost use Rattle.srs_turn.specs.TurnWords.{Grew};

    ghost then = { Grew B.told };
}

// What a change of the number of those who sleep tells: the seat is as before.
pub struct Resting;

impl<S, E, F> Play<S, View<E, F>> for Resting {
    ghost use Rattle.srs_turn.specs.TurnWords.{Rested};

    ghost then = { Rested };
}

// What the store of the turn tells.
pub struct Freeing;

impl<S, E, F> Play<S, View<E, F>> for Freeing {
    ghost use Rattle.srs_turn.specs.TurnWords.{Freed};

    ghost then = { Freed };
}

// What the load behind a join tells: a join alone puts views together, and reads no rule.
pub struct Comparing;

impl<S, E, F> Play<S, View<E, F>> for Comparing {
    ghost use Rattle.srs_turn.specs.TurnWords.{Compared};

    ghost then = { Compared };
}
