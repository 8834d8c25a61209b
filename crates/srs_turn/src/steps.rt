// How a seat gets the book of its turn, and how it gives the book back.
ghost use Rattle.std.specs.Prelude.{◌∷◌, ◌≡◌, [], length, Some, IfSome, IfNone};
ghost use Rattle.srs_turn.specs.Prefixes.{Begins, AddsAtMostOne};
ghost use Rattle.srs_turn.specs.TurnWords.{told_in};
ghost use Rattle.srs_turn.specs.Holding.{WaitsFor, StillWaits, HoldsWithBookOut, Holds, seen_by};

use crate::told::Told;
use crate::turn::Turn;
use crate::view::{Freeing, Growing, Resting, View, Winning};
use atomic_table::Seat;
use std::sync::Wait;

// So often does a seat try for a turn that is held before it sleeps. A try is mostly a look at a
// word that the waiting seats share, so that the holder isn't hindered by it.
const TRIES: u32 = 2000;

// A seat of a turn round a `B`. While it holds the turn it is no pass, so these steps are on seats.
type SeatOf<B> = Seat<Option<B>, View<<B as Told>::Entry, <B as Told>::Fixed>>;

impl<B: Told> Turn<B> {
    // Waits for the turn, and takes the book out of the slot. The seat tries some times before it
    // sleeps, since a turn is mostly held for less than it takes to fall asleep and be woken.
    pub(crate) fn take<R: Wait>(&self, rt: &R, seat: &mut SeatOf<B>) -> B
        requires { WaitsFor self.now seat.old }
        ensures held { HoldsWithBookOut self.now seat.new }
        ensures book { (B.told result ≡ seen_by seat.new) × (B.fixed result ≡ self.now.fixed) }
        ensures seen { Begins (seen_by seat.old) (seen_by seat.new) }
    {
        for _ in rt.forever() {
            if let Some(book) = self.try_often(seat) {
                return book;
            }
            self.rest(rt, seat);
        }
        unreachable!()
    }

    // Sleeps while the turn is held. The seat counts itself among those who sleep before it does, and
    // who gives up the turn looks at their number after that: one of the two sees what the other did.
    fn rest<R: Wait>(&self, rt: &R, seat: &mut SeatOf<B>)
        requires { WaitsFor self.now seat.old }
        ensures { StillWaits seat.old seat.new }
    {
        let shared = &self.table.shared;
        shared.fetch_add::<Resting>(seat, 2, 1);
        shared.park(rt, 0, 1);
        shared.fetch_sub::<Resting>(seat, 2, 1);
    }

    // As `try_take`, up to `TRIES` times.
    fn try_often(&self, seat: &mut SeatOf<B>) -> Option<B>
        requires { WaitsFor self.now seat.old }
        ensures held { IfSome result (λ book. HoldsWithBookOut self.now seat.new) }
        ensures book { IfSome result (λ book.
            (B.told book ≡ seen_by seat.new) × (B.fixed book ≡ self.now.fixed)) }
        ensures seen { Begins (seen_by seat.old) (seen_by seat.new) }
        ensures none { IfNone result (StillWaits seat.old seat.new) }
    {
        for _ in 0..TRIES {
            if let Some(book) = self.try_take(seat) {
                return Some(book);
            }
        }
        None
    }

    // Takes the book out of the slot where nobody holds the turn. It looks first, since a
    // compare-exchange takes the word from the holder even where it fails.
    fn try_take(&self, seat: &mut SeatOf<B>) -> Option<B>
        requires { WaitsFor self.now seat.old }
        ensures held { IfSome result (λ book. HoldsWithBookOut self.now seat.new) }
        ensures book { IfSome result (λ book.
            (B.told book ≡ seen_by seat.new) × (B.fixed book ≡ self.now.fixed)) }
        ensures seen { Begins (seen_by seat.old) (seen_by seat.new) }
        ensures none { IfNone result (StillWaits seat.old seat.new) }
    {
        let shared = &self.table.shared;
        if shared.peek(0) != 0 {
            return None;
        }
        let found = shared.compare_exchange::<Winning<B>>(seat, 0, 0, 1);
        if found != 0 {
            return None;
        }
        let Some(book) = shared.exchange(seat, 0, None) else {
            unreachable!()
        };
        Some(book)
    }

    // Puts the book back, whose list had `was` entries, gives up the turn, and wakes a seat where any
    // sleeps. The book is in its slot before its length is stored: only the list of a book in a slot can be what a step tells.
    pub(crate) fn give(&self, seat: &mut SeatOf<B>, book: B, was: u64)
        requires held { HoldsWithBookOut self.now seat.old }
        requires was { was ≡ length (seen_by seat.old) }
        requires grown { AddsAtMostOne (seen_by seat.old) (B.told book) }
        requires fixed { B.fixed book ≡ self.now.fixed }
        ensures free { WaitsFor self.now seat.new }
        ensures seen { seen_by seat.new ≡ B.told book }
    {
        let shared = &self.table.shared;
        let count = book.count();
        let empty = shared.exchange(seat, 0, Some(book));
        let None = empty else { unreachable!() };
        self.store_count(seat, was, count);
        shared.store::<Freeing>(seat, 0, 0);
        if shared.peek(2) != 0 {
            shared.wake_one(0);
        }
    }

    // Counts the new entry, if the book in the slot has one.
    fn store_count(&self, seat: &mut SeatOf<B>, was: u64, count: u64)
        requires held { Holds self.now seat.old }
        requires grown { (book : B) × (seat.old.me.1 ≡ (0, Some book) ∷ []) ×
            AddsAtMostOne (seen_by seat.old) (B.told book) × (count ≡ length (B.told book)) }
        requires was { was ≡ length (seen_by seat.old) }
        ensures held { Holds self.now seat.new × (seat.new.me.1 ≡ seat.old.me.1) }
        ensures seen { seen_by seat.new ≡ told_in B.told seat.old.me.1 }
    {
        if count != was {
            self.table.shared.store::<Growing<B>>(seat, 1, count);
        }
    }
}
