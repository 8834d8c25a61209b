// What lies in a turn, and what is done to it.
ghost use Rattle.std.specs.Prelude.{◌≡◌, ℕ, List, length};
ghost use Rattle.srs_turn.specs.Prefixes.{AddsAtMostOne};

/// A value that stands for a list of entries, `told`, and for plain data that no operation changes,
/// `fixed`. No value of `Entry` or `Fixed` is made, so both may be types for clauses alone.
pub trait Told {
    type Entry;

    type Fixed;

    ghost told: { Self → List Self.Entry };

    ghost fixed: { Self → Self.Fixed };

    /// The length of the list.
    fn count(&self) -> u64
        ensures { result ≡ length (told self.now) };
}

/// An operation on a book. `ready` is its condition, of itself, the book's `fixed` and its list.
/// `did` is what it promises, of itself, the `fixed`, the list before, the reply and the list
/// after. It adds one entry at most.
///
/// A turn asks `ready` of each list that begins with what the pass has seen. So a condition on what
/// was seen is written as one on some beginning of the list.
pub trait Act<B: Told> {
    type Reply;

    ghost ready: { Self → B.Fixed → List B.Entry → Type 0 };

    ghost did: { Self → B.Fixed → List B.Entry → Self.Reply → List B.Entry → Type 0 };

    /// Does the operation. It may not use the turn that the book lies in: it would wait for itself.
    fn act(self, book: &mut B) -> Self::Reply
        requires { ready self (B.fixed book.old) (B.told book.old) }
        ensures did { did self (B.fixed book.old) (B.told book.old) result (B.told book.new) }
        ensures grown { AddsAtMostOne (B.told book.old) (B.told book.new) }
        ensures fixed { B.fixed book.new ≡ B.fixed book.old };
}
