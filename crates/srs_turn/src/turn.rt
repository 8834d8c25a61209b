// The turn and its passes.
ghost use Rattle.std.specs.Prelude.{◌⊎◌, ◌≡◌, ◌≤◌, length, List, IfOk, IfErr};
ghost use Rattle.srs_turn.specs.Prefixes.{Begins, AddsAtMostOne, longer};
ghost use Rattle.srs_turn.specs.Passes.{IsPassOf};

use crate::told::{Act, Told};
use crate::view::{Comparing, Counting, Sharing, TurnRule, View};
use atomic_table::{Refused, Seat, Table};
use std::alloc::Global;
use std::marker::Model;
use std::snapshot::Snapshot;
use std::sync::Wait;

/// No memory was found.
#[derive(Debug, Drop)]
pub struct NoMemory;

/// A book that threads use in turn. It is seen as which turn it is, and what no operation on its book changes
/// (`fixed`).
#[derive(Drop)]
pub struct Turn<B: Told> {
    pub(crate) table: Table<Option<B>, View<B::Entry, B::Fixed>, Snapshot<B>, TurnRule<B>, Global>,
}

impl<B: Told> Model for Turn<B> {
    ghost use Rattle.std.specs.Prelude.{◌≡◌};
    ghost use Rattle.srs_turn.specs.Passes.{TurnId};

    ghost Value = { TurnId B.Fixed };

    ghost view = { λ t. record { table = t.table.shared.table_id; fixed = B.fixed t.table.shared.key.value } };

    ghost invariant = { λ t. (t.table.shared.table_id.words ≡ 3) × (t.table.shared.table_id.slots ≡ 1) };
}

/// What one thread knows of a turn. It takes no bytes. It is seen as its turn, with the turn's
/// `fixed`, and the list that it has seen (`seen`).
#[derive(Drop)]
pub struct Pass<B: Told> {
    pub(crate) seat: Seat<Option<B>, View<B::Entry, B::Fixed>>,
}

impl<B: Told> Model for Pass<B> {
    ghost use Rattle.std.specs.Prelude.{◌≡◌, []};
    ghost use Rattle.srs_turn.specs.Passes.{Seen};
    ghost use Rattle.srs_turn.specs.declared.view.Role.TheVariants.{Idle};

    ghost Value = { Seen B.Entry B.Fixed };

    ghost view = { λ p. record { table = p.seat.table_id; fixed = p.seat.me.0.fixed; seen = p.seat.me.0.seen } };

    ghost invariant = { λ p. (p.seat.me.0.role ≡ Idle) × (p.seat.me.1 ≡ []) };
}

impl<B: Told> Turn<B> {
    /// A turn round a book, and the first pass, which has seen the book's list. The one refusal is
    /// want of memory, and gives the book back.
    pub fn start<R: Wait>(
        _rt: &R,
        alloc: Global,
        book: B,
    ) -> Result<(Turn<B>, Pass<B>), (B, NoMemory)>
        ensures turn { IfOk result (λ r. r.0.fixed ≡ B.fixed book) }
        ensures pass { IfOk result (λ r. IsPassOf r.0 r.1 × (r.1.seen ≡ B.told book)) }
        ensures err { IfErr result (λ r. r.0 ≡ book) }
    {
        let first = Snapshot::of(&book);
        let count = book.count();
        let mut slots = Vec::new(alloc);
        if slots.reserve(1).is_err() {
            slots.destroy_empty();
            return Err((book, NoMemory));
        }
        slots.push_reserved(Some(book));
        match Table::new(alloc, &[0, count, 0], slots, &first) {
            Ok((table, seat)) => Ok((Turn { table }, Pass { seat })),
            Err(Refused { mut slots }) => {
                let Some(Some(book)) = slots.pop() else {
                    unreachable!()
                };
                slots.destroy_empty();
                Err((book, NoMemory))
            }
        }
    }

    /// Waits for the turn, and does `op` to the book, whose list begins with what the pass has
    /// seen. The pass has then seen the list after `op`.
    pub fn with_turn<A: Act<B>, R: Wait>(&self, rt: &R, pass: &mut Pass<B>, op: A) -> A::Reply
        requires own { IsPassOf self.now pass.old }
        requires ready { (list : List B.Entry) → Begins pass.old.seen list →
            A.ready op self.now.fixed list }
        ensures own { IsPassOf self.now pass.new }
        ensures did { (before : List B.Entry) × Begins pass.old.seen before ×
            AddsAtMostOne before pass.new.seen ×
            A.did op self.now.fixed before result pass.new.seen }
    {
        let mut book = self.take(rt, &mut pass.seat);
        let was = book.count();
        let reply = op.act(&mut book);
        self.give(&mut pass.seat, book, was);
        reply
    }

    /// The length of the book's list as the last operation left it, which the pass has then seen.
    /// It is one atomic load, takes no memory and waits for nobody.
    pub fn count(&self, pass: &mut Pass<B>) -> u64
        requires { IsPassOf self.now pass.old }
        ensures own { IsPassOf self.now pass.new }
        ensures seen { Begins pass.old.seen pass.new.seen }
        ensures count { (result ≡ length pass.new.seen) × (length pass.old.seen ≤ result) }
    {
        self.table.shared.load::<Counting>(&mut pass.seat, 1)
    }

    /// A new pass, which has seen what this one has. It takes no memory and waits for nobody.
    pub fn split(&self, pass: &mut Pass<B>) -> Pass<B>
        requires { IsPassOf self.now pass.old }
        ensures kept { pass.new ≡ pass.old }
        ensures new { result ≡ pass.old }
    {
        let seat = self.table.shared.split_seat::<Sharing>(&mut pass.seat);
        Pass { seat }
    }

    /// The pass has then seen the longer of the two lists, one of which begins the other. It takes
    /// no memory and waits for nobody.
    pub fn join(&self, pass: &mut Pass<B>, other: Pass<B>)
        requires { IsPassOf self.now pass.old × IsPassOf self.now other }
        ensures own { IsPassOf self.now pass.new }
        ensures longer { pass.new.seen ≡ longer pass.old.seen other.seen }
        ensures both { Begins pass.old.seen pass.new.seen × Begins other.seen pass.new.seen }
        ensures either { Begins pass.old.seen other.seen ⊎ Begins other.seen pass.old.seen }
    {
        let Pass { seat: other } = other;
        let shared = &self.table.shared;
        shared.join_seat::<Sharing>(&mut pass.seat, other);
        shared.load::<Comparing>(&mut pass.seat, 0);
    }
}

impl<B: Told + Drop> Turn<B> {
    /// Waits for the turn, and hands the book out. The turn is let go with its slot, so a `B` has
    /// to be `Drop`.
    pub fn finish<R: Wait>(self, rt: &R, mut pass: Pass<B>) -> B
        requires { IsPassOf self pass }
        ensures seen { Begins pass.seen (B.told result) }
        ensures fixed { B.fixed result ≡ self.fixed }
    {
        self.take(rt, &mut pass.seat)
    }
}
