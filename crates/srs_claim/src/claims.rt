// Claims, and the seats that draw from them.
ghost use Rattle.std.specs.Prelude.{◌≡◌, ◌+◌, ◌-◌, ◌^◌, ◌<◌, ◌≤◌, ◌++◌, [], ◌∷◌, true, false, IfOk};
ghost use Rattle.std.specs.Prelude.{IfSome, IfNone};
ghost use Rattle.srs_claim.specs.Numbers.{times, AreDistinct, AreBelow};

use crate::view::{Bounds, ClaimRule, Comparing, Drawing, View};
use atomic_table::{Seat, Table};
use std::alloc::Global;
use std::marker::Model;

/// No memory was found.
#[derive(Debug, Drop)]
pub struct NoMemory;

/// The numbers below `n`, each of which is drawn at most once, by any number of threads. They are
/// seen as which claims they are, and `n`.
#[derive(Drop)]
pub struct Claims {
    table: Table<(), View, Bounds, ClaimRule, Global>,
    n: u64,
}

impl Model for Claims {
    ghost use Rattle.std.specs.Prelude.{◌≡◌};
    ghost use Rattle.srs_claim.specs.Drawings.{ClaimsId};

    ghost Value = { ClaimsId };

    ghost view = { λ c. record { table = c.table.shared.table_id; n = c.n } };

    ghost invariant = { λ c. (c.table.shared.table_id.words ≡ 1) × (c.table.shared.key.n ≡ c.n) };
}

/// What one thread draws with. It is seen as its claims (`of`), the numbers that it drew in their
/// order (`drawn`), whether it has ended (`ended`), and how many seats may still be split off it
/// (`spare`).
#[derive(Drop)]
pub struct ClaimSeat {
    seat: Seat<(), View>,
    ended: bool,
}

impl Model for ClaimSeat {
    ghost use Rattle.std.specs.Prelude.{◌≡◌, []};
    ghost use Rattle.srs_claim.specs.Drawings.{SeatOf};
    ghost use Rattle.srs_claim.specs.declared.view.Role.TheVariants.{Live};

    ghost Value = { SeatOf };

    ghost view = { λ s. record { of = record { table = s.seat.table_id; n = s.seat.me.0.n }; drawn = s.seat.me.0.drawn; ended = s.ended; spare = s.seat.me.0.spare } };

    ghost invariant = { λ s. (s.seat.me.0.role ≡ Live) × (s.seat.me.1 ≡ []) × (s.seat.me.0.ended ≡ s.ended) };
}

impl Claims {
    /// The numbers below `n`, and the first of at most `seats` seats, off which all others are
    /// split. `n` is below 2^32, and `seats` is 1 to 2^32: so the word of the claims never wraps.
    pub fn new(alloc: Global, n: u64, seats: u64) -> Result<(Claims, ClaimSeat), NoMemory>
        requires { (n < 2 ^ 32) × (1 ≤ seats) × (seats ≤ 2 ^ 32) }
        ensures claims { IfOk result (λ r. r.0.n ≡ n) }
        ensures seat { IfOk result
            (λ r. r.1 ≡ record { of = r.0; drawn = []; ended = false; spare = seats - 1 }) }
    {
        let bounds = Bounds { n, seats };
        match Table::of_words(alloc, &[0], &bounds) {
            Ok((table, seat)) => {
                let first = ClaimSeat { seat, ended: false };
                Ok((Claims { table, n }, first))
            }
            Err(_) => Err(NoMemory),
        }
    }

    /// Draws the next number, which this seat hasn't drawn before; that no other seat has drawn it
    /// is learned where the two are joined. `None` is the end of the numbers: the seat has ended,
    /// and draws no more. It is one atomic addition, takes no memory and waits for nobody.
    pub fn draw(&self, seat: &mut ClaimSeat) -> Option<u64>
        requires { seat.old.of ≡ self.now }
        ensures below { IfSome result (λ t. (t < self.now.n) × (times t seat.old.drawn ≡ 0)) }
        ensures some { IfSome result
            (λ t. seat.new ≡ record seat.old { drawn = seat.old.drawn ++ t ∷ [] }) }
        ensures going { IfSome result (λ t. seat.old.ended ≡ false) }
        ensures none { IfNone result (seat.new ≡ record seat.old { ended = true }) }
    {
        if seat.ended {
            return None;
        }
        let t = self.table.shared.fetch_add::<Drawing>(&mut seat.seat, 0, 1);
        if t < self.n {
            Some(t)
        } else {
            seat.ended = true;
            None
        }
    }

    /// A new seat, which has drawn nothing and off which no seat may be split. It takes no memory.
    pub fn split(&self, seat: &mut ClaimSeat) -> ClaimSeat
        requires { (seat.old.of ≡ self.now) × (1 ≤ seat.old.spare) }
        ensures kept { seat.new ≡ record seat.old { spare = seat.old.spare - 1 } }
        ensures new { result ≡ record { of = seat.old.of; drawn = []; ended = false; spare = 0 } }
    {
        let other = self.table.shared.split_seat::<ClaimRule>(&mut seat.seat);
        ClaimSeat {
            seat: other,
            ended: false,
        }
    }

    /// Takes in the numbers and the spare of another seat of these claims. The two seats have drawn
    /// no number in common. It takes no memory and waits for nobody.
    pub fn join(&self, seat: &mut ClaimSeat, other: ClaimSeat)
        requires { (seat.old.of ≡ self.now) × (other.of ≡ self.now) }
        ensures once { AreDistinct seat.old.drawn other.drawn }
        ensures below { AreBelow self.now.n seat.new.drawn }
        ensures seat { seat.new ≡ record seat.old
            { drawn = seat.old.drawn ++ other.drawn; spare = seat.old.spare + other.spare } }
    {
        let ClaimSeat { seat: other, .. } = other;
        let shared = &self.table.shared;
        shared.join_seat::<ClaimRule>(&mut seat.seat, other);
        shared.load::<Comparing>(&mut seat.seat, 0);
    }
}
