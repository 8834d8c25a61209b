// What a seat at the table of some claims knows, and what its steps tell. Word 0 is the number that
// is drawn next.
use atomic_table::{Join, Play, Split, TableRule};
use std::collections::LinkedList;

pub enum Role {
    Live,
    // It took in a seat that had drawn these, and hasn't compared them with its own yet.
    Joining(LinkedList<u64>),
    Spent,
}

// What a seat knows. No value of it is made.
pub struct View {
    pub role: Role,
    pub n: u64,
    pub drawn: LinkedList<u64>,
    pub ended: bool,
    pub spare: u64,
}

// The numbers are those below `n`, and there are `seats` seats at most.
#[derive(Drop)]
pub struct Bounds {
    pub n: u64,
    pub seats: u64,
}

// What always holds of the table, and what becomes of views where a seat is split off or taken in.
pub struct ClaimRule;

impl TableRule<(), View, Bounds> for ClaimRule {
    ghost use Rattle.srs_claim.specs.ClaimWord.{IsClaimTable, first_view};

    ghost holds = { λ key. IsClaimTable key.n key.seats };

    ghost first = { λ key. first_view key.n key.seats };
}

impl Split<View> for ClaimRule {
    ghost use Rattle.srs_claim.specs.ClaimWord.{with_less_spare, new_view};

    ghost left = { with_less_spare };

    ghost right = { new_view };
}

impl Join<View> for ClaimRule {
    ghost use Rattle.srs_claim.specs.ClaimWord.{joining_view, spent_view};

    ghost both = { joining_view };

    ghost spent = { spent_view };
}

// What the step of a draw tells.
pub struct Drawing;

impl Play<(), View> for Drawing {
    ghost use Rattle.srs_claim.specs.ClaimWord.{Drew};

    ghost then = { Drew };
}

// What the load behind a join tells: a join alone puts views together, and reads no rule.
pub struct Comparing;

impl Play<(), View> for Comparing {
    ghost use Rattle.srs_claim.specs.ClaimWord.{Compared};

    ghost then = { Compared };
}
