// What a check answers.
use srs_num::V2;

/// How many nodes a certificate has, and how many of each kind.
#[derive(Clone, Copy, Debug, PartialEq, Eq, Drop)]
pub struct Counts {
    pub cells: u32,
    pub inside: u32,
    pub outside: u32,
    pub cut: u32,
    pub left: u32,
}

/// Why a node doesn't prove itself.
#[derive(Clone, Copy, Debug, PartialEq, Eq, Drop)]
pub enum Fault {
    /// Of an inside leaf: this unit isn't listed.
    NoUnit(V2),
    /// Of an inside leaf: the listed pair `w` links to `(w.b, j)`, which isn't listed.
    NotClosed(V2, i64),
    /// Of an inside leaf: a step leads from the listed pair `w` to `(w.b, j)`, whose rank isn't lower.
    NoFall(V2, i64),
    /// Of an outside leaf: a point of the cell breaks the cycle, first at this place.
    NotCycle(u32),
    /// Of a cut: the form doesn't divide the cell.
    NotProper,
    /// Of a leaf that is left: its budget isn't spent, or the cell has a grid line.
    NoBudget,
}

/// What a check answers: each node proves itself, with the counts; or the line and the fault of the
/// first node that doesn't.
#[derive(Clone, Copy, Debug, PartialEq, Eq, Drop)]
pub enum Checked {
    Valid(Counts),
    Bad(u32, Fault),
}
