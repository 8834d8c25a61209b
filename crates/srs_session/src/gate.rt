// Where workers and sessions call before each of their steps.
use std::sync::Wait;

/// A worker calls before each commit, with its number, from 1 on, and the number that it drew; a
/// session before each question, with its number, from 101 on, and the place of the question. A
/// gate answers nothing: it may only make its callers wait, as tests do that fix a schedule.
pub trait Gate: Sync {
    fn turn<R: Wait>(&self, rt: &R, who: u32, piece: u64);
}

/// The gate of the program, which lets all pass at once.
#[derive(Clone, Copy, Debug, Drop)]
pub struct FreeGate;

impl Gate for FreeGate {
    fn turn<R: Wait>(&self, _rt: &R, _who: u32, _piece: u64) {}
}
