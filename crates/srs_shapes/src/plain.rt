// Outcomes and paths as a table has them.
use srs_path::{Cause, Cycle, Outcome, Path, Side};
use std::test::Fail;

/// How many witnesses, the entries of the cycle, the numbers of the form, the cause.
#[derive(Clone, Copy, Drop)]
pub enum Plain {
    Inside(u32),
    Outside(&'static [i64]),
    Cut(i64, i64, i64),
    Left(Cause),
}

/// Whether the outcome is the table's; none is none.
pub fn is_outcome(outcome: Option<&Outcome>, wanted: Option<Plain>) -> bool {
    match (outcome, wanted) {
        (None, None) => true,
        (Some(outcome), Some(wanted)) => is_plain(outcome, wanted),
        _ => false,
    }
}

/// Whether the outcome is that.
pub fn is_plain(outcome: &Outcome, wanted: Plain) -> bool {
    match (outcome, wanted) {
        (Outcome::Inside(ranks), Plain::Inside(count)) => ranks.len() == count,
        (Outcome::Outside(cycle), Plain::Outside(entries)) => is_cycle(cycle, entries),
        (Outcome::Cut(form), Plain::Cut(a, b, c)) => form.parts() == (a, b, c),
        (Outcome::Left(cause), Plain::Left(other)) => *cause == other,
        _ => false,
    }
}

/// Whether these are the entries of the cycle.
pub fn is_cycle(cycle: &Cycle, entries: &[i64]) -> bool {
    if cycle.len() as usize != entries.len() {
        return false;
    }
    for i in 0..cycle.len() {
        if cycle.entry(i) != entries[i as usize] {
            return false;
        }
    }
    true
}

/// The path of the sides: `g` for Ge, `l` for Lt.
pub fn path_of(sides: &str) -> Result<Path, Fail> {
    let mut path = Path::root();
    for side in sides.as_bytes() {
        let side = if *side == b'g' { Side::Ge } else { Side::Lt };
        path = path.child(side).ok_or("it is short")?;
    }
    Ok(path)
}
