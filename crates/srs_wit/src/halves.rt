// Pairs that stand for those on the other side of (0,0) too.
ghost use Rattle.std.specs.Prelude.{◌≡◌, ◌∷◌, ◌++◌, [], OnOk, IfOk, MatchOption};
ghost use Rattle.srs_map.specs.Step.{IsNarrow, origin};
ghost use Rattle.srs_wit.specs.Halves.{AreNarrow, IsUpperOf, opposites, with_opposites};

use srs_map::minus;
use srs_num::{NoMemory, V2};
use std::alloc::Global;

// The one of the pair and the pair on the other side that comes after (0,0). `None` for (0,0).
pub(crate) fn upper(v: V2) -> Option<V2>
    requires { IsNarrow v }
    ensures { MatchOption result (v ≡ origin) (IsUpperOf v) }
{
    if v.a > 0 || (v.a == 0 && v.b > 0) {
        return Some(v);
    }
    if v.a < 0 || v.b < 0 {
        return Some(minus(v));
    }
    None
}

// Appends the pair.
fn add_pair(pairs: &mut Vec<V2>, w: V2) -> Result<(), NoMemory>
    ensures { OnOk result (pairs.new.items ≡ pairs.old.items ++ w ∷ []) }
{
    pairs.push(w)?;
    Ok(())
}

// The pairs on the other side, in reverse order.
fn opposites(alloc: Global, pairs: &[V2]) -> Result<Vec<V2>, NoMemory>
    requires { AreNarrow pairs.now }
    ensures { IfOk result (λ all. all.items ≡ opposites pairs.now) }
{
    let mut all = Vec::with_capacity(alloc, pairs.len())?;
    for i in (0..pairs.len()).rev() {
        add_pair(&mut all, minus(pairs[i]))?;
    }
    Ok(all)
}

// The pairs on the other side, (0,0) where it was met, and the pairs.
pub(crate) fn with_opposites(alloc: Global, pairs: &[V2], met: bool) -> Result<Vec<V2>, NoMemory>
    requires { AreNarrow pairs.now }
    ensures { IfOk result (λ all. all.items ≡ with_opposites pairs.now met) }
{
    let mut all = opposites(alloc, pairs)?;
    if met {
        add_pair(&mut all, V2 { a: 0, b: 0 })?;
    }
    all.extend_from_slice(pairs)?;
    Ok(all)
}
