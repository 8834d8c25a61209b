// The way from the root to the leaf that holds a point.
ghost use Rattle.std.specs.Prelude.{◌≡◌, ◌+◌, ◌<◌, ◌≤◌, length, slice_get, Some, IfNone, IfSome};
ghost use Rattle.srs_plane.specs.Regions.{IsIn};
ghost use Rattle.srs_tree.specs.Nodes.{Spot, AreSpots, IsLeafFor, root_of};

use crate::nodes::{Node, Nodes};
use srs_num::{Pt, Steps};
use std::sync::ledger::Ledger;

// The leaf that holds the point, if the root does. It takes at most one step for each half of the
// root, and one for each cut on the way.
pub(crate) fn leaf_with<'a, L: Ledger>(
    nodes: &'a Nodes,
    r: &Pt,
    steps: &mut Steps<L>,
) -> Option<&'a Node>
    requires { AreSpots nodes.now }
    ensures none { IfNone result (IsIn (root_of nodes.now) r.now → ⊥) }
    ensures some { IfSome result (λ y. IsLeafFor nodes.now r.now y.now) }
    ensures beyond { IfNone result (steps.new ≤ steps.old + length (root_of nodes.now)) }
    ensures on_path { IfSome result
        (λ y. steps.new ≤ steps.old + length (root_of nodes.now) + length y.now.path) }
{
    if nodes.get(0).region().holds(r, steps) {
        Some(descend(nodes, 0, r, steps))
    } else {
        None
    }
}

// The leaf that holds the point, from the cell at the place `i` down, which holds it. It takes one
// step for each cut.
fn descend<'a, L: Ledger>(nodes: &'a Nodes, i: usize, r: &Pt, steps: &mut Steps<L>) -> &'a Node
    requires spots { AreSpots nodes.now }
    requires there { i < length nodes.now }
    requires holds { (x : Spot) → slice_get nodes.now i ≡ Some x → IsIn x.region r.now }
    ensures leaf { IsLeafFor nodes.now r.now result.now }
    ensures steps { (x : Spot) → slice_get nodes.now i ≡ Some x → steps.new + length x.path ≡
        steps.old + length result.now.path }
{
    let node = nodes.get(i);
    // Paths have at most 48 sides, and so the calls end.
    let path = node.path();
    let _ = path.len();
    match node.part_with(r, steps) {
        Some(part) => descend(nodes, part, r, steps),
        None => node,
    }
}
