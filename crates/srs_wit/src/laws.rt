//! What the witnesses of a region are, said by functions that do nothing: each law is the contract of one.
ghost use Rattle.srs_num.specs.declared.pairs.V2.{V2};
ghost use Rattle.srs_map.specs.Step.{minus};
ghost use Rattle.srs_plane.specs.Regions.{Area};
ghost use Rattle.srs_path.specs.Witnesses.{IsWitness};
ghost use Rattle.srs_wit.specs.Least.{IsClosedUnder};

use srs_map::laws::PairSet;

/// The units are witnesses, and so are both links of each witness at each point of the region.
pub fn closed()
    ensures { (R : Area) → IsClosedUnder R (IsWitness R) }
{}

/// Each set of pairs that holds the units and both links of its members at each point of the region holds all
/// witnesses: they are the least such set.
pub fn least<V: PairSet>()
    ensures { (R : Area) → IsClosedUnder R V.holds → (w : V2) → IsWitness R w → V.holds w }
{}

/// The pair on the other side of (0, 0) from a witness is a witness.
pub fn mirrored()
    ensures { (R : Area) (w : V2) → IsWitness R w → IsWitness R (minus w) }
{}
