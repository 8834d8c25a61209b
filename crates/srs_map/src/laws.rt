//! What holds of every parameter, said by functions that do nothing: each law is the contract of one.
ghost use Rattle.std.specs.Prelude.{◌≡◌, ◌⊎◌};
ghost use Rattle.srs_num.specs.declared.pairs.V2.{V2};
ghost use Rattle.srs_num.specs.Points.{Point, IsPoint};
ghost use Rattle.srs_map.specs.Step.{plus, minus, step_of};
ghost use Rattle.srs_map.specs.Finiteness.{IsFinite};
ghost use Rattle.srs_map.specs.Links.{IsBrunotteSet};

/// A set of pairs of whole numbers, which only the laws speak of.
pub trait PairSet {
    ghost use Rattle.srs_num.specs.declared.pairs.V2.{V2};

    ghost holds: { V2 → Type 0 };
}

/// The addition law (Brunotte's argument; Akiyama, Borbély, Brunotte, Pethő, Thuswaldner 2005): the
/// step of a sum is the sum of the steps, or the step of the first and the other side of the step
/// of minus the second.
pub fn addition()
    ensures { (r : Point) → IsPoint r → (z w : V2) → (step_of r (plus z w) ≡ plus (step_of r z)
        (step_of r w)) ⊎ (step_of r (plus z w) ≡ plus (step_of r z) (minus (step_of r (minus w)))) }
{}

/// Brunotte's law (Akiyama, Borbély, Brunotte, Pethő, Thuswaldner 2005): a parameter is finite
/// where a set of pairs has (1,0), (-1,0), (0,1) and (0,-1), has both links of each of its members,
/// and each of its members reaches (0,0).
pub fn brunotte<V: PairSet>()
    ensures { (r : Point) → IsPoint r → IsBrunotteSet r V.holds → IsFinite r }
{}
