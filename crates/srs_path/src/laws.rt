//! What the outcome of a region is, said by functions that do nothing: each law is the contract of one.
ghost use Rattle.std.specs.Prelude.{◌≡◌, ℕ, Option};
ghost use Rattle.srs_plane.specs.Regions.{Area};
ghost use Rattle.srs_path.specs.declared.limits.Last.{Last};
ghost use Rattle.srs_path.specs.declared.outcomes.Outcome.{Outcome};
ghost use Rattle.srs_path.specs.Refinement.{Refines};
ghost use Rattle.srs_path.specs.Soundness.{IsSound};

/// A region has one outcome at most, for a limit that is spent or none, and a bound on its witnesses.
pub fn once()
    ensures { (R : Area) (last : Option Last) (W : ℕ) (o p : Outcome) → Refines R last W o → Refines
        R last W p → o ≡ p }
{}

/// The outcome of a region is sound.
pub fn sound()
    ensures { (R : Area) (last : Option Last) (W : ℕ) (o : Outcome) → Refines R last W o → IsSound R
        W o }
{}
