// Findings, which are sound by their type.
ghost use Rattle.std.specs.Prelude.{◌≡◌, IfOk, IfErr};
ghost use Rattle.std.specs.Arc.{arc_value};
ghost use Rattle.srs_path.specs.declared.outcomes.Outcome.TheVariants.{Left};
ghost use Rattle.srs_path.specs.declared.outcomes.Cause.TheVariants.{Memory};
ghost use Rattle.srs_path.specs.Soundness.{IsSound};
ghost use Rattle.srs_path.specs.HeldOutcomes.{outcome_held};

use crate::{Cause, Outcome};
use srs_num::NoMemory;
use srs_plane::Region;
use std::alloc::Global;
use std::marker::Model;
use std::sync::Arc;

// An outcome of one's own, or one that may have other owners.
#[derive(Drop)]
pub(crate) enum Held {
    Own(Outcome),
    Shared(Arc<Outcome>),
}

/// An outcome of a region, for the most witnesses `w` of a cell. It is always sound.
#[derive(Drop)]
pub struct Finding {
    region: Region,
    w: u32,
    held: Held,
}

impl Model for Finding {
    ghost use Rattle.srs_path.specs.Views.{Found};

    ghost Value = { Found };

    ghost use Rattle.srs_path.specs.Soundness.{IsSound};
    ghost use Rattle.srs_path.specs.HeldOutcomes.{outcome_held};

    ghost view = { λ f. record { region = f.region; w = f.w; outcome = outcome_held f.held } };

    ghost invariant = { λ f. IsSound f.region f.w (outcome_held f.held) };
}

impl Finding {
    /// A sound outcome of the region.
    pub fn found(region: Region, w: u32, outcome: Outcome) -> Finding
        requires { IsSound region w outcome }
        ensures { result ≡ record { region = region; w = w; outcome = outcome } }
    {
        Finding {
            region,
            w,
            held: Held::Own(outcome),
        }
    }

    /// A sound outcome of the region, which has other owners too.
    pub fn sharing(region: Region, w: u32, outcome: Arc<Outcome>) -> Finding
        requires { IsSound region w (arc_value outcome) }
        ensures { result ≡ record { region = region; w = w; outcome = arc_value outcome } }
    {
        Finding {
            region,
            w,
            held: Held::Shared(outcome),
        }
    }

    /// The region is left for want of memory.
    pub fn unfound(region: Region, w: u32) -> Finding
        ensures { result ≡ record { region = region; w = w; outcome = Left Memory } }
    {
        Finding {
            region,
            w,
            held: Held::Own(Outcome::Left(Cause::Memory)),
        }
    }

    pub fn region(&self) -> &Region
        ensures { result.now ≡ self.now.region }
    {
        &self.region
    }

    pub fn w(&self) -> u32
        ensures w { result ≡ self.now.w }
        ensures sound { IsSound self.now.region self.now.w self.now.outcome }
    {
        self.w
    }

    pub fn outcome(&self) -> &Outcome
        ensures outcome { result.now ≡ self.now.outcome }
        ensures sound { IsSound self.now.region self.now.w self.now.outcome }
    {
        match &self.held {
            Held::Own(outcome) => outcome,
            Held::Shared(outcome) => outcome.as_ref(),
        }
    }

    /// The three. An `Err` is want of memory: it comes only where the outcome was shared before.
    pub fn parts(self, alloc: Global) -> Result<(Region, u32, Outcome), NoMemory>
        ensures region { IfOk result (λ parts. parts.0 ≡ self.region) }
        ensures w { IfOk result (λ parts. parts.1 ≡ self.w) }
        ensures outcome { IfOk result (λ parts. parts.2 ≡ self.outcome) }
        ensures sound { IsSound self.region self.w self.outcome }
    {
        let Finding { region, w, held } = self;
        match held {
            Held::Own(outcome) => Ok((region, w, outcome)),
            Held::Shared(outcome) => Ok((region, w, outcome.copy(alloc)?)),
        }
    }

    /// An owner of the outcome, and the finding, which has it in common with the owner. An `Err` is
    /// want of memory, and gives the finding back.
    pub fn share_outcome(self, alloc: Global) -> Result<(Arc<Outcome>, Finding), Finding>
        ensures owner { IfOk result (λ shared. arc_value shared.0 ≡ self.outcome) }
        ensures finding { IfOk result (λ shared. shared.1 ≡ self) }
        ensures err { IfErr result (λ f. f ≡ self) }
    {
        let Finding { region, w, held } = self;
        let outcome = match owner(alloc, held) {
            Ok(outcome) => outcome,
            Err(outcome) => {
                return Err(Finding {
                    region,
                    w,
                    held: Held::Own(outcome),
                });
            }
        };
        let copy = Arc::try_clone(&outcome);
        let f = Finding {
            region,
            w,
            held: Held::Shared(outcome),
        };
        match copy {
            Ok(copy) => Ok((copy, f)),
            Err(_) => Err(f),
        }
    }
}

// The outcome with an owner. An `Err` is want of memory.
fn owner(alloc: Global, held: Held) -> Result<Arc<Outcome>, Outcome>
    ensures ok { IfOk result (λ owner. arc_value owner ≡ outcome_held held) }
    ensures err { IfErr result (λ outcome. outcome ≡ outcome_held held) }
{
    match held {
        Held::Own(outcome) => match Arc::new(alloc, outcome) {
            Ok(outcome) => Ok(outcome),
            Err(failed) => Err(failed.value),
        },
        Held::Shared(outcome) => Ok(outcome),
    }
}
