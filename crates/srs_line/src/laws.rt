// What holds of every grammar that is read line by line, once it is shown to be exact.
ghost use Rattle.std.specs.Prelude.{◌≡◌, List, ℕ};
ghost use Rattle.srs_line.specs.Machine.{IsRead, SlipsAt, IsExact, IsTotal, IsReadOrSlips};
ghost use Rattle.srs_line.specs.declared.slip.Slip.{Slip};

use crate::LineMachine;

/// No text is both good and refused.
pub fn never_both<M: LineMachine>()
    ensures { IsExact M.steps M.slips M.is_end →
        (start last : M) (text : List ℕ) (line : ℕ) (slip : Slip) →
        IsRead M.steps M.is_end start text last →
        ¬ (SlipsAt M.steps M.slips M.is_end start text line slip) }
{}

/// A text has at most one first slip, at one line.
pub fn one_slip<M: LineMachine>()
    ensures { IsExact M.steps M.slips M.is_end →
        (start : M) (text : List ℕ) (m n : ℕ) (d e : Slip) →
        SlipsAt M.steps M.slips M.is_end start text m d →
        SlipsAt M.steps M.slips M.is_end start text n e → (m ≡ n) × (d ≡ e) }
{}

/// A good text leads to one state.
pub fn read_once<M: LineMachine>()
    ensures { IsExact M.steps M.slips M.is_end → (start last other : M) (text : List ℕ) →
        IsRead M.steps M.is_end start text last → IsRead M.steps M.is_end start text other → last ≡
        other }
{}

/// A text is good or has a first slip, where each line goes on or slips.
pub fn read_or_slips<M: LineMachine>()
    ensures { (start : M) → IsTotal M.steps M.slips M.is_end start → (text : List ℕ) →
        IsReadOrSlips M.steps M.slips M.is_end start text }
{}
