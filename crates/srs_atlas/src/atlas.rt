// The atlas and its passes.
ghost use Rattle.std.specs.Prelude.{◌≡◌, ◌⊎◌, ◌≤◌, [], length, Some, None, IfOk};
ghost use Rattle.srs_turn.specs.Prefixes.{Begins, longer};
ghost use Rattle.srs_turn.specs.Passes.{IsPassOf};
ghost use Rattle.srs_tree.specs.Tree.{History};
ghost use Rattle.srs_tree.specs.Growth.{IsShortCut};
ghost use Rattle.srs_tree.specs.Snapshots.{StandsFor};
ghost use Rattle.srs_path.specs.Views.{Budget};
ghost use Rattle.srs_atlas.specs.Books.{AreTerms, IsLawful, waiting_in};
ghost use Rattle.srs_atlas.specs.Counting.{AreCounts};
ghost use Rattle.srs_atlas.specs.Commits.{FitsPlan, RepliesWith};

use crate::book::Book;
use crate::commits::{Commit, ahead_of, prepared};
use crate::counts::Counts;
use crate::operations::{Count, Enter, List, Share};
use srs_cell::Cell;
use srs_num::NoMemory;
use srs_path::{Finding, Limits, Path};
use srs_tree::{Ahead, Journal, Pending, PendingList, Version};
use srs_turn::{Pass, Turn};
use std::alloc::Global;
use std::marker::Model;
use std::sync::Wait;

/// A tree that threads refine and ask at the same time. It is seen as which atlas it is, and what
/// no operation changes (`fixed`): its root region, the most witnesses of a cell, and its plan, if
/// it has one.
#[derive(Drop)]
pub struct Atlas {
    turn: Turn<Book>,
    w: u32,
    plan: Option<Limits>,
}

/// What one thread knows of an atlas: the history that it has seen.
pub type AtlasPass = Pass<Book>;

impl Model for Atlas {
    ghost use Rattle.std.specs.Prelude.{◌≡◌};
    ghost use Rattle.srs_turn.specs.Passes.{TurnId};
    ghost use Rattle.srs_atlas.specs.declared.book.Terms.{Terms};
    ghost use Rattle.srs_atlas.specs.Books.{AreTerms};

    ghost Value = { TurnId Terms };

    ghost view = { λ a. a.turn };

    ghost invariant = { λ a. (a.turn.fixed.w ≡ a.w) × (a.turn.fixed.plan ≡ a.plan) × AreTerms a.turn.fixed };
}

impl Atlas {
    /// An atlas of the cell, without an event and without a plan, and the first pass. An `Err` is
    /// want of memory.
    pub fn start<R: Wait>(
        rt: &R,
        alloc: Global,
        cell: Cell,
        w: u32,
    ) -> Result<(Atlas, AtlasPass), NoMemory>
        requires few { length cell ≤ 16 }
        requires w { (1 ≤ w) × (w ≤ 16384) }
        ensures atlas { IfOk result (λ r. r.0.fixed ≡ record { root = cell; w = w; plan = None }) }
        ensures pass { IfOk result (λ r. IsPassOf r.0 r.1 × (r.1.seen ≡ [])) }
    {
        Atlas::begin(rt, alloc, cell, w, None)
    }

    /// As `start`, with a plan: the limits, and their number of witnesses.
    pub fn start_plan<R: Wait>(
        rt: &R,
        alloc: Global,
        cell: Cell,
        limits: Limits,
    ) -> Result<(Atlas, AtlasPass), NoMemory>
        requires { length cell ≤ 16 }
        ensures atlas { IfOk result
            (λ r. r.0.fixed ≡ record { root = cell; w = limits.wits; plan = Some limits }) }
        ensures pass { IfOk result (λ r. IsPassOf r.0 r.1 × (r.1.seen ≡ [])) }
    {
        Atlas::begin(rt, alloc, cell, limits.wits(), Some(limits))
    }

    fn begin<R: Wait>(
        rt: &R,
        alloc: Global,
        cell: Cell,
        w: u32,
        plan: Option<Limits>,
    ) -> Result<(Atlas, AtlasPass), NoMemory>
        requires few { length cell ≤ 16 }
        requires terms { AreTerms (record { root = cell; w = w; plan = plan }) }
        ensures atlas { IfOk result (λ r. r.0.fixed ≡ record { root = cell; w = w; plan = plan }) }
        ensures pass { IfOk result (λ r. IsPassOf r.0 r.1 × (r.1.seen ≡ [])) }
    {
        let book = Book::new(alloc, cell, w, &plan)?;
        match Turn::start(rt, alloc, book) {
            Ok((turn, pass)) => Ok((Atlas { turn, w, plan }, pass)),
            Err(_) => Err(NoMemory),
        }
    }

    /// The most witnesses of a cell.
    pub fn w(&self) -> u32
        ensures w { result ≡ self.now.fixed.w }
        ensures terms { AreTerms self.now.fixed }
    {
        self.w
    }

    /// The plan, if there is one.
    pub fn plan(&self) -> Option<Limits>
        ensures plan { result ≡ self.now.fixed.plan }
        ensures terms { AreTerms self.now.fixed }
    {
        self.plan
    }

    /// Waits for the turn, and enters the finding at the path. Where the atlas has a plan, the
    /// finding keeps to it at some beginning of what the pass has seen.
    pub fn commit<R: Wait>(
        &self,
        rt: &R,
        alloc: Global,
        pass: &mut AtlasPass,
        path: Path,
        f: Finding,
    ) -> Commit
        requires own { IsPassOf self.now pass.old }
        requires w { f.w ≡ self.now.fixed.w }
        requires short { IsShortCut path f.outcome }
        requires planned { (start : History) × Begins start pass.old.seen ×
            ((L : Budget) → self.now.fixed.plan ≡ Some L →
            FitsPlan self.now.fixed.root L start path f.outcome) }
        ensures own { IsPassOf self.now pass.new }
        ensures did { (before : History) × Begins pass.old.seen before ×
            RepliesWith self.now.fixed before path f result pass.new.seen }
        ensures seen { Begins pass.old.seen pass.new.seen }
        ensures lawful { IsLawful self.now.fixed pass.new.seen }
    {
        self.turn.with_turn(
            rt,
            pass,
            Enter {
                alloc,
                path,
                finding: prepared(alloc, f),
                ahead: Ahead {
                    parts: None,
                    near: 0,
                },
            },
        )
    }

    /// As `commit`, at the path of the cell, for a finding of its region mostly: the cells that a cut
    /// makes are made before the turn, and the tree looks first where the cell was.
    pub fn commit_at<R: Wait>(
        &self,
        rt: &R,
        alloc: Global,
        pass: &mut AtlasPass,
        cell: &Pending,
        f: Finding,
    ) -> Commit
        requires own { IsPassOf self.now pass.old }
        requires w { f.w ≡ self.now.fixed.w }
        requires short { IsShortCut cell.now.path f.outcome }
        requires planned { (start : History) × Begins start pass.old.seen ×
            ((L : Budget) → self.now.fixed.plan ≡ Some L →
            FitsPlan self.now.fixed.root L start cell.now.path f.outcome) }
        ensures own { IsPassOf self.now pass.new }
        ensures did { (before : History) × Begins pass.old.seen before ×
            RepliesWith self.now.fixed before cell.now.path f result pass.new.seen }
        ensures seen { Begins pass.old.seen pass.new.seen }
        ensures lawful { IsLawful self.now.fixed pass.new.seen }
    {
        let ahead = ahead_of(alloc, cell, &f);
        self.turn.with_turn(
            rt,
            pass,
            Enter {
                alloc,
                path: cell.path,
                finding: prepared(alloc, f),
                ahead,
            },
        )
    }

    /// Waits for the turn, and shares the newest version. An `Err` is want of memory.
    pub fn refresh<R: Wait>(
        &self,
        rt: &R,
        alloc: Global,
        pass: &mut AtlasPass,
    ) -> Result<Version, NoMemory>
        requires { IsPassOf self.now pass.old }
        ensures own { IsPassOf self.now pass.new }
        ensures seen { Begins pass.old.seen pass.new.seen }
        ensures version { IfOk result (StandsFor self.now.fixed.root pass.new.seen) }
        ensures lawful { IsLawful self.now.fixed pass.new.seen }
    {
        self.turn.with_turn(rt, pass, Share { alloc })
    }

    /// The number of events. It takes no memory and waits for nobody.
    pub fn newest(&self, pass: &mut AtlasPass) -> u64
        requires { IsPassOf self.now pass.old }
        ensures own { IsPassOf self.now pass.new }
        ensures seen { Begins pass.old.seen pass.new.seen }
        ensures count { (result ≡ length pass.new.seen) × (length pass.old.seen ≤ result) }
    {
        self.turn.count(pass)
    }

    /// Waits for the turn, and lists the cells without an event, in the order of the frontier. An
    /// `Err` is want of memory.
    pub fn pending<R: Wait>(
        &self,
        rt: &R,
        alloc: Global,
        pass: &mut AtlasPass,
    ) -> Result<PendingList, NoMemory>
        requires { IsPassOf self.now pass.old }
        ensures own { IsPassOf self.now pass.new }
        ensures seen { Begins pass.old.seen pass.new.seen }
        ensures cells { IfOk result (λ list. list ≡ waiting_in self.now.fixed.root pass.new.seen) }
        ensures lawful { IsLawful self.now.fixed pass.new.seen }
    {
        self.turn.with_turn(rt, pass, List { alloc })
    }

    /// Waits for the turn, and counts the cells on paths of this length at most, and those of this length.
    pub fn counts<R: Wait>(&self, rt: &R, pass: &mut AtlasPass, round: u32) -> Counts
        requires { IsPassOf self.now pass.old }
        ensures own { IsPassOf self.now pass.new }
        ensures seen { Begins pass.old.seen pass.new.seen }
        ensures counts { AreCounts pass.new.seen round result }
        ensures lawful { IsLawful self.now.fixed pass.new.seen }
    {
        self.turn.with_turn(rt, pass, Count { round })
    }

    /// A new pass, which has seen what this one has. It takes no memory and waits for nobody.
    pub fn split_pass(&self, pass: &mut AtlasPass) -> AtlasPass
        requires { IsPassOf self.now pass.old }
        ensures kept { pass.new ≡ pass.old }
        ensures new { result ≡ pass.old }
    {
        self.turn.split(pass)
    }

    /// The pass has then seen the longer of the two histories, one of which begins the other. It
    /// takes no memory and waits for nobody.
    pub fn join_pass(&self, pass: &mut AtlasPass, other: AtlasPass)
        requires { IsPassOf self.now pass.old × IsPassOf self.now other }
        ensures own { IsPassOf self.now pass.new }
        ensures longer { pass.new.seen ≡ longer pass.old.seen other.seen }
        ensures both { Begins pass.old.seen pass.new.seen × Begins other.seen pass.new.seen }
        ensures either { Begins pass.old.seen other.seen ⊎ Begins other.seen pass.old.seen }
    {
        self.turn.join(pass, other);
    }

    /// Waits for the turn, and hands out the newest version and the history, which begins with what
    /// the pass has seen.
    pub fn finish<R: Wait>(self, rt: &R, pass: AtlasPass) -> (Version, Journal)
        requires { IsPassOf self pass }
        ensures seen { Begins pass.seen result.1 }
        ensures version { StandsFor self.fixed.root result.1 result.0 }
        ensures lawful { IsLawful self.fixed result.1 }
    {
        let Atlas { turn, .. } = self;
        turn.finish(rt, pass).close()
    }
}
