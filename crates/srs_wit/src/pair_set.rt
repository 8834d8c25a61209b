// A set of pairs that is looked up fast where their entries are small.
ghost use Rattle.std.specs.Prelude.{◌≡◌, ◌≤◌, ◌<◌, ◌*◌, ◌^◌, ◌++◌, [], ◌∷◌, length};
ghost use Rattle.std.specs.Prelude.{if◌then◌else◌, ℕ, List, MatchOption, IsTrue, IfOk, OnOk, OnErr};
ghost use Rattle.indexmap.specs.IndexSet.{insert_key};
ghost use Rattle.srs_map.specs.Step.{IsNarrow};
ghost use Rattle.srs_path.specs.Core.{pair_eq};
ghost use Rattle.srs_num.specs.Points.{IsWithin};
ghost use Rattle.srs_wit.specs.PairSets.{has_pair, with_pair, IsNear, IsNumber, AreIndexed};
ghost use Rattle.srs_wit.specs.PairSets.{all_of, IsNext, HasOneMore};
ghost use Rattle.srs_wit.specs.Runs.{run_pair, run_with, AddsAll};

use crate::marks::{MarkTable, is_marked, mark};
use crate::runs::Run;
use indexmap::IndexSet;
use srs_num::{NoMemory, V2};
use std::alloc::Global;
use std::marker::Model;

// Different pairs, seen as two lists: those that were followed, and those that wait for it, the
// newest last. A pair is put down twice only if its turn comes.
#[derive(Drop)]
pub(crate) struct PairSet {
    followed: Vec<V2>,
    waiting: Vec<V2>,
    // The first entry of a near pair is from 0 on and below this, and the second one from its
    // opposite on and below it.
    side: usize,
    // The marks of the near ones.
    near: MarkTable,
    // The others.
    far: IndexSet<V2>,
}

impl Model for PairSet {
    ghost use Rattle.std.specs.Prelude.{◌++◌};
    ghost use Rattle.srs_wit.specs.PairSets.{AreIndexed, Lists};

    ghost Value = { Lists };

    ghost view = { λ s. record { followed = s.followed.items; waiting = s.waiting.items } };

    ghost invariant = { λ s. AreIndexed s.side (s.followed.items ++ s.waiting.items)
        s.near.words.items s.far.keys };
}

// The number of the pair, row by row, or `None` where it isn't near.
#[inline(always)]
fn number(side: usize, v: V2) -> Option<usize>
    requires small { side ≤ 2 ^ 10 }
    requires narrow { IsNarrow v }
    ensures { MatchOption result (IsNear side v → ⊥) (IsNumber side v) }
{
    let row = v.a.cast_unsigned() as usize;
    let column = (v.b + side as i64).cast_unsigned() as usize;
    if row >= side || column >= 2 * side {
        return None;
    }
    Some(row * (2 * side) + column)
}

// The number of a near pair, row by row.
#[inline(always)]
fn number_of_near(side: usize, v: V2) -> usize
    requires small { side ≤ 2 ^ 10 }
    requires near { IsNear side v }
    ensures { IsNumber side v result }
{
    let row = v.a.cast_unsigned() as usize;
    let column = (v.b + side as i64).cast_unsigned() as usize;
    row * (2 * side) + column
}

// Whether all pairs of the run are near.
#[inline(always)]
fn is_near_run(side: usize, run: Run) -> bool
    requires small { side ≤ 2 ^ 10 }
    requires first { IsWithin (2 ^ 41) run.first }
    requires few { run.count ≤ 2 ^ 43 }
    ensures { IsTrue result → (k : ℕ) → k < run.count → IsNear side (run_pair run k) }
{
    let side = side as i64;
    if run.a < 0 || run.a >= side {
        return false;
    }
    let more = run.count as i64 - 1;
    if run.back {
        run.first < side && -side <= run.first - more
    } else {
        -side <= run.first && run.first + more < side
    }
}

// Adds the pair to those far away and to those that wait, unless it is among those far away.
#[inline(never)]
fn insert_far(waiting: &mut Vec<V2>, far: &mut IndexSet<V2>, v: V2) -> Result<(), NoMemory>
    ensures far { OnOk result (far.new.keys ≡ insert_key pair_eq far.old.keys v) }
    ensures waiting { OnOk result (waiting.new.items ≡ (if has_pair far.old.keys v
        then waiting.old.items else waiting.old.items ++ v ∷ [])) }
    ensures err_far { OnErr result (far.new.keys ≡ far.old.keys) }
    ensures err_waiting { OnErr result (waiting.new.items ≡ waiting.old.items) }
{
    match far.insert(v) {
        Ok(true) => {}
        Ok(false) => return Ok(()),
        Err(_) => return Err(NoMemory),
    }
    match waiting.push(v) {
        Ok(()) => Ok(()),
        Err(_) => {
            let _ = far.pop();
            Err(NoMemory)
        }
    }
}

// Adds the near pair, which has this number, to those that wait, unless it is there.
#[inline(always)]
fn insert_near(waiting: &mut Vec<V2>, marks: &mut [u64], k: usize, v: V2) -> Result<(), NoMemory>
    requires { k < 64 * length marks.old }
    ensures indexed { (side : ℕ) (followed far : List V2) → IsNumber side v k
        → AreIndexed side (followed ++ waiting.old.items) marks.old far
        → AreIndexed side (followed ++ waiting.new.items) marks.new far }
    ensures waiting { (side : ℕ) (followed far : List V2) → IsNumber side v k
        → AreIndexed side (followed ++ waiting.old.items) marks.old far
        → OnOk result (waiting.new.items ≡ with_pair followed waiting.old.items v) }
{
    if is_marked(marks, k) {
        return Ok(());
    }
    waiting.push(v)?;
    mark(marks, k);
    Ok(())
}

// Adds the pair to those that wait, unless it is there.
#[inline(always)]
fn insert(
    followed: &Vec<V2>,
    waiting: &mut Vec<V2>,
    marks: &mut [u64],
    far: &mut IndexSet<V2>,
    side: usize,
    v: V2,
) -> Result<(), NoMemory>
    requires indexed { AreIndexed side (followed.now.items ++ waiting.old.items)
        marks.old far.old.keys }
    requires narrow { IsNarrow v }
    ensures indexed { AreIndexed side (followed.now.items ++ waiting.new.items)
        marks.new far.new.keys }
    ensures waiting { OnOk result (waiting.new.items ≡
        with_pair followed.now.items waiting.old.items v) }
{
    match number(side, v) {
        Some(k) => insert_near(waiting, marks, k, v),
        None => insert_far(waiting, far, v),
    }
}

// Adds the pairs of the run, which are near, to those that wait, unless they are there.
#[inline(always)]
fn add_near_run(
    followed: &Vec<V2>,
    waiting: &mut Vec<V2>,
    marks: &mut [u64],
    far: &IndexSet<V2>,
    side: usize,
    run: Run,
) -> Result<(), NoMemory>
    requires indexed { AreIndexed side (followed.now.items ++ waiting.old.items)
        marks.old far.now.keys }
    requires first { IsWithin (2 ^ 41) run.first }
    requires few { run.count ≤ 2 ^ 43 }
    requires near { (k : ℕ) → k < run.count → IsNear side (run_pair run k) }
    ensures indexed { AreIndexed side (followed.now.items ++ waiting.new.items)
        marks.new far.now.keys }
    ensures added { OnOk result (AddsAll (followed.now.items ++ waiting.old.items) (run_pair run)
        run.count (followed.now.items ++ waiting.new.items) waiting.old.items waiting.new.items) }
{
    let step = run.step();
    for place in 0..run.count {
        let v = run.pair(step, place);
        insert_near(waiting, marks, number_of_near(side, v), v)?;
    }
    Ok(())
}

// Adds the pairs of the run, some of which may be far away, to those that wait, unless they are
// there.
#[inline(always)]
fn add_run(
    followed: &Vec<V2>,
    waiting: &mut Vec<V2>,
    marks: &mut [u64],
    far: &mut IndexSet<V2>,
    side: usize,
    run: Run,
) -> Result<(), NoMemory>
    requires indexed { AreIndexed side (followed.now.items ++ waiting.old.items)
        marks.old far.old.keys }
    requires first { IsWithin (2 ^ 41) run.first }
    requires few { run.count ≤ 2 ^ 43 }
    requires narrow { (k : ℕ) → k < run.count → IsNarrow (run_pair run k) }
    ensures indexed { AreIndexed side (followed.now.items ++ waiting.new.items)
        marks.new far.new.keys }
    ensures added { OnOk result (AddsAll (followed.now.items ++ waiting.old.items) (run_pair run)
        run.count (followed.now.items ++ waiting.new.items) waiting.old.items waiting.new.items) }
{
    let step = run.step();
    for k in 0..run.count {
        insert(followed, waiting, marks, far, side, run.pair(step, k))?;
    }
    Ok(())
}

// Takes all of them out. It costs nothing where there are none, whatever the room is.
fn clear_far(far: &mut IndexSet<V2>)
    ensures { far.new.keys ≡ [] }
{
    if far.is_empty() {
        return;
    }
    far.clear();
}

impl PairSet {
    // No pair, and room for so many. Pairs below the side are looked up fast.
    pub(crate) fn new(alloc: Global, room: usize, side: usize) -> Result<PairSet, NoMemory>
        requires { side ≤ 2 ^ 10 }
        ensures followed { IfOk result (λ set. set.followed ≡ []) }
        ensures waiting { IfOk result (λ set. set.waiting ≡ []) }
    {
        let near = MarkTable::new(alloc, 2 * side * side)?;
        Ok(PairSet {
            followed: Vec::with_capacity(alloc, room)?,
            waiting: Vec::with_capacity(alloc, room)?,
            side,
            near,
            far: IndexSet::new(alloc),
        })
    }

    // Takes all of them out, and keeps the room.
    pub(crate) fn clear(&mut self)
        ensures followed { self.new.followed ≡ [] }
        ensures waiting { self.new.waiting ≡ [] }
    {
        self.followed.clear();
        self.waiting.clear();
        self.near.clear();
        clear_far(&mut self.far);
    }

    // How many there are.
    #[inline(always)]
    pub(crate) fn len(&self) -> usize
        requires { length (all_of self.now) ≤ 2 ^ 34 }
        ensures { result ≡ length (all_of self.now) }
    {
        self.followed.len() + self.waiting.len()
    }

    // All of them: first those that were followed.
    pub(crate) fn to_vec(&self, alloc: Global) -> Result<Vec<V2>, NoMemory>
        ensures { IfOk result (λ all. all.items ≡ all_of self.now) }
    {
        let mut all = Vec::from_slice(alloc, &self.followed)?;
        all.extend_from_slice(&self.waiting)?;
        Ok(all)
    }

    // The newest of those that wait. From now on it is one of those that were followed.
    #[inline(always)]
    pub(crate) fn next(&mut self) -> Result<Option<V2>, NoMemory>
        ensures { IfOk result (λ next. MatchOption next
            ((self.new ≡ self.old) × (self.old.waiting ≡ [])) (λ w. IsNext self.old w self.new)) }
    {
        let Some(w) = self.waiting.pop() else {
            return Ok(None);
        };
        let Ok(()) = self.followed.push(w) else {
            self.followed.clear();
            self.waiting.clear();
            self.near.clear();
            clear_far(&mut self.far);
            return Err(NoMemory);
        };
        Ok(Some(w))
    }

    // Adds the pairs of the run. Those that are new wait.
    #[inline(always)]
    pub(crate) fn add_run(&mut self, run: Run) -> Result<(), NoMemory>
        requires first { IsWithin (2 ^ 41) run.first }
        requires few { run.count ≤ 2 ^ 43 }
        requires narrow { (k : ℕ) → k < run.count → IsNarrow (run_pair run k) }
        ensures { OnOk result (AddsAll (all_of self.old) (run_pair run) run.count (all_of self.new)
            self.old.waiting self.new.waiting) }
    {
        // Two loops, each of which goes one way.
        if run.back {
            self.add_one_way(run)
        } else {
            self.add_one_way(run)
        }
    }

    // The same.
    #[inline(always)]
    fn add_one_way(&mut self, run: Run) -> Result<(), NoMemory>
        requires first { IsWithin (2 ^ 41) run.first }
        requires few { run.count ≤ 2 ^ 43 }
        requires narrow { (k : ℕ) → k < run.count → IsNarrow (run_pair run k) }
        ensures { OnOk result (AddsAll (all_of self.old) (run_pair run) run.count (all_of self.new)
            self.old.waiting self.new.waiting) }
    {
        let side = self.side;
        if is_near_run(side, run) {
            return add_near_run(
                &self.followed,
                &mut self.waiting,
                &mut self.near.words,
                &self.far,
                side,
                run,
            );
        }
        self.add_far_run(run.a, run.first, run.count, run.back)
    }

    // The same, of a run of which some pairs may be far away. The numbers of the run come one by one,
    // so that they need no place in memory where a run is near.
    #[inline(never)]
    fn add_far_run(&mut self, a: i64, first: i64, count: u64, back: bool) -> Result<(), NoMemory>
        requires first { IsWithin (2 ^ 41) first }
        requires few { count ≤ 2 ^ 43 }
        requires narrow { (k : ℕ) → k < count → IsNarrow (run_pair (run_with a first count back) k) }
        ensures { OnOk result (AddsAll (all_of self.old) (run_pair (run_with a first count back))
            count (all_of self.new) self.old.waiting self.new.waiting) }
    {
        let side = self.side;
        let run = Run {
            a,
            first,
            count,
            back,
        };
        add_run(
            &self.followed,
            &mut self.waiting,
            &mut self.near.words,
            &mut self.far,
            side,
            run,
        )
    }

    // Adds the pair, which waits if it is new.
    pub(crate) fn insert(&mut self, v: V2) -> Result<(), NoMemory>
        requires { IsNarrow v }
        ensures { OnOk result (HasOneMore self.old v self.new) }
    {
        let side = self.side;
        insert(
            &self.followed,
            &mut self.waiting,
            &mut self.near.words,
            &mut self.far,
            side,
            v,
        )
    }
}
