// The cells of the nodes that are still to come.
ghost use Rattle.std.specs.Prelude.{◌≡◌, ◌<◌, [], ◌∷◌, ◌++◌, Some, length, MatchOption};
ghost use Rattle.srs_check.specs.Stacks.{KeepsRoom, IsPushed};

use smallvec::SmallVec;
use std::alloc::Global;
use std::marker::Model;

// The Ge part of the last cut, if its node is the next one, and the parts that come after it, the
// first of them last. There are never more of them than a path has sides, so they take no memory
// beside their places.
#[derive(Drop)]
pub(crate) struct Waiting<T> {
    next: Option<T>,
    // A `SmallVec` fills the places that it doesn't use with `None`; those that it uses have a cell.
    later: SmallVec<Option<T>, 48>,
}

impl<T> Model for Waiting<T> {
    ghost use Rattle.std.specs.Prelude.{List, ◌++◌, reverse, option_to_list};
    ghost use Rattle.std.specs.List.{flat_map};
    ghost use Rattle.std.specs.Coded.{coded_list};
    ghost use Rattle.srs_check.specs.Stacks.{KeepsRoom};

    ghost Value = { List T };

    ghost coded = { coded_list T.code };

    ghost view = { λ w. option_to_list w.next ++ flat_map option_to_list (reverse w.later.items) };

    ghost invariant = { λ w. KeepsRoom w.later.items w.later.capacity };
}

impl<T: Drop> Waiting<T> {
    // One cell.
    pub(crate) fn of(alloc: Global, root: T) -> Waiting<T>
        ensures { result ≡ root ∷ [] }
    {
        Waiting {
            next: Some(root),
            later: SmallVec::new(alloc),
        }
    }

    // The cell of the next node, which leaves.
    pub(crate) fn take(&mut self) -> Option<T>
        ensures { MatchOption result (self.old ≡ []) (λ cell. self.old ≡ cell ∷ self.new) }
    {
        match self.next.take() {
            Some(cell) => Some(cell),
            None => self.later.pop()?,
        }
    }

    // The parts of a cell come before the others, of which there are fewer than 48.
    pub(crate) fn divide(&mut self, ge: T, lt: T)
        requires { length self.old < 48 }
        ensures { self.new ≡ ge ∷ lt ∷ self.old }
    {
        if let Some(cell) = self.next.take() {
            push(&mut self.later, cell);
        }
        push(&mut self.later, lt);
        self.next = Some(ge);
    }
}

// One cell more, where there is room.
fn push<T: Drop>(cells: &mut SmallVec<Option<T>, 48>, cell: T)
    ensures { KeepsRoom cells.old.items cells.old.capacity → length cells.old.items < 48 →
        IsPushed cells.old.items cells.new.items cells.new.capacity cell }
{
    let _ = cells.push(Some(cell));
}
