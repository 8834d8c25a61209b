// Lists inside public types: one small type over `Vec`, seen as a list.
ghost use Rattle.std.specs.Prelude.{◌≡◌, ◌<◌, [], ◌∷◌, ◌++◌, List, length, slice_get, Some, ⊤};
ghost use Rattle.std.specs.Prelude.{IfOk, IfErr, OnOk, OnErr};

use crate::{Form, NoMemory, V2};
use std::alloc::Global;
use std::marker::{Model, PhantomData};

/// What is said of the lists of a kind.
pub trait Kept<T> {
    ghost keeps: { List T → Type 0 };
}

/// Lists of which nothing is said.
pub struct Any;

impl<T> Kept<T> for Any {
    ghost keeps = { λ _. ⊤ };
}

/// Items, seen as the list of them. A list of a kind keeps what is said of the lists of that kind.
///
/// Where a list has to grow without a refusal, fill a `Vec` that was reserved, and make the list of
/// it by `of`.
#[derive(Drop)]
pub struct Items<T, K: Kept<T> = Any> {
    items: Vec<T>,
    kind: PhantomData<K>,
}

impl<T, K: Kept<T>> Model for Items<T, K> {
    ghost use Rattle.std.specs.Prelude.{List};
    ghost use Rattle.std.specs.Coded.{coded_list};

    ghost Value = { List T };

    ghost coded = { coded_list T.code };

    ghost view = { λ list. list.items.items };

    ghost invariant = { λ list. K.keeps list.items.items };
}

/// Pairs, seen as the list of them.
pub type Pairs = Items<V2>;

/// Forms, seen as the list of them.
pub type Forms = Items<Form>;

impl<T: Drop, K: Kept<T>> Items<T, K> {
    /// No item. It takes no memory.
    pub fn new(alloc: Global) -> Items<T, K>
        requires { K.keeps [] }
        ensures { result ≡ [] }
    {
        Items::of(Vec::new(alloc))
    }

    /// The list of these items. It takes no memory.
    pub fn of(items: Vec<T>) -> Items<T, K>
        requires { K.keeps items.items }
        ensures { result ≡ items.items }
    {
        Items {
            items,
            kind: PhantomData,
        }
    }

    pub fn len(&self) -> u64
        ensures len { result ≡ length self.now }
        ensures keeps { K.keeps self.now }
    {
        self.items.len() as u64
    }

    pub fn get(&self, i: u64) -> &T
        requires { i < length self.now }
        ensures { slice_get self.now i ≡ Some result.now }
    {
        &self.items[i as usize]
    }

    /// All the items.
    pub fn as_slice(&self) -> &[T]
        ensures { result.now ≡ self.now }
    {
        self.items.as_slice()
    }

    /// Appends the item. An `Err` is want of memory: it gives the item back and changes nothing.
    pub fn push(&mut self, item: T) -> Result<(), T>
        requires { K.keeps (self.old ++ item ∷ []) }
        ensures ok { OnOk result (self.new ≡ self.old ++ item ∷ []) }
        ensures err { OnErr result (self.new ≡ self.old) }
        ensures back { IfErr result (λ back. back ≡ item) }
    {
        match self.items.push(item) {
            Ok(()) => Ok(()),
            Err(refused) => Err(refused.value),
        }
    }
}

impl<T: Copy> Items<T> {
    /// A list of these items. An `Err` is want of memory.
    pub fn from_slice(alloc: Global, items: &[T]) -> Result<Items<T>, NoMemory>
        ensures { IfOk result (λ list. list ≡ items.now) }
    {
        Ok(Items::of(Vec::from_slice(alloc, items)?))
    }
}
