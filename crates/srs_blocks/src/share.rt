// Values with more than one owner.
ghost use Rattle.std.specs.Prelude.{◌≡◌, IfOk};

use srs_num::NoMemory;
use std::alloc::Global;
use std::marker::Model;
use std::sync::Arc;

/// A value of which an equal one can be had that shares what is large in it.
pub trait Share: Sized {
    /// An equal value. An `Err` is want of memory.
    fn share(&self) -> Result<Self, NoMemory>
        ensures { IfOk result (λ copy. copy ≡ self.now) };
}

// A value that may have other owners, seen as the value.
#[derive(Drop)]
pub(crate) struct Shared<T> {
    pub(crate) value: Arc<T>,
}

impl<T> Model for Shared<T> {
    ghost use Rattle.std.specs.Arc.{arc_value};

    ghost Value = { T };

    ghost coded = { T.code };

    ghost view = { λ shared. arc_value shared.value };
}

impl<T> Shared<T> {
    // The value with one owner.
    pub(crate) fn new(alloc: Global, value: T) -> Result<Shared<T>, NoMemory>
    where
        T: Drop,
        ensures { IfOk result (λ shared. shared ≡ value) }
    {
        Ok(Shared {
            value: Arc::new(alloc, value)?,
        })
    }

    pub(crate) fn get(&self) -> &T
        ensures { result.now ≡ self.now }
    {
        self.value.as_ref()
    }
}

impl<T> Share for Shared<T> {
    fn share(&self) -> Result<Shared<T>, NoMemory> {
        Ok(Shared {
            value: Arc::try_clone(&self.value)?,
        })
    }
}
