//! Values that several holders share.
ghost use Rattle.std.specs.Prelude.{◌≡◌, IfOk};

use cmc_meta::Item;
use std::alloc::{AllocError, Global};
use std::marker::Model;
use std::ops::Deref;
use std::sync::Arc;

/// A value that is never changed, held by as many as want it; contracts see the value.
pub struct Shared<T> {
    value: Arc<T, Global>,
}

impl<T: Drop> Drop for Shared<T> {
    fn drop(self) {
        let Shared { value: _value } = self;
    }
}

impl<T> Model for Shared<T> {
    ghost use Rattle.std.specs.Arc.{arc_value};

    ghost Value = { T };

    ghost coded = { T.code };

    ghost view = { λ s. arc_value s.value };
}

impl<T: Drop> Shared<T> {
    /// Makes the value one to be shared. An error is one of memory.
    pub fn new(alloc: Global, value: T) -> Result<Shared<T>, AllocError>
        ensures { IfOk result (λ s. s ≡ value) }
    {
        Ok(Shared {
            value: Arc::new(alloc, value)?,
        })
    }

    /// One holder more. It copies nothing; an error is one of memory.
    pub fn copy(&self) -> Result<Shared<T>, AllocError>
        ensures { IfOk result (λ s. s ≡ self.now) }
    {
        Ok(Shared {
            value: Arc::try_clone(&self.value)?,
        })
    }
}

impl<T: Item> Shared<T> {
    /// The value by itself, which is copied only where someone else holds it too. An error is one of memory.
    pub fn into_own(self) -> Result<T, AllocError>
        ensures { IfOk result (λ v. v ≡ self) }
    {
        let Shared { value } = self;
        match Arc::try_unwrap(value) {
            Ok(value) => Ok(value),
            Err(value) => value.as_ref().copy(),
        }
    }
}

impl<T> Deref for Shared<T> {
    type Target = T;

    ghost deref_gives = { λ s x. x ≡ s };

    fn deref(&self) -> &T
        ensures { result.now ≡ self.now }
    {
        self.value.as_ref()
    }
}

impl<T: Item> Item for Shared<T> {
    fn copy(&self) -> Result<Shared<T>, AllocError> {
        Shared::copy(self)
    }

    fn same(&self, other: &Shared<T>) -> bool {
        self.value.as_ref().same(other.value.as_ref())
    }
}
