use crate::items::{Item, Items};
use std::alloc::AllocError;

/// A list of numbers.
pub type Numbers = Items<u64>;

impl Item for u64 {
    fn copy(&self) -> Result<u64, AllocError> {
        Ok(*self)
    }

    fn same(&self, other: &u64) -> bool {
        *self == *other
    }
}
