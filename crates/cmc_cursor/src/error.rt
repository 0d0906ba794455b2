// Why a value was not read.
use cmc_meta::Texts;
use std::alloc::{AllocError, AllocFailed};

/// Why a value was not read.
#[derive(Drop)]
pub enum BadField {
    /// The value fails at this path: the names of members and the places in lists (from 0) that lead there. The path
    /// of no names is the value itself.
    Path(Texts),
    /// Memory ran out.
    NoMemory,
}

impl From<AllocError> for BadField {
    ghost use Rattle.std.specs.Prelude.{◌≡◌};
    ghost use Rattle.cmc_cursor.specs.declared.error.BadField.TheVariants.{NoMemory};

    ghost from_gives = { λ _ e. e ≡ NoMemory };

    fn from(_: AllocError) -> Self {
        BadField::NoMemory
    }
}

impl<T: Drop> From<AllocFailed<T>> for BadField {
    ghost use Rattle.std.specs.Prelude.{◌≡◌};
    ghost use Rattle.cmc_cursor.specs.declared.error.BadField.TheVariants.{NoMemory};

    ghost from_gives = { λ _ e. e ≡ NoMemory };

    fn from(_: AllocFailed<T>) -> Self {
        BadField::NoMemory
    }
}
