ghost use Rattle.std.specs.Prelude.{◌≡◌};
ghost use Rattle.pl_base.specs.declared.check_error.CheckError.TheVariants as variants;

use crate::NoMemory as OutOfMemory;
use std::alloc::{AllocError, AllocFailed};
use thiserror::Error;

/// Why a file's bytes give no store.
#[derive(Clone, Copy, Debug, PartialEq, Eq, Error)]
pub enum CheckError {
    /// The bytes stand for no store.
    #[error("the file is not a store")]
    NotAStore,
    #[error("out of memory")]
    NoMemory,
}

impl From<OutOfMemory> for CheckError {
    ghost from_gives = { λ _ e. e ≡ variants.NoMemory };

    fn from(_: OutOfMemory) -> Self {
        CheckError::NoMemory
    }
}

impl<T: Drop> From<AllocFailed<T>> for CheckError {
    ghost from_gives = { λ _ e. e ≡ variants.NoMemory };

    fn from(_: AllocFailed<T>) -> Self {
        CheckError::NoMemory
    }
}

impl From<AllocError> for CheckError {
    ghost from_gives = { λ _ e. e ≡ variants.NoMemory };

    fn from(_: AllocError) -> Self {
        CheckError::NoMemory
    }
}
