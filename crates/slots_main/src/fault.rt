use pl_base::{CheckError, NoMemory};
use std::alloc::{AllocError, AllocFailed};
use thiserror::Error;

/// Why there is no sum.
#[derive(Clone, Copy, Debug, PartialEq, Eq, Error)]
pub enum Fault {
    #[error("usage: slots_main read|write|field|link|touched|texts N M, with N from 1 on")]
    Usage,
    #[error("out of memory")]
    NoMemory,
    /// No store has so many slots.
    #[error("there are too many slots")]
    Full,
    /// The slots do not hold what was put there.
    #[error("the slots do not hold what was put there")]
    NotHeld,
    #[error("standard output failed")]
    NotSaid,
}

impl Fault {
    /// The exit status.
    pub fn status(self) -> u8 {
        match self {
            Fault::Usage => 2,
            _ => 1,
        }
    }
}

impl From<NoMemory> for Fault {
    fn from(_: NoMemory) -> Self {
        Fault::NoMemory
    }
}

impl From<AllocError> for Fault {
    fn from(_: AllocError) -> Self {
        Fault::NoMemory
    }
}

impl<T: Drop> From<AllocFailed<T>> for Fault {
    fn from(_: AllocFailed<T>) -> Self {
        Fault::NoMemory
    }
}

impl From<CheckError> for Fault {
    fn from(error: CheckError) -> Self {
        match error {
            CheckError::NotAStore => Fault::NotHeld,
            CheckError::NoMemory => Fault::NoMemory,
        }
    }
}
