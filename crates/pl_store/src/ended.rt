ghost use Rattle.std.specs.Prelude.{◌≡◌};
ghost use Rattle.pl_store.specs.declared.ended.Ended.TheVariants as variants;
ghost use Rattle.pl_store.specs.Errors.{ended_by_check, ended_by_gate};

use pl_base::{CheckError, DeviceFault, NoMemory};
use pl_desk::Failed;
use pl_gate::GateError;
use std::alloc::AllocError;
use thiserror::Error;

/// Why there is no session.
#[derive(Clone, Copy, Debug, PartialEq, Eq, Error)]
pub enum Ended {
    /// A call of the store's file failed.
    #[error("the device failed")]
    DeviceFault,
    #[error("out of memory")]
    NoMemory,
    /// The bytes of the file stand for no store.
    #[error("the file is not a store")]
    NotAStore,
    /// A new store is not written over a file that has so many bytes.
    #[error("the file has {0} bytes")]
    NotEmpty(u64),
}

impl From<Failed> for Ended {
    ghost from_gives = { λ _ e. e ≡ variants.DeviceFault };

    fn from(_: Failed) -> Self {
        Ended::DeviceFault
    }
}

impl From<DeviceFault> for Ended {
    ghost from_gives = { λ _ e. e ≡ variants.DeviceFault };

    fn from(_: DeviceFault) -> Self {
        Ended::DeviceFault
    }
}

impl From<NoMemory> for Ended {
    ghost from_gives = { λ _ e. e ≡ variants.NoMemory };

    fn from(_: NoMemory) -> Self {
        Ended::NoMemory
    }
}

impl From<AllocError> for Ended {
    ghost from_gives = { λ _ e. e ≡ variants.NoMemory };

    fn from(_: AllocError) -> Self {
        Ended::NoMemory
    }
}

impl From<GateError> for Ended {
    ghost from_gives = { λ error e. e ≡ ended_by_gate error };

    fn from(error: GateError) -> Self {
        match error {
            GateError::BadGate => Ended::NotAStore,
            GateError::DeviceFault => Ended::DeviceFault,
        }
    }
}

impl From<CheckError> for Ended {
    ghost from_gives = { λ error e. e ≡ ended_by_check error };

    fn from(error: CheckError) -> Self {
        match error {
            CheckError::NotAStore => Ended::NotAStore,
            CheckError::NoMemory => Ended::NoMemory,
        }
    }
}
