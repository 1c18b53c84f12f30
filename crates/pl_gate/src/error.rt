use pl_desk::Failed;
use thiserror::Error;

/// Why a file's gate could not be settled.
#[derive(Clone, Copy, Debug, PartialEq, Eq, Error)]
pub enum GateError {
    /// The file has no page for the gate, or the gate is set over a journal that breaks its format.
    #[error("the gate or its journal breaks the format")]
    BadGate,
    #[error("the device failed")]
    DeviceFault,
}

impl From<Failed> for GateError {
    ghost use Rattle.std.specs.Prelude.{◌≡◌};
    ghost use Rattle.pl_gate.specs.declared.error.GateError.TheVariants as error;

    ghost from_gives = { λ _ e. e ≡ error.DeviceFault };

    fn from(_: Failed) -> Self {
        GateError::DeviceFault
    }
}
