use pl_base::{DeviceFault as Fault, NoMemory as OutOfMemory};
use thiserror::Error;

/// Why a line has no answer.
#[derive(Clone, Copy, Debug, PartialEq, Eq, Error)]
pub enum AnswerError {
    /// The line failed while the reply was said.
    #[error("the reply was not said")]
    SayFault,
    /// The store's file failed: nothing of the reply was said.
    #[error("the device failed")]
    DeviceFault,
    /// There was no memory for the command or its reply: nothing of it was said.
    #[error("out of memory")]
    NoMemory,
}

impl From<OutOfMemory> for AnswerError {
    ghost use Rattle.std.specs.Prelude.{◌≡◌};
    ghost use Rattle.places.specs.declared.answer_error.AnswerError.TheVariants as error;

    ghost from_gives = { λ _ e. e ≡ error.NoMemory };

    fn from(_: OutOfMemory) -> Self {
        AnswerError::NoMemory
    }
}

impl From<Fault> for AnswerError {
    ghost use Rattle.std.specs.Prelude.{◌≡◌};
    ghost use Rattle.places.specs.declared.answer_error.AnswerError.TheVariants as error;

    ghost from_gives = { λ _ e. e ≡ error.DeviceFault };

    fn from(_: Fault) -> Self {
        AnswerError::DeviceFault
    }
}
