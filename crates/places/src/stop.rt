use crate::answer_error::AnswerError;
use std::alloc::AllocError;

/// What ends a run before its script is done.
#[derive(Clone, Copy, Debug, PartialEq, Eq)]
pub enum Stop {
    /// A read failed.
    ReadFault,
    /// Saying a reply failed.
    SayFault,
    /// The store's file failed.
    DeviceFault,
    NoMemory,
    /// The bytes read reached the limit of a script.
    TooLong,
}

impl From<AllocError> for Stop {
    ghost use Rattle.std.specs.Prelude.{◌≡◌};
    ghost use Rattle.places.specs.declared.stop.Stop.TheVariants as stop;

    ghost from_gives = { λ _ e. e ≡ stop.NoMemory };

    fn from(_: AllocError) -> Self {
        Stop::NoMemory
    }
}

impl From<AnswerError> for Stop {
    ghost use Rattle.places.specs.Ending.{Becomes};

    ghost from_gives = { Becomes };

    fn from(error: AnswerError) -> Self {
        match error {
            AnswerError::SayFault => Stop::SayFault,
            AnswerError::DeviceFault => Stop::DeviceFault,
            AnswerError::NoMemory => Stop::NoMemory,
        }
    }
}
