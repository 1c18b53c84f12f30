ghost use Rattle.std.specs.Prelude.{◌≡◌};
ghost use Rattle.pl_step.specs.declared.step_error.StepError.TheVariants as variants;
ghost use Rattle.pl_step.specs.StepErrors.{of_tree};

use pl_base::{NoMemory, Refusal};
use pl_tree::TreeError;
use thiserror::Error;

/// Why a command was not performed.
#[derive(Clone, Copy, Debug, PartialEq, Eq, Error)]
pub enum StepError {
    /// It is refused, and the store is as it was.
    #[error("{0}")]
    Refused(Refusal),
    /// The store is to be given up.
    #[error("out of memory")]
    NoMemory,
}

impl From<NoMemory> for StepError {
    ghost from_gives = { λ _ e. e ≡ variants.NoMemory };

    fn from(_: NoMemory) -> Self {
        StepError::NoMemory
    }
}

impl From<Refusal> for StepError {
    ghost from_gives = { λ refusal e. e ≡ variants.Refused refusal };

    fn from(refusal: Refusal) -> Self {
        StepError::Refused(refusal)
    }
}

impl From<TreeError> for StepError {
    ghost from_gives = { λ tree e. e ≡ of_tree tree };

    fn from(error: TreeError) -> Self {
        match error {
            TreeError::Refused(refusal) => StepError::Refused(refusal),
            TreeError::NoMemory => StepError::NoMemory,
        }
    }
}
