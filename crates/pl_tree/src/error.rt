ghost use Rattle.std.specs.Prelude.{◌≡◌};
ghost use Rattle.pl_tree.specs.declared.error.TreeError.TheVariants as variants;

use pl_base::{NoMemory, Refusal};
use thiserror::Error;

/// Why the bookmark tree was not changed.
#[derive(Clone, Copy, Debug, PartialEq, Eq, Error)]
pub enum TreeError {
    /// The rows are as they were.
    #[error("{0}")]
    Refused(Refusal),
    /// The rows are to be given up.
    #[error("out of memory")]
    NoMemory,
}

impl From<NoMemory> for TreeError {
    ghost from_gives = { λ _ e. e ≡ variants.NoMemory };

    fn from(_: NoMemory) -> Self {
        TreeError::NoMemory
    }
}

impl From<Refusal> for TreeError {
    ghost from_gives = { λ refusal e. e ≡ variants.Refused refusal };

    fn from(refusal: Refusal) -> Self {
        TreeError::Refused(refusal)
    }
}
