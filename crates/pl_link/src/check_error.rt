ghost use Rattle.std.specs.Prelude.{◌≡◌};
ghost use Rattle.pl_link.specs.CheckErrors.{error_of};

use crate::CanonError;
use pl_base::CheckError;

impl From<CanonError> for CheckError {
    ghost from_gives = { λ error e. e ≡ error_of error };

    fn from(error: CanonError) -> Self {
        match error {
            CanonError::BadUrl => CheckError::NotAStore,
            CanonError::NoMemory => CheckError::NoMemory,
        }
    }
}
