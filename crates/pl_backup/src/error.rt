ghost use Rattle.std.specs.Prelude.{◌≡◌};
ghost use Rattle.pl_backup.specs.BackupTree.{fault_number};
ghost use Rattle.pl_backup.specs.declared.error.BackupError.TheVariants as variants;

use pl_base::NoMemory;
use thiserror::Error;

/// Why bytes are no backup.
#[derive(Clone, Copy, Debug, PartialEq, Eq, Error)]
pub enum Fault {
    /// The bytes are no UTF-8, or no JSON, or it nests deeper than 127, or a number in it is too
    /// large for a float.
    #[error("no JSON")]
    NotJson,
    /// The JSON is no object with an array of `children`.
    #[error("no children")]
    NoChildren,
}

impl Fault {
    /// Its number in a reply.
    pub fn number(self) -> u64
        ensures { result ≡ fault_number self }
    {
        match self {
            Fault::NotJson => 1,
            Fault::NoChildren => 2,
        }
    }
}

/// Why a backup was not read.
#[derive(Clone, Copy, Debug, PartialEq, Eq, Error)]
pub enum BackupError {
    #[error("no backup: {0}")]
    NotBackup(Fault),
    #[error("out of memory")]
    NoMemory,
}

impl From<NoMemory> for BackupError {
    ghost from_gives = { λ _ e. e ≡ variants.NoMemory };

    fn from(_: NoMemory) -> Self {
        BackupError::NoMemory
    }
}
