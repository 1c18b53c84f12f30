ghost use Rattle.std.specs.Prelude.{◌≡◌};
ghost use Rattle.pl_intake.specs.Intake.{backup_error, bookmarks_error};

use pl_backup::{BackupError, Fault};
use pl_nbread::ReadError;
use thiserror::Error;

/// Why bytes hold no tree to bring in.
#[derive(Clone, Copy, Debug, PartialEq, Eq, Error)]
pub enum IntakeError {
    /// They are no bookmark file, from this offset on.
    #[error("no bookmark file, at offset {0}")]
    NotBookmarks(u64),
    #[error("no backup: {0}")]
    NotBackup(Fault),
    #[error("out of memory")]
    NoMemory,
}

impl From<ReadError> for IntakeError {
    ghost from_gives = { λ error e. e ≡ bookmarks_error error };

    fn from(error: ReadError) -> Self {
        match error {
            ReadError::NotBookmarks(at) => IntakeError::NotBookmarks(at),
            ReadError::NoMemory => IntakeError::NoMemory,
        }
    }
}

impl From<BackupError> for IntakeError {
    ghost from_gives = { λ error e. e ≡ backup_error error };

    fn from(error: BackupError) -> Self {
        match error {
            BackupError::NotBackup(fault) => IntakeError::NotBackup(fault),
            BackupError::NoMemory => IntakeError::NoMemory,
        }
    }
}
