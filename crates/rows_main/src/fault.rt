use pl_base::NoMemory;
use pl_tree::TreeError;
use thiserror::Error;
use trials_forms::ImportError;

/// Why there is no sum.
#[derive(Clone, Copy, Debug, PartialEq, Eq, Error)]
pub enum Fault {
    #[error("usage: rows_main linked|flat WORK TIMES, with bookmark files as standard input")]
    Usage,
    #[error("standard input failed")]
    NotRead,
    #[error("standard output failed")]
    NotSaid,
    #[error("out of memory")]
    NoMemory,
    /// A file holds no bookmarks, or too many.
    #[error("no bookmark file of a length that is read")]
    NoFile,
    /// No store has so many slots or ids.
    #[error("there is no room")]
    Full,
    /// The rows do not hold what was put there.
    #[error("the rows do not hold what was put there")]
    NotHeld,
}

impl Fault {
    /// The exit status.
    pub fn status(self) -> u8 {
        match self {
            Fault::Usage => 2,
            Fault::NotRead => 3,
            Fault::NotSaid => 4,
            Fault::NoMemory => 6,
            _ => 1,
        }
    }
}

impl From<NoMemory> for Fault {
    fn from(_: NoMemory) -> Self {
        Fault::NoMemory
    }
}

impl From<ImportError> for Fault {
    fn from(error: ImportError) -> Self {
        match error {
            ImportError::NoFile => Fault::NoFile,
            ImportError::NoRoom => Fault::Full,
            ImportError::NoMemory => Fault::NoMemory,
        }
    }
}

impl From<TreeError> for Fault {
    fn from(error: TreeError) -> Self {
        match error {
            TreeError::Refused(_) => Fault::NotHeld,
            TreeError::NoMemory => Fault::NoMemory,
        }
    }
}
