use pl_base::NoMemory;
use pl_nbread::ReadError;
use thiserror::Error;

/// Why a file's bookmarks did not come to rows.
#[derive(Clone, Copy, Debug, PartialEq, Eq, Error)]
pub enum ImportError {
    /// It holds no bookmarks, or more than an import takes.
    #[error("no bookmark file that is imported")]
    NoFile,
    #[error("no room")]
    NoRoom,
    #[error("out of memory")]
    NoMemory,
}

impl From<NoMemory> for ImportError {
    fn from(_: NoMemory) -> Self {
        ImportError::NoMemory
    }
}

impl From<ReadError> for ImportError {
    fn from(error: ReadError) -> Self {
        match error {
            ReadError::NotBookmarks(_) => ImportError::NoFile,
            ReadError::NoMemory => ImportError::NoMemory,
        }
    }
}
