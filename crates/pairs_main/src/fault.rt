use pl_base::NoMemory;
use pl_nbread::ReadError;
use thiserror::Error;

/// Why the work was not done to its end.
#[derive(Clone, Copy, Debug, PartialEq, Eq, Error)]
pub enum Fault {
    #[error("usage: pairs_main both|linked|flat script|import|export [SLOTS]")]
    Usage,
    #[error("standard input failed")]
    NotRead,
    #[error("standard output failed")]
    NotSaid,
    #[error("no bookmark file, at offset {0}")]
    NotBookmarks(u64),
    #[error("the bookmark file is too long")]
    TooLong,
    #[error("out of memory")]
    NoMemory,
    #[error("the import was refused")]
    Refused,
}

impl Fault {
    /// The exit status. That of what differs is 1.
    pub fn status(self) -> u8 {
        match self {
            Fault::Usage => 2,
            Fault::NotRead => 3,
            Fault::NotSaid => 4,
            Fault::NotBookmarks(_) | Fault::TooLong => 5,
            Fault::NoMemory => 6,
            Fault::Refused => 7,
        }
    }
}

impl From<NoMemory> for Fault {
    fn from(_: NoMemory) -> Self {
        Fault::NoMemory
    }
}

impl From<ReadError> for Fault {
    fn from(error: ReadError) -> Self {
        match error {
            ReadError::NotBookmarks(at) => Fault::NotBookmarks(at),
            ReadError::NoMemory => Fault::NoMemory,
        }
    }
}
