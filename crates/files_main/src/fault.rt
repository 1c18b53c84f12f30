use pl_base::{CheckError, NoMemory};
use thiserror::Error;

/// Why the work was not done to its end.
#[derive(Clone, Copy, Debug, PartialEq, Eq, Error)]
pub enum Fault {
    #[error("usage: files_main write|check|rows|again, with a script or a file as standard input")]
    Usage,
    #[error("standard input failed")]
    NotRead,
    #[error("standard output failed")]
    NotSaid,
    #[error("out of memory")]
    NoMemory,
    #[error("not a store")]
    NotAStore,
    /// The rows do not hold what they told of.
    #[error("the rows do not hold what they told of")]
    NotHeld,
}

impl Fault {
    /// The exit status.
    pub fn status(self) -> u8 {
        match self {
            Fault::NotAStore => 1,
            Fault::NotHeld => 5,
            Fault::Usage => 2,
            Fault::NotRead => 3,
            Fault::NotSaid => 4,
            Fault::NoMemory => 6,
        }
    }
}

impl From<NoMemory> for Fault {
    fn from(_: NoMemory) -> Self {
        Fault::NoMemory
    }
}

impl From<CheckError> for Fault {
    fn from(error: CheckError) -> Self {
        match error {
            CheckError::NotAStore => Fault::NotAStore,
            CheckError::NoMemory => Fault::NoMemory,
        }
    }
}
