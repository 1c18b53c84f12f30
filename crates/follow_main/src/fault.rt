use pl_base::NoMemory;
use thiserror::Error;

/// Why nothing is printed.
#[derive(Clone, Copy, Debug, PartialEq, Eq, Error)]
pub enum Fault {
    #[error("usage: follow_main none|urls|orders|texts|days|totals|all VIEWS CHANGES")]
    Usage,
    #[error("out of memory")]
    NoMemory,
    #[error("standard output failed")]
    NotSaid,
}

impl Fault {
    /// The exit status.
    pub fn status(self) -> u8 {
        match self {
            Fault::Usage => 2,
            _ => 1,
        }
    }
}

impl From<NoMemory> for Fault {
    fn from(_: NoMemory) -> Self {
        Fault::NoMemory
    }
}
