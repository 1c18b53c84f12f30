use pl_base::DeviceFault;
use thiserror::Error;

/// A call of the outside failed.
#[derive(Clone, Copy, Debug, PartialEq, Eq, Error)]
#[error("a call of the outside failed")]
pub struct Failed;

impl From<Failed> for DeviceFault {
    fn from(_: Failed) -> Self {
        DeviceFault
    }
}
