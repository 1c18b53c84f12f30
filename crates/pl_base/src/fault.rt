use thiserror::Error;

/// The device failed: a call of the store's file did not do what it was to do.
#[derive(Clone, Copy, Debug, PartialEq, Eq, Error)]
#[error("the device failed")]
pub struct DeviceFault;
