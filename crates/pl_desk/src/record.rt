/// What a recorded call did to the file.
#[derive(Debug, Drop)]
pub(crate) enum Deed {
    Nothing,
    Wrote { at: u64, bytes: Vec<u8> },
    /// A write of so many bytes that failed.
    Tore { at: u64, len: usize },
    Synced,
}

/// A call in the record of a desk in memory.
#[derive(Debug, Drop)]
pub(crate) struct Recorded {
    /// How many bytes had been said when it began.
    pub(crate) said_before: usize,
    pub(crate) deed: Deed,
}
