use pl_base::{CheckError, NoMemory, Steps};
use pl_linked::Linked;
use std::alloc::Global;
use std::sync::ledger::Ledger;

/// The day of the store for which a file stands, if it stands for one.
pub(crate) fn day_of<L: Ledger>(
    alloc: Global,
    file: Vec<u8>,
    steps: &mut Steps<L>,
) -> Result<Option<u32>, NoMemory> {
    match Linked::check(alloc, file, steps) {
        Ok(linked) => Ok(Some(linked.day(steps).0)),
        Err(CheckError::NotAStore) => Ok(None),
        Err(CheckError::NoMemory) => Err(NoMemory),
    }
}
