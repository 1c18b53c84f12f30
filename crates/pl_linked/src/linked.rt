// The rows of a store, found in their slots.
use pl_slotted::Slotted;
use std::alloc::Global;

/// A store in linked slots.
///
/// A page, a visit or an item is found by its id, and what belongs to it by its chains:
/// each look-up reads at most four slots, however many there are.
#[derive(Debug, Drop)]
pub struct Linked {
    // The memory of the texts that are read.
    pub(crate) alloc: Global,
    pub(crate) slots: Slotted,
}
