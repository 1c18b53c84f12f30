// The rows of a store in linked slots.
ghost use Rattle.pl_record.specs.LinkedRows.{Keeps};
ghost use Rattle.pl_record.proofs.OneKept.{keeps_once};

use pl_base::Slot;
use pl_byid::SlotIndex;
use pl_slot::Arena;

/// A store in linked slots. What belongs to a page, a visit or an item is in its chains.
#[derive(Debug, Drop)]
pub struct Slotted {
    /// The slots, and the header of the store.
    pub arena: Arena,
    /// The slots of pages by the numbers of their ids.
    pub pages: SlotIndex,
    /// The slots of visits by the numbers of their ids.
    pub visits: SlotIndex,
    /// The slots of items by the numbers of their ids.
    pub items: SlotIndex,
    pub ghost rows: { Keeps arena pages.entries visits.entries
        items.entries } by { keeps_once arena pages.entries visits.entries items.entries },
}
