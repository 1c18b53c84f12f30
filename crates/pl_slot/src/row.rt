ghost use Rattle.std.specs.Prelude.{◌≡◌};
ghost use Rattle.pl_slot.specs.Slot.{slot_kind};

use crate::SlotKind;
use pl_base::{ItemId, ItemKind, Micros, PageId, Slot, Transition, VisitId};

/// The bytes of a slot.
pub const SLOT_SIZE: usize = 128;

/// The bytes of a text that a slot takes.
pub const PAYLOAD_SIZE: usize = 120;

/// What a slot holds. A `Slot` in it is 0 where it names none, and an id is any number. The rows of
/// a kind are chained, each with the one before it and the one behind; so are the pages of an
/// origin, the visits of a page, those that came from a visit, the children of an item, and the
/// items of a page. A row has the ends of the chains that are its own.
#[derive(Clone, Copy, Debug, PartialEq, Eq)]
pub enum SlotRow {
    /// Nothing, with the free slot behind it in the chain of free ones.
    Free {
        next: Slot,
    },
    /// A prefix with a host.
    Origin {
        live_previous: Slot,
        live_next: Slot,
        first_page: Slot,
        last_page: Slot,
        /// The sum of the positive frecencies of its pages.
        total: u64,
    },
    /// A page.
    Place {
        typed: bool,
        hidden: bool,
        live_previous: Slot,
        live_next: Slot,
        id: PageId,
        origin: Slot,
        origin_previous: Slot,
        origin_next: Slot,
        first_visit: Slot,
        last_visit: Slot,
        first_reference: Slot,
        last_reference: Slot,
        url_text: Slot,
        /// In bytes, like every length.
        url_length: u32,
        title_text: Slot,
        title_length: u32,
        frecency: i64,
        /// Its `visit_count`.
        count: u32,
    },
    /// A visit to the page in the slot `page`. It came from the visit in the slot `source`.
    Visit {
        transition: Transition,
        live_previous: Slot,
        live_next: Slot,
        id: VisitId,
        page: Slot,
        page_previous: Slot,
        page_next: Slot,
        source: Slot,
        target_previous: Slot,
        target_next: Slot,
        first_target: Slot,
        last_target: Slot,
        date: Micros,
    },
    /// An item of the bookmark tree.
    Item {
        kind: ItemKind,
        live_previous: Slot,
        live_next: Slot,
        id: ItemId,
        parent: Slot,
        sibling_previous: Slot,
        sibling_next: Slot,
        first_child: Slot,
        last_child: Slot,
        page: Slot,
        reference_previous: Slot,
        reference_next: Slot,
        title_text: Slot,
        title_length: u32,
        added: Micros,
        modified: Micros,
    },
    /// A part of a text, before the one in the slot `next`: how many bytes it has, from 1 to 120,
    /// and these, with 0 behind them.
    Text {
        used: u8,
        next: Slot,
        payload: [u8; PAYLOAD_SIZE],
    },
}

impl SlotRow {
    pub fn kind(&self) -> SlotKind
        ensures { result ≡ slot_kind self.now }
    {
        match self {
            SlotRow::Free { .. } => SlotKind::Free,
            SlotRow::Origin { .. } => SlotKind::Origin,
            SlotRow::Place { .. } => SlotKind::Place,
            SlotRow::Visit { .. } => SlotKind::Visit,
            SlotRow::Item { .. } => SlotKind::Item,
            SlotRow::Text { .. } => SlotKind::Text,
        }
    }
}
