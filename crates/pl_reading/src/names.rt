// What the numbers in slots name, which may be any.
ghost use Rattle.std.specs.Prelude.{◌≡◌, ◌+◌, ◌≤◌, IfSome, None, Option, Some};
ghost use Rattle.pl_reading.specs.Read.{Names};
ghost use Rattle.pl_record.specs.Rows as spec;
ghost use Rattle.pl_slot.specs.Arena as slots;

use pl_base::{ItemId, PAGE_SIZE, PageId, Slot, Steps, VisitId};
use pl_slot::{Arena, SLOT_SIZE, SlotRow};
use std::sync::ledger::Ledger;

const SLOTS_A_PAGE: u32 = (PAGE_SIZE / SLOT_SIZE) as u32;

// What a slot holds, if the number is that of one.
fn row_at<L: Ledger>(arena: &Arena, slot: Slot, steps: &mut Steps<L>) -> Option<SlotRow>
    ensures { result ≡ slots.row_at slot.0 arena.now }
{
    if slot.0 == 0 {
        return None;
    }
    if slot.0 > SLOTS_A_PAGE * (arena.pages() - 2) {
        return None;
    }
    Some(arena.read(slot, steps))
}

/// The id of the page in a slot, if there is one.
pub fn page_in<L: Ledger>(arena: &Arena, slot: Slot, steps: &mut Steps<L>) -> Option<PageId>
    ensures { result ≡ spec.page_in arena.now slot }
{
    match row_at(arena, slot, steps)? {
        SlotRow::Place { id, .. } => Some(id),
        _ => None,
    }
}

/// The id of the visit in a slot, if there is one.
pub fn visit_in<L: Ledger>(arena: &Arena, slot: Slot, steps: &mut Steps<L>) -> Option<VisitId>
    ensures { result ≡ spec.visit_in arena.now slot }
{
    match row_at(arena, slot, steps)? {
        SlotRow::Visit { id, .. } => Some(id),
        _ => None,
    }
}

/// The id of the item in a slot, if there is one.
pub fn item_in<L: Ledger>(arena: &Arena, slot: Slot, steps: &mut Steps<L>) -> Option<ItemId>
    ensures { result ≡ spec.item_in arena.now slot }
{
    match row_at(arena, slot, steps)? {
        SlotRow::Item { id, .. } => Some(id),
        _ => None,
    }
}

/// The page that a number names, or none for 0. `None` comes where it names no page.
pub fn named_page<L: Ledger>(
    arena: &Arena,
    slot: Slot,
    steps: &mut Steps<L>,
) -> Option<Option<PageId>>
    ensures some { IfSome result (Names (spec.page_in arena.now) slot) }
    ensures none { result ≡ None → (page : Option PageId)
        → Names (spec.page_in arena.now) slot page → ⊥ }
{
    if slot.0 == 0 {
        return Some(None);
    }
    Some(Some(page_in(arena, slot, steps)?))
}

/// The visit that a number names, in the same way.
pub fn named_visit<L: Ledger>(
    arena: &Arena,
    slot: Slot,
    steps: &mut Steps<L>,
) -> Option<Option<VisitId>>
    ensures some { IfSome result (Names (spec.visit_in arena.now) slot) }
    ensures none { result ≡ None → (visit : Option VisitId)
        → Names (spec.visit_in arena.now) slot visit → ⊥ }
{
    if slot.0 == 0 {
        return Some(None);
    }
    Some(Some(visit_in(arena, slot, steps)?))
}
