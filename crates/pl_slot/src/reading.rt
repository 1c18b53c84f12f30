// Rows, read from the bytes of a slot. What reads them is inlined, so that a caller reads only the
// fields that it asks for.
ghost use Rattle.std.specs.Prelude.{◌≡◌, ◌==◌, ◌||◌, IfSome, Some};
ghost use Rattle.std.specs.List.{list_all};
ghost use Rattle.pl_slot.specs.declared.kind.SlotKind.TheVariants as kinds;
ghost use Rattle.pl_slot.specs.declared.row.SlotRow as rows;
ghost use Rattle.pl_slot.specs.Slot as slot;
ghost use Rattle.pl_slot.specs.SlotReading as reading;

use crate::SlotKind;
use crate::bytes::{eight_at, four_at, slot_at};
use crate::row::{PAYLOAD_SIZE, SLOT_SIZE, SlotRow};
use crate::writing::encode;
use pl_base::{ItemId, ItemKind, Micros, PageId, Transition, VisitId};

/// The row that a slot with these bytes holds. `None` comes exactly where they are those of no row:
/// an unknown kind or mark, a part of a text that has no byte, more than 120, or another than 0
/// behind them, or a byte beside the fields that is not 0.
pub fn decode(bytes: &[u8; SLOT_SIZE]) -> Option<SlotRow>
    ensures row { IfSome result slot.IsSlotRow }
    ensures bytes { IfSome result (λ row. bytes.now ≡ slot.slot_bytes row) }
    ensures whole { (row : rows.SlotRow) → slot.IsSlotRow row → bytes.now ≡ slot.slot_bytes row
        → result ≡ Some row }
    ensures spelled { result ≡ reading.row_of bytes.now }
{
    let row = read(bytes)?;
    if encode(&row) != *bytes {
        return None;
    }
    Some(row)
}

/// The only row that may have these bytes, whatever those beside its fields are.
#[inline(always)]
pub fn read(bytes: &[u8; SLOT_SIZE]) -> Option<SlotRow>
    ensures row { result ≡ reading.row_in bytes.now }
    ensures fits { IfSome result slot.IsSlotRow }
{
    match SlotKind::from_number(bytes[0])? {
        SlotKind::Free => Some(SlotRow::Free {
            next: slot_at(bytes, 4),
        }),
        SlotKind::Origin => Some(origin(bytes)),
        SlotKind::Place => Some(place(bytes)),
        SlotKind::Visit => visit(bytes),
        SlotKind::Item => item(bytes),
        SlotKind::Text => chunk(bytes),
    }
}

#[inline(always)]
fn origin(bytes: &[u8; SLOT_SIZE]) -> SlotRow
    ensures row { result ≡ reading.origin_in bytes.now }
    ensures fits { slot.IsSlotRow result }
{
    SlotRow::Origin {
        live_previous: slot_at(bytes, 4),
        live_next: slot_at(bytes, 8),
        first_page: slot_at(bytes, 12),
        last_page: slot_at(bytes, 16),
        total: eight_at(bytes, 24),
    }
}

#[inline(always)]
fn place(bytes: &[u8; SLOT_SIZE]) -> SlotRow
    ensures row { result ≡ reading.place_in bytes.now }
    ensures fits { slot.IsSlotRow result }
{
    SlotRow::Place {
        typed: is_typed(bytes[1]),
        hidden: is_hidden(bytes[1]),
        live_previous: slot_at(bytes, 4),
        live_next: slot_at(bytes, 8),
        id: PageId(four_at(bytes, 12)),
        origin: slot_at(bytes, 16),
        origin_previous: slot_at(bytes, 20),
        origin_next: slot_at(bytes, 24),
        first_visit: slot_at(bytes, 28),
        last_visit: slot_at(bytes, 32),
        first_reference: slot_at(bytes, 36),
        last_reference: slot_at(bytes, 40),
        url_text: slot_at(bytes, 44),
        url_length: four_at(bytes, 48),
        title_text: slot_at(bytes, 52),
        title_length: four_at(bytes, 56),
        frecency: eight_at(bytes, 64).cast_signed(),
        count: four_at(bytes, 72),
    }
}

// Whether the byte of the marks of a page has the one of a typed page.
fn is_typed(marks: u8) -> bool
    ensures { result ≡ ((marks == 1) || (marks == 3)) }
{
    marks == 1 || marks == 3
}

fn is_hidden(marks: u8) -> bool
    ensures { result ≡ ((marks == 2) || (marks == 3)) }
{
    marks == 2 || marks == 3
}

#[inline(always)]
fn visit(bytes: &[u8; SLOT_SIZE]) -> Option<SlotRow>
    ensures row { result ≡ reading.row_of_kind bytes.now kinds.Visit }
    ensures fits { IfSome result slot.IsSlotRow }
{
    Some(SlotRow::Visit {
        transition: Transition::from_number(u64::from(bytes[1]))?,
        live_previous: slot_at(bytes, 4),
        live_next: slot_at(bytes, 8),
        id: VisitId(four_at(bytes, 12)),
        page: slot_at(bytes, 16),
        page_previous: slot_at(bytes, 20),
        page_next: slot_at(bytes, 24),
        source: slot_at(bytes, 28),
        target_previous: slot_at(bytes, 32),
        target_next: slot_at(bytes, 36),
        first_target: slot_at(bytes, 40),
        last_target: slot_at(bytes, 44),
        date: Micros(eight_at(bytes, 48)),
    })
}

#[inline(always)]
fn item(bytes: &[u8; SLOT_SIZE]) -> Option<SlotRow>
    ensures row { result ≡ reading.row_of_kind bytes.now kinds.Item }
    ensures fits { IfSome result slot.IsSlotRow }
{
    Some(SlotRow::Item {
        kind: ItemKind::from_number(bytes[1])?,
        live_previous: slot_at(bytes, 4),
        live_next: slot_at(bytes, 8),
        id: ItemId(four_at(bytes, 12)),
        parent: slot_at(bytes, 16),
        sibling_previous: slot_at(bytes, 20),
        sibling_next: slot_at(bytes, 24),
        first_child: slot_at(bytes, 28),
        last_child: slot_at(bytes, 32),
        page: slot_at(bytes, 36),
        reference_previous: slot_at(bytes, 40),
        reference_next: slot_at(bytes, 44),
        title_text: slot_at(bytes, 48),
        title_length: four_at(bytes, 52),
        added: Micros(eight_at(bytes, 56)),
        modified: Micros(eight_at(bytes, 64)),
    })
}

// A part of a text.
fn chunk(bytes: &[u8; SLOT_SIZE]) -> Option<SlotRow>
    ensures row { result ≡ reading.text_in bytes.now }
    ensures fits { IfSome result slot.IsSlotRow }
{
    let used = bytes[1];
    let mut payload = [0; PAYLOAD_SIZE];
    payload.copy_from_slice(&bytes[8..]);
    if !is_payload(used, &payload) {
        return None;
    }
    Some(SlotRow::Text {
        used,
        next: slot_at(bytes, 4),
        payload,
    })
}

// Whether a part of a text is one: it uses at least one byte, and those behind are 0.
fn is_payload(used: u8, payload: &[u8; PAYLOAD_SIZE]) -> bool
    ensures { result ≡ slot.is_payload used payload.now }
{
    let used = usize::from(used);
    if used == 0 || used > PAYLOAD_SIZE {
        return false;
    }
    are_zeros(&payload[used..])
}

fn are_zeros(bytes: &[u8]) -> bool
    ensures { result ≡ list_all (λ b. b == 0) bytes.now }
{
    bytes.iter().all(|byte| *byte == 0)
}
