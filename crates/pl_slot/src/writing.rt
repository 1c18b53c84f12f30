// Rows, written into the bytes of a slot.
ghost use Rattle.std.specs.Prelude.{◌≡◌, replicate};
ghost use Rattle.pl_base.specs.Live.{slot_size};
ghost use Rattle.pl_slot.specs.declared.kind.SlotKind.TheVariants as kinds;
ghost use Rattle.pl_slot.specs.Slot.{kind_field, marks_byte, slot_bytes, slot_kind};
ghost use Rattle.pl_slot.specs.SlotWriting.{put};

use crate::SlotKind;
use crate::bytes::{put_byte, put_eight, put_four, put_payload, put_slots, put_text};
use crate::row::{SLOT_SIZE, SlotRow};

/// The bytes of a slot that holds this row. Numbers have their lowest byte first, and each byte
/// beside the fields is 0. A part of a text is written as it is, also one that `decode` refuses.
pub fn encode(row: &SlotRow) -> [u8; SLOT_SIZE]
    ensures { result ≡ slot_bytes row.now }
{
    match row.kind() {
        SlotKind::Free => free(row),
        SlotKind::Origin => origin(row),
        SlotKind::Place => place(row),
        SlotKind::Visit => visit(row),
        SlotKind::Item => item(row),
        SlotKind::Text => chunk(row),
    }
}

// A slot that has the field of its kind and no other yet.
fn blank(kind: SlotKind) -> [u8; SLOT_SIZE]
    ensures { result ≡ put (kind_field kind) (replicate slot_size 0) }
{
    let mut bytes = [0; SLOT_SIZE];
    put_byte(&mut bytes, 0, kind.number());
    bytes
}

fn free(row: &SlotRow) -> [u8; SLOT_SIZE]
    requires { slot_kind row.now ≡ kinds.Free }
    ensures { result ≡ slot_bytes row.now }
{
    let SlotRow::Free { next } = *row else {
        unreachable!()
    };
    let mut bytes = blank(SlotKind::Free);
    put_four(&mut bytes, 4, next.0);
    bytes
}

fn origin(row: &SlotRow) -> [u8; SLOT_SIZE]
    requires { slot_kind row.now ≡ kinds.Origin }
    ensures { result ≡ slot_bytes row.now }
{
    let SlotRow::Origin {
        live_previous,
        live_next,
        first_page,
        last_page,
        total,
    } = *row
    else {
        unreachable!()
    };
    let mut bytes = blank(SlotKind::Origin);
    put_slots(&mut bytes, 4, (live_previous, live_next));
    put_slots(&mut bytes, 12, (first_page, last_page));
    put_eight(&mut bytes, 24, total);
    bytes
}

fn place(row: &SlotRow) -> [u8; SLOT_SIZE]
    requires { slot_kind row.now ≡ kinds.Place }
    ensures { result ≡ slot_bytes row.now }
{
    let SlotRow::Place {
        typed,
        hidden,
        live_previous,
        live_next,
        id,
        origin,
        origin_previous,
        origin_next,
        first_visit,
        last_visit,
        first_reference,
        last_reference,
        url_text,
        url_length,
        title_text,
        title_length,
        frecency,
        count,
    } = *row
    else {
        unreachable!()
    };
    let mut bytes = blank(SlotKind::Place);
    put_byte(&mut bytes, 1, marks(typed, hidden));
    put_slots(&mut bytes, 4, (live_previous, live_next));
    put_four(&mut bytes, 12, id.0);
    put_four(&mut bytes, 16, origin.0);
    put_slots(&mut bytes, 20, (origin_previous, origin_next));
    put_slots(&mut bytes, 28, (first_visit, last_visit));
    put_slots(&mut bytes, 36, (first_reference, last_reference));
    put_text(&mut bytes, 44, url_text, url_length);
    put_text(&mut bytes, 52, title_text, title_length);
    put_eight(&mut bytes, 64, frecency.cast_unsigned());
    put_four(&mut bytes, 72, count);
    bytes
}

// The byte of the marks of a page.
fn marks(typed: bool, hidden: bool) -> u8
    ensures { result ≡ marks_byte typed hidden }
{
    u8::from(typed) + 2 * u8::from(hidden)
}

fn visit(row: &SlotRow) -> [u8; SLOT_SIZE]
    requires { slot_kind row.now ≡ kinds.Visit }
    ensures { result ≡ slot_bytes row.now }
{
    let SlotRow::Visit {
        transition,
        live_previous,
        live_next,
        id,
        page,
        page_previous,
        page_next,
        source,
        target_previous,
        target_next,
        first_target,
        last_target,
        date,
    } = *row
    else {
        unreachable!()
    };
    let mut bytes = blank(SlotKind::Visit);
    put_byte(&mut bytes, 1, transition.number());
    put_slots(&mut bytes, 4, (live_previous, live_next));
    put_four(&mut bytes, 12, id.0);
    put_four(&mut bytes, 16, page.0);
    put_slots(&mut bytes, 20, (page_previous, page_next));
    put_four(&mut bytes, 28, source.0);
    put_slots(&mut bytes, 32, (target_previous, target_next));
    put_slots(&mut bytes, 40, (first_target, last_target));
    put_eight(&mut bytes, 48, date.0);
    bytes
}

fn item(row: &SlotRow) -> [u8; SLOT_SIZE]
    requires { slot_kind row.now ≡ kinds.Item }
    ensures { result ≡ slot_bytes row.now }
{
    let SlotRow::Item {
        kind,
        live_previous,
        live_next,
        id,
        parent,
        sibling_previous,
        sibling_next,
        first_child,
        last_child,
        page,
        reference_previous,
        reference_next,
        title_text,
        title_length,
        added,
        modified,
    } = *row
    else {
        unreachable!()
    };
    let mut bytes = blank(SlotKind::Item);
    put_byte(&mut bytes, 1, kind.number());
    put_slots(&mut bytes, 4, (live_previous, live_next));
    put_four(&mut bytes, 12, id.0);
    put_four(&mut bytes, 16, parent.0);
    put_slots(&mut bytes, 20, (sibling_previous, sibling_next));
    put_slots(&mut bytes, 28, (first_child, last_child));
    put_four(&mut bytes, 36, page.0);
    put_slots(&mut bytes, 40, (reference_previous, reference_next));
    put_text(&mut bytes, 48, title_text, title_length);
    put_eight(&mut bytes, 56, added.0);
    put_eight(&mut bytes, 64, modified.0);
    bytes
}

fn chunk(row: &SlotRow) -> [u8; SLOT_SIZE]
    requires { slot_kind row.now ≡ kinds.Text }
    ensures { result ≡ slot_bytes row.now }
{
    let SlotRow::Text {
        used,
        next,
        payload,
    } = row
    else {
        unreachable!()
    };
    let mut bytes = blank(SlotKind::Text);
    put_byte(&mut bytes, 1, *used);
    put_four(&mut bytes, 4, next.0);
    put_payload(&mut bytes, payload);
    bytes
}
