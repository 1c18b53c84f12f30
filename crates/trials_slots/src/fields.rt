// Rows of which one field alone is not 0, and the bytes that they have.

use pl_base::{ItemId, ItemKind, Micros, PageId, Slot, Transition, VisitId};
use pl_slot::{PAYLOAD_SIZE, SLOT_SIZE, SlotRow, decode, encode};
use std::process::Abort;

// Where the fields of 4 bytes lie.
const ORIGIN_FIELDS: [usize; 4] = [4, 8, 12, 16];

const PLACE_FIELDS: [usize; 15] = [4, 8, 12, 16, 20, 24, 28, 32, 36, 40, 44, 48, 52, 56, 72];

const VISIT_FIELDS: [usize; 11] = [4, 8, 12, 16, 20, 24, 28, 32, 36, 40, 44];

const ITEM_FIELDS: [usize; 13] = [4, 8, 12, 16, 20, 24, 28, 32, 36, 40, 44, 48, 52];

// An origin with these numbers of 4 bytes, in the order of the fields, and this total.
fn origin(fours: [u32; 4], total: u64) -> SlotRow {
    let [live_previous, live_next, first_page, last_page] = fours;
    SlotRow::Origin {
        live_previous: Slot(live_previous),
        live_next: Slot(live_next),
        first_page: Slot(first_page),
        last_page: Slot(last_page),
        total,
    }
}

fn place(marks: (bool, bool), fours: [u32; 15], frecency: i64) -> SlotRow {
    SlotRow::Place {
        typed: marks.0,
        hidden: marks.1,
        live_previous: Slot(fours[0]),
        live_next: Slot(fours[1]),
        id: PageId(fours[2]),
        origin: Slot(fours[3]),
        origin_previous: Slot(fours[4]),
        origin_next: Slot(fours[5]),
        first_visit: Slot(fours[6]),
        last_visit: Slot(fours[7]),
        first_reference: Slot(fours[8]),
        last_reference: Slot(fours[9]),
        url_text: Slot(fours[10]),
        url_length: fours[11],
        title_text: Slot(fours[12]),
        title_length: fours[13],
        frecency,
        count: fours[14],
    }
}

fn visit(transition: Transition, fours: [u32; 11], date: u64) -> SlotRow {
    SlotRow::Visit {
        transition,
        live_previous: Slot(fours[0]),
        live_next: Slot(fours[1]),
        id: VisitId(fours[2]),
        page: Slot(fours[3]),
        page_previous: Slot(fours[4]),
        page_next: Slot(fours[5]),
        source: Slot(fours[6]),
        target_previous: Slot(fours[7]),
        target_next: Slot(fours[8]),
        first_target: Slot(fours[9]),
        last_target: Slot(fours[10]),
        date: Micros(date),
    }
}

fn item(kind: ItemKind, fours: [u32; 13], added: u64, modified: u64) -> SlotRow {
    SlotRow::Item {
        kind,
        live_previous: Slot(fours[0]),
        live_next: Slot(fours[1]),
        id: ItemId(fours[2]),
        parent: Slot(fours[3]),
        sibling_previous: Slot(fours[4]),
        sibling_next: Slot(fours[5]),
        first_child: Slot(fours[6]),
        last_child: Slot(fours[7]),
        page: Slot(fours[8]),
        reference_previous: Slot(fours[9]),
        reference_next: Slot(fours[10]),
        title_text: Slot(fours[11]),
        title_length: fours[12],
        added: Micros(added),
        modified: Micros(modified),
    }
}

// A slot with these two bytes at its head and this value in so many bytes from one on, 0 elsewhere.
fn slot(head: [u8; 2], at: usize, width: usize, value: u8) -> [u8; SLOT_SIZE] {
    let mut bytes = [0; SLOT_SIZE];
    bytes[0] = head[0];
    bytes[1] = head[1];
    for byte in bytes.iter_mut().skip(at).take(width) {
        *byte = value;
    }
    bytes
}

fn check(rt: &impl Abort, row: &SlotRow, bytes: &[u8; SLOT_SIZE]) {
    assert!(rt; encode(row) == *bytes, "{row:?}");
    assert!(rt; decode(bytes) == Some(*row), "{row:?}");
}

#[test]
fn spells_a_visit(rt: HostRuntime) {
    let row = visit(Transition::Typed, [0, 9, 1, 7, 0, 0, 0, 0, 0, 0, 0], 1);
    let mut bytes = [0; SLOT_SIZE];
    bytes[0] = 3;
    bytes[1] = 2;
    bytes[8] = 9;
    bytes[12] = 1;
    bytes[16] = 7;
    bytes[48] = 1;
    check(&rt, &row, &bytes);
    bytes[2] = 1;
    assert!(rt; decode(&bytes).is_none());
}

fn check_free(rt: &impl Abort, next: u32, value: u8) {
    let row = SlotRow::Free { next: Slot(next) };
    check(rt, &row, &slot([0, 0], 4, 4, value));
}

#[test]
fn spells_free_slots(rt: HostRuntime) {
    check_free(&rt, 0, 0);
    check_free(&rt, u32::MAX, 255);
}

#[test]
fn spells_origins(rt: HostRuntime) {
    check(&rt, &origin([0; 4], 0), &slot([1, 0], 0, 0, 0));
    for (field, at) in ORIGIN_FIELDS.iter().enumerate() {
        let mut fours = [0; 4];
        fours[field] = u32::MAX;
        check(&rt, &origin(fours, 0), &slot([1, 0], *at, 4, 255));
    }
    check(&rt, &origin([0; 4], u64::MAX), &slot([1, 0], 24, 8, 255));
}

fn check_marks(rt: &impl Abort, typed: bool, hidden: bool, byte: u8) {
    check(
        rt,
        &place((typed, hidden), [0; 15], 0),
        &slot([2, byte], 0, 0, 0),
    );
}

#[test]
fn spells_the_marks_of_places(rt: HostRuntime) {
    check_marks(&rt, false, false, 0);
    check_marks(&rt, true, false, 1);
    check_marks(&rt, false, true, 2);
    check_marks(&rt, true, true, 3);
}

#[test]
fn spells_places(rt: HostRuntime) {
    for (field, at) in PLACE_FIELDS.iter().enumerate() {
        let mut fours = [0; 15];
        fours[field] = u32::MAX;
        let row = place((false, false), fours, 0);
        check(&rt, &row, &slot([2, 0], *at, 4, 255));
    }
}

fn check_frecency(rt: &impl Abort, frecency: i64, bytes: &[u8; SLOT_SIZE]) {
    check(rt, &place((false, false), [0; 15], frecency), bytes);
}

#[test]
fn spells_frecencies(rt: HostRuntime) {
    check_frecency(&rt, -1, &slot([2, 0], 64, 8, 255));
    // The least and the greatest.
    check_frecency(&rt, i64::MIN, &slot([2, 0], 71, 1, 0x80));
    let mut greatest = slot([2, 0], 64, 8, 255);
    greatest[71] = 0x7f;
    check_frecency(&rt, i64::MAX, &greatest);
}

fn check_transition(rt: &impl Abort, transition: Transition, number: u8) {
    check(
        rt,
        &visit(transition, [0; 11], 0),
        &slot([3, number], 0, 0, 0),
    );
}

#[test]
fn spells_transitions(rt: HostRuntime) {
    check_transition(&rt, Transition::Link, 1);
    check_transition(&rt, Transition::Typed, 2);
    check_transition(&rt, Transition::Bookmark, 3);
    check_transition(&rt, Transition::Embed, 4);
    check_transition(&rt, Transition::RedirectPermanent, 5);
    check_transition(&rt, Transition::RedirectTemporary, 6);
    check_transition(&rt, Transition::Download, 7);
    check_transition(&rt, Transition::FramedLink, 8);
    check_transition(&rt, Transition::Reload, 9);
}

#[test]
fn spells_visits(rt: HostRuntime) {
    for (field, at) in VISIT_FIELDS.iter().enumerate() {
        let mut fours = [0; 11];
        fours[field] = u32::MAX;
        let row = visit(Transition::Link, fours, 0);
        check(&rt, &row, &slot([3, 1], *at, 4, 255));
    }
    let row = visit(Transition::Link, [0; 11], u64::MAX);
    check(&rt, &row, &slot([3, 1], 48, 8, 255));
}

fn check_kind(rt: &impl Abort, kind: ItemKind, number: u8) {
    check(rt, &item(kind, [0; 13], 0, 0), &slot([4, number], 0, 0, 0));
}

#[test]
fn spells_kinds_of_items(rt: HostRuntime) {
    check_kind(&rt, ItemKind::Bookmark, 1);
    check_kind(&rt, ItemKind::Folder, 2);
    check_kind(&rt, ItemKind::Separator, 3);
}

#[test]
fn spells_items(rt: HostRuntime) {
    for (field, at) in ITEM_FIELDS.iter().enumerate() {
        let mut fours = [0; 13];
        fours[field] = u32::MAX;
        let row = item(ItemKind::Folder, fours, 0, 0);
        check(&rt, &row, &slot([4, 2], *at, 4, 255));
    }
    let added = item(ItemKind::Folder, [0; 13], u64::MAX, 0);
    check(&rt, &added, &slot([4, 2], 56, 8, 255));
    let modified = item(ItemKind::Folder, [0; 13], 0, u64::MAX);
    check(&rt, &modified, &slot([4, 2], 64, 8, 255));
}

// A part of a text, in which so many bytes from one on are 255.
fn check_text(rt: &impl Abort, used: u8, next: u32, at: usize, width: usize) {
    let bytes = slot([5, used], at, width, 255);
    let mut payload = [0; PAYLOAD_SIZE];
    payload.copy_from_slice(&bytes[8..]);
    let row = SlotRow::Text {
        used,
        next: Slot(next),
        payload,
    };
    check(rt, &row, &bytes);
}

#[test]
fn spells_texts(rt: HostRuntime) {
    check_text(&rt, 1, 0, 0, 0);
    check_text(&rt, 1, u32::MAX, 4, 4);
    check_text(&rt, 1, 0, 8, 1);
    check_text(&rt, 120, 0, 8, 120);
}

fn check_refused(rt: &impl Abort, used: u8, at: usize, width: usize) {
    assert!(rt;
        decode(&slot([5, used], at, width, 255)).is_none(),
        "{used}"
    );
}

#[test]
fn refuses_parts_of_texts(rt: HostRuntime) {
    // No byte is used, or more than there are.
    check_refused(&rt, 0, 0, 0);
    check_refused(&rt, 121, 0, 0);
    check_refused(&rt, 255, 0, 0);
    // A byte behind those that are used is not 0.
    check_refused(&rt, 1, 9, 1);
    check_refused(&rt, 119, 127, 1);
}
