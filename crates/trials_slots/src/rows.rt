// Rows that are written into live slots, and read.

use crate::arena::{NONE, VISIT};
use pl_base::{ItemId, ItemKind, Micros, PageId, Slot, Transition, VisitId};
use pl_slot::{Arena, PAYLOAD_SIZE, SLOT_SIZE, SlotRow, encode};
use std::alloc::Global;
use std::process::Abort;
use std::test::Fail;
use trials_arenas::{arena_with, blank, put, read, write};

// A row of each kind but a free slot's.
const ROWS: &[SlotRow] = &[
    SlotRow::Origin {
        live_previous: Slot(1),
        live_next: Slot(2),
        first_page: Slot(3),
        last_page: Slot(4),
        total: 5,
    },
    SlotRow::Place {
        typed: true,
        hidden: false,
        live_previous: Slot(1),
        live_next: Slot(2),
        id: PageId(3),
        origin: Slot(4),
        origin_previous: Slot(5),
        origin_next: Slot(6),
        first_visit: Slot(7),
        last_visit: Slot(8),
        first_reference: Slot(9),
        last_reference: Slot(10),
        url_text: Slot(11),
        url_length: 12,
        title_text: Slot(13),
        title_length: 14,
        frecency: -15,
        count: 16,
    },
    VISIT,
    SlotRow::Item {
        kind: ItemKind::Separator,
        live_previous: Slot(1),
        live_next: Slot(2),
        id: ItemId(3),
        parent: Slot(4),
        sibling_previous: Slot(5),
        sibling_next: Slot(6),
        first_child: Slot(7),
        last_child: Slot(8),
        page: Slot(9),
        reference_previous: Slot(10),
        reference_next: Slot(11),
        title_text: Slot(12),
        title_length: 13,
        added: Micros(14),
        modified: Micros(15),
    },
    SlotRow::Text {
        used: 120,
        next: Slot(1),
        payload: [b'x'; PAYLOAD_SIZE],
    },
];

// Slots at the ends of pages and within them, the page of each, and the byte of it where it begins.
const PLACES: &[(u32, u32, usize)] = &[
    (1, 2, 0),
    (3, 2, 256),
    (8, 2, 896),
    (9, 3, 0),
    (16, 3, 896),
];

// A visit that is like no other.
fn visit(slot: u32) -> SlotRow {
    SlotRow::Visit {
        transition: Transition::Download,
        live_previous: NONE,
        live_next: NONE,
        id: VisitId(slot),
        page: Slot(slot),
        page_previous: NONE,
        page_next: NONE,
        source: NONE,
        target_previous: NONE,
        target_next: NONE,
        first_target: NONE,
        last_target: NONE,
        date: Micros(7),
    }
}

// Sixteen slots, each with a visit of its own.
fn visits(alloc: Global) -> Result<Arena, Fail> {
    let mut bytes = blank(alloc, 4, 0)?;
    for slot in 1..17 {
        let at = 1_920 + SLOT_SIZE * slot as usize;
        put(&mut bytes, at, &encode(&visit(slot)))?;
    }
    arena_with(bytes)
}

// One slot has this row, and each other one its own visit.
fn check_rows(rt: &impl Abort, arena: &Arena, written: u32, row: &SlotRow) -> Result<(), Fail> {
    for slot in 1..17 {
        let wanted = if slot == written { *row } else { visit(slot) };
        let held = read(arena, Slot(slot))?;
        assert!(rt; held == wanted, "slot {slot} of {written}: {row:?}");
    }
    Ok(())
}

// The page of the slot alone has changed, and has the bytes of the row there.
fn check_page(
    rt: &impl Abort,
    arena: &mut Arena,
    page: u32,
    at: usize,
    row: &SlotRow,
) -> Result<(), Fail> {
    assert!(rt; at <= 896);
    let touched = arena.touched()?;
    assert!(rt; touched.before() == 4 && touched.after() == 4);
    assert!(rt; touched.count() == 1 && touched.page(0) == page);
    assert!(rt; touched.image(0)[at..at + SLOT_SIZE] == encode(row)[..]);
    Ok(())
}

#[test]
fn slots_are_read_by_their_numbers(rt: HostRuntime) -> Result<(), Fail> {
    let arena = visits(rt.alloc())?;
    check_rows(&rt, &arena, 1, &visit(1))
}

fn check_written(rt: &impl Abort, alloc: Global, row: &SlotRow) -> Result<(), Fail> {
    for (slot, page, at) in PLACES {
        let mut arena = visits(alloc)?;
        write(&mut arena, Slot(*slot), row)?;
        check_rows(rt, &arena, *slot, row)?;
        check_page(rt, &mut arena, *page, *at, row)?;
    }
    Ok(())
}

#[test]
fn a_written_row_leaves_its_neighbours(rt: HostRuntime) -> Result<(), Fail> {
    for row in ROWS {
        check_written(&rt, rt.alloc(), row)?;
    }
    Ok(())
}
