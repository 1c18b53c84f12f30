// A slot that is taken where none is free, with memory for a page more and without. The
// allocations of a run in which one fails, by `rt try --test --fail-alloc N`, are those of the
// take too: one where the bytes of pages are full, one where the marks of 64 pages are, and two
// where those of 4,096 are.

use pl_base::{NoMemory, Slot, Touched};
use pl_slot::{Arena, SLOT_SIZE, SlotRow, encode};
use std::alloc::Global;
use std::process::Abort;
use std::test::Fail;
use trials_arenas::{arena_with, blank, put, read, slot_count, write};

// So many pages are made, and two are added.
const PAGES: &[u32] = &[3, 63, 4_095];

const NONE: Slot = Slot(0);

const ORIGIN: SlotRow = SlotRow::Origin {
    live_previous: NONE,
    live_next: NONE,
    first_page: Slot(7),
    last_page: Slot(8),
    total: 9,
};

const OTHER: SlotRow = SlotRow::Origin {
    live_previous: Slot(1),
    live_next: Slot(2),
    first_page: NONE,
    last_page: NONE,
    total: 10,
};

// So many pages, of which all slots are live.
fn full(rt: &impl Abort, alloc: Global, pages: u32) -> Result<Arena, Fail> {
    assert!(rt; 3 <= pages && pages <= 4_096);
    let mut bytes = blank(alloc, pages, 0)?;
    for slot in 0..8 * (pages - 2) {
        let at = 2_048 + SLOT_SIZE * slot as usize;
        put(&mut bytes, at, &encode(&ORIGIN))?;
    }
    arena_with(bytes)
}

// Takes a slot, if there is memory.
fn take(rt: &impl Abort, arena: &mut Arena) -> Option<Slot> {
    assert!(rt; arena.pages() < 100_000);
    arena.take(&ORIGIN).ok()
}

// Takes the slots that are free.
fn fill(arena: &mut Arena) -> Result<(), Fail> {
    for _ in 0..7 {
        if arena.first_free() == NONE {
            return Ok(());
        }
        trials_arenas::take(arena, &ORIGIN)?;
    }
    Ok(())
}

// So many slots hold what was written.
fn check_rows(rt: &impl Abort, arena: &Arena, count: u32) -> Result<(), Fail> {
    assert!(rt; count <= slot_count(arena));
    for slot in 2..count + 1 {
        let row = read(arena, Slot(slot))?;
        assert!(rt; row == ORIGIN, "{slot}");
    }
    Ok(())
}

// Where a slot was taken there is a page more, of which the next slot is free, and else nothing
// has changed.
fn check_header(rt: &impl Abort, arena: &Arena, pages: u32, taken: Option<Slot>) {
    match taken {
        Some(slot) => {
            assert!(rt; 3 <= pages && pages <= 4_096);
            assert!(rt; arena.pages() == pages + 1 && slot == Slot(8 * (pages - 2) + 1));
            assert!(rt; arena.first_free() == Slot(slot.0 + 1));
        }
        None => assert!(rt; arena.pages() == pages && arena.first_free() == NONE),
    }
}

// The pages that have changed, also where memory for the list was found at a second call.
fn touched(arena: &mut Arena) -> Result<Touched, NoMemory> {
    match arena.touched() {
        Ok(touched) => Ok(touched),
        Err(_) => arena.touched(),
    }
}

// These pages have changed.
fn check_touched(
    rt: &impl Abort,
    arena: &mut Arena,
    before: u32,
    pages: &[u32],
) -> Result<(), Fail> {
    let touched = touched(arena)?;
    assert!(rt; touched.before() == before && touched.after() == arena.pages());
    assert!(rt; touched.count() == pages.len());
    for (index, page) in pages.iter().enumerate() {
        assert!(rt; touched.page(index) == *page);
    }
    Ok(())
}

// Slot 1 is written, and a slot is taken where none is free; or nothing else changes.
fn check_take(rt: &impl Abort, arena: &mut Arena, row: &SlotRow) -> Result<(), Fail> {
    let pages = arena.pages();
    write(arena, Slot(1), row)?;
    let taken = take(rt, arena);
    check_header(rt, arena, pages, taken);
    let held = read(arena, Slot(1))?;
    assert!(rt; held == *row);
    match taken {
        Some(_) => check_touched(rt, arena, pages, &[1, 2, pages]),
        None => check_touched(rt, arena, pages, &[2]),
    }
}

fn check_takes(rt: &impl Abort, alloc: Global, pages: u32) -> Result<(), Fail> {
    let mut arena = full(rt, alloc, pages)?;
    check_take(rt, &mut arena, &OTHER)?;
    fill(&mut arena)?;
    touched(&mut arena)?;
    let count = slot_count(&arena);
    check_take(rt, &mut arena, &ORIGIN)?;
    check_rows(rt, &arena, count)
}

#[test]
fn a_take_without_memory_changes_nothing(rt: HostRuntime) -> Result<(), Fail> {
    for pages in PAGES {
        check_takes(&rt, rt.alloc(), *pages)?;
    }
    Ok(())
}
