// Which pages make an arena, by hand; and slots that are taken and given back.

use pl_base::{Micros, Slot, Transition, VisitId};
use pl_slot::{Arena, SLOT_SIZE, SlotRow, encode};
use std::alloc::Global;
use std::process::Abort;
use std::test::Fail;
use trials_arenas::{blank, over, put, sheets_of, take};

pub const NONE: Slot = Slot(0);

// The visit 1 by typing, to the page in slot 7.
pub const VISIT: SlotRow = SlotRow::Visit {
    transition: Transition::Typed,
    live_previous: NONE,
    live_next: Slot(9),
    id: VisitId(1),
    page: Slot(7),
    page_previous: NONE,
    page_next: NONE,
    source: NONE,
    target_previous: NONE,
    target_next: NONE,
    first_target: NONE,
    last_target: NONE,
    date: Micros(1),
};

// What a slot holds, from slot 1 on: the free slot that it names, or a visit.
#[derive(Clone, Copy)]
enum Held {
    Free(u32),
    Live,
}

use Held::{Free, Live};

// The first free slot of the header, what each slot holds, and whether that is an arena.
const CASES: &[(&str, u32, &[Held], bool)] = &[
    ("no slot", 0, &[], true),
    ("a first free slot of none", 1, &[], false),
    (
        "all free",
        1,
        &[
            Free(2),
            Free(3),
            Free(4),
            Free(5),
            Free(6),
            Free(7),
            Free(8),
            Free(0),
        ],
        true,
    ),
    (
        "all free, from the last on",
        8,
        &[
            Free(0),
            Free(1),
            Free(2),
            Free(3),
            Free(4),
            Free(5),
            Free(6),
            Free(7),
        ],
        true,
    ),
    (
        "all live",
        0,
        &[Live, Live, Live, Live, Live, Live, Live, Live],
        true,
    ),
    (
        "two free ones",
        6,
        &[Live, Live, Free(0), Live, Live, Free(3), Live, Live],
        true,
    ),
    (
        "a chain of none",
        0,
        &[Live, Live, Live, Live, Live, Free(0), Live, Live],
        false,
    ),
    (
        "a loop of one",
        3,
        &[Live, Live, Free(3), Live, Live, Live, Live, Live],
        false,
    ),
    (
        "a loop of all",
        1,
        &[
            Free(2),
            Free(3),
            Free(4),
            Free(5),
            Free(6),
            Free(7),
            Free(8),
            Free(1),
        ],
        false,
    ),
    (
        "a loop behind the first",
        1,
        &[Free(2), Free(3), Free(2), Live, Live, Live, Live, Live],
        false,
    ),
    (
        "one left out",
        1,
        &[Free(3), Free(0), Free(0), Live, Live, Live, Live, Live],
        false,
    ),
    (
        "through a live slot",
        1,
        &[Free(2), Live, Free(0), Live, Live, Live, Live, Live],
        false,
    ),
    (
        "to a live slot at its end",
        1,
        &[Free(2), Live, Live, Live, Live, Live, Live, Live],
        false,
    ),
    (
        "from a live slot",
        2,
        &[Free(0), Live, Live, Live, Live, Live, Live, Live],
        false,
    ),
    (
        "past the last slot",
        1,
        &[Free(9), Live, Live, Live, Live, Live, Live, Live],
        false,
    ),
    (
        "to the greatest slot",
        1,
        &[Free(u32::MAX), Live, Live, Live, Live, Live, Live, Live],
        false,
    ),
];

fn row_of(held: Held) -> SlotRow {
    match held {
        Free(next) => SlotRow::Free { next: Slot(next) },
        Live => VISIT,
    }
}

// The bytes of pages whose slots hold this, beside a header that names the first free one.
fn bytes_of(
    rt: &impl Abort,
    alloc: Global,
    first_free: u32,
    held: &[Held],
) -> Result<Vec<u8>, Fail> {
    assert!(rt; held.len() <= 64);
    let pages = 2 + (held.len() / 8) as u32;
    let mut bytes = blank(alloc, pages, first_free)?;
    for (n, held) in held.iter().enumerate() {
        put(&mut bytes, 2048 + SLOT_SIZE * n, &encode(&row_of(*held)))?;
    }
    Ok(bytes)
}

// An arena whose slots hold this.
fn arena_of(
    rt: &impl Abort,
    alloc: Global,
    first_free: u32,
    held: &[Held],
) -> Result<Option<Arena>, Fail> {
    over(sheets_of(bytes_of(rt, alloc, first_free, held)?)?)
}

// An arena without a slot.
fn none(alloc: Global) -> Result<Arena, Fail> {
    match over(sheets_of(blank(alloc, 2, 0)?)?)? {
        Some(arena) => Ok(arena),
        None => Err(Fail::new("no arena")),
    }
}

#[test]
fn a_chain_of_all_free_slots_makes_an_arena(rt: HostRuntime) -> Result<(), Fail> {
    for (told, first_free, held, is_arena) in CASES {
        let arena = arena_of(&rt, rt.alloc(), *first_free, held)?;
        assert!(rt; arena.is_some() == *is_arena, "{told}");
    }
    Ok(())
}

#[test]
fn a_byte_beside_the_fields_makes_none(rt: HostRuntime) -> Result<(), Fail> {
    let held = [Live; 8];
    let mut bytes = bytes_of(&rt, rt.alloc(), 0, &held)?;
    put(&mut bytes, 2050, &[1])?;
    assert!(rt; over(sheets_of(bytes)?)?.is_none());
    Ok(())
}

#[test]
fn a_slot_that_is_given_back_is_taken_again(rt: HostRuntime) -> Result<(), Fail> {
    let mut arena = none(rt.alloc())?;
    let first = take(&mut arena, &VISIT)?;
    assert!(rt; arena.pages() == 3 && first == Slot(1) && arena.first_free() == Slot(2));
    arena.give_back(first);
    assert!(rt; arena.pages() == 3 && arena.first_free() == Slot(1));
    let again = take(&mut arena, &VISIT)?;
    assert!(rt; again == first && arena.first_free() == Slot(2));
    let touched = arena.touched()?;
    assert!(rt; touched.before() == 2 && touched.after() == 3 && touched.count() == 2);
    assert!(rt; touched.page(0) == 1 && touched.page(1) == 2);
    let rest = arena.touched()?;
    assert!(rt; rest.before() == 3 && rest.after() == 3 && rest.count() == 0);
    Ok(())
}

#[test]
fn a_page_is_added_for_each_eight_slots(rt: HostRuntime) -> Result<(), Fail> {
    let mut arena = none(rt.alloc())?;
    for taken in 0..40 {
        take(&mut arena, &VISIT)?;
        assert!(rt; arena.pages() == 3 + taken / 8);
    }
    assert!(rt; arena.first_free() == NONE);
    Ok(())
}
