// Texts that are looked for in slots by hand.

use crate::made::{NONE, check_bytes, part};
use crate::texts::find;
use pl_base::{Micros, Slot, Transition, VisitId};
use pl_slot::{Arena, PAYLOAD_SIZE, SLOT_SIZE, SlotRow, encode};
use std::alloc::Global;
use std::process::Abort;
use std::test::Fail;
use trials_arenas::{arena_with, blank, put};

// The visit 1 by a link, to the page in slot 7.
const VISIT: SlotRow = SlotRow::Visit {
    transition: Transition::Link,
    live_previous: NONE,
    live_next: NONE,
    id: VisitId(1),
    page: Slot(7),
    page_previous: NONE,
    page_next: NONE,
    source: NONE,
    target_previous: NONE,
    target_next: NONE,
    first_target: NONE,
    last_target: NONE,
    date: Micros(1),
};

// What a slot holds: a part of a text, of so many bytes and before the one in another slot; the
// only free slot; or a visit.
#[derive(Clone, Copy)]
enum Held {
    Part(usize, u32),
    Free,
    Other,
}

use Held::{Free, Other, Part};

// What eight slots hold, from slot 1 on and visits behind; from which slot on a text of so many
// bytes is looked for; and its slots, if it is found.
type Case = (
    &'static str,
    &'static [Held],
    u32,
    u32,
    Option<&'static [u32]>,
);

const LENGTHS: &[Case] = &[
    ("no byte", &[Part(1, 0)], 0, 0, Some(&[])),
    ("no byte of a slot", &[Part(1, 0)], 1, 0, None),
    ("one byte of no slot", &[Part(1, 0)], 0, 1, None),
    ("one byte", &[Part(1, 0)], 1, 1, Some(&[1])),
    ("a full slot", &[Part(120, 0)], 1, 120, Some(&[1])),
    ("a byte less than it has", &[Part(120, 0)], 1, 119, None),
    ("a byte more", &[Part(119, 0)], 1, 120, None),
    (
        "another slot is left",
        &[Part(120, 2), Part(1, 0)],
        1,
        120,
        None,
    ),
    ("a byte is left", &[Part(120, 2), Part(2, 0)], 1, 121, None),
    (
        "a byte is missing",
        &[Part(120, 2), Part(1, 0)],
        1,
        122,
        None,
    ),
    (
        "a slot is missing",
        &[Part(120, 2), Part(120, 0)],
        1,
        241,
        None,
    ),
    (
        "the last of two",
        &[Part(120, 2), Part(7, 0)],
        2,
        7,
        Some(&[2]),
    ),
    (
        "the first not full",
        &[Part(119, 2), Part(120, 3), Part(2, 0)],
        1,
        241,
        None,
    ),
    (
        "the middle not full",
        &[Part(120, 2), Part(119, 3), Part(2, 0)],
        1,
        241,
        None,
    ),
    (
        "in no order",
        &[
            Other,
            Part(120, 7),
            Other,
            Other,
            Part(120, 2),
            Other,
            Part(10, 0),
        ],
        5,
        250,
        Some(&[5, 2, 7]),
    ),
];

const LINKS: &[Case] = &[
    ("a loop of one", &[Part(120, 1)], 1, 120, None),
    ("twice round it", &[Part(120, 1)], 1, 240, None),
    ("a loop of two", &[Part(120, 2), Part(120, 1)], 1, 240, None),
    (
        "four times round it",
        &[Part(120, 2), Part(120, 1)],
        1,
        960,
        None,
    ),
    // Each of two texts is found by itself, also where they have a slot together.
    (
        "the first of two texts",
        &[Part(120, 3), Part(120, 3), Part(5, 0)],
        1,
        125,
        Some(&[1, 3]),
    ),
    (
        "the second of them",
        &[Part(120, 3), Part(120, 3), Part(5, 0)],
        2,
        125,
        Some(&[2, 3]),
    ),
    ("a free slot", &[Free], 1, 1, None),
    ("to a free slot", &[Part(120, 2), Free], 1, 121, None),
    ("a visit", &[Other], 1, 1, None),
    ("to a visit", &[Part(120, 2), Other], 1, 121, None),
    (
        "to itself from a visit",
        &[Part(120, 2), Other],
        2,
        120,
        None,
    ),
    ("past the last slot", &[Part(1, 0)], 9, 1, None),
    ("to past the last slot", &[Part(120, 9)], 1, 121, None),
    ("the greatest slot", &[Part(1, 0)], u32::MAX, 1, None),
    ("to the greatest slot", &[Part(120, u32::MAX)], 1, 121, None),
];

const ALL: &[Held] = &[
    Part(120, 2),
    Part(120, 3),
    Part(120, 4),
    Part(120, 5),
    Part(120, 6),
    Part(120, 7),
    Part(120, 8),
    Part(120, 0),
];

const ROUND: &[Held] = &[
    Part(120, 2),
    Part(120, 3),
    Part(120, 4),
    Part(120, 5),
    Part(120, 6),
    Part(120, 7),
    Part(120, 8),
    Part(120, 1),
];

const LONG: &[Case] = &[
    ("all slots", ALL, 1, 960, Some(&[1, 2, 3, 4, 5, 6, 7, 8])),
    (
        "all but the first",
        ALL,
        2,
        840,
        Some(&[2, 3, 4, 5, 6, 7, 8]),
    ),
    ("the last alone", ALL, 8, 120, Some(&[8])),
    ("a byte more than all", ALL, 1, 961, None),
    ("the greatest length", ALL, 1, u32::MAX, None),
    ("round all", ROUND, 1, 960, None),
    ("a byte more than round all", ROUND, 1, 961, None),
    ("the greatest length round all", ROUND, 1, u32::MAX, None),
];

// The bytes of a part in a slot are all alike: A in slot 1, B in slot 2 and so on.
fn row_of(rt: &impl Abort, place: u8, held: Held) -> SlotRow {
    assert!(rt; place < 8);
    match held {
        Part(used, next) => {
            assert!(rt; used <= PAYLOAD_SIZE);
            part(rt, &[b'A' + place; PAYLOAD_SIZE][..used], Slot(next))
        }
        Free => SlotRow::Free { next: NONE },
        Other => VISIT,
    }
}

// The free slot, 0 where there is none.
fn first_free(rt: &impl Abort, held: &[Held]) -> u32 {
    assert!(rt; held.len() <= 8);
    match held.iter().position(|held| matches!(held, Free)) {
        Some(place) => place as u32 + 1,
        None => 0,
    }
}

fn arena_of(rt: &impl Abort, alloc: Global, held: &[Held]) -> Result<Arena, Fail> {
    let mut bytes = blank(alloc, 3, first_free(rt, held))?;
    for place in 0..8u8 {
        let at = usize::from(place);
        let row = row_of(rt, place, held.get(at).copied().unwrap_or(Other));
        put(&mut bytes, 2048 + SLOT_SIZE * at, &encode(&row))?;
    }
    arena_with(bytes)
}

fn are(slots: &[Slot], numbers: &[u32]) -> bool {
    slots.len() == numbers.len() && slots.iter().zip(numbers).all(|(slot, n)| slot.0 == *n)
}

fn is_wanted(found: &Option<Vec<Slot>>, wanted: Option<&[u32]>) -> bool {
    match found {
        Some(slots) => wanted.is_some_and(|numbers| are(slots, numbers)),
        None => wanted.is_none(),
    }
}

fn check_case(rt: &impl Abort, alloc: Global, case: &Case) -> Result<(), Fail> {
    let (told, held, slot, length, wanted) = *case;
    let arena = arena_of(rt, alloc, held)?;
    let found = find(alloc, &arena, Slot(slot), length)?;
    assert!(rt; is_wanted(&found, wanted), "{told}");
    Ok(())
}

fn check_cases(rt: &impl Abort, alloc: Global, cases: &[Case]) -> Result<(), Fail> {
    for case in cases {
        check_case(rt, alloc, case)?;
    }
    Ok(())
}

#[test]
fn a_text_has_just_its_length(rt: HostRuntime) -> Result<(), Fail> {
    check_cases(&rt, rt.alloc(), LENGTHS)
}

#[test]
fn a_text_is_in_slots_with_parts(rt: HostRuntime) -> Result<(), Fail> {
    check_cases(&rt, rt.alloc(), LINKS)
}

#[test]
fn no_text_has_more_slots_than_there_are(rt: HostRuntime) -> Result<(), Fail> {
    check_cases(&rt, rt.alloc(), LONG)
}

#[test]
fn what_is_found_is_read(rt: HostRuntime) -> Result<(), Fail> {
    let held = [Other, Part(2, 0), Part(120, 2), Other, Part(120, 3)];
    let arena = arena_of(&rt, rt.alloc(), &held)?;
    let mut text = vec![in rt.alloc(); b'E'; 242]?;
    put(&mut text, 120, &[b'C'; 120])?;
    put(&mut text, 240, b"BB")?;
    check_bytes(&rt, rt.alloc(), &arena, Slot(5), &text)?;
    Ok(())
}
