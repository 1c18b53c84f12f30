// The fields of the header: each is set and read, and stands at its place by hand.

use pl_base::{Day, Ids, PAGE_SIZE, Slot};
use pl_slot::{Arena, LiveKind};
use std::alloc::Global;
use std::process::Abort;
use std::test::Fail;
use trials_arenas::{arena_with, blank, put};

// What is set by one call.
#[derive(Clone, Copy, Debug)]
enum Field {
    Day,
    Ids,
    First(LiveKind),
    Last(LiveKind),
    Live,
}

// Each field with the byte of page 1 at which it begins, and of how many numbers it is.
const FIELDS: &[(Field, usize, usize)] = &[
    (Field::Day, 12, 1),
    (Field::Ids, 16, 3),
    (Field::First(LiveKind::Origin), 32, 1),
    (Field::Last(LiveKind::Origin), 36, 1),
    (Field::First(LiveKind::Place), 40, 1),
    (Field::Last(LiveKind::Place), 44, 1),
    (Field::First(LiveKind::Visit), 48, 1),
    (Field::Last(LiveKind::Visit), 52, 1),
    (Field::First(LiveKind::Item), 56, 1),
    (Field::Last(LiveKind::Item), 60, 1),
    (Field::Live, 64, 1),
];

// The numbers of page 1 from byte 12 on, of which slot 1 is the first free one.
const NUMBERS: [u32; 14] = [
    20_001,
    1_002,
    2_003,
    3_004,
    1,
    6,
    7,
    8_000_008,
    9_000_009,
    0xa0a1_a2a3,
    0xb0b1_b2b3,
    0xc0c1_c2c3,
    u32::MAX,
    0,
];

// What a field is set to, and the bytes of that.
const SET: [u32; 3] = [0x8899_aabb, 0x0102_0304, u32::MAX - 1];

const SET_BYTES: [u8; 12] = [0xbb, 0xaa, 0x99, 0x88, 4, 3, 2, 1, 0xfe, 0xff, 0xff, 0xff];

// The header of three pages, with other bytes in front of its numbers and behind.
fn header() -> Result<[u8; PAGE_SIZE], Fail> {
    let mut bytes = [0; PAGE_SIZE];
    put(&mut bytes, 0, b"any form")?;
    put(&mut bytes, 8, &[3, 0, 0, 0])?;
    for (n, number) in NUMBERS.iter().enumerate() {
        put(&mut bytes, 12 + 4 * n, &number.to_le_bytes())?;
    }
    put(&mut bytes, 68, b"and behind")?;
    put(&mut bytes, 1_023, b".")?;
    Ok(bytes)
}

// All slots are free, each before the next one.
fn arena(alloc: Global) -> Result<Arena, Fail> {
    let mut bytes = blank(alloc, 3, 1)?;
    put(&mut bytes, 1_024, &header()?)?;
    for slot in 0..7u8 {
        put(&mut bytes, 2_052 + 128 * usize::from(slot), &[slot + 2])?;
    }
    arena_with(bytes)
}

fn set(arena: &mut Arena, field: Field) {
    match field {
        Field::Day => arena.set_day(Day(SET[0])),
        Field::Ids => arena.set_ids(&Ids {
            page: SET[0],
            visit: SET[1],
            item: SET[2],
        }),
        Field::First(kind) => arena.set_first_of(kind, Slot(SET[0])),
        Field::Last(kind) => arena.set_last_of(kind, Slot(SET[0])),
        Field::Live => arena.set_live(SET[0]),
    }
}

// What each reader answers, by the places of what they read.
fn numbers(arena: &Arena) -> [u32; 14] {
    let ids = arena.ids();
    [
        arena.day().0,
        ids.page,
        ids.visit,
        ids.item,
        arena.first_free().0,
        arena.first_of(LiveKind::Origin).0,
        arena.last_of(LiveKind::Origin).0,
        arena.first_of(LiveKind::Place).0,
        arena.last_of(LiveKind::Place).0,
        arena.first_of(LiveKind::Visit).0,
        arena.last_of(LiveKind::Visit).0,
        arena.first_of(LiveKind::Item).0,
        arena.last_of(LiveKind::Item).0,
        arena.live(),
    ]
}

fn check_numbers(rt: &impl Abort, arena: &Arena, at: usize, count: usize) {
    assert!(rt; 12 <= at && at <= 64 && count <= 3);
    let first = (at - 12) / 4;
    for (n, number) in numbers(arena).iter().enumerate() {
        let is_set = first <= n && n < first + count;
        let wanted = if is_set { SET[n - first] } else { NUMBERS[n] };
        assert!(rt; *number == wanted, "number {n}, set from byte {at} on");
    }
    assert!(rt; arena.pages() == 3);
}

// Page 1 alone has changed, and in it the bytes of the field.
fn check_page(rt: &impl Abort, arena: &mut Arena, at: usize, count: usize) -> Result<(), Fail> {
    assert!(rt; count <= 3);
    let mut wanted = header()?;
    put(&mut wanted, at, &SET_BYTES[..4 * count])?;
    let touched = arena.touched()?;
    assert!(rt; touched.before() == 3 && touched.after() == 3);
    assert!(rt; touched.count() == 1 && touched.page(0) == 1);
    assert!(rt; touched.image(0) == &wanted[..], "byte {at}");
    Ok(())
}

#[test]
fn the_header_is_read(rt: HostRuntime) -> Result<(), Fail> {
    let mut arena = arena(rt.alloc())?;
    assert!(rt; numbers(&arena) == NUMBERS && arena.pages() == 3);
    let touched = arena.touched()?;
    assert!(rt; touched.count() == 0);
    Ok(())
}

#[test]
fn each_field_of_the_header_is_set_alone(rt: HostRuntime) -> Result<(), Fail> {
    for (field, at, count) in FIELDS {
        let mut arena = arena(rt.alloc())?;
        set(&mut arena, *field);
        check_numbers(&rt, &arena, *at, *count);
        check_page(&rt, &mut arena, *at, *count)?;
    }
    Ok(())
}
