// Texts that are stored, read and freed.

use crate::made::{
    NONE, check_bytes, check_live, check_loaded, check_text, empty, found, free_text, part,
    store_text, text,
};
use crate::texts::store;
use pl_base::{NoMemory, Slot};
use pl_slot::{Arena, SlotRow};
use std::alloc::Global;
use std::process::Abort;
use std::test::Fail;
use trials_arenas::{count_live, read};

// How many bytes texts have, and how many slots they take.
const LENGTHS: &[(u32, u32)] = &[
    (0, 0),
    (1, 1),
    (119, 1),
    (120, 1),
    (121, 2),
    (240, 2),
    (65_536, 547),
];

// A text of so many bytes has so many slots.
fn check_count(
    rt: &impl Abort,
    alloc: Global,
    arena: &Arena,
    slot: Slot,
    length: u32,
    count: u32,
) -> Result<(), NoMemory> {
    let slots = found(rt, alloc, arena, slot, length)?;
    assert!(rt; slots.len() == count as usize, "{length}");
    Ok(())
}

// A text of so many bytes is stored in so many slots, read back, and freed.
fn check_length(
    rt: &impl Abort,
    alloc: Global,
    arena: &mut Arena,
    length: u32,
    count: u32,
) -> Result<(), Fail> {
    let live = count_live(arena)?;
    let slot = store_text(rt, alloc, arena, length, 0)?;
    assert!(rt; (slot == NONE) == (length == 0), "{length}");
    check_text(rt, alloc, arena, slot, length, 0)?;
    check_count(rt, alloc, arena, slot, length, count)?;
    assert!(rt; live < 100_000 && count < 100_000);
    check_live(rt, arena, live + count)?;
    free_text(rt, alloc, arena, slot, length)?;
    check_live(rt, arena, live)
}

#[test]
fn a_text_comes_back_from_a_slot_for_each_120_bytes(rt: HostRuntime) -> Result<(), Fail> {
    let mut arena = empty(rt.alloc())?;
    for (length, count) in LENGTHS {
        check_length(&rt, rt.alloc(), &mut arena, *length, *count)?;
    }
    // Beside a text that stays.
    let kept = store_text(&rt, rt.alloc(), &mut arena, 361, 5)?;
    for (length, count) in LENGTHS {
        check_length(&rt, rt.alloc(), &mut arena, *length, *count)?;
    }
    check_text(&rt, rt.alloc(), &arena, kept, 361, 5)?;
    check_live(&rt, &arena, 4)
}

// Two rows are those of a text of 121 bytes, of which the last is in this slot.
fn check_rows(rt: &impl Abort, rows: &[SlotRow; 2], last: Slot, text: &[u8]) {
    assert!(rt; text.len() == 121);
    let (front, back) = text.split_at(120);
    let wanted = [part(rt, front, last), part(rt, back, NONE)];
    assert!(rt; *rows == wanted);
}

// Two slots hold the parts of a text.
fn check_parts(
    rt: &impl Abort,
    alloc: Global,
    arena: &Arena,
    slot: Slot,
    text: &[u8],
) -> Result<(), Fail> {
    let slots = found(rt, alloc, arena, slot, 121)?;
    assert!(rt; slots.len() == 2 && slots[0] == slot);
    let last = slots[1];
    let rows = [read(arena, slot)?, read(arena, last)?];
    check_rows(rt, &rows, last, text);
    Ok(())
}

#[test]
fn a_text_of_121_bytes_has_parts_of_120_and_1(rt: HostRuntime) -> Result<(), Fail> {
    let mut arena = empty(rt.alloc())?;
    let text = text(rt.alloc(), 121, 0)?;
    let slot = store(&rt, &mut arena, &text)?;
    check_parts(&rt, rt.alloc(), &arena, slot, &text)?;
    Ok(())
}

// Two slots have a part each of the last character: it has the bytes 195 and 169.
#[test]
fn a_character_may_be_cut_between_slots(rt: HostRuntime) -> Result<(), Fail> {
    let mut arena = empty(rt.alloc())?;
    let mut text = text(rt.alloc(), 119, 0)?;
    text.extend_from_slice("é".as_bytes())?;
    let slot = store(&rt, &mut arena, &text)?;
    check_parts(&rt, rt.alloc(), &arena, slot, &text)?;
    check_loaded(&rt, rt.alloc(), &arena, slot, &text)?;
    Ok(())
}

// Bytes that are no UTF-8, and texts that end with 0.
const BYTES: &[&[u8]] = &[b"\0", b"x\0\0", b"\xff\xfe", b"\xc3", b"\0\0\0\0x\0"];

#[test]
fn any_bytes_are_stored(rt: HostRuntime) -> Result<(), Fail> {
    let mut arena = empty(rt.alloc())?;
    for text in BYTES {
        let slot = store(&rt, &mut arena, text)?;
        check_bytes(&rt, rt.alloc(), &arena, slot, text)?;
    }
    check_live(&rt, &arena, 5)
}

#[test]
fn texts_leave_each_other(rt: HostRuntime) -> Result<(), Fail> {
    let mut arena = empty(rt.alloc())?;
    let first = store_text(&rt, rt.alloc(), &mut arena, 300, 0)?;
    let second = store_text(&rt, rt.alloc(), &mut arena, 500, 1)?;
    check_text(&rt, rt.alloc(), &arena, first, 300, 0)?;
    check_text(&rt, rt.alloc(), &arena, second, 500, 1)?;
    free_text(&rt, rt.alloc(), &mut arena, first, 300)?;
    check_text(&rt, rt.alloc(), &arena, second, 500, 1)?;
    // The third has the slots of the first, and others.
    let third = store_text(&rt, rt.alloc(), &mut arena, 1_000, 2)?;
    check_live(&rt, &arena, 14)?;
    assert!(rt; arena.pages() == 4);
    check_text(&rt, rt.alloc(), &arena, second, 500, 1)?;
    check_text(&rt, rt.alloc(), &arena, third, 1_000, 2)?;
    free_text(&rt, rt.alloc(), &mut arena, second, 500)?;
    check_text(&rt, rt.alloc(), &arena, third, 1_000, 2)?;
    check_live(&rt, &arena, 9)
}
