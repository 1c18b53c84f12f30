// Texts of any length, and what the tests do with them.

use crate::texts::{bytes, find, free, load, store};
use pl_base::{NoMemory, Slot};
use pl_slot::{Arena, PAYLOAD_SIZE, SlotRow};
use std::alloc::Global;
use std::process::Abort;
use std::test::Fail;
use trials_arenas::{arena_with, blank, count_live, read};

pub const NONE: Slot = Slot(0);

// An arena without slots.
pub fn empty(alloc: Global) -> Result<Arena, Fail> {
    arena_with(blank(alloc, 2, 0)?)
}

// So many bytes of ASCII, not all alike. Texts with other beginnings differ in each byte.
pub fn text(alloc: Global, length: u32, from: u32) -> Result<Vec<u8>, NoMemory> {
    let mut text = Vec::with_capacity(alloc, length as usize)?;
    for place in 0..length {
        let turn = 7 * (place % 95 + from % 95) % 95;
        text.push(32 + turn as u8)?;
    }
    Ok(text)
}

// The row of a part of a text, before the one in another slot.
pub fn part(rt: &impl Abort, bytes: &[u8], next: Slot) -> SlotRow {
    assert!(rt; bytes.len() <= PAYLOAD_SIZE);
    let mut payload = [0; PAYLOAD_SIZE];
    payload[..bytes.len()].copy_from_slice(bytes);
    SlotRow::Text {
        used: bytes.len() as u8,
        next,
        payload,
    }
}

// The slots of a text, which is there.
pub fn found(
    rt: &impl Abort,
    alloc: Global,
    arena: &Arena,
    slot: Slot,
    length: u32,
) -> Result<Vec<Slot>, NoMemory> {
    match find(alloc, arena, slot, length)? {
        Some(slots) => Ok(slots),
        None => panic!(rt; "no text of {length} bytes"),
    }
}

// A text with these bytes is there.
pub fn check_bytes(
    rt: &impl Abort,
    alloc: Global,
    arena: &Arena,
    slot: Slot,
    text: &[u8],
) -> Result<(), NoMemory> {
    assert!(rt; text.len() < 100_000);
    let read = bytes(rt, alloc, arena, slot, text.len() as u32)?;
    assert!(rt; &read[..] == text);
    Ok(())
}

// And it is loaded as UTF-8.
pub fn check_loaded(
    rt: &impl Abort,
    alloc: Global,
    arena: &Arena,
    slot: Slot,
    text: &[u8],
) -> Result<(), NoMemory> {
    assert!(rt; text.len() < 100_000);
    let loaded = load(rt, alloc, arena, slot, text.len() as u32)?;
    assert!(rt; loaded.as_str().as_bytes() == text);
    Ok(())
}

// The text of so many bytes with this beginning is stored.
pub fn store_text(
    rt: &impl Abort,
    alloc: Global,
    arena: &mut Arena,
    length: u32,
    from: u32,
) -> Result<Slot, NoMemory> {
    let text = text(alloc, length, from)?;
    store(rt, arena, &text)
}

// That text is there.
pub fn check_text(
    rt: &impl Abort,
    alloc: Global,
    arena: &Arena,
    slot: Slot,
    length: u32,
    from: u32,
) -> Result<(), NoMemory> {
    let text = text(alloc, length, from)?;
    check_bytes(rt, alloc, arena, slot, &text)?;
    check_loaded(rt, alloc, arena, slot, &text)
}

// It is freed, each slot of it.
pub fn free_text(
    rt: &impl Abort,
    alloc: Global,
    arena: &mut Arena,
    slot: Slot,
    length: u32,
) -> Result<(), Fail> {
    let slots = found(rt, alloc, arena, slot, length)?;
    free(rt, alloc, arena, slot, length)?;
    for slot in slots.iter() {
        check_free(rt, arena, *slot)?;
    }
    Ok(())
}

pub fn check_free(rt: &impl Abort, arena: &Arena, slot: Slot) -> Result<(), Fail> {
    let row = read(arena, slot)?;
    assert!(rt; matches!(row, SlotRow::Free { .. }), "{slot:?}");
    Ok(())
}

// So many slots are live.
pub fn check_live(rt: &impl Abort, arena: &Arena, wanted: u32) -> Result<(), Fail> {
    let live = count_live(arena)?;
    assert!(rt; live == wanted, "{live} and not {wanted}");
    Ok(())
}
