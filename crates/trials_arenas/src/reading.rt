// Slots of an arena that are read, counted and written. What a call takes for granted is asked
// first, and the records that it counts are thrown away.
ghost use Rattle.std.specs.Prelude.{◌≡◌, ◌<◌, ◌≤◌, Some, true, IfOk};
ghost use Rattle.pl_base.specs.Live.{slot_limit};
ghost use Rattle.pl_slot.specs.Arena as slots;

use pl_base::{PAGE_SIZE, Slot, Steps};
use pl_slot::{Arena, SLOT_SIZE, SlotRow, decode, encode};
use std::marker::Brand;
use std::sync::ledger::{Blank, Ledger};
use std::test::Fail;

const SLOTS_A_PAGE: u32 = (PAGE_SIZE / SLOT_SIZE) as u32;

/// How many slots there are.
pub fn slot_count(arena: &Arena) -> u32
    ensures count { result ≡ slots.slot_count arena.now }
    ensures few { result ≤ slot_limit }
{
    SLOTS_A_PAGE * (arena.pages() - 2)
}

/// The row that a slot holds.
pub fn read(arena: &Arena, slot: Slot) -> Result<SlotRow, Fail>
    ensures { IfOk result (λ row. slots.row_at slot.0 arena.now ≡ Some row) }
{
    if slot.0 < 1 || slot.0 > slot_count(arena) {
        return Err(Fail::new("no slot"));
    }
    Ok(read_in::<Brand>(arena, slot, Blank::new(1)))
}

fn read_in<L: Ledger>(arena: &Arena, slot: Slot, blank: Blank) -> SlotRow
    requires there { slots.is_slot slot.0 arena.now ≡ true }
    requires name { blank.name ≡ L.name }
    requires parts { blank.parts ≡ L.parts }
    requires some { 0 < blank.parts }
    ensures { slots.row_at slot.0 arena.now ≡ Some result }
{
    let mut steps = Steps::<L>::none(blank);
    arena.read(slot, &mut steps)
}

/// Whether a row is none of a free slot.
pub fn is_live(row: &SlotRow) -> bool
    ensures { result ≡ true → slots.live_row row.now ≡ Some row.now }
{
    match row {
        SlotRow::Free { .. } => false,
        SlotRow::Origin { .. } => true,
        SlotRow::Place { .. } => true,
        SlotRow::Visit { .. } => true,
        SlotRow::Item { .. } => true,
        SlotRow::Text { .. } => true,
    }
}

/// How many slots are live.
pub fn count_live(arena: &Arena) -> Result<u32, Fail> {
    let mut count = 0;
    for slot in 1..slot_count(arena) + 1 {
        let row = read(arena, Slot(slot))?;
        count += u32::from(is_live(&row));
    }
    Ok(count)
}

/// The same row, which a live slot may hold.
pub fn live(row: &SlotRow) -> Result<SlotRow, Fail>
    ensures { IfOk result slots.IsLiveRow }
{
    match decode(&encode(row)) {
        Some(row) if is_live(&row) => Ok(row),
        _ => Err(Fail::new("no live row")),
    }
}

/// Puts a row into a live slot.
pub fn write(arena: &mut Arena, slot: Slot, row: &SlotRow) -> Result<(), Fail> {
    let row = live(row)?;
    let held = read(arena, slot)?;
    if !is_live(&held) {
        return Err(Fail::new("no live slot"));
    }
    arena.write(slot, &row);
    Ok(())
}
