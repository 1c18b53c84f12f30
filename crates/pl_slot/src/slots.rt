// Slots and fields of the header in pages, whatever else the pages hold.
ghost use Rattle.std.specs.Prelude.{◌≡◌, ◌+◌, ◌<◌, ◌≤◌, true, IfSome, IsSome, Some};
ghost use Rattle.std.specs.Int.{w32, to_le_bytes};
ghost use Rattle.pl_base.specs.Live.{slot_size};
ghost use Rattle.pl_base.specs.Touched.{page_size};
ghost use Rattle.pl_sheets.specs.Sheets.{bytes_at, image_of, page_count, place_in, with_bytes};
ghost use Rattle.pl_slot.specs.Arena as arena;
ghost use Rattle.pl_slot.specs.Slot.{IsSlotRow, slot_bytes};
ghost use Rattle.pl_slot.specs.SlotReading.{four_in};

use crate::reading::{decode, read};
use crate::row::{SLOT_SIZE, SlotRow};
use crate::writing::encode;
use pl_base::{PAGE_SIZE, Slot};
use pl_sheets::Sheets;

/// The page of the header. Page 0 is the gate's.
pub const HEADER_PAGE: u32 = 1;

/// The slots of a page.
pub const SLOTS_A_PAGE: u32 = (PAGE_SIZE / SLOT_SIZE) as u32;

/// The page of a slot.
#[inline(always)]
pub fn page_of(slot: Slot) -> u32
    requires { 1 ≤ slot.0 }
    ensures { result ≡ arena.slot_page slot.0 }
{
    HEADER_PAGE + 1 + (slot.0 - 1) / SLOTS_A_PAGE
}

/// The byte of its page at which a slot begins.
#[inline(always)]
pub fn byte_of(slot: Slot) -> usize
    requires { 1 ≤ slot.0 }
    ensures { result ≡ arena.slot_byte slot.0 }
{
    SLOT_SIZE * ((slot.0 - 1) % SLOTS_A_PAGE) as usize
}

// The bytes of a slot.
#[inline(always)]
fn bytes_of(sheets: &Sheets, slot: Slot) -> [u8; SLOT_SIZE]
    requires there { arena.is_slot slot.0 sheets.now ≡ true }
    ensures { result ≡ bytes_at (place_in (arena.slot_page slot.0) (arena.slot_byte slot.0))
        slot_size sheets.now.bytes }
{
    let mut bytes = [0; SLOT_SIZE];
    sheets.get(page_of(slot), byte_of(slot), &mut bytes);
    bytes
}

/// The row that a slot holds. `None` comes exactly where its bytes are those of no row.
pub fn row_at(sheets: &Sheets, slot: Slot) -> Option<SlotRow>
    requires there { arena.is_slot slot.0 sheets.now ≡ true }
    ensures row { result ≡ arena.row_at slot.0 sheets.now }
    ensures fits { IfSome result IsSlotRow }
{
    let bytes = bytes_of(sheets, slot);
    decode(&bytes)
}

/// The same of a slot that holds a row: its fields are read, and its other bytes are not asked.
#[inline(always)]
pub fn known_row(sheets: &Sheets, slot: Slot) -> SlotRow
    requires there { IsSome (arena.row_at slot.0 sheets.now) }
    ensures row { arena.row_at slot.0 sheets.now ≡ Some result }
    ensures fits { IsSlotRow result }
{
    let bytes = bytes_of(sheets, slot);
    match read(&bytes) {
        Some(row) => row,
        None => unreachable!(),
    }
}

/// Puts a row into a slot.
pub fn put_row(sheets: &mut Sheets, slot: Slot, row: &SlotRow)
    requires there { arena.is_slot slot.0 sheets.old ≡ true }
    ensures { sheets.new ≡ with_bytes (arena.slot_page slot.0) (arena.slot_byte slot.0)
        (slot_bytes row.now) sheets.old }
{
    sheets.put(page_of(slot), byte_of(slot), &encode(row));
}

/// The number of 4 bytes at a place of the header.
pub fn four_at(sheets: &Sheets, at: usize) -> u32
    requires there { 2 ≤ page_count sheets.now }
    requires within { at + 4 ≤ page_size }
    ensures { result ≡ four_in at (image_of sheets.now arena.header_page).image }
{
    let mut number = [0; 4];
    sheets.get(HEADER_PAGE, at, &mut number);
    u32::from_le_bytes(number)
}

/// Puts a number of 4 bytes to its place in the header.
pub fn put_four(sheets: &mut Sheets, at: usize, value: u32)
    requires there { 2 ≤ page_count sheets.old }
    requires within { at + 4 ≤ page_size }
    ensures { sheets.new ≡ with_bytes arena.header_page at (to_le_bytes w32 value) sheets.old }
{
    sheets.put(HEADER_PAGE, at, &value.to_le_bytes());
}
