// Whether pages keep the form of slots.
ghost use Rattle.std.specs.Prelude.{◌≡◌, ◌≤◌, true, false, IfSome, IsSome, None};
ghost use Rattle.pl_base.specs.Live.{slot_limit};
ghost use Rattle.pl_sheets.specs.Sheets.{ArePages, page_count};
ghost use Rattle.pl_slot.specs.Arena as arena;
ghost use Rattle.pl_slot.specs.Checking as checking;

use crate::SlotKind;
use crate::header::FIRST_FREE;
use crate::row::SlotRow;
use crate::slots::{SLOTS_A_PAGE, four_at, row_at};
use pl_base::Slot;
use pl_sheets::Sheets;

/// Whether each slot holds a row, and the free ones are in one chain.
pub fn check(sheets: &Sheets) -> bool
    requires some { 2 ≤ page_count sheets.now }
    requires few { arena.slot_count sheets.now ≤ slot_limit }
    ensures whole { ArePages sheets.now }
    ensures yes { result ≡ true → arena.KeepsSlots sheets.now }
    ensures no { result ≡ false → arena.KeepsSlots sheets.now → ⊥ }
{
    let count = SLOTS_A_PAGE * (sheets.pages() - 2);
    match count_free(sheets, count) {
        Some(free) => is_chain(sheets, count, free),
        None => false,
    }
}

// How many slots are free. `None` comes exactly where one holds no row.
fn count_free(sheets: &Sheets, count: u32) -> Option<u32>
    requires count { count ≡ arena.slot_count sheets.now }
    requires few { arena.slot_count sheets.now ≤ slot_limit }
    ensures rows { IfSome result (λ free. checking.HasRows sheets.now) }
    ensures free { IfSome result (λ free. free ≡ checking.free_count sheets.now) }
    ensures none { result ≡ None → checking.HasRows sheets.now → ⊥ }
{
    let mut free = 0;
    for slot in 1..count + 1 {
        let is_free = is_free(sheets, Slot(slot))?;
        free += u32::from(is_free);
    }
    Some(free)
}

// Whether a slot is free. `None` comes exactly where it holds no row.
fn is_free(sheets: &Sheets, slot: Slot) -> Option<bool>
    requires there { arena.is_slot slot.0 sheets.now ≡ true }
    ensures free { IfSome result (λ free. free ≡ arena.is_free slot.0 sheets.now) }
    ensures row { IfSome result (λ free. IsSome (arena.row_at slot.0 sheets.now)) }
    ensures none { result ≡ None → IsSome (arena.row_at slot.0 sheets.now) → ⊥ }
{
    let row = row_at(sheets, slot)?;
    Some(row.kind() == SlotKind::Free)
}

// Whether so many free slots are in a chain from the header's first one on.
fn is_chain(sheets: &Sheets, count: u32, free: u32) -> bool
    requires some { 2 ≤ page_count sheets.now }
    requires count { count ≡ arena.slot_count sheets.now }
    requires rows { checking.HasRows sheets.now }
    requires free { free ≡ checking.free_count sheets.now }
    ensures yes { result ≡ true → arena.HasFreeChain sheets.now }
    ensures no { result ≡ false → arena.HasFreeChain sheets.now → ⊥ }
{
    let mut next = Slot(four_at(sheets, FIRST_FREE));
    for step in 0..free {
        match behind(sheets, count, next) {
            Some(slot) => next = slot,
            None => return false,
        }
    }
    next.0 == 0
}

// The slot that a free one names, if the number is that of a free slot.
fn behind(sheets: &Sheets, count: u32, slot: Slot) -> Option<Slot>
    requires count { count ≡ arena.slot_count sheets.now }
    ensures { result ≡ checking.next_free slot.0 sheets.now }
{
    if slot.0 == 0 {
        return None;
    }
    if slot.0 > count {
        return None;
    }
    match row_at(sheets, slot)? {
        SlotRow::Free { next } => Some(next),
        _ => None,
    }
}
