// Arenas over pages made in memory.
ghost use Rattle.std.specs.Prelude.{◌≡◌, ◌≤◌, true, IfOk};
ghost use Rattle.pl_slot.specs.Arena.{is_slot};
ghost use Rattle.slots_main.specs.Places.{ArePlaces, IsPlace};

use crate::fault::Fault;
use crate::rows::place;
use pl_base::{PAGE_SIZE, Slot, Steps};
use pl_sheets::Sheets;
use pl_slot::{Arena, SLOT_SIZE, SlotRow};
use std::alloc::Global;
use std::sync::ledger::Ledger;

/// The most pages with which a slot can still be taken.
pub const MOST_PAGES: u32 = 524_289;

const SLOTS_A_PAGE: u32 = (PAGE_SIZE / SLOT_SIZE) as u32;

/// An arena without a slot.
pub fn empty(alloc: Global) -> Result<Arena, Fault> {
    let mut bytes = vec![in alloc; 0; 2 * PAGE_SIZE]?;
    // the number of pages, in the header
    bytes[1032] = 2;
    let sheets = Sheets::from_bytes(bytes)?;
    if sheets.pages() != 2 {
        return Err(Fault::NotHeld);
    }
    if Arena::length_in(&sheets) != 2 {
        return Err(Fault::NotHeld);
    }
    Ok(Arena::over(sheets)?)
}

/// An arena in which the first so many slots hold pages.
pub fn arena_of<L: Ledger>(alloc: Global, count: u32, steps: &mut Steps<L>) -> Result<Arena, Fault>
    ensures places { IfOk result (ArePlaces count) }
{
    let mut arena = empty(alloc)?;
    for number in 0..count {
        if arena.pages() > MOST_PAGES {
            return Err(Fault::Full);
        }
        arena.take(&place(number, false))?;
    }
    if !are_places(&arena, count, steps) {
        return Err(Fault::NotHeld);
    }
    Ok(arena)
}

// Whether the first so many slots hold pages.
fn are_places<L: Ledger>(arena: &Arena, count: u32, steps: &mut Steps<L>) -> bool
    ensures { result ≡ true → ArePlaces count arena.now }
{
    if count > SLOTS_A_PAGE * (arena.pages() - 2) {
        return false;
    }
    for number in 0..count {
        if !is_place(arena, Slot(number + 1), steps) {
            return false;
        }
    }
    true
}

fn is_place<L: Ledger>(arena: &Arena, slot: Slot, steps: &mut Steps<L>) -> bool
    requires there { is_slot slot.0 arena.now ≡ true }
    ensures { result ≡ true → IsPlace slot.0 arena.now }
{
    match arena.read(slot, steps) {
        SlotRow::Place { .. } => true,
        _ => false,
    }
}
