// Texts, looked for in slots that may hold anything.
ghost use Rattle.std.specs.Prelude.{◌≡◌, ◌≤◌, ◌<◌, ◌+◌, map, IfOk, IfSome};
ghost use Rattle.pl_base.specs.declared.id.Slot.{Slot};
ghost use Rattle.pl_slot.specs.Arena as slots;
ghost use Rattle.pl_text.specs.Chunks as spec;

use pl_base::{NoMemory, PAGE_SIZE, Slot, Steps};
use pl_slot::{Arena, PAYLOAD_SIZE, SLOT_SIZE, SlotRow};
use std::alloc::Global;
use std::sync::ledger::Ledger;

const SLOTS_A_PAGE: u32 = (PAGE_SIZE / SLOT_SIZE) as u32;

/// The slots of the text of so many bytes that begins in a slot, in order; for an empty one, which
/// begins at slot 0, there are none. `None` comes exactly where there is no such text, at once
/// where it would want more slots than there are. It counts a record for each slot that it reads.
pub fn chunks<L: Ledger>(
    alloc: Global,
    arena: &Arena,
    slot: Slot,
    length: u32,
    steps: &mut Steps<L>,
) -> Result<Option<Vec<Slot>>, NoMemory>
    ensures found { IfOk result (λ found. IfSome found (λ chunks.
        spec.AreChunks (map (λ s. s.0) chunks.items) slot length arena.now)) }
    ensures none { IfOk result (λ found. found ≡ None
        → spec.HasText slot length arena.now → ⊥) }
    ensures at_once { slots.slot_count arena.now < spec.chunk_count length → result ≡ Ok None }
    ensures unread { slots.slot_count arena.now < spec.chunk_count length
        → steps.new ≡ steps.old }
    ensures few { steps.new ≤ steps.old + spec.chunk_count length }
{
    let count = length.div_ceil(PAYLOAD_SIZE as u32);
    if count > slot_count(arena) {
        return Ok(None);
    }
    let mut chunks = Vec::with_capacity(alloc, count as usize)?;
    let mut next = slot;
    let mut left = length;
    while left > 0 {
        let size = left.min(PAYLOAD_SIZE as u32);
        let Some(behind) = behind(arena, next, size, steps) else {
            return Ok(None);
        };
        chunks.push(next)?;
        next = behind;
        left -= size;
    }
    Ok(if next.0 == 0 { Some(chunks) } else { None })
}

// How many slots there are.
fn slot_count(arena: &Arena) -> u32
    ensures { result ≡ slots.slot_count arena.now }
{
    SLOTS_A_PAGE * (arena.pages() - 2)
}

// The slot behind a part of a text of so many bytes, if the number is that of a slot with one.
fn behind<L: Ledger>(arena: &Arena, slot: Slot, size: u32, steps: &mut Steps<L>) -> Option<Slot>
    ensures some { IfSome result (λ next. spec.HoldsSize slot.0 size next arena.now) }
    ensures none { result ≡ None
        → (next : Slot) → spec.HoldsSize slot.0 size next arena.now → ⊥ }
    ensures few { steps.new ≤ steps.old + 1 }
{
    if slot.0 == 0 || slot.0 > slot_count(arena) {
        return None;
    }
    match arena.read(slot, steps) {
        SlotRow::Text { used, next, .. } if u32::from(used) == size => Some(next),
        _ => None,
    }
}
