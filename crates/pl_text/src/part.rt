// The parts of a text, each in a slot of its own.
ghost use Rattle.std.specs.Prelude.{◌≡◌, ◌≤◌, ◌+◌, ◌++◌, ℕ, List, IfOk, drop, length};
ghost use Rattle.pl_base.specs.declared.id.Slot.{Slot};
ghost use Rattle.pl_slot.specs.Arena as slots;
ghost use Rattle.pl_slot.specs.Slot.{payload_size};
ghost use Rattle.pl_text.specs.Chunks as spec;

use pl_base::{NoMemory, Slot, Steps};
use pl_slot::{Arena, PAYLOAD_SIZE, SlotRow};
use std::sync::ledger::Ledger;

/// The row of a part of a text, before the part in the slot `next`.
pub fn row(bytes: &[u8], next: Slot) -> SlotRow
    requires some { 1 ≤ length bytes.now }
    requires room { length bytes.now ≤ payload_size }
    ensures row { result ≡ spec.chunk_row bytes.now next }
    ensures live { slots.IsLiveRow result }
{
    let mut payload = [0; PAYLOAD_SIZE];
    put(&mut payload, bytes);
    SlotRow::Text {
        used: bytes.len() as u8,
        next,
        payload,
    }
}

// Puts bytes to the front of a payload.
fn put(payload: &mut [u8; PAYLOAD_SIZE], bytes: &[u8])
    requires { length bytes.now ≤ payload_size }
    ensures { payload.new ≡ bytes.now ++ drop (length bytes.now) payload.old }
{
    payload[..bytes.len()].copy_from_slice(bytes);
}

/// The slot of the part behind the one in a slot.
pub fn behind<L: Ledger>(arena: &Arena, slot: Slot, steps: &mut Steps<L>) -> Slot
    requires part { spec.IsPart slot.0 arena.now }
    ensures next { (part : List ℕ) (next : Slot) → spec.HoldsPart slot.0 part next arena.now
        → result ≡ next }
    ensures counted { steps.new ≡ steps.old + 1 }
{
    match arena.read(slot, steps) {
        SlotRow::Text { next, .. } => next,
        _ => unreachable!(),
    }
}

/// Appends the part of a text that is in a slot, and gives the slot of the part behind.
pub fn push<L: Ledger>(
    arena: &Arena,
    slot: Slot,
    bytes: &mut Vec<u8>,
    steps: &mut Steps<L>,
) -> Result<Slot, NoMemory>
    requires part { spec.IsPart slot.0 arena.now }
    ensures next { IfOk result (λ behind. (part : List ℕ) (next : Slot)
        → spec.HoldsPart slot.0 part next arena.now → behind ≡ next) }
    ensures bytes { IfOk result (λ behind. (part : List ℕ) (next : Slot)
        → spec.HoldsPart slot.0 part next arena.now
        → bytes.new.items ≡ bytes.old.items ++ part) }
    ensures counted { steps.new ≡ steps.old + 1 }
{
    match arena.read(slot, steps) {
        SlotRow::Text {
            used,
            next,
            payload,
        } => {
            bytes.extend_from_slice(&payload[..usize::from(used)])?;
            Ok(next)
        }
        _ => unreachable!(),
    }
}
