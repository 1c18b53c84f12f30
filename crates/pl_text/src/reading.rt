// Texts, read from the slots that hold them.
ghost use Rattle.std.specs.Prelude.{◌≡◌, ◌≤◌, ◌+◌, ℕ, List, IfOk, OnOk};
ghost use Rattle.std.specs.Str.{IsUtf8};
ghost use Rattle.pl_text.specs.Chunks as spec;

use crate::part::push;
use pl_base::{NoMemory, Slot, Steps, Txt};
use pl_slot::Arena;
use std::alloc::Global;
use std::sync::ledger::Ledger;

/// The bytes of the text of so many that begins in a slot, or at slot 0 if it has none. It counts a
/// record for each slot.
pub fn bytes<L: Ledger>(
    alloc: Global,
    arena: &Arena,
    slot: Slot,
    length: u32,
    steps: &mut Steps<L>,
) -> Result<Vec<u8>, NoMemory>
    requires text { spec.HasText slot length arena.now }
    ensures text { IfOk result (λ bytes. (text : List ℕ)
        → spec.HoldsText slot text arena.now → bytes.items ≡ text) }
    ensures counted { OnOk result (steps.new ≡ steps.old + spec.chunk_count length) }
    ensures few { steps.new ≤ steps.old + spec.chunk_count length }
{
    let mut bytes = Vec::with_capacity(alloc, length as usize)?;
    let mut next = slot;
    while next.0 != 0 {
        next = push(arena, next, &mut bytes, steps)?;
    }
    Ok(bytes)
}

/// The same as a text, where it is UTF-8.
pub fn load<L: Ledger>(
    alloc: Global,
    arena: &Arena,
    slot: Slot,
    length: u32,
    steps: &mut Steps<L>,
) -> Result<Txt, NoMemory>
    requires text { spec.HasText slot length arena.now }
    requires utf8 { (text : List ℕ) → spec.HoldsText slot text arena.now → IsUtf8 text }
    ensures text { IfOk result (λ loaded. (text : List ℕ)
        → spec.HoldsText slot text arena.now → loaded ≡ text) }
    ensures counted { OnOk result (steps.new ≡ steps.old + spec.chunk_count length) }
    ensures few { steps.new ≤ steps.old + spec.chunk_count length }
{
    let bytes = bytes(alloc, arena, slot, length, steps)?;
    match String::from_utf8(bytes) {
        Ok(text) => Ok(Txt::from(text)),
        Err(_) => unreachable!(),
    }
}
