// Texts, put into slots that were free, and these given back.
ghost use Rattle.std.specs.Prelude.{◌≡◌, ◌≤◌, ◌<◌, ◌+◌, ◌*◌, ℕ, List, [], take, drop, length};
ghost use Rattle.std.specs.Prelude.{IfErr, IfOk, OnErr, OnOk};
ghost use Rattle.pl_base.specs.Live.{chunks, slot_limit};
ghost use Rattle.pl_slot.specs.Arena as slots;
ghost use Rattle.pl_slot.specs.Slot.{payload_size};
ghost use Rattle.pl_text.specs.Chunks as spec;

use crate::part::{behind, row};
use pl_base::{NoMemory, Slot, Steps};
use pl_slot::{Arena, PAYLOAD_SIZE};
use std::sync::ledger::Ledger;

/// Stores a text, and gives the slot in which it begins, or 0 for an empty one. After an `Err` what
/// it took is given back, and no live slot has changed: only the free ones may be others, in more
/// pages. It counts a record for each slot that it gives back.
pub fn store<L: Ledger>(
    arena: &mut Arena,
    text: &[u8],
    steps: &mut Steps<L>,
) -> Result<Slot, NoMemory>
    requires few { slots.live_count arena.old + chunks text.now ≤ slot_limit }
    ensures arena { slots.IsArena arena.old → slots.IsArena arena.new }
    ensures stored { IfOk result (λ slot.
        spec.StoresText slot text.now arena.old arena.new) }
    ensures header { slots.KeepsFields arena.old arena.new }
    ensures refused { OnErr result (spec.KeepsLive [] arena.old arena.new) }
    ensures count { OnErr result (slots.live_count arena.new ≡ slots.live_count arena.old) }
    ensures unread { OnOk result (steps.new ≡ steps.old) }
    ensures few_read { steps.new ≤ steps.old + chunks text.now }
{
    match put_parts(arena, text) {
        Ok(slot) => Ok(slot),
        Err(slot) => {
            free(arena, slot, steps);
            Err(NoMemory)
        }
    }
}

// Stores the parts of a text, the last one first. An `Err` has the slot in which the last parts
// that were stored begin.
fn put_parts(arena: &mut Arena, text: &[u8]) -> Result<Slot, Slot>
    requires few { slots.live_count arena.old + chunks text.now ≤ slot_limit }
    ensures arena { slots.IsArena arena.old → slots.IsArena arena.new }
    ensures ok { IfOk result (λ slot. spec.StoresText slot text.now arena.old arena.new) }
    ensures err { IfErr result (λ slot. (rest : List ℕ)
        × spec.StoresText slot rest arena.old arena.new × (length rest ≤ length text.now)) }
    ensures header { slots.KeepsFields arena.old arena.new }
{
    let mut next = Slot(0);
    for place in (0..text.len().div_ceil(PAYLOAD_SIZE)).rev() {
        match arena.take(&row(part_at(text, place), next)) {
            Ok(slot) => next = slot,
            Err(_) => return Err(next),
        }
    }
    Ok(next)
}

// The part of a text at a place, counted from 0.
fn part_at(text: &[u8], place: usize) -> &[u8]
    requires { payload_size * place < length text.now }
    ensures { result.now ≡ take payload_size (drop (payload_size * place) text.now) }
{
    let rest = &text[PAYLOAD_SIZE * place..];
    &rest[..rest.len().min(PAYLOAD_SIZE)]
}

/// Frees the slots of the text that begins in a slot, if it is not 0. It counts a record for each.
pub fn free<L: Ledger>(arena: &mut Arena, slot: Slot, steps: &mut Steps<L>)
    requires text { (text : List ℕ) × spec.HoldsText slot text arena.old }
    ensures arena { slots.IsArena arena.old → slots.IsArena arena.new }
    ensures freed { (chunks text : List ℕ) → slot ≡ slots.first_in chunks
        → spec.Hold chunks text arena.old → spec.FreesSlots chunks arena.old arena.new }
    ensures counted { steps.new + slots.live_count arena.new
        ≡ steps.old + slots.live_count arena.old }
{
    let mut next = slot;
    while next.0 != 0 {
        let part = next;
        next = behind(arena, part, steps);
        arena.give_back(part);
    }
}
