// The slots that were met, those of rows and those of texts.
ghost use Rattle.std.specs.Prelude.{◌≡◌, ◌++◌, IfOk, IsErrOf};
ghost use Rattle.std.proofs.Common.{eqb};
ghost use Rattle.std.specs.List.{All, IsDistinct, flat_map};
ghost use Rattle.pl_load.specs.Reads as spec;
ghost use Rattle.pl_reading.specs.Texts.{IsHeld, text_parts};

use pl_base::{CheckError, NoMemory, PAGE_SIZE, Slot, Steps};
use pl_reading::{LiveSlots, text_slots, wanted_slots};
use pl_record::TextAt;
use pl_slot::{Arena, SLOT_SIZE};
use std::alloc::Global;
use std::sync::ledger::Ledger;

const SLOTS_A_PAGE: u32 = (PAGE_SIZE / SLOT_SIZE) as u32;

/// The slots of texts. `NotAStore` comes where one is not there, or they want more slots than there
/// are, before any is read.
pub fn texts_met<L: Ledger>(
    alloc: Global,
    arena: &Arena,
    texts: &[TextAt],
    steps: &mut Steps<L>,
) -> Result<Vec<u32>, CheckError>
    ensures held { IfOk result (λ slots. All (IsHeld arena.now) texts.now) }
    ensures slots { IfOk result (λ slots.
        slots.items ≡ flat_map (text_parts arena.now) texts.now) }
    ensures none { IsErrOf result CheckError.NotAStore → All (IsHeld arena.now) texts.now
        → IsDistinct eqb (flat_map (text_parts arena.now) texts.now) → ⊥ }
{
    let count = SLOTS_A_PAGE * (arena.pages() - 2);
    let Some(wanted) = wanted_slots(texts) else {
        return Err(CheckError::NotAStore);
    };
    if wanted > count {
        return Err(CheckError::NotAStore);
    }
    let Some(slots) = text_slots(alloc, arena, texts, steps)? else {
        return Err(CheckError::NotAStore);
    };
    Ok(slots)
}

/// The slots of rows and of texts in one list.
pub fn all_met(alloc: Global, live: &LiveSlots, texts: Vec<u32>) -> Result<Vec<u32>, NoMemory>
    ensures { IfOk result (λ met. met.items
        ≡ spec.numbers live.now.origins.items ++ spec.numbers live.now.places.items
        ++ spec.numbers live.now.visits.items ++ spec.numbers live.now.items.items ++ texts.items) }
{
    let mut met = Vec::new(alloc);
    push_numbers(&mut met, &live.origins)?;
    push_numbers(&mut met, &live.places)?;
    push_numbers(&mut met, &live.visits)?;
    push_numbers(&mut met, &live.items)?;
    met.extend_from_slice(&texts)?;
    Ok(met)
}

fn push_numbers(met: &mut Vec<u32>, slots: &[Slot]) -> Result<(), NoMemory>
    ensures { IfOk result (λ _. met.new.items ≡ met.old.items ++ spec.numbers slots.now) }
{
    for slot in slots {
        met.push(slot.0)?;
    }
    Ok(())
}
