// Whether the slots that a header lists and those of their texts are all live ones, each once.
ghost use Rattle.std.specs.Prelude.{◌≡◌, ℕ, true, IsErrOf, OnOk};
ghost use Rattle.std.proofs.Common.{eqb};
ghost use Rattle.std.specs.List.{All, IsDistinct};
ghost use Rattle.pl_load.specs.Held.{AreHeld, held_slots};
ghost use Rattle.pl_load.specs.Reads.{AreReadFrom, Reads};
ghost use Rattle.pl_reading.specs.Texts.{IsHeld, row_texts};
ghost use Rattle.pl_slot.specs.Arena.{is_among, is_live};

use crate::held::LiveRows;
use crate::met::{all_met, texts_met};
use pl_base::{CheckError, Steps};
use pl_owned::are_all_live;
use pl_reading::row_texts;
use pl_slot::Arena;
use std::alloc::Global;
use std::sync::ledger::Ledger;

/// Finds the texts of these rows. `NotAStore` comes where one is not there, a slot is met twice, or
/// a live one is not met.
pub fn meet<L: Ledger>(
    alloc: Global,
    arena: &Arena,
    held: &LiveRows,
    steps: &mut Steps<L>,
) -> Result<(), CheckError>
    requires held { AreHeld arena.now held.now }
    ensures texts { OnOk result (All (IsHeld arena.now)
        (row_texts held.now.places.items held.now.items.items)) }
    ensures once { OnOk result (IsDistinct eqb (held_slots arena.now held.now)) }
    ensures whole { OnOk result ((n : ℕ) → is_live n arena.now ≡ true
        → is_among n (held_slots arena.now held.now) ≡ true) }
    ensures none { IsErrOf result CheckError.NotAStore → (reads : Reads)
        → AreReadFrom arena.now reads → ⊥ }
{
    let texts = row_texts(alloc, &held.places, &held.items)?;
    let slots = texts_met(alloc, arena, &texts, steps)?;
    let met = all_met(alloc, &held.live, slots)?;
    if !are_all_live(alloc, arena, &met, steps)? {
        return Err(CheckError::NotAStore);
    }
    Ok(())
}
