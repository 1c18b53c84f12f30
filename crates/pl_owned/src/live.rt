// Whether the live slots are those that were met.
ghost use Rattle.std.specs.Prelude.{◌≡◌, ◌≤◌, ◌<◌, ◌+◌, ℕ, true, false, length};
ghost use Rattle.std.specs.Prelude.{IfOk, IfSome, None};
ghost use Rattle.std.proofs.Common.{eqb};
ghost use Rattle.std.specs.List.{All, IsDistinct};
ghost use Rattle.pl_owned.specs.Marked.{AreMarked, HasLiveMarked};
ghost use Rattle.pl_slot.specs.Arena as held;

use crate::slots::slot_count;
use pl_base::{NoMemory, Slot, Steps};
use pl_slot::{Arena, SlotKind};
use std::alloc::Global;
use std::sync::ledger::Ledger;

/// Whether these are all live slots, each once. Each of them is live. It takes a byte for each
/// slot, and reads all slots in ascending order, up to the first live one that is none of these.
pub fn are_all_live<L: Ledger>(
    alloc: Global,
    arena: &Arena,
    slots: &[u32],
    steps: &mut Steps<L>,
) -> Result<bool, NoMemory>
    requires live { All (λ n. held.is_live n arena.now ≡ true) slots.now }
    ensures once { IfOk result (λ all. all ≡ true → IsDistinct eqb slots.now) }
    ensures whole { IfOk result (λ all. all ≡ true → (n : ℕ) → held.is_live n arena.now ≡ true
        → held.is_among n slots.now ≡ true) }
    ensures no { IfOk result (λ all. all ≡ false → IsDistinct eqb slots.now
        → ((n : ℕ) → held.is_live n arena.now ≡ true → held.is_among n slots.now ≡ true) → ⊥) }
    ensures few { steps.new ≤ steps.old + held.slot_count arena.now }
{
    let Some(met) = marks(alloc, slot_count(arena) as usize + 1, slots)? else {
        return Ok(false);
    };
    Ok(has_live_marked(arena, &met, steps))
}

// A mark for each number below `count`, which is set for each of these. `None` comes exactly where
// one stands twice.
fn marks(alloc: Global, count: usize, slots: &[u32]) -> Result<Option<Vec<bool>>, NoMemory>
    requires { All (λ n. n < count) slots.now }
    ensures marks { IfOk result (λ found. IfSome found (λ marks.
        AreMarked slots.now count marks.items)) }
    ensures once { IfOk result (λ found. IfSome found (λ marks. IsDistinct eqb slots.now)) }
    ensures none { IfOk result (λ found. found ≡ None → IsDistinct eqb slots.now → ⊥) }
{
    let mut marks = vec![in alloc; false; count]?;
    for slot in slots {
        let slot = *slot as usize;
        if marks[slot] {
            return Ok(None);
        }
        marks[slot] = true;
    }
    Ok(Some(marks))
}

// Whether each live slot has its mark set.
fn has_live_marked<L: Ledger>(arena: &Arena, marks: &[bool], steps: &mut Steps<L>) -> bool
    requires { held.slot_count arena.now < length marks.now }
    ensures yes { result ≡ true → HasLiveMarked marks.now arena.now }
    ensures no { result ≡ false → HasLiveMarked marks.now arena.now → ⊥ }
    ensures few { steps.new ≤ steps.old + held.slot_count arena.now }
{
    for slot in 1..slot_count(arena) + 1 {
        if is_live(arena, Slot(slot), steps) && !marks[slot as usize] {
            return false;
        }
    }
    true
}

fn is_live<L: Ledger>(arena: &Arena, slot: Slot, steps: &mut Steps<L>) -> bool
    requires { held.is_slot slot.0 arena.now ≡ true }
    ensures live { result ≡ held.is_live slot.0 arena.now }
    ensures counted { steps.new ≡ steps.old + 1 }
{
    arena.read(slot, steps).kind() != SlotKind::Free
}
