// Whether the links make the lists that the rows demand.
ghost use Rattle.std.specs.Prelude.{◌≡◌, ◌≢◌, true, false, IfOk};
ghost use Rattle.std.specs.List.{AllPairs};
ghost use Rattle.pl_accept.specs.Held.{HasOwnersBelow, IsLinked};
ghost use Rattle.pl_load.specs.RowSlots.{HasListed, HasRowEach};

use crate::own_lists::have_own_lists;
use pl_base::{NoMemory, Steps};
use pl_load::{FileRows, have_lone_slots, have_target_lists};
use pl_slot::Arena;
use std::alloc::Global;
use std::sync::ledger::Ledger;

/// Whether they do, and the slots that are in no list stand alone.
pub(crate) fn are_linked<L: Ledger>(
    alloc: Global,
    arena: &Arena,
    rows: &FileRows,
    steps: &mut Steps<L>,
) -> Result<bool, NoMemory>
    requires listed { HasListed arena.now rows.now }
    requires as_many { HasRowEach rows.now }
    requires below { HasOwnersBelow arena.now rows.now }
    requires ids { AllPairs (λ v w. v.id.0 ≢ w.id.0) rows.now.visits }
    ensures yes { IfOk result (λ yes. yes ≡ true → IsLinked arena.now rows.now) }
    ensures no { IfOk result (λ yes. yes ≡ false → IsLinked arena.now rows.now → ⊥) }
{
    if !have_own_lists(alloc, arena, rows, steps)? {
        return Ok(false);
    }
    if !have_target_lists(alloc, arena, rows, steps)? {
        return Ok(false);
    }
    have_lone_slots(alloc, arena, rows, steps)
}
