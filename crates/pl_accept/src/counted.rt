// Whether origins and slots are counted.
ghost use Rattle.std.specs.Prelude.{◌≡◌, ◌<◌, ◌^◌, true, false, length, IfOk};
ghost use Rattle.pl_accept.specs.Held.{IsCounted};

use pl_base::NoMemory;
use pl_load::{FileRows, counts_slots, have_names};
use pl_slot::Arena;
use std::alloc::Global;

/// Whether origins are named and counted as the pages demand, and the header counts the slots.
pub(crate) fn are_counted(alloc: Global, arena: &Arena, rows: &FileRows) -> Result<bool, NoMemory>
    requires as_many { length rows.now.stored.pages ≡ length rows.now.places }
    requires few { length rows.now.stored.pages < 2 ^ 32 }
    ensures yes { IfOk result (λ yes. yes ≡ true → IsCounted arena.now rows.now) }
    ensures no { IfOk result (λ yes. yes ≡ false → IsCounted arena.now rows.now → ⊥) }
{
    if !counts_slots(alloc, arena, rows)? {
        return Ok(false);
    }
    have_names(alloc, rows)
}
