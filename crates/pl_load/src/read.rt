// The rows of a file, read from slots that may hold anything.
ghost use Rattle.std.specs.Prelude.{◌≡◌, ◌&&◌, IfOk, IsErrOf};
ghost use Rattle.std.specs.List.{list_all};
ghost use Rattle.pl_load.specs.Owners.{NameOwners, names_origin, names_parent};
ghost use Rattle.pl_load.specs.Reads.{AreReadFrom, Reads};
ghost use Rattle.pl_stored.specs.Stored.{AreIdsFour};

use crate::file_rows::FileRows;
use crate::held::{LiveRows, held_rows};
use crate::meeting::meet;
use crate::owners::{name_origins, name_parents};
use crate::stored::stored_rows;
use pl_base::{CheckError, Steps};
use pl_slot::Arena;
use std::alloc::Global;
use std::sync::ledger::Ledger;

/// The rows of a file. `NotAStore` comes exactly where its slots give none: the links of a kind
/// make no list, a slot is met twice or not at all, a text is no URL of the store or no title, a
/// number names no origin, page, visit or item, or an item has other children than name it.
pub fn read_file<L: Ledger>(
    alloc: Global,
    arena: &Arena,
    steps: &mut Steps<L>,
) -> Result<FileRows, CheckError>
    ensures read { IfOk result (AreReadFrom arena.now) }
    ensures owners { IfOk result (NameOwners arena.now) }
    ensures ids { IfOk result (λ rows. AreIdsFour rows.stored.ids) }
    ensures none { IsErrOf result CheckError.NotAStore → (reads : Reads)
        → AreReadFrom arena.now reads → NameOwners arena.now reads → ⊥ }
{
    let held = held_rows(alloc, arena, steps)?;
    if !name_owners(arena, &held, steps) {
        return Err(CheckError::NotAStore);
    }
    meet(alloc, arena, &held, steps)?;
    let stored = stored_rows(alloc, arena, &held, steps)?;
    let LiveRows {
        live,
        totals,
        places,
        visits,
        items,
    } = held;
    Ok(FileRows {
        live,
        totals,
        places,
        visits,
        items,
        stored,
    })
}

fn name_owners<L: Ledger>(arena: &Arena, held: &LiveRows, steps: &mut Steps<L>) -> bool
    ensures { result ≡ (list_all (names_origin arena.now) held.now.places.items
        && list_all (names_parent arena.now) held.now.items.items) }
{
    name_origins(arena, &held.places, steps) && name_parents(arena, &held.items, steps)
}
