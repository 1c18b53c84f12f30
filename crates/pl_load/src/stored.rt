// The rows of a file with their texts and ids.
ghost use Rattle.std.specs.Prelude.{◌≡◌, true, IfOk, IsErrOf};
ghost use Rattle.std.specs.List.{All, list_all};
ghost use Rattle.pl_load.specs.Held as spec;
ghost use Rattle.pl_load.specs.Owners.{names_parent};
ghost use Rattle.pl_load.specs.Reads.{AreReadFrom, Reads};
ghost use Rattle.pl_reading.specs.Texts.{IsHeld, row_texts};
ghost use Rattle.pl_stored.specs.Stored.{AreIdsFour};

use crate::held::LiveRows;
use crate::members::parent_members;
use pl_base::{CheckError, Steps, TreeItem};
use pl_owned::listed_in_any_order;
use pl_reading::{stored_items, stored_pages, stored_visits};
use pl_slot::{Arena, Rail};
use pl_stored::StoredRows;
use std::alloc::Global;
use std::sync::ledger::Ledger;

/// These rows. `NotAStore` comes where a text is no URL of the store or no title, a number names no
/// page or visit, or an item has other children than name it.
pub fn stored_rows<L: Ledger>(
    alloc: Global,
    arena: &Arena,
    held: &LiveRows,
    steps: &mut Steps<L>,
) -> Result<StoredRows, CheckError>
    requires held { spec.AreHeld arena.now held.now }
    requires texts { All (IsHeld arena.now)
        (row_texts held.now.places.items held.now.items.items) }
    requires parents { list_all (names_parent arena.now) held.now.items.items ≡ true }
    ensures read { IfOk result (spec.AreStoredFrom arena.now held.now) }
    ensures ids { IfOk result (λ rows. AreIdsFour rows.ids) }
    ensures none { IsErrOf result CheckError.NotAStore → (reads : Reads)
        → AreReadFrom arena.now reads → ⊥ }
{
    let pages = stored_pages(alloc, arena, &held.places, steps)?;
    let Some(visits) = stored_visits(alloc, arena, &held.visits, steps)? else {
        return Err(CheckError::NotAStore);
    };
    Ok(StoredRows {
        day: arena.day(),
        ids: arena.ids(),
        pages,
        visits,
        items: tree_items(alloc, arena, held, steps)?,
    })
}

// The items, each with the children that name it.
fn tree_items<L: Ledger>(
    alloc: Global,
    arena: &Arena,
    held: &LiveRows,
    steps: &mut Steps<L>,
) -> Result<Vec<TreeItem>, CheckError>
    requires held { spec.AreHeld arena.now held.now }
    requires texts { All (IsHeld arena.now)
        (row_texts held.now.places.items held.now.items.items) }
    requires parents { list_all (names_parent arena.now) held.now.items.items ≡ true }
    ensures read { IfOk result (λ items. spec.AreItemsFrom arena.now held.now items.items) }
    ensures none { IsErrOf result CheckError.NotAStore → (reads : Reads)
        → AreReadFrom arena.now reads → ⊥ }
{
    let slots = &held.live.items;
    let members = parent_members(alloc, slots, &held.items)?;
    let children = listed_in_any_order(alloc, arena, Rail::Children, slots, &members, steps)?;
    let Some(children) = children else {
        return Err(CheckError::NotAStore);
    };
    stored_items(alloc, arena, &held.items, &children, steps)
}
