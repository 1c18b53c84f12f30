// Items with their titles and the ids of their pages and children, as a file has them.
ghost use Rattle.std.specs.Prelude.{◌≡◌, ℕ, List, map, IfOk, IfSome, IsErrOf, None, Some, length};
ghost use Rattle.std.specs.List.{All, AllZip, zip};
ghost use Rattle.std.specs.Vec.{vec_items};
ghost use Rattle.pl_base.specs.declared.id.ItemId.{ItemId as Id};
ghost use Rattle.pl_base.specs.Store.{Item as Stored};
ghost use Rattle.pl_reading.specs.Read as spec;
ghost use Rattle.pl_reading.specs.Texts.{IsHeld};
ghost use Rattle.pl_record.specs.Rows.{item_in};

use crate::names::{item_in, named_page};
use crate::pages::read_title;
use pl_base::{CheckError, ItemId, NoMemory, Slot, Steps, TreeItem};
use pl_record::Item;
use pl_slot::Arena;
use std::alloc::Global;
use std::sync::ledger::Ledger;

/// The items with their titles and the ids of their pages, and those of the children in these
/// slots. `NotAStore` comes exactly where a title is none, or a number names no page or no item.
pub fn stored_items<L: Ledger>(
    alloc: Global,
    arena: &Arena,
    items: &[Item],
    children: &[Vec<Slot>],
    steps: &mut Steps<L>,
) -> Result<Vec<TreeItem>, CheckError>
    requires as_many { length items.now ≡ length children.now }
    requires titles { All (λ i. IsHeld arena.now i.title) items.now }
    ensures read { IfOk result (λ stored. AllZip (spec.IsItemOf arena.now)
        (zip items.now (map vec_items children.now)) stored.items) }
    ensures none { IsErrOf result CheckError.NotAStore → (stored : List Stored)
        → AllZip (spec.IsItemOf arena.now) (zip items.now (map vec_items children.now)) stored
        → ⊥ }
{
    let mut stored = Vec::with_capacity(alloc, items.len())?;
    for (index, item) in items.iter().enumerate() {
        stored.push(stored_item(alloc, arena, item, &children[index], steps)?)?;
    }
    Ok(stored)
}

fn stored_item<L: Ledger>(
    alloc: Global,
    arena: &Arena,
    item: &Item,
    children: &[Slot],
    steps: &mut Steps<L>,
) -> Result<TreeItem, CheckError>
    requires title { IsHeld arena.now item.now.title }
    ensures read { IfOk result (spec.IsItemRead arena.now item.now children.now) }
    ensures none { IsErrOf result CheckError.NotAStore → (stored : Stored)
        → spec.IsItemRead arena.now item.now children.now stored → ⊥ }
{
    let Some(page) = named_page(arena, item.page, steps) else {
        return Err(CheckError::NotAStore);
    };
    let Some(children) = item_ids(alloc, arena, children, steps)? else {
        return Err(CheckError::NotAStore);
    };
    Ok(TreeItem {
        id: item.id,
        kind: item.kind,
        title: read_title(alloc, arena, item.title, steps)?,
        page,
        added: item.added,
        modified: item.modified,
        children,
    })
}

// The ids of the items in these slots.
fn item_ids<L: Ledger>(
    alloc: Global,
    arena: &Arena,
    slots: &[Slot],
    steps: &mut Steps<L>,
) -> Result<Option<Vec<ItemId>>, NoMemory>
    ensures found { IfOk result (λ found. IfSome found (λ ids.
        map (item_in arena.now) slots.now ≡ map Some ids.items)) }
    ensures none { IfOk result (λ found. found ≡ None → (ids : List Id)
        → map (item_in arena.now) slots.now ≡ map Some ids → ⊥) }
{
    let mut ids = Vec::with_capacity(alloc, slots.len())?;
    for slot in slots {
        let Some(id) = item_in(arena, *slot, steps) else {
            return Ok(None);
        };
        ids.push(id)?;
    }
    Ok(Some(ids))
}
