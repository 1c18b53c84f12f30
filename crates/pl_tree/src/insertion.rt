// A new item.
ghost use Rattle.std.specs.Prelude.{◌≡◌, ◌≤◌, ◌+◌, ◌↔◌, ℕ, List, Err, None, Some, true};
ghost use Rattle.std.specs.Prelude.{length, IfOk, IfSome, IsSome, OnOk};
ghost use Rattle.pl_base.specs.Date.{IsDate};
ghost use Rattle.pl_base.specs.Good.{HasGoodItems, longest_title};
ghost use Rattle.pl_base.specs.Live.{chunks, live_slots, slot_limit};
ghost use Rattle.pl_base.specs.Rows.{has_page, store_of};
ghost use Rattle.pl_base.specs.Tree.{children_of};
ghost use Rattle.pl_tree.specs.Changes.{with_appended, with_inserted};
ghost use Rattle.pl_tree.specs.Places.{before};
ghost use Rattle.pl_tree.specs.Refused.{insert_refusal};

use crate::refusals::may_insert;
use crate::{NewItem, Place, TreeError};
use pl_base::{IdKind, Ids, ItemId, ItemKind, ItemRow, NoMemory, Refusal, Rows, Steps};
use std::sync::ledger::Ledger;

/// A new item with the next id, at a place among the children of a folder.
///
/// Refused are a parent that is not there, is no folder or takes no items, a position past the end
/// of its list, and an id that is never given, in this order.
pub fn insert<R: Rows, L: Ledger>(
    rows: &mut R,
    parent: ItemId,
    place: Place,
    item: &NewItem,
    steps: &mut Steps<L>,
) -> Result<ItemId, TreeError>
    requires good { HasGoodItems (store_of (R.kept rows.old)) }
    requires page { IfSome item.now.page (λ id. has_page (R.kept rows.old) id ≡ true) }
    requires bookmark { IsSome item.now.page ↔ (item.now.kind ≡ ItemKind.Bookmark) }
    requires title { length item.now.title ≤ longest_title }
    requires date { IsDate item.now.date }
    requires live { insert_refusal parent place (R.kept rows.old) ≡ None
        → live_slots (store_of (R.kept rows.old)) + 1 + chunks item.now.title ≤ slot_limit }
    ensures item { IfOk result (λ id. id.0 ≡ (R.kept rows.old).ids.item) }
    ensures allowed { IfOk result (λ id. insert_refusal parent place (R.kept rows.old) ≡ None) }
    ensures kept { OnOk result (R.kept rows.new
        ≡ with_inserted parent place item.now (R.kept rows.old)) }
    ensures refused { (refusal : Refusal) → result ≡ Err (TreeError.Refused refusal)
        → (insert_refusal parent place (R.kept rows.old) ≡ Some refusal) × (rows.new ≡ rows.old) }
    ensures no_memory { result ≡ Err TreeError.NoMemory
        → insert_refusal parent place (R.kept rows.old) ≡ None }
    ensures good { OnOk result (HasGoodItems (store_of (R.kept rows.new))) }
    ensures base { OnOk result ((bytes : List ℕ) → R.base rows.old bytes → R.base rows.new bytes) }
{
    let after = may_insert(rows, parent, place, steps)?;
    if rows.ids(steps).item == Ids::END {
        return Err(TreeError::Refused(Refusal::NoIds(IdKind::Item)));
    }
    let row = ItemRow {
        kind: item.kind,
        parent: Some(parent),
        page: item.page,
        added: item.date,
        modified: item.date,
    };
    Ok(rows.insert_item(&row, item.title.as_str(), after, steps)?)
}

/// A new item with the next id, which nothing refuses.
pub fn insert_allowed<R: Rows, L: Ledger>(
    rows: &mut R,
    parent: ItemId,
    place: Place,
    item: &NewItem,
    steps: &mut Steps<L>,
) -> Result<ItemId, NoMemory>
    requires good { HasGoodItems (store_of (R.kept rows.old)) }
    requires page { IfSome item.now.page (λ id. has_page (R.kept rows.old) id ≡ true) }
    requires bookmark { IsSome item.now.page ↔ (item.now.kind ≡ ItemKind.Bookmark) }
    requires title { length item.now.title ≤ longest_title }
    requires date { IsDate item.now.date }
    requires live { live_slots (store_of (R.kept rows.old)) + 1 + chunks item.now.title
        ≤ slot_limit }
    requires allowed { insert_refusal parent place (R.kept rows.old) ≡ None }
    ensures item { IfOk result (λ id. id.0 ≡ (R.kept rows.old).ids.item) }
    ensures kept { OnOk result (R.kept rows.new
        ≡ with_inserted parent place item.now (R.kept rows.old)) }
    ensures good { OnOk result (HasGoodItems (store_of (R.kept rows.new))) }
    ensures base { OnOk result ((bytes : List ℕ) → R.base rows.old bytes → R.base rows.new bytes) }
{
    match insert(rows, parent, place, item, steps) {
        Ok(id) => Ok(id),
        Err(TreeError::NoMemory) => Err(NoMemory),
        Err(TreeError::Refused(_)) => unreachable!(),
    }
}

/// An item of the row, with the next id, behind the last child of its parent, which nothing
/// refuses.
pub fn append<R: Rows, L: Ledger>(
    rows: &mut R,
    parent: ItemId,
    last: Option<ItemId>,
    row: &ItemRow,
    title: &str,
    steps: &mut Steps<L>,
) -> Result<ItemId, NoMemory>
    requires good { HasGoodItems (store_of (R.kept rows.old)) }
    requires parent { row.now.parent ≡ Some parent }
    requires last { last ≡ before Place.End (children_of (R.kept rows.old).items parent) }
    requires page { IfSome row.now.page (λ id. has_page (R.kept rows.old) id ≡ true) }
    requires bookmark { IsSome row.now.page ↔ (row.now.kind ≡ ItemKind.Bookmark) }
    requires title { length title.now ≤ longest_title }
    requires added { IsDate row.now.added }
    requires modified { IsDate row.now.modified }
    requires allowed { insert_refusal parent Place.End (R.kept rows.old) ≡ None }
    requires live { live_slots (store_of (R.kept rows.old)) + 1 + chunks title.now ≤ slot_limit }
    ensures item { IfOk result (λ id. id.0 ≡ (R.kept rows.old).ids.item) }
    ensures kept { OnOk result (R.kept rows.new
        ≡ with_appended parent row.now title.now (R.kept rows.old)) }
    ensures good { OnOk result (HasGoodItems (store_of (R.kept rows.new))) }
    ensures base { OnOk result ((bytes : List ℕ) → R.base rows.old bytes → R.base rows.new bytes) }
{
    rows.insert_item(row, title, last, steps)
}
