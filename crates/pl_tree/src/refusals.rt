// Why a change would be refused, known before anything is changed.
ghost use Rattle.std.specs.Prelude.{◌≡◌, IfOk};
ghost use Rattle.std.specs.Result.{result_err};
ghost use Rattle.pl_base.specs.Good.{HasGoodItems};
ghost use Rattle.pl_base.specs.Rows.{store_of};
ghost use Rattle.pl_base.specs.Tree.{children_of, without_id};
ghost use Rattle.pl_tree.specs.Places.{before};
ghost use Rattle.pl_tree.specs.Refused as spec;

use crate::ancestors::{lies_in, parent};
use crate::children::child_before;
use crate::{Place, TreeChange};
use pl_base::{ItemId, ItemKind, Refusal, Rows, Steps};
use std::sync::ledger::Ledger;

// The root over all items, and the last of the roots.
const ROOT: ItemId = ItemId(1);

const LAST_ROOT: ItemId = ItemId(6);

/// Why an item is no folder whose children may be listed. No memory is taken.
pub fn folder_refusal<R: Rows, L: Ledger>(
    rows: &R,
    item: ItemId,
    steps: &mut Steps<L>,
) -> Option<Refusal>
    ensures { result ≡ spec.folder_refusal (R.kept rows.now).items item }
{
    match rows.item_at(item, steps) {
        None => Some(Refusal::NoItem(item)),
        Some(row) if row.kind == ItemKind::Folder => None,
        Some(_) => Some(Refusal::NotAFolder(item)),
    }
}

// Whether the item is a tag folder.
fn is_tag<R: Rows, L: Ledger>(rows: &R, item: ItemId, steps: &mut Steps<L>) -> bool
    requires { HasGoodItems (store_of (R.kept rows.now)) }
    ensures { result ≡ spec.is_tag (R.kept rows.now).items item }
{
    parent(rows, item, steps) == Some(ItemId::TAGS)
}

// Whether the item is in a tag folder.
fn is_entry<R: Rows, L: Ledger>(rows: &R, item: ItemId, steps: &mut Steps<L>) -> bool
    requires { HasGoodItems (store_of (R.kept rows.now)) }
    ensures { result ≡ spec.is_entry (R.kept rows.now).items item }
{
    match parent(rows, item, steps) {
        Some(folder) => is_tag(rows, folder, steps),
        None => false,
    }
}

// Whether the item is a root, a tag folder or in one.
fn is_fixed<R: Rows, L: Ledger>(rows: &R, item: ItemId, steps: &mut Steps<L>) -> bool
    requires { HasGoodItems (store_of (R.kept rows.now)) }
    ensures { result ≡ spec.is_fixed (R.kept rows.now).items item }
{
    item.0 <= LAST_ROOT.0 || is_tag(rows, item, steps) || is_entry(rows, item, steps)
}

// The item may change: it is there, and is no root, no tag folder and in none.
pub(crate) fn may_change<R: Rows, L: Ledger>(
    rows: &R,
    item: ItemId,
    steps: &mut Steps<L>,
) -> Result<(), Refusal>
    requires { HasGoodItems (store_of (R.kept rows.now)) }
    ensures { result_err result ≡ spec.item_refusal (R.kept rows.now).items item }
{
    if rows.item_at(item, steps).is_none() {
        return Err(Refusal::NoItem(item));
    }
    if is_fixed(rows, item, steps) {
        return Err(Refusal::Fixed(item));
    }
    Ok(())
}

// The parent takes items: it is a folder, and not one whose children stay as they are.
fn takes_items<R: Rows, L: Ledger>(
    rows: &R,
    parent: ItemId,
    steps: &mut Steps<L>,
) -> Result<(), Refusal>
    requires { HasGoodItems (store_of (R.kept rows.now)) }
    ensures { result_err result ≡ spec.parent_refusal (R.kept rows.now).items parent }
{
    if let Some(refusal) = folder_refusal(rows, parent, steps) {
        return Err(refusal);
    }
    if parent == ROOT || parent == ItemId::TAGS || is_tag(rows, parent, steps) {
        return Err(Refusal::Fixed(parent));
    }
    Ok(())
}

// A new item may be put at this place, behind the child in the answer.
pub(crate) fn may_insert<R: Rows, L: Ledger>(
    rows: &R,
    parent: ItemId,
    place: Place,
    steps: &mut Steps<L>,
) -> Result<Option<ItemId>, Refusal>
    requires { HasGoodItems (store_of (R.kept rows.now)) }
    ensures refused { result_err result
        ≡ spec.refusal (R.kept rows.now).items (TreeChange.Insert parent place) }
    ensures before { IfOk result (λ after. after
        ≡ before place (children_of (R.kept rows.now).items parent)) }
{
    takes_items(rows, parent, steps)?;
    child_before(rows, parent, place, None, steps)
}

// The item may move to this place, behind the child in the answer.
pub(crate) fn may_move<R: Rows, L: Ledger>(
    rows: &R,
    item: ItemId,
    parent: ItemId,
    place: Place,
    steps: &mut Steps<L>,
) -> Result<Option<ItemId>, Refusal>
    requires { HasGoodItems (store_of (R.kept rows.now)) }
    ensures refused { result_err result
        ≡ spec.refusal (R.kept rows.now).items (TreeChange.Move item parent place) }
    ensures before { IfOk result (λ after. after
        ≡ before place (without_id item (children_of (R.kept rows.now).items parent))) }
{
    may_change(rows, item, steps)?;
    takes_items(rows, parent, steps)?;
    if lies_in(rows, item, parent, steps) {
        return Err(Refusal::Inside(item));
    }
    child_before(rows, parent, place, Some(item), steps)
}

/// The first cause to refuse a change. No memory is taken.
pub fn refused<R: Rows, L: Ledger>(
    rows: &R,
    change: &TreeChange,
    steps: &mut Steps<L>,
) -> Option<Refusal>
    requires good { HasGoodItems (store_of (R.kept rows.now)) }
    ensures { result ≡ spec.refusal (R.kept rows.now).items change.now }
{
    match *change {
        TreeChange::Insert { parent, place } => may_insert(rows, parent, place, steps).err(),
        TreeChange::Move {
            item,
            parent,
            place,
        } => may_move(rows, item, parent, place, steps).err(),
        TreeChange::Retitle { item } | TreeChange::Remove { item } => {
            may_change(rows, item, steps).err()
        }
    }
}
