// Tags that pages get and lose.
ghost use Rattle.std.specs.Prelude.{◌≡◌, ◌≤◌, ◌<◌, ◌+◌, ℕ, List, Err, None, Some, true, bytes_eq};
ghost use Rattle.std.specs.Prelude.{length, unwrap_or, IfOk, OnOk};
ghost use Rattle.std.specs.List.{find};
ghost use Rattle.std.specs.Option.{option_map};
ghost use Rattle.pl_base.specs.Date.{IsDate};
ghost use Rattle.pl_base.specs.Fold.{folded};
ghost use Rattle.pl_base.specs.Good.{HasGoodItems, end_of_ids, longest_title};
ghost use Rattle.pl_base.specs.Live.{chunks, live_slots, slot_limit};
ghost use Rattle.pl_base.specs.Rows.{has_page, store_of, with_items};
ghost use Rattle.pl_base.specs.Store.{Item, item_id};
ghost use Rattle.pl_base.specs.Tags.{tags_root};
ghost use Rattle.pl_base.specs.Tree as tree;
ghost use Rattle.pl_base.specs.Tree.{IsFolder, children_of, has_item, item_at};
ghost use Rattle.pl_tree.specs.Changes.{with_inserted};
ghost use Rattle.pl_tree.specs.Places.{before};
ghost use Rattle.pl_tree.specs.Refused as refused;
ghost use Rattle.pl_tree.specs.Tagged as spec;

use crate::{Place, TreeError};
use pl_base::{
    IdKind, Ids, ItemId, ItemKind, ItemRow, Micros, NoMemory, PageId, Refusal, Rows, Steps, Txt,
};
use pl_words::{TagName, fold};
use std::alloc::Global;
use std::sync::ledger::Ledger;

// Whether the title of the item has this fold.
fn has_fold<R: Rows, L: Ledger>(
    alloc: Global,
    rows: &R,
    item: ItemId,
    folds: &Txt,
    steps: &mut Steps<L>,
) -> Result<bool, NoMemory>
    requires { has_item (R.kept rows.now).items item ≡ true }
    ensures { IfOk result (λ has. Some has ≡ option_map
        (λ (i : Item). bytes_eq (folded i.title) folds.now)
        (item_at (R.kept rows.now).items item)) }
{
    let title = rows.item_title(item, steps)?;
    Ok(fold(alloc, title.as_str())? == *folds)
}

/// The tag folder with this name, in whatever case.
pub fn tag_folder<R: Rows, L: Ledger>(
    alloc: Global,
    rows: &R,
    name: &TagName,
    steps: &mut Steps<L>,
) -> Result<Option<ItemId>, NoMemory>
    requires good { HasGoodItems (store_of (R.kept rows.now)) }
    ensures { IfOk result (λ folder. folder ≡ option_map (λ (t : Item). t.id)
        (spec.tag_named name.now (R.kept rows.now).items)) }
{
    let folds = fold(alloc, name.text())?;
    let mut next = rows.first_child(ItemId::TAGS, steps);
    while let Some(folder) = next {
        if has_fold(alloc, rows, folder, &folds, steps)? {
            return Ok(Some(folder));
        }
        next = rows.next_sibling(folder, steps);
    }
    Ok(None)
}

// Whether the item has the page.
fn is_of_page<R: Rows, L: Ledger>(
    rows: &R,
    item: ItemId,
    page: PageId,
    steps: &mut Steps<L>,
) -> bool
    requires { has_item (R.kept rows.now).items item ≡ true }
    ensures { Some result ≡ option_map (λ (i : Item). tree.is_page page i.page)
        (item_at (R.kept rows.now).items item) }
{
    match rows.item_at(item, steps) {
        Some(row) => row.page == Some(page),
        None => false,
    }
}

// The entry of the page in a tag folder.
fn entry_in<R: Rows, L: Ledger>(
    rows: &R,
    folder: ItemId,
    page: PageId,
    steps: &mut Steps<L>,
) -> Option<ItemId>
    requires good { HasGoodItems (store_of (R.kept rows.now)) }
    ensures { result ≡ option_map (λ (i : Item). i.id) (find
        (λ (i : Item). tree.is_page page i.page)
        (tree.child_items (R.kept rows.now).items folder)) }
{
    let mut next = rows.first_child(folder, steps);
    while let Some(entry) = next {
        if is_of_page(rows, entry, page, steps) {
            return next;
        }
        next = rows.next_sibling(entry, steps);
    }
    None
}

/// The entry by which the page has the tag.
pub fn tag_entry<R: Rows, L: Ledger>(
    alloc: Global,
    rows: &R,
    page: PageId,
    name: &TagName,
    steps: &mut Steps<L>,
) -> Result<Option<ItemId>, NoMemory>
    requires good { HasGoodItems (store_of (R.kept rows.now)) }
    ensures { IfOk result (λ entry. entry ≡ option_map (λ (i : Item). i.id)
        (spec.tag_entry page name.now (R.kept rows.now).items)) }
{
    match tag_folder(alloc, rows, name, steps)? {
        Some(folder) => Ok(entry_in(rows, folder, page, steps)),
        None => Ok(None),
    }
}

// The tag folder with this name, where the page may get the tag.
fn may_tag<R: Rows, L: Ledger>(
    alloc: Global,
    rows: &R,
    page: PageId,
    name: &TagName,
    steps: &mut Steps<L>,
) -> Result<Option<ItemId>, TreeError>
    requires good { HasGoodItems (store_of (R.kept rows.now)) }
    ensures folder { IfOk result (λ folder. folder ≡ option_map (λ (t : Item). t.id)
        (spec.tag_named name.now (R.kept rows.now).items)) }
    ensures allowed { IfOk result (λ folder.
        refused.tag_refusal page name.now (R.kept rows.now) ≡ None) }
    ensures refused { (refusal : Refusal) → result ≡ Err (TreeError.Refused refusal)
        → refused.tag_refusal page name.now (R.kept rows.now) ≡ Some refusal }
{
    let folder = tag_folder(alloc, rows, name, steps)?;
    let entry = match folder {
        Some(folder) => entry_in(rows, folder, page, steps),
        None => None,
    };
    if entry.is_some() {
        return Err(TreeError::Refused(Refusal::DupTag));
    }
    let wanted = if folder.is_none() { 2 } else { 1 };
    if rows.ids(steps).item > Ids::END - wanted {
        return Err(TreeError::Refused(Refusal::NoIds(IdKind::Item)));
    }
    Ok(folder)
}

// The row of a new item in a folder.
fn row_in(folder: ItemId, kind: ItemKind, page: Option<PageId>, date: Micros) -> ItemRow
    ensures { result ≡ record {
      kind = kind;
      parent = Some folder;
      page = page;
      added = date;
      modified = date;
    } }
{
    ItemRow {
        kind,
        parent: Some(folder),
        page,
        added: date,
        modified: date,
    }
}

// An entry of the page at the end of a tag folder.
fn add_entry<R: Rows, L: Ledger>(
    rows: &mut R,
    folder: ItemId,
    after: Option<ItemId>,
    page: PageId,
    date: Micros,
    steps: &mut Steps<L>,
) -> Result<(), NoMemory>
    requires good { HasGoodItems (store_of (R.kept rows.old)) }
    requires folder { IsFolder (R.kept rows.old).items folder }
    requires after { after ≡ before Place.End (children_of (R.kept rows.old).items folder) }
    requires page { has_page (R.kept rows.old) page ≡ true }
    requires date { IsDate date }
    requires id { (R.kept rows.old).ids.item < end_of_ids }
    requires live { live_slots (store_of (R.kept rows.old)) + 1 ≤ slot_limit }
    ensures kept { OnOk result (R.kept rows.new
        ≡ with_inserted folder Place.End (spec.new_entry page date) (R.kept rows.old)) }
    ensures base { OnOk result ((bytes : List ℕ) → R.base rows.old bytes → R.base rows.new bytes) }
{
    let row = row_in(folder, ItemKind::Bookmark, Some(page), date);
    rows.insert_item(&row, "", after, steps)?;
    Ok(())
}

// A tag folder with this title at the end of the tags root, and an entry of the page in it.
fn add_folder<R: Rows, L: Ledger>(
    rows: &mut R,
    after: Option<ItemId>,
    page: PageId,
    title: &str,
    date: Micros,
    steps: &mut Steps<L>,
) -> Result<(), NoMemory>
    requires good { HasGoodItems (store_of (R.kept rows.old)) }
    requires after { after ≡ before Place.End (children_of (R.kept rows.old).items tags_root) }
    requires page { has_page (R.kept rows.old) page ≡ true }
    requires title { length title.now ≤ longest_title }
    requires date { IsDate date }
    requires id { (R.kept rows.old).ids.item + 1 < end_of_ids }
    requires live { live_slots (store_of (R.kept rows.old)) + 2 + chunks title.now ≤ slot_limit }
    ensures kept { OnOk result (R.kept rows.new
        ≡ with_inserted (item_id (R.kept rows.old).ids.item) Place.End (spec.new_entry page date)
        (with_inserted tags_root Place.End (spec.new_tag title.now date) (R.kept rows.old))) }
    ensures base { OnOk result ((bytes : List ℕ) → R.base rows.old bytes → R.base rows.new bytes) }
{
    let row = row_in(ItemId::TAGS, ItemKind::Folder, None, date);
    let folder = rows.insert_item(&row, title, after, steps)?;
    let entry = row_in(folder, ItemKind::Bookmark, Some(page), date);
    rows.insert_item(&entry, "", None, steps)?;
    Ok(())
}

/// The page gets the tag, which nothing refuses, where the tag folder with this name is known, and
/// the last child of it; where there is no such folder, the last child of the tags root.
pub fn enter<R: Rows, L: Ledger>(
    rows: &mut R,
    page: PageId,
    name: &TagName,
    folder: Option<ItemId>,
    last: Option<ItemId>,
    date: Micros,
    steps: &mut Steps<L>,
) -> Result<(), NoMemory>
    requires good { HasGoodItems (store_of (R.kept rows.old)) }
    requires page { has_page (R.kept rows.old) page ≡ true }
    requires date { IsDate date }
    requires folder { folder ≡ option_map (λ (t : Item). t.id)
        (spec.tag_named name.now (R.kept rows.old).items) }
    requires last { last ≡ before Place.End
        (children_of (R.kept rows.old).items (unwrap_or folder tags_root)) }
    requires live { live_slots (store_of (spec.with_tagged page name.now date (R.kept rows.old)))
        ≤ slot_limit }
    requires allowed { refused.tag_refusal page name.now (R.kept rows.old) ≡ None }
    ensures kept { OnOk result (R.kept rows.new
        ≡ spec.with_tagged page name.now date (R.kept rows.old)) }
    ensures good { OnOk result (HasGoodItems (store_of (R.kept rows.new))) }
    ensures base { OnOk result ((bytes : List ℕ) → R.base rows.old bytes → R.base rows.new bytes) }
{
    let title = name.text();
    match folder {
        Some(folder) => add_entry(rows, folder, last, page, date, steps),
        None => add_folder(rows, last, page, title, date, steps),
    }
}

/// The page gets the tag: an entry at the end of the tag folder with this name, which is made at
/// the end of the tags root where there is none and keeps its first spelling.
///
/// Refused are a tag that the page has, and then ids that are never given.
pub fn tag<R: Rows, L: Ledger>(
    alloc: Global,
    rows: &mut R,
    page: PageId,
    name: &TagName,
    date: Micros,
    steps: &mut Steps<L>,
) -> Result<(), TreeError>
    requires good { HasGoodItems (store_of (R.kept rows.old)) }
    requires page { has_page (R.kept rows.old) page ≡ true }
    requires date { IsDate date }
    requires live { refused.tag_refusal page name.now (R.kept rows.old) ≡ None
        → live_slots (store_of (spec.with_tagged page name.now date (R.kept rows.old)))
        ≤ slot_limit }
    ensures allowed { OnOk result
        (refused.tag_refusal page name.now (R.kept rows.old) ≡ None) }
    ensures kept { OnOk result (R.kept rows.new
        ≡ spec.with_tagged page name.now date (R.kept rows.old)) }
    ensures refused { (refusal : Refusal) → result ≡ Err (TreeError.Refused refusal)
        → (refused.tag_refusal page name.now (R.kept rows.old) ≡ Some refusal)
        × (rows.new ≡ rows.old) }
    ensures good { OnOk result (HasGoodItems (store_of (R.kept rows.new))) }
    ensures base { OnOk result ((bytes : List ℕ) → R.base rows.old bytes → R.base rows.new bytes) }
{
    let folder = may_tag(alloc, rows, page, name, steps)?;
    let last = rows.last_child(folder.unwrap_or(ItemId::TAGS), steps);
    enter(rows, page, name, folder, last, date, steps)?;
    Ok(())
}

/// The page gets the tag, which nothing refuses.
pub fn tag_allowed<R: Rows, L: Ledger>(
    alloc: Global,
    rows: &mut R,
    page: PageId,
    name: &TagName,
    date: Micros,
    steps: &mut Steps<L>,
) -> Result<(), NoMemory>
    requires good { HasGoodItems (store_of (R.kept rows.old)) }
    requires page { has_page (R.kept rows.old) page ≡ true }
    requires date { IsDate date }
    requires live { live_slots (store_of
        (spec.with_tagged page name.now date (R.kept rows.old))) ≤ slot_limit }
    requires allowed { refused.tag_refusal page name.now (R.kept rows.old) ≡ None }
    ensures kept { OnOk result (R.kept rows.new
        ≡ spec.with_tagged page name.now date (R.kept rows.old)) }
    ensures good { OnOk result (HasGoodItems (store_of (R.kept rows.new))) }
    ensures base { OnOk result ((bytes : List ℕ) → R.base rows.old bytes → R.base rows.new bytes) }
{
    match tag(alloc, rows, page, name, date, steps) {
        Ok(()) => Ok(()),
        Err(TreeError::NoMemory) => Err(NoMemory),
        Err(TreeError::Refused(_)) => unreachable!(),
    }
}

/// The page loses the tag: its entry goes, and the tag folder with its last entry.
///
/// Refused is a tag that the page has not.
pub fn untag<R: Rows, L: Ledger>(
    alloc: Global,
    rows: &mut R,
    page: PageId,
    name: &TagName,
    steps: &mut Steps<L>,
) -> Result<(), TreeError>
    requires good { HasGoodItems (store_of (R.kept rows.old)) }
    ensures allowed { OnOk result
        (refused.untag_refusal page name.now (R.kept rows.old).items ≡ None) }
    ensures kept { OnOk result (R.kept rows.new
        ≡ with_items (spec.untagged_items page name.now (R.kept rows.old).items)
        (R.kept rows.old)) }
    ensures refused { (refusal : Refusal) → result ≡ Err (TreeError.Refused refusal)
        → (refused.untag_refusal page name.now (R.kept rows.old).items ≡ Some refusal)
        × (rows.new ≡ rows.old) }
    ensures good { OnOk result (HasGoodItems (store_of (R.kept rows.new))) }
    ensures base { OnOk result ((bytes : List ℕ) → R.base rows.old bytes → R.base rows.new bytes) }
{
    let Some(folder) = tag_folder(alloc, rows, name, steps)? else {
        return Err(TreeError::Refused(Refusal::NoTag));
    };
    let Some(entry) = entry_in(rows, folder, page, steps) else {
        return Err(TreeError::Refused(Refusal::NoTag));
    };
    rows.remove_item(entry, steps);
    if rows.first_child(folder, steps).is_none() {
        rows.remove_item(folder, steps);
    }
    Ok(())
}
