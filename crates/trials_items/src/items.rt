//! Calls on the items of a store over vectors. Each asks first for what the call takes for granted.
ghost use Rattle.std.specs.Prelude.{◌≡◌, ◌↔◌, false, true, IfSome, IsSome, IsSomeAnd};
ghost use Rattle.pl_base.specs.Rows.{has_page};
ghost use Rattle.pl_base.specs.Tree.{IsFolder, lies_in, parent_of};
ghost use Rattle.pl_plain.specs.Flat.{kept_of};

use pl_base::{
    Ids, ItemId, ItemKind, ItemRow, LONGEST_TITLE, Micros, NoMemory, PageId, Rows, Steps,
};
use pl_plain::Flat;
use std::process::Abort;
use std::sync::ledger::Ledger;
use std::test::Fail;

// Whether the child, if there is one, has this parent.
fn is_child<L: Ledger>(
    flat: &Flat,
    child: Option<ItemId>,
    parent: Option<ItemId>,
    steps: &mut Steps<L>,
) -> bool
    ensures { result ≡ true → IfSome child (λ id. parent_of (kept_of flat.now).items id ≡ parent) }
{
    match child {
        Some(child) => has_parent(flat, child, parent, steps),
        None => true,
    }
}

fn has_parent<L: Ledger>(
    flat: &Flat,
    child: ItemId,
    parent: Option<ItemId>,
    steps: &mut Steps<L>,
) -> bool
    ensures { result ≡ true → parent_of (kept_of flat.now).items child ≡ parent }
{
    match flat.item_at(child, steps) {
        Some(row) => row.parent == parent,
        None => false,
    }
}

// Whether the page, if there is one, is there.
fn is_there<L: Ledger>(flat: &Flat, page: Option<PageId>, steps: &mut Steps<L>) -> bool
    ensures { result ≡ true → IfSome page (λ id. has_page (kept_of flat.now) id ≡ true) }
{
    match page {
        Some(page) => flat.page_at(page, steps).is_some(),
        None => true,
    }
}

// Whether the item is there, and a folder.
fn is_folder<L: Ledger>(flat: &Flat, item: ItemId, steps: &mut Steps<L>) -> bool
    ensures { result ≡ true → IsFolder (kept_of flat.now).items item }
{
    match flat.item_at(item, steps) {
        Some(row) => row.kind == ItemKind::Folder,
        None => false,
    }
}

// Whether the parent is a folder.
fn is_parent<L: Ledger>(flat: &Flat, parent: Option<ItemId>, steps: &mut Steps<L>) -> bool
    ensures { result ≡ true → IsSomeAnd parent (IsFolder (kept_of flat.now).items) }
{
    match parent {
        Some(parent) => is_folder(flat, parent, steps),
        None => false,
    }
}

// Whether the row has a page if it is a bookmark's, and no other.
fn has_its_page(row: &ItemRow) -> bool
    ensures { result ≡ true → IsSome row.now.page ↔ (row.now.kind ≡ ItemKind.Bookmark) }
{
    match row.kind {
        ItemKind::Bookmark => row.page.is_some(),
        ItemKind::Folder | ItemKind::Separator => row.page.is_none(),
    }
}

// Whether the parent is neither the item nor lies in it.
fn is_outside<L: Ledger>(flat: &Flat, item: ItemId, parent: ItemId, steps: &mut Steps<L>) -> bool
    ensures { result ≡ true → lies_in (kept_of flat.now).items item parent ≡ false }
{
    let mut next = Some(parent);
    for _step in 0..flat.items(steps) {
        let Some(id) = next else {
            return true;
        };
        let Some(row) = flat.item_at(id, steps) else {
            return false;
        };
        if id == item {
            return false;
        }
        next = row.parent;
    }
    true
}

pub fn insert<L: Ledger>(
    rt: &impl Abort,
    flat: &mut Flat,
    row: &ItemRow,
    title: &str,
    after: Option<ItemId>,
    steps: &mut Steps<L>,
) -> Result<ItemId, NoMemory> {
    assert!(rt; is_parent(flat, row.parent, steps));
    assert!(rt; is_child(flat, after, row.parent, steps));
    assert!(rt; has_its_page(row));
    assert!(rt; is_there(flat, row.page, steps));
    assert!(rt; row.added.0 <= Micros::LAST.0);
    assert!(rt; row.modified.0 <= Micros::LAST.0);
    assert!(rt; title.len() <= LONGEST_TITLE);
    assert!(rt; flat.ids(steps).item < Ids::END);
    assert!(rt; flat.live(steps) < 4_000_000);
    flat.insert_item(row, title, after, steps)
}

pub fn move_item<L: Ledger>(
    rt: &impl Abort,
    flat: &mut Flat,
    item: ItemId,
    parent: ItemId,
    after: Option<ItemId>,
    steps: &mut Steps<L>,
) -> Result<(), Fail> {
    flat.item_at(item, steps).ok_or("no item")?;
    assert!(rt; is_folder(flat, parent, steps));
    assert!(rt; is_outside(flat, item, parent, steps));
    assert!(rt; is_child(flat, after, Some(parent), steps));
    assert!(rt; after != Some(item));
    flat.move_item(item, parent, after, steps);
    Ok(())
}

pub fn set<L: Ledger>(
    rt: &impl Abort,
    flat: &mut Flat,
    item: ItemId,
    title: &str,
    modified: Micros,
    steps: &mut Steps<L>,
) -> Result<(), Fail> {
    flat.item_at(item, steps).ok_or("no item")?;
    assert!(rt; title.len() <= LONGEST_TITLE);
    assert!(rt; modified.0 <= Micros::LAST.0);
    assert!(rt; flat.live(steps) < 4_000_000);
    flat.set_item(item, title, modified, steps)?;
    Ok(())
}

pub fn set_modified<L: Ledger>(
    rt: &impl Abort,
    flat: &mut Flat,
    item: ItemId,
    modified: Micros,
    steps: &mut Steps<L>,
) -> Result<(), Fail> {
    flat.item_at(item, steps).ok_or("no item")?;
    assert!(rt; modified.0 <= Micros::LAST.0);
    flat.set_modified(item, modified, steps);
    Ok(())
}

pub fn remove<L: Ledger>(
    rt: &impl Abort,
    flat: &mut Flat,
    item: ItemId,
    steps: &mut Steps<L>,
) -> Result<(), Fail> {
    flat.item_at(item, steps).ok_or("no item")?;
    assert!(rt; flat.first_child(item, steps).is_none());
    flat.remove_item(item, steps);
    Ok(())
}

/// The parent has these children, in this order.
pub fn check_children<L: Ledger>(
    rt: &impl Abort,
    flat: &Flat,
    parent: u32,
    children: &[u32],
    steps: &mut Steps<L>,
) {
    let mut next = flat.first_child(ItemId(parent), steps);
    let mut last = None;
    for id in children {
        let child = ItemId(*id);
        assert_eq!(rt; next, Some(child));
        assert!(rt; has_parent(flat, child, Some(ItemId(parent)), steps));
        last = next;
        next = flat.next_sibling(child, steps);
    }
    assert_eq!(rt; next, None);
    assert_eq!(rt; flat.last_child(ItemId(parent), steps), last);
}

/// These items have the page.
pub fn check_references<L: Ledger>(
    rt: &impl Abort,
    flat: &Flat,
    page: u32,
    items: &[u32],
    steps: &mut Steps<L>,
) {
    let mut next = flat.first_reference(PageId(page), steps);
    for id in items {
        let item = ItemId(*id);
        assert_eq!(rt; next, Some(item));
        next = flat.next_reference(item, steps);
    }
    assert_eq!(rt; next, None);
}
