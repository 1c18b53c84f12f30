// The tests of a file's items, one by one, and of its six roots.
ghost use Rattle.std.specs.Prelude.{◌≡◌, ◌==◌, List, nat_lt};
ghost use Rattle.std.specs.List.{list_all, position};
ghost use Rattle.std.specs.List.Sorted.{IsStrictlyIncreasing};
ghost use Rattle.std.specs.Option.{option_copied};
ghost use Rattle.pl_base.specs.Touched.{ascends_above};
ghost use Rattle.pl_base.specs.Tree.{item_at};
ghost use Rattle.pl_check.specs.RowIds.{AreRowIds};
ghost use Rattle.pl_check.specs.Rows.{are_ids};
ghost use Rattle.pl_check.specs.Items as good;
ghost use Rattle.pl_check.specs.Items.{item_ids};
ghost use Rattle.pl_stored.specs.declared.stored.StoredPage.{StoredPage};
ghost use Rattle.pl_stored.specs.declared.stored.StoredVisit.{StoredVisit};

use crate::row_ids::RowIds;
use pl_base::{ItemId, ItemKind, Micros, PageId, TreeItem};
use pl_stored::StoredRows;

/// Whether the ids ascend from above 0, and lie below the next one.
pub fn are_item_ids(items: &[TreeItem], next: u32) -> bool
    ensures { result ≡ are_ids next (item_ids items.now) }
{
    items_ascend(items) && items_lie_below(items, next)
}

fn items_lie_below(items: &[TreeItem], next: u32) -> bool
    ensures { result ≡ list_all (λ id. nat_lt id next) (item_ids items.now) }
{
    items.iter().map(|item| item.id.0).all(|id| id < next)
}

fn items_ascend(items: &[TreeItem]) -> bool
    ensures { result ≡ ascends_above 0 (item_ids items.now) }
{
    let mut last = 0;
    for item in items {
        if item.id.0 <= last {
            return false;
        }
        last = item.id.0;
    }
    true
}

/// Whether each item is good by itself, told the ids of the pages.
pub fn have_good_items(rows: &StoredRows, ids: &RowIds) -> bool
    requires { AreRowIds rows.now.pages rows.now.visits ids.now }
    ensures { result ≡ list_all (good.is_good_item rows.now.pages) rows.now.items }
{
    rows.items.iter().all(|item| is_good_item(ids, item))
}

fn is_good_item(ids: &RowIds, item: &TreeItem) -> bool
    ensures { (pages : List StoredPage) (visits : List StoredVisit)
        → AreRowIds pages visits ids.now → result ≡ good.is_good_item pages item.now }
{
    item.added.0 <= Micros::LAST.0
        && item.modified.0 <= Micros::LAST.0
        && has_own_page(ids, item.kind, item.page)
        && (item.children.is_empty() || is_folder(item.kind))
}

// Whether a bookmark has a page that is there, and any other item none.
fn has_own_page(ids: &RowIds, kind: ItemKind, page: Option<PageId>) -> bool
    ensures { (pages : List StoredPage) (visits : List StoredVisit)
        → AreRowIds pages visits ids.now → result ≡ good.has_own_page pages kind page }
{
    match page {
        Some(page) => is_bookmark(kind) && ids.has_page(page),
        None => !is_bookmark(kind),
    }
}

pub fn is_bookmark(kind: ItemKind) -> bool
    ensures { result ≡ good.is_bookmark kind }
{
    matches!(kind, ItemKind::Bookmark)
}

pub fn is_folder(kind: ItemKind) -> bool
    ensures { result ≡ good.is_folder kind }
{
    matches!(kind, ItemKind::Folder)
}

/// The item with this id.
pub fn find_item(items: &[TreeItem], id: ItemId) -> Option<&TreeItem>
    requires { IsStrictlyIncreasing (item_ids items.now) }
    ensures { option_copied result ≡ item_at items.now id }
{
    items.get(item_index(items, id)?)
}

fn item_index(items: &[TreeItem], id: ItemId) -> Option<usize>
    requires { IsStrictlyIncreasing (item_ids items.now) }
    ensures { result ≡ position (λ i. i.id.0 == id.0) items.now }
{
    items.binary_search_by_key(&id.0, |item| item.id.0).ok()
}
