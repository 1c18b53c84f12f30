// What is asked of bookmarks, and of the folders that they are in.
ghost use Rattle.std.specs.Prelude.{◌≡◌, ◌||◌, not, Some, true};
ghost use Rattle.pl_base.specs.Rows.{store_of};
ghost use Rattle.pl_base.specs.Store.{Item};
ghost use Rattle.pl_base.specs.Tags.{is_bookmarked};
ghost use Rattle.pl_base.specs.Tree.{has_item, item_at};
ghost use Rattle.pl_conditions.specs.AskedParts as parts;
ghost use Rattle.pl_conditions.specs.Conditions as spec;

use crate::asked::Asked;
use pl_base::{ItemId, PageId, Rows, Steps};
use pl_marks::{is_bookmarked, tag_folder};
use pl_place::Query;
use std::sync::ledger::Ledger;

/// Whether the page is bookmarked, where that is asked.
pub fn has_mark_asked<R: Rows, L: Ledger>(
    rows: &R,
    query: &Query,
    page: PageId,
    steps: &mut Steps<L>,
) -> bool
    ensures { result ≡ (not query.now.only_bookmarked
        || is_bookmarked (store_of (R.kept rows.now)) page) }
{
    !query.only_bookmarked || is_bookmarked(rows, page, steps)
}

/// Whether this very bookmark is a child of one of the folders, if any are asked for.
pub fn is_in_parents<R: Rows, L: Ledger>(
    rows: &R,
    asked: &Asked<'_>,
    item: ItemId,
    steps: &mut Steps<L>,
) -> bool
    requires { has_item (R.kept rows.now).items item ≡ true }
    ensures { (i : Item) → item_at (R.kept rows.now).items item ≡ Some i
        → result ≡ spec.is_in_parents (store_of (R.kept rows.now)) asked.now.query.now.parents i }
{
    let parents = asked.query.parents.as_slice();
    if parents.is_empty() {
        return true;
    }
    match rows.item_at(item, steps).unwrap().parent {
        Some(folder) => parents.contains(&folder),
        None => false,
    }
}

// Whether the item is a bookmark, and in one of the folders.
fn is_mark_in<R: Rows, L: Ledger>(
    rows: &R,
    asked: &Asked<'_>,
    item: ItemId,
    steps: &mut Steps<L>,
) -> bool
    requires { has_item (R.kept rows.now).items item ≡ true }
    ensures { (i : Item) → item_at (R.kept rows.now).items item ≡ Some i
        → result ≡ parts.is_mark_in (store_of (R.kept rows.now)) asked.now.query.now.parents i }
{
    tag_folder(rows, item, steps).is_none() && is_in_parents(rows, asked, item, steps)
}

/// Whether a bookmark of the page is a child of one of the folders, if any are asked for.
pub fn has_mark_in<R: Rows, L: Ledger>(
    rows: &R,
    asked: &Asked<'_>,
    page: PageId,
    steps: &mut Steps<L>,
) -> bool
    ensures { result ≡ spec.has_mark_in (store_of (R.kept rows.now)) asked.now.query.now.parents
        page }
{
    if asked.query.parents.as_slice().is_empty() {
        return true;
    }
    let mut next = rows.first_reference(page, steps);
    while let Some(item) = next {
        if is_mark_in(rows, asked, item, steps) {
            return true;
        }
        next = rows.next_reference(item, steps);
    }
    false
}
