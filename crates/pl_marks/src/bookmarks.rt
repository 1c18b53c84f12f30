// The freshest bookmark of a page, found by way of the items that have it.
ghost use Rattle.std.specs.Prelude.{◌≡◌, Some, true, IfOk};
ghost use Rattle.std.specs.Option.{option_map};
ghost use Rattle.pl_base.specs.Rows.{store_of};
ghost use Rattle.pl_base.specs.Store.{Item};
ghost use Rattle.pl_base.specs.Tree.{has_item, item_at};
ghost use Rattle.pl_base.specs.View.{bookmarks_of, freshest};
ghost use Rattle.pl_base.specs.View as base;
ghost use Rattle.pl_marks.specs.Freshest as spec;

use crate::tags::tag_folder;
use pl_base::{ItemId, Micros, NoMemory, PageId, Rows, Steps, Txt};
use std::alloc::Global;
use std::sync::ledger::Ledger;

// An item, and when it was modified.
#[derive(Clone, Copy)]
struct Dated {
    item: ItemId,
    modified: Micros,
}

// The item, where it is in no tag folder.
fn dated_bookmark<R: Rows, L: Ledger>(rows: &R, item: ItemId, steps: &mut Steps<L>) -> Option<Dated>
    requires { has_item (R.kept rows.now).items item ≡ true }
    ensures { (i : Item) → item_at (R.kept rows.now).items item ≡ Some i
        → result ≡ spec.dated_bookmark (R.kept rows.now).items i }
{
    if tag_folder(rows, item, steps).is_some() {
        return None;
    }
    let row = rows.item_at(item, steps).unwrap();
    Some(Dated {
        item,
        modified: row.modified,
    })
}

// What was modified last, and the second where their dates are the same.
fn later(first: Option<Dated>, second: Option<Dated>) -> Option<Dated>
    ensures { result ≡ spec.later first second }
{
    let Some(new) = second else {
        return first;
    };
    let Some(old) = first else {
        return second;
    };
    if new.modified < old.modified {
        first
    } else {
        second
    }
}

// Of the page's bookmarks the one that was modified last, and of several the one with the greatest
// id.
fn freshest_bookmark<R: Rows, L: Ledger>(
    rows: &R,
    page: PageId,
    steps: &mut Steps<L>,
) -> Option<ItemId>
    ensures { result ≡ option_map (λ (i : Item). i.id)
        (freshest (bookmarks_of (store_of (R.kept rows.now)) page)) }
{
    let mut found = None;
    let mut next = rows.first_reference(page, steps);
    while let Some(item) = next {
        found = later(found, dated_bookmark(rows, item, steps));
        next = rows.next_reference(item, steps);
    }
    Some(found?.item)
}

/// The title of the page's bookmark that was modified last; empty where it has none.
pub fn mark_title<R: Rows, L: Ledger>(
    alloc: Global,
    rows: &R,
    page: PageId,
    steps: &mut Steps<L>,
) -> Result<Txt, NoMemory>
    ensures { IfOk result (λ title. title ≡ base.mark_title (store_of (R.kept rows.now)) page) }
{
    match freshest_bookmark(rows, page, steps) {
        Some(item) => rows.item_title(item, steps),
        None => Txt::copied(alloc, ""),
    }
}
