// The ways to the bookmarks that answer a query.
ghost use Rattle.std.specs.Prelude.{◌≡◌, ◌==◌, Some, false, length, true, IfOk, OnOk};
ghost use Rattle.pl_base.specs.Good.{IsGood};
ghost use Rattle.pl_base.specs.Rows.{IsRight, store_of};
ghost use Rattle.pl_base.specs.Tree.{has_item};
ghost use Rattle.pl_known.specs.Known.{Knows};
ghost use Rattle.pl_marked.specs.Found.{AreAdded, HaveViews};
ghost use Rattle.pl_marked.specs.Listed.{Lists, child_rows, folder_rows};
ghost use Rattle.pl_marked.specs.Ready.{IsReady};

use crate::found::Found;
use crate::items::item_row;
use crate::marks::{add_item, add_page};
use crate::ready::{Ready, holds};
use pl_base::{ItemId, NoMemory, Rows, Steps};
use pl_known::Known;
use std::alloc::Global;
use std::sync::ledger::Ledger;

// The bookmarks of all pages.
fn of_all_pages<'a, R: Rows, L: Ledger>(
    alloc: Global,
    rows: &R,
    known: &'a Known,
    ready: &Ready<'_>,
    steps: &mut Steps<L>,
) -> Result<Vec<Found<'a>>, NoMemory>
    requires good { IsGood (store_of (R.kept rows.now)) }
    requires right { IsRight (R.kept rows.now) }
    requires knows { Knows (store_of (R.kept rows.now)) known.now }
    requires ready { IsReady (store_of (R.kept rows.now)) ready.now.timed.query.now ready.now }
    ensures { IfOk result (λ found.
        Lists (R.kept rows.now) ready.now.timed.query.now found.items) }
{
    let mut found = Vec::new(alloc);
    for view in &known.views {
        add_page(alloc, rows, known, ready, view, &mut found, steps)?;
    }
    Ok(found)
}

// The bookmarks of the page with the URL.
fn of_page<'a, R: Rows, L: Ledger>(
    alloc: Global,
    rows: &R,
    known: &'a Known,
    ready: &Ready<'_>,
    url: &str,
    steps: &mut Steps<L>,
) -> Result<Vec<Found<'a>>, NoMemory>
    requires good { IsGood (store_of (R.kept rows.now)) }
    requires right { IsRight (R.kept rows.now) }
    requires knows { Knows (store_of (R.kept rows.now)) known.now }
    requires ready { IsReady (store_of (R.kept rows.now)) ready.now.timed.query.now ready.now }
    requires url { ready.now.timed.query.now.uri ≡ Some url.now }
    ensures { IfOk result (λ found.
        Lists (R.kept rows.now) ready.now.timed.query.now found.items) }
{
    let mut found = Vec::new(alloc);
    let Some(view) = known.find(url) else {
        return Ok(found);
    };
    add_page(alloc, rows, known, ready, view, &mut found, steps)?;
    Ok(found)
}

// The item joins the bookmarks that are found, if it is listed.
fn add_child<'a, R: Rows, L: Ledger>(
    alloc: Global,
    rows: &R,
    known: &'a Known,
    ready: &Ready<'_>,
    item: ItemId,
    found: &mut Vec<Found<'a>>,
    steps: &mut Steps<L>,
) -> Result<(), NoMemory>
    requires item { has_item (R.kept rows.now).items item ≡ true }
    requires good { IsGood (store_of (R.kept rows.now)) }
    requires right { IsRight (R.kept rows.now) }
    requires knows { Knows (store_of (R.kept rows.now)) known.now }
    requires ready { IsReady (store_of (R.kept rows.now)) ready.now.timed.query.now ready.now }
    ensures added { let q = ready.now.timed.query.now
        in OnOk result (AreAdded (R.kept rows.now) q found.old.items found.new.items
        (child_rows (R.kept rows.now) q item)) }
    ensures views { OnOk result (HaveViews (R.kept rows.now) found.old.items
        → HaveViews (R.kept rows.now) found.new.items) }
{
    let Some(page) = item_row(rows, item, steps).page else {
        return Ok(());
    };
    let Some(view) = known.view(page) else {
        return Ok(());
    };
    if !holds(alloc, rows, known, ready, view, steps)? {
        return Ok(());
    }
    add_item(alloc, rows, known, ready, view, item, found, steps)
}

// The children of the folder that are listed join the bookmarks that are found.
fn add_folder<'a, R: Rows, L: Ledger>(
    alloc: Global,
    rows: &R,
    known: &'a Known,
    ready: &Ready<'_>,
    folder: ItemId,
    found: &mut Vec<Found<'a>>,
    steps: &mut Steps<L>,
) -> Result<(), NoMemory>
    requires good { IsGood (store_of (R.kept rows.now)) }
    requires right { IsRight (R.kept rows.now) }
    requires knows { Knows (store_of (R.kept rows.now)) known.now }
    requires ready { IsReady (store_of (R.kept rows.now)) ready.now.timed.query.now ready.now }
    ensures added { let q = ready.now.timed.query.now
        in OnOk result (AreAdded (R.kept rows.now) q found.old.items found.new.items
        (folder_rows (R.kept rows.now) q folder)) }
    ensures views { OnOk result (HaveViews (R.kept rows.now) found.old.items
        → HaveViews (R.kept rows.now) found.new.items) }
{
    let mut next = rows.first_child(folder, steps);
    while let Some(item) = next {
        add_child(alloc, rows, known, ready, item, found, steps)?;
        next = rows.next_sibling(item, steps);
    }
    Ok(())
}

// The bookmarks in the folders that are asked for.
fn in_folders<'a, R: Rows, L: Ledger>(
    alloc: Global,
    rows: &R,
    known: &'a Known,
    ready: &Ready<'_>,
    steps: &mut Steps<L>,
) -> Result<Vec<Found<'a>>, NoMemory>
    requires good { IsGood (store_of (R.kept rows.now)) }
    requires right { IsRight (R.kept rows.now) }
    requires knows { Knows (store_of (R.kept rows.now)) known.now }
    requires ready { IsReady (store_of (R.kept rows.now)) ready.now.timed.query.now ready.now }
    requires some { (length ready.now.timed.query.now.parents == 0) ≡ false }
    ensures { IfOk result (λ found.
        Lists (R.kept rows.now) ready.now.timed.query.now found.items) }
{
    let mut found = Vec::new(alloc);
    for folder in ready.timed.query.parents.as_slice() {
        add_folder(alloc, rows, known, ready, *folder, &mut found, steps)?;
    }
    Ok(found)
}

/// The bookmarks that the query lists, in no order.
pub fn bookmarks<'a, R: Rows, L: Ledger>(
    alloc: Global,
    rows: &R,
    known: &'a Known,
    ready: &Ready<'_>,
    steps: &mut Steps<L>,
) -> Result<Vec<Found<'a>>, NoMemory>
    requires good { IsGood (store_of (R.kept rows.now)) }
    requires right { IsRight (R.kept rows.now) }
    requires knows { Knows (store_of (R.kept rows.now)) known.now }
    requires ready { IsReady (store_of (R.kept rows.now)) ready.now.timed.query.now ready.now }
    ensures { IfOk result (λ found.
        Lists (R.kept rows.now) ready.now.timed.query.now found.items) }
{
    let query = ready.timed.query;
    if let Some(url) = &query.uri {
        return of_page(alloc, rows, known, ready, url.text(), steps);
    }
    if query.parents.as_slice().is_empty() {
        return of_all_pages(alloc, rows, known, ready, steps);
    }
    in_folders(alloc, rows, known, ready, steps)
}
