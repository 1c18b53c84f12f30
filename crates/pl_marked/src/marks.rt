// The bookmarks of one page that a query lists.
ghost use Rattle.std.specs.Prelude.{◌≡◌, ◌∷◌, [], Some, true, IfOk, OnOk};
ghost use Rattle.std.specs.List.{filter};
ghost use Rattle.pl_base.specs.Good.{IsGood};
ghost use Rattle.pl_base.specs.Rows.{IsRight, KeptPage, page_at, store_of};
ghost use Rattle.pl_base.specs.Store.{Item};
ghost use Rattle.pl_base.specs.Tree.{has_item, is_page, item_at};
ghost use Rattle.pl_known.specs.Known.{Knows, view_of};
ghost use Rattle.pl_query.specs.Candidates.{wanted_marks};
ghost use Rattle.pl_marked.specs.Found.{AreAdded, HaveViews};
ghost use Rattle.pl_marked.specs.Listed.{view_rows};
ghost use Rattle.pl_marked.specs.Ready.{IsReady};

use crate::found::{Found, key_of};
use crate::ready::{Ready, holds, is_wanted};
use pl_base::{ItemId, NoMemory, Rows, Steps, View};
use pl_known::Known;
use std::alloc::Global;
use std::sync::ledger::Ledger;

/// The item of the view's page joins the bookmarks that are found, if it is wanted.
pub fn add_item<'a, R: Rows, L: Ledger>(
    alloc: Global,
    rows: &R,
    known: &Known,
    ready: &Ready<'_>,
    view: &'a View,
    item: ItemId,
    found: &mut Vec<Found<'a>>,
    steps: &mut Steps<L>,
) -> Result<(), NoMemory>
    requires item { has_item (R.kept rows.now).items item ≡ true }
    requires knows { Knows (store_of (R.kept rows.now)) known.now }
    requires ready { IsReady (store_of (R.kept rows.now)) ready.now.timed.query.now ready.now }
    requires view { view_of view.now.id known.now.views.items ≡ Some view.now }
    ensures added { let q = ready.now.timed.query.now
        in OnOk result ((p : KeptPage) (i : Item)
        → page_at (R.kept rows.now) view.now.id ≡ Some p
        → item_at (R.kept rows.now).items item ≡ Some i
        → AreAdded (R.kept rows.now) q found.old.items found.new.items
        (wanted_marks (R.kept rows.now) q p (i ∷ []))) }
    ensures views { OnOk result (HaveViews (R.kept rows.now) found.old.items
        → HaveViews (R.kept rows.now) found.new.items) }
{
    if !is_wanted(rows, &ready.timed, item, steps) {
        return Ok(());
    }
    let sort = ready.timed.query.sort;
    let key = key_of(alloc, rows, known, sort, view, item, steps)?;
    found.push(Found { view, item, key })?;
    Ok(())
}

// The wanted items of the view's page join the bookmarks that are found.
fn add_items<'a, R: Rows, L: Ledger>(
    alloc: Global,
    rows: &R,
    known: &Known,
    ready: &Ready<'_>,
    view: &'a View,
    found: &mut Vec<Found<'a>>,
    steps: &mut Steps<L>,
) -> Result<(), NoMemory>
    requires knows { Knows (store_of (R.kept rows.now)) known.now }
    requires ready { IsReady (store_of (R.kept rows.now)) ready.now.timed.query.now ready.now }
    requires view { view_of view.now.id known.now.views.items ≡ Some view.now }
    ensures added { let q = ready.now.timed.query.now
        in OnOk result ((p : KeptPage) → page_at (R.kept rows.now) view.now.id ≡ Some p
        → AreAdded (R.kept rows.now) q found.old.items found.new.items
        (wanted_marks (R.kept rows.now) q p
        (filter (λ (i : Item). is_page view.now.id i.page) (R.kept rows.now).items))) }
    ensures views { OnOk result (HaveViews (R.kept rows.now) found.old.items
        → HaveViews (R.kept rows.now) found.new.items) }
{
    let mut next = rows.first_reference(view.id, steps);
    while let Some(item) = next {
        add_item(alloc, rows, known, ready, view, item, found, steps)?;
        next = rows.next_reference(item, steps);
    }
    Ok(())
}

/// The bookmarks of the view's page that are listed join those that are found.
pub fn add_page<'a, R: Rows, L: Ledger>(
    alloc: Global,
    rows: &R,
    known: &Known,
    ready: &Ready<'_>,
    view: &'a View,
    found: &mut Vec<Found<'a>>,
    steps: &mut Steps<L>,
) -> Result<(), NoMemory>
    requires good { IsGood (store_of (R.kept rows.now)) }
    requires right { IsRight (R.kept rows.now) }
    requires knows { Knows (store_of (R.kept rows.now)) known.now }
    requires ready { IsReady (store_of (R.kept rows.now)) ready.now.timed.query.now ready.now }
    requires view { view_of view.now.id known.now.views.items ≡ Some view.now }
    ensures added { let q = ready.now.timed.query.now
        in OnOk result (AreAdded (R.kept rows.now) q found.old.items found.new.items
        (view_rows (R.kept rows.now) q view.now)) }
    ensures views { OnOk result (HaveViews (R.kept rows.now) found.old.items
        → HaveViews (R.kept rows.now) found.new.items) }
{
    if !view.bookmarked {
        return Ok(());
    }
    if !holds(alloc, rows, known, ready, view, steps)? {
        return Ok(());
    }
    add_items(alloc, rows, known, ready, view, found, steps)
}
