// A query that is made ready, and whether its conditions hold of a page and of a bookmark.
ghost use Rattle.std.specs.Prelude.{◌≡◌, ◌&&◌, ◌||◌, Some, is_some, not, true, IfOk};
ghost use Rattle.pl_base.specs.Good.{IsGood};
ghost use Rattle.pl_base.specs.Rows.{IsRight, KeptPage, page_at, store_of};
ghost use Rattle.pl_base.specs.Store.{Item};
ghost use Rattle.pl_base.specs.Tree.{has_item, item_at};
ghost use Rattle.pl_conditions.specs.Asked.{IsAsked as IsTimed};
ghost use Rattle.pl_conditions.specs.Conditions as conditions;
ghost use Rattle.pl_known.specs.Known.{Knows, view_of};
ghost use Rattle.pl_query.specs.Candidates as candidates;
ghost use Rattle.pl_marked.specs.Ready.{IsReady};

use crate::items::item_row;
use pl_base::{ItemId, NoMemory, Rows, Steps, View};
use pl_conditions::{Asked as Timed, is_in_parents, page_holds};
use pl_indexed::{Asked, decides};
use pl_known::Known;
use pl_marks::tag_folder;
use pl_place::Query;
use std::alloc::Global;
use std::sync::ledger::Ledger;

/// A query that is made ready for rows and for views.
#[derive(Drop)]
pub struct Ready<'a> {
    pub timed: Timed<'a>,
    pub asked: Asked<'a>,
}

impl<'a> Ready<'a> {
    pub fn of<R: Rows, L: Ledger>(
        alloc: Global,
        rows: &R,
        query: &'a Query,
        steps: &mut Steps<L>,
    ) -> Result<Ready<'a>, NoMemory>
        ensures { IfOk result (IsReady (store_of (R.kept rows.now)) query.now) }
    {
        let timed = Timed::of(alloc, rows, query, steps)?;
        let asked = Asked::of(alloc, query)?;
        Ok(Ready { timed, asked })
    }
}

// Whether a query of history may show the page.
fn is_shown(query: &Query, view: &View) -> bool
    ensures { result ≡ (is_some view.now.last
        && (query.now.include_hidden || not view.now.hidden)) }
{
    view.last.is_some() && (query.include_hidden || !view.hidden)
}

/// Whether what is asked of a page holds, whose view is one of those that are known.
///
/// The view decides it, but for a page that no query of history shows: that is asked by its rows.
pub fn holds<R: Rows, L: Ledger>(
    alloc: Global,
    rows: &R,
    known: &Known,
    ready: &Ready<'_>,
    view: &View,
    steps: &mut Steps<L>,
) -> Result<bool, NoMemory>
    requires good { IsGood (store_of (R.kept rows.now)) }
    requires right { IsRight (R.kept rows.now) }
    requires knows { Knows (store_of (R.kept rows.now)) known.now }
    requires ready { IsReady (store_of (R.kept rows.now)) ready.now.timed.query.now ready.now }
    requires view { view_of view.now.id known.now.views.items ≡ Some view.now }
    ensures { IfOk result (λ holds. (p : KeptPage) → page_at (R.kept rows.now) view.now.id ≡ Some p
        → holds ≡ conditions.page_holds (store_of (R.kept rows.now))
        ready.now.timed.query.now p.page) }
{
    if is_shown(ready.timed.query, view) {
        return decides(alloc, known, &ready.asked, view);
    }
    page_holds(alloc, rows, &ready.timed, view.id, steps)
}

/// Whether the item is a bookmark that was added within the times, and is in one of the folders.
pub fn is_wanted<R: Rows, L: Ledger>(
    rows: &R,
    timed: &Timed<'_>,
    item: ItemId,
    steps: &mut Steps<L>,
) -> bool
    requires item { has_item (R.kept rows.now).items item ≡ true }
    requires timed { IsTimed (store_of (R.kept rows.now)) timed.now.query.now timed.now }
    ensures { (i : Item) → item_at (R.kept rows.now).items item ≡ Some i
        → result ≡ candidates.is_wanted (store_of (R.kept rows.now)) timed.now.query.now i }
{
    if tag_folder(rows, item, steps).is_some() {
        return false;
    }
    let added = item_row(rows, item, steps).added;
    timed.is_in_times(added) && is_in_parents(rows, timed, item, steps)
}
