// The answer to a query.
ghost use Rattle.std.specs.Prelude.{◌≡◌, false, map, true, IfOk};
ghost use Rattle.pl_base.specs.Good.{IsGood};
ghost use Rattle.pl_base.specs.Rows.{IsRight, store_of};
ghost use Rattle.pl_known.specs.Known.{Knows};
ghost use Rattle.pl_query.specs.Decides as decided;
ghost use Rattle.pl_query.specs.QueryAnswer as spec;
ghost use Rattle.pl_query.specs.QueryAnswer.{told_row};
ghost use Rattle.pl_timed.specs.Timed.{AsksForTimed};

use crate::pages::pages_in_times;
use pl_base::{NoMemory, Rows, Steps};
use pl_conditions::Asked as Timed;
use pl_indexed::{Asked, rows_of};
use pl_known::Known;
use pl_place::{Query, QueryType, ResultType, Sort, SortKey};
use pl_query::ResultRow;
use std::alloc::Global;
use std::sync::ledger::Ledger;

// Whether pages of history are asked for.
fn lists_pages(query: &Query) -> bool
    ensures { result ≡ true
        → decided.asks_for_pages query.now.query_type query.now.result_type ≡ true }
{
    match query.query_type {
        QueryType::History => matches!(query.result_type, ResultType::Pages),
        QueryType::Bookmarks => false,
    }
}

// Whether rows stand by no date of bookmarks, which no view has.
fn is_by_view(sort: Sort) -> bool
    ensures { result ≡ true → decided.is_by_mark_date sort ≡ false }
{
    match sort {
        Sort::Unsorted => true,
        Sort::By(key, _) => !matches!(key, SortKey::Added | SortKey::Modified),
    }
}

// Whether pages are asked for by the times of their visits, without regard to transitions and
// folders.
fn asks_for_timed(query: &Query) -> bool
    ensures { result ≡ true → AsksForTimed query.now }
{
    (query.begin_time.is_some() || query.end_time.is_some())
        && query.transitions.as_slice().is_empty()
        && query.parents.as_slice().is_empty()
        && is_by_view(query.sort)
        && lists_pages(query)
}

// The rows of the pages with a visit within the times.
fn answer_timed<R: Rows, L: Ledger>(
    alloc: Global,
    rows: &R,
    known: &Known,
    query: &Query,
    steps: &mut Steps<L>,
) -> Result<Vec<ResultRow>, NoMemory>
    requires good { IsGood (store_of (R.kept rows.now)) }
    requires knows { Knows (store_of (R.kept rows.now)) known.now }
    requires timed { AsksForTimed query.now }
    ensures { IfOk result (λ answered. answered.items
        ≡ map (told_row (store_of (R.kept rows.now)))
        (spec.answer (store_of (R.kept rows.now)) query.now)) }
{
    let timed = Timed::of(alloc, rows, query, steps)?;
    let asked = Asked::of(alloc, query)?;
    let found = pages_in_times(alloc, rows, known, &timed, &asked, steps)?;
    rows_of(alloc, query, found)
}

/// The rows that answer a query, in its order, so many as it asks for, by what is known of the
/// store's pages.
///
/// Where pages are asked for by the times of their visits, no visit is read of those whose latest
/// one tells enough.
pub fn answer<R: Rows, L: Ledger>(
    alloc: Global,
    rows: &R,
    known: &Known,
    query: &Query,
    steps: &mut Steps<L>,
) -> Result<Vec<ResultRow>, NoMemory>
    requires good { IsGood (store_of (R.kept rows.now)) }
    requires right { IsRight (R.kept rows.now) }
    requires knows { Knows (store_of (R.kept rows.now)) known.now }
    ensures { IfOk result (λ answered. answered.items
        ≡ map (told_row (store_of (R.kept rows.now)))
        (spec.answer (store_of (R.kept rows.now)) query.now)) }
{
    if !asks_for_timed(query) {
        return pl_dated::answer(alloc, rows, known, query, steps);
    }
    answer_timed(alloc, rows, known, query, steps)
}
