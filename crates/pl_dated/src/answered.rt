// The answer to a query.
ghost use Rattle.std.specs.Prelude.{◌≡◌, map, true, IfOk};
ghost use Rattle.pl_base.specs.Good.{IsGood};
ghost use Rattle.pl_base.specs.Rows.{IsRight, store_of};
ghost use Rattle.pl_known.specs.Known.{Knows};
ghost use Rattle.pl_place.specs.declared.kinds.QueryType.TheVariants.{History};
ghost use Rattle.pl_place.specs.declared.kinds.ResultType.TheVariants.{Visits};
ghost use Rattle.pl_place.specs.declared.sort.Direction.TheVariants.{Descending};
ghost use Rattle.pl_place.specs.declared.sort.Sort.TheVariants.{By};
ghost use Rattle.pl_place.specs.declared.sort.SortKey.TheVariants.{Date};
ghost use Rattle.pl_query.specs.QueryAnswer as spec;
ghost use Rattle.pl_query.specs.QueryAnswer.{told_row};
ghost use Rattle.pl_dated.specs.declared.first.FoundVisit.{FoundVisit};
ghost use Rattle.pl_dated.specs.Latest.{seen};
ghost use Rattle.pl_dated.specs.Listed.{AsksForLatest, row_of_seen};

use crate::first::FoundVisit;
use crate::visits::first_visits;
use pl_base::{NoMemory, Rows, Steps, Txt};
use pl_conditions::Asked as Timed;
use pl_indexed::Asked;
use pl_known::Known;
use pl_place::{Direction, Query, QueryType, ResultType, Sort, SortKey};
use pl_query::ResultRow;
use std::alloc::Global;
use std::sync::ledger::Ledger;

// Whether visits of history are asked for.
fn lists_visits(query: &Query) -> bool
    ensures history { result ≡ true → query.now.query_type ≡ History }
    ensures visits { result ≡ true → query.now.result_type ≡ Visits }
{
    match query.query_type {
        QueryType::History => matches!(query.result_type, ResultType::Visits),
        QueryType::Bookmarks => false,
    }
}

fn is_latest_first(sort: Sort) -> bool
    ensures { result ≡ true → sort ≡ By Date Descending }
{
    match sort {
        Sort::By(SortKey::Date, Direction::Descending) => true,
        _ => false,
    }
}

// Whether the first visits are asked for, the latest first, of pages without regard to transitions
// and folders.
fn asks_for_latest(query: &Query) -> bool
    ensures { result ≡ true → AsksForLatest query.now }
{
    query.max_results != 0
        && query.transitions.as_slice().is_empty()
        && query.parents.as_slice().is_empty()
        && is_latest_first(query.sort)
        && lists_visits(query)
}

// What is told of a visit.
fn result_row(alloc: Global, found: &FoundVisit<'_>) -> Result<ResultRow, NoMemory>
    ensures { IfOk result (λ row. row ≡ row_of_seen (seen found.now)) }
{
    let view = found.view;
    Ok(ResultRow {
        id: found.visit.0,
        url: Txt::copied(alloc, view.url.as_str())?,
        title: Txt::copied(alloc, view.title.as_str())?,
        date: Some(found.date),
        count: view.count,
        frecency: view.frecency,
        tags: Txt::copied(alloc, view.tags.as_str())?,
    })
}

// What is told of the visits that are found.
fn result_rows(alloc: Global, found: &[FoundVisit<'_>]) -> Result<Vec<ResultRow>, NoMemory>
    ensures { IfOk result (λ rows. rows.items
        ≡ map (λ (f : FoundVisit). row_of_seen (seen f)) found.now) }
{
    let mut rows = Vec::with_capacity(alloc, found.len())?;
    for visit in found {
        rows.push(result_row(alloc, visit)?)?;
    }
    Ok(rows)
}

// The rows of the latest visits.
fn answer_latest<R: Rows, L: Ledger>(
    alloc: Global,
    rows: &R,
    known: &Known,
    query: &Query,
    steps: &mut Steps<L>,
) -> Result<Vec<ResultRow>, NoMemory>
    requires good { IsGood (store_of (R.kept rows.now)) }
    requires knows { Knows (store_of (R.kept rows.now)) known.now }
    requires latest { AsksForLatest query.now }
    ensures { IfOk result (λ answered. answered.items
        ≡ map (told_row (store_of (R.kept rows.now)))
        (spec.answer (store_of (R.kept rows.now)) query.now)) }
{
    let timed = Timed::of(alloc, rows, query, steps)?;
    let asked = Asked::of(alloc, query)?;
    let first = first_visits(alloc, rows, known, &timed, &asked, steps)?;
    result_rows(alloc, &first.into_found())
}

/// The rows that answer a query, in its order, so many as it asks for, by what is known of the
/// store's pages.
///
/// Of the latest visits so many rows are read as the answer has, but for those of pages that the
/// query doesn't take.
pub fn answer<R: Rows, L: Ledger>(
    alloc: Global,
    rows: &R,
    known: &Known,
    query: &Query,
    steps: &mut Steps<L>,
) -> Result<Vec<ResultRow>, NoMemory>
    requires good { IsGood (store_of (R.kept rows.now)) }
    requires right { IsRight (R.kept rows.now) }
    requires knows { Knows (store_of (R.kept rows.now)) known.now }
    ensures { IfOk result (λ answered. answered.items
        ≡ map (told_row (store_of (R.kept rows.now)))
        (spec.answer (store_of (R.kept rows.now)) query.now)) }
{
    if !asks_for_latest(query) {
        return pl_indexed::answer(alloc, rows, known, query, steps);
    }
    answer_latest(alloc, rows, known, query, steps)
}
