// The answer to a query.
ghost use Rattle.std.specs.Prelude.{◌≡◌, ◌≢◌, List, map, IfOk};
ghost use Rattle.std.specs.List.{AllPairs};
ghost use Rattle.pl_base.specs.declared.view.View.{View};
ghost use Rattle.pl_base.specs.Good.{IsGood};
ghost use Rattle.pl_base.specs.Rows.{IsRight, store_of};
ghost use Rattle.pl_known.specs.Known.{AreFollowed, Knows};
ghost use Rattle.pl_query.specs.QueryAnswer as spec;
ghost use Rattle.pl_query.specs.QueryAnswer.{limited, told_row};
ghost use Rattle.pl_indexed.specs.Answer.{first_asked, row_of_view, taken};
ghost use Rattle.pl_indexed.specs.Found.{AreFound};
ghost use Rattle.pl_indexed.specs.declared.found.Found.{Found};

use crate::asked::Asked;
use crate::found::{Found, put_in_order};
use crate::ways::candidates;
use pl_base::{NoMemory, Rows, Steps, Txt, View};
use pl_known::Known;
use pl_place::Query;
use pl_query::{ResultRow, is_watchable};
use std::alloc::Global;
use std::sync::ledger::Ledger;

// The first of them, so many; all where the number is 0.
fn limit(found: &mut Vec<Found<'_>>, most: u32)
    ensures { found.new.items ≡ limited most found.old.items }
{
    if most != 0 {
        found.truncate(most as usize);
    }
}

// What is told of a view.
fn result_row(alloc: Global, view: &View) -> Result<ResultRow, NoMemory>
    ensures { IfOk result (λ row. row ≡ row_of_view view.now) }
{
    Ok(ResultRow {
        id: view.id.0,
        url: Txt::copied(alloc, view.url.as_str())?,
        title: Txt::copied(alloc, view.title.as_str())?,
        date: view.last,
        count: view.count,
        frecency: view.frecency,
        tags: Txt::copied(alloc, view.tags.as_str())?,
    })
}

// What is told of the pages that are found.
fn result_rows(alloc: Global, found: &[Found<'_>]) -> Result<Vec<ResultRow>, NoMemory>
    ensures { IfOk result (λ rows. rows.items
        ≡ map (λ (f : Found). row_of_view f.view.now) found.now) }
{
    let mut rows = Vec::with_capacity(alloc, found.len())?;
    for page in found {
        rows.push(result_row(alloc, page.view)?)?;
    }
    Ok(rows)
}

/// What is told of pages that are found, in the order of a query, of so many as it asks for.
pub fn rows_of(
    alloc: Global,
    query: &Query,
    mut found: Vec<Found<'_>>,
) -> Result<Vec<ResultRow>, NoMemory>
    requires { AllPairs (λ (a b : Found). a.view.now.id.0 ≢ b.view.now.id.0) found.items }
    ensures { IfOk result (λ rows. (views : List View)
        → AreFound query.now.sort views found.entry.items
        → rows.items ≡ map row_of_view (first_asked query.now views)) }
{
    put_in_order(&mut found, query.sort);
    limit(&mut found, query.max_results);
    result_rows(alloc, &found)
}

// The rows of the views that the query takes, in its order, so many as it asks for.
fn answer_by_views(alloc: Global, known: &Known, query: &Query) -> Result<Vec<ResultRow>, NoMemory>
    requires { AreFollowed known.now }
    ensures { IfOk result (λ rows. rows.items ≡ map row_of_view
        (first_asked query.now (taken query.now known.now.views.items))) }
{
    let asked = Asked::of(alloc, query)?;
    let found = candidates(alloc, known, &asked)?;
    rows_of(alloc, query, found)
}

/// The rows that answer a query, in its order, so many as it asks for, by what is known of the
/// store's pages.
///
/// Rows are read for a query alone that the views of pages do not decide.
pub fn answer<R: Rows, L: Ledger>(
    alloc: Global,
    rows: &R,
    known: &Known,
    query: &Query,
    steps: &mut Steps<L>,
) -> Result<Vec<ResultRow>, NoMemory>
    requires good { IsGood (store_of (R.kept rows.now)) }
    requires right { IsRight (R.kept rows.now) }
    requires knows { Knows (store_of (R.kept rows.now)) known.now }
    ensures { IfOk result (λ answered. answered.items
        ≡ map (told_row (store_of (R.kept rows.now)))
        (spec.answer (store_of (R.kept rows.now)) query.now)) }
{
    if !is_watchable(query) {
        return pl_query::answer(alloc, rows, query, steps);
    }
    answer_by_views(alloc, known, query)
}
