// The answer to a query.
ghost use Rattle.std.specs.Prelude.{◌≡◌, Some, true, is_some, map, IfOk};
ghost use Rattle.std.specs.List.{All};
ghost use Rattle.std.specs.Option.{option_map};
ghost use Rattle.pl_base.specs.Good.{IsGood};
ghost use Rattle.pl_base.specs.Rows.{IsRight, store_of};
ghost use Rattle.pl_known.specs.Known.{Knows};
ghost use Rattle.pl_place.specs.declared.kinds.QueryType.TheVariants.{Bookmarks};
ghost use Rattle.pl_query.specs.Order.{Row};
ghost use Rattle.pl_query.specs.QueryAnswer as spec;
ghost use Rattle.pl_query.specs.QueryAnswer.{limited, told_row};
ghost use Rattle.pl_query.specs.Subjects.{row_at};
ghost use Rattle.pl_marked.specs.declared.found.Found.{Found};
ghost use Rattle.pl_marked.specs.Found.{HaveViews, IsOwnView, subject_found};

use crate::found::{Found, put_in_order};
use crate::ready::Ready;
use crate::ways::bookmarks;
use pl_base::{NoMemory, Rows, Steps, Txt};
use pl_known::Known;
use pl_place::{Query, QueryType};
use pl_query::ResultRow;
use std::alloc::Global;
use std::sync::ledger::Ledger;

// The first of them, so many; all where the number is 0.
fn limit(found: &mut Vec<Found<'_>>, most: u32)
    ensures { found.new.items ≡ limited most found.old.items }
{
    if most != 0 {
        found.truncate(most as usize);
    }
}

// What is told of a bookmark.
fn result_row<R: Rows, L: Ledger>(
    alloc: Global,
    rows: &R,
    found: &Found<'_>,
    steps: &mut Steps<L>,
) -> Result<ResultRow, NoMemory>
    requires there { is_some (row_at (R.kept rows.now) (subject_found found.now)) ≡ true }
    requires view { IsOwnView (R.kept rows.now) found.now.view.now }
    ensures { IfOk result (λ told. (row : Row)
        → row_at (R.kept rows.now) (subject_found found.now) ≡ Some row
        → told ≡ told_row (store_of (R.kept rows.now)) row) }
{
    let view = found.view;
    let url = Txt::copied(alloc, view.url.as_str())?;
    let title = rows.item_title(found.item, steps)?;
    let tags = Txt::copied(alloc, view.tags.as_str())?;
    Ok(ResultRow {
        id: found.item.0,
        url,
        title,
        date: view.last,
        count: view.count,
        frecency: view.frecency,
        tags,
    })
}

// What is told of the bookmarks that are found.
fn result_rows<R: Rows, L: Ledger>(
    alloc: Global,
    rows: &R,
    found: &[Found<'_>],
    steps: &mut Steps<L>,
) -> Result<Vec<ResultRow>, NoMemory>
    requires there { All (λ (f : Found).
        is_some (row_at (R.kept rows.now) (subject_found f)) ≡ true) found.now }
    requires views { HaveViews (R.kept rows.now) found.now }
    ensures { IfOk result (λ told. map Some told.items ≡ map (λ (f : Found).
        option_map (told_row (store_of (R.kept rows.now)))
        (row_at (R.kept rows.now) (subject_found f))) found.now) }
{
    let mut told = Vec::with_capacity(alloc, found.len())?;
    for mark in found {
        told.push(result_row(alloc, rows, mark, steps)?)?;
    }
    Ok(told)
}

// The rows of the bookmarks that the query lists, in its order, so many as it asks for.
fn answer_bookmarks<R: Rows, L: Ledger>(
    alloc: Global,
    rows: &R,
    known: &Known,
    query: &Query,
    steps: &mut Steps<L>,
) -> Result<Vec<ResultRow>, NoMemory>
    requires good { IsGood (store_of (R.kept rows.now)) }
    requires right { IsRight (R.kept rows.now) }
    requires knows { Knows (store_of (R.kept rows.now)) known.now }
    requires bookmarks { query.now.query_type ≡ Bookmarks }
    ensures { IfOk result (λ answered. answered.items
        ≡ map (told_row (store_of (R.kept rows.now)))
        (spec.answer (store_of (R.kept rows.now)) query.now)) }
{
    let ready = Ready::of(alloc, rows, query, steps)?;
    let mut found = bookmarks(alloc, rows, known, &ready, steps)?;
    put_in_order(&mut found, query.sort);
    limit(&mut found, query.max_results);
    result_rows(alloc, rows, &found, steps)
}

/// The rows that answer a query, in its order, so many as it asks for, by what is known of the
/// store's pages.
///
/// Of bookmarks those rows are read that are children of the folders that the query names, or have
/// the page with the URL that it names, or else a page that the query takes.
pub fn answer<R: Rows, L: Ledger>(
    alloc: Global,
    rows: &R,
    known: &Known,
    query: &Query,
    steps: &mut Steps<L>,
) -> Result<Vec<ResultRow>, NoMemory>
    requires good { IsGood (store_of (R.kept rows.now)) }
    requires right { IsRight (R.kept rows.now) }
    requires knows { Knows (store_of (R.kept rows.now)) known.now }
    ensures { IfOk result (λ answered. answered.items
        ≡ map (told_row (store_of (R.kept rows.now)))
        (spec.answer (store_of (R.kept rows.now)) query.now)) }
{
    match query.query_type {
        QueryType::Bookmarks => answer_bookmarks(alloc, rows, known, query, steps),
        QueryType::History => pl_tagged::answer(alloc, rows, known, query, steps),
    }
}
