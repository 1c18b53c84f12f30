// Whether the views of pages decide a query, and which views it takes.
ghost use Rattle.std.specs.Prelude.{◌≡◌, IfOk, nat_eq, true};
ghost use Rattle.std.specs.List.{starts_with};
ghost use Rattle.pl_query.specs.Decides as spec;

mod tags;
mod unfolded;
mod words;

use pl_base::{NoMemory, View};
use pl_place::{Query, QueryType, ResultType, Sort, SortKey};
use std::alloc::Global;
use tags::has_tags_asked;
pub use tags::has_tags_in;
pub use unfolded::holds_unfolded;
use words::has_words_asked;

/// Whether the views of pages decide the query: it asks for pages of history, has no condition on
/// the dates of visits, on their transitions or on folders, and no order by dates of bookmarks.
pub fn is_watchable(query: &Query) -> bool
    ensures { result ≡ spec.is_watchable query.now }
{
    asks_for_pages(query.query_type, query.result_type)
        && query.begin_time.is_none()
        && query.end_time.is_none()
        && query.transitions.as_slice().is_empty()
        && query.parents.as_slice().is_empty()
        && !is_by_mark_date(query.sort)
}

// Whether pages of history are asked for.
fn asks_for_pages(query_type: QueryType, result_type: ResultType) -> bool
    ensures { result ≡ spec.asks_for_pages query_type result_type }
{
    match query_type {
        QueryType::History => matches!(result_type, ResultType::Pages),
        QueryType::Bookmarks => false,
    }
}

// Whether rows stand by a date of bookmarks.
fn is_by_mark_date(sort: Sort) -> bool
    ensures { result ≡ spec.is_by_mark_date sort }
{
    match sort {
        Sort::Unsorted => false,
        Sort::By(key, _) => matches!(key, SortKey::Added | SortKey::Modified),
    }
}

/// Whether the query takes the view: each of its conditions holds, as far as a view tells. That is
/// so of the pages in its answer, if the query is watchable.
pub fn decides(alloc: Global, query: &Query, view: &View) -> Result<bool, NoMemory>
    requires prefix { starts_with nat_eq view.now.url view.now.prefix ≡ true }
    ensures { IfOk result (λ taken. taken ≡ spec.decides query.now view.now) }
{
    if !holds_unfolded(query, view) {
        return Ok(false);
    }
    if !has_tags_asked(alloc, query, view)? {
        return Ok(false);
    }
    has_words_asked(alloc, query, view)
}
