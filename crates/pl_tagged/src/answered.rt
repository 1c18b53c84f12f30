// The answer to a query.
ghost use Rattle.std.specs.Prelude.{◌≡◌, false, map, true, IfOk};
ghost use Rattle.std.specs.List.{Contains};
ghost use Rattle.pl_base.specs.Good.{IsGood};
ghost use Rattle.pl_base.specs.Rows.{IsRight, store_of};
ghost use Rattle.pl_known.specs.Known.{Knows};
ghost use Rattle.pl_query.specs.Decides as decided;
ghost use Rattle.pl_query.specs.QueryAnswer as spec;
ghost use Rattle.pl_query.specs.QueryAnswer.{told_row};

use crate::entries::tagged;
use pl_base::{NoMemory, Rows, Steps};
use pl_indexed::{Asked, rows_of};
use pl_known::Known;
use pl_place::Query;
use pl_query::{ResultRow, is_watchable};
use pl_words::TagName;
use std::alloc::Global;
use std::sync::ledger::Ledger;

// Whether views decide the query, and the pages of its answer have its tags. By its URL a page is
// found sooner.
fn asks_for_tagged(query: &Query) -> bool
    ensures watchable { result ≡ true → decided.is_watchable query.now ≡ true }
    ensures with_it { result ≡ true → query.now.not_tags ≡ false }
{
    !query.not_tags && query.uri.is_none() && is_watchable(query)
}

// The rows of the pages that have a tag.
fn answer_tagged<R: Rows, L: Ledger>(
    alloc: Global,
    rows: &R,
    known: &Known,
    query: &Query,
    tag: &TagName,
    steps: &mut Steps<L>,
) -> Result<Vec<ResultRow>, NoMemory>
    requires good { IsGood (store_of (R.kept rows.now)) }
    requires knows { Knows (store_of (R.kept rows.now)) known.now }
    requires watchable { decided.is_watchable query.now ≡ true }
    requires with_it { query.now.not_tags ≡ false }
    requires among { Contains query.now.tags tag.now }
    ensures { IfOk result (λ answered. answered.items
        ≡ map (told_row (store_of (R.kept rows.now)))
        (spec.answer (store_of (R.kept rows.now)) query.now)) }
{
    let asked = Asked::of(alloc, query)?;
    let found = tagged(alloc, rows, known, &asked, tag, steps)?;
    rows_of(alloc, query, found)
}

/// The rows that answer a query, in its order, so many as it asks for, by what is known of the
/// store's pages.
///
/// Where a tag is asked for, the tags are gone over once, and of the pages those that have it.
pub fn answer<R: Rows, L: Ledger>(
    alloc: Global,
    rows: &R,
    known: &Known,
    query: &Query,
    steps: &mut Steps<L>,
) -> Result<Vec<ResultRow>, NoMemory>
    requires good { IsGood (store_of (R.kept rows.now)) }
    requires right { IsRight (R.kept rows.now) }
    requires knows { Knows (store_of (R.kept rows.now)) known.now }
    ensures { IfOk result (λ answered. answered.items
        ≡ map (told_row (store_of (R.kept rows.now)))
        (spec.answer (store_of (R.kept rows.now)) query.now)) }
{
    if !asks_for_tagged(query) {
        return pl_timed::answer(alloc, rows, known, query, steps);
    }
    let Some(tag) = query.tags.as_slice().first() else {
        return pl_timed::answer(alloc, rows, known, query, steps);
    };
    answer_tagged(alloc, rows, known, query, tag, steps)
}
