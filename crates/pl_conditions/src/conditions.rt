// The conditions on a page, and on a bookmark.
ghost use Rattle.std.specs.Prelude.{◌≡◌, ◌&&◌, Some, true, IfOk};
ghost use Rattle.std.specs.List.{list_all};
ghost use Rattle.pl_base.specs.Good.{IsGood};
ghost use Rattle.pl_base.specs.Rows.{IsRight, KeptPage, has_page, page_at, store_of};
ghost use Rattle.pl_conditions.specs.Asked.{IsAsked};
ghost use Rattle.pl_conditions.specs.AskedParts as parts;
ghost use Rattle.pl_conditions.specs.Conditions as spec;
ghost use Rattle.pl_conditions.specs.Conditions.{has_word, is_uri, words_asked};

mod address;
mod parents;
mod tags;
mod visits;
mod words;

use crate::asked::Asked;
use address::is_url_asked;
pub use address::{is_host_in, is_uri};
pub use parents::is_in_parents;
use parents::{has_mark_asked, has_mark_in};
use pl_base::{NoMemory, PageId, Rows, Steps};
use pl_marks::canon_of;
use std::alloc::Global;
use std::sync::ledger::Ledger;
use tags::has_tags_asked;
pub use visits::is_count_asked;
use visits::{has_count_asked, has_transitions, is_listed};
use words::has_words;

/// Whether what is asked of a page holds, in a query of history and of bookmarks.
pub fn page_holds<R: Rows, L: Ledger>(
    alloc: Global,
    rows: &R,
    asked: &Asked<'_>,
    page: PageId,
    steps: &mut Steps<L>,
) -> Result<bool, NoMemory>
    requires page { has_page (R.kept rows.now) page ≡ true }
    requires good { IsGood (store_of (R.kept rows.now)) }
    requires right { IsRight (R.kept rows.now) }
    requires asked { IsAsked (store_of (R.kept rows.now)) asked.now.query.now asked.now }
    ensures { IfOk result (λ holds. (p : KeptPage) → page_at (R.kept rows.now) page ≡ Some p
        → holds ≡ spec.page_holds (store_of (R.kept rows.now)) asked.now.query.now p.page) }
{
    let query = asked.query;
    if !has_count_asked(rows, query, page, steps) {
        return Ok(false);
    }
    if !has_mark_asked(rows, query, page, steps) {
        return Ok(false);
    }
    if !has_tags_asked(alloc, rows, asked, page, steps)? {
        return Ok(false);
    }
    texts_hold(alloc, rows, asked, page, steps)
}

// Whether a condition is asked of the page's address, or of its texts.
fn asks_for_texts(asked: &Asked<'_>) -> bool
    ensures { result ≡ parts.asks_for_texts asked.now }
{
    let query = asked.query;
    query.exclude_queries
        || query.domain.is_some()
        || query.uri.is_some()
        || !asked.words.is_empty()
}

// Whether what is asked of the page's address and of its texts holds.
fn texts_hold<R: Rows, L: Ledger>(
    alloc: Global,
    rows: &R,
    asked: &Asked<'_>,
    page: PageId,
    steps: &mut Steps<L>,
) -> Result<bool, NoMemory>
    requires page { has_page (R.kept rows.now) page ≡ true }
    requires good { IsGood (store_of (R.kept rows.now)) }
    requires asked { IsAsked (store_of (R.kept rows.now)) asked.now.query.now asked.now }
    ensures { IfOk result (λ holds. (p : KeptPage) → page_at (R.kept rows.now) page ≡ Some p
        → holds ≡ (is_uri asked.now.query.now.uri p.page.url
        && parts.is_url_asked asked.now.query.now p.page.url
        && list_all (has_word (store_of (R.kept rows.now)) p.page)
        (words_asked asked.now.query.now.terms))) }
{
    if !asks_for_texts(asked) {
        return Ok(true);
    }
    let text = rows.url(page, steps)?;
    if !is_uri(&asked.query.uri, text.as_str()) {
        return Ok(false);
    }
    let url = canon_of(alloc, text.as_str())?;
    if !is_url_asked(asked.query, &url) {
        return Ok(false);
    }
    has_words(alloc, rows, asked, page, &url, steps)
}

/// Whether what is asked besides of a page holds too, in a query of history.
pub fn history_holds<R: Rows, L: Ledger>(
    alloc: Global,
    rows: &R,
    asked: &Asked<'_>,
    page: PageId,
    steps: &mut Steps<L>,
) -> Result<bool, NoMemory>
    requires page { has_page (R.kept rows.now) page ≡ true }
    requires good { IsGood (store_of (R.kept rows.now)) }
    requires right { IsRight (R.kept rows.now) }
    requires asked { IsAsked (store_of (R.kept rows.now)) asked.now.query.now asked.now }
    ensures { IfOk result (λ holds. (p : KeptPage) → page_at (R.kept rows.now) page ≡ Some p
        → holds ≡ spec.history_holds (store_of (R.kept rows.now)) asked.now.query.now p.page) }
{
    let query = asked.query;
    if !is_listed(rows, query, page, steps) {
        return Ok(false);
    }
    if !has_transitions(rows, query.transitions.as_slice(), page, steps) {
        return Ok(false);
    }
    if !has_mark_in(rows, asked, page, steps) {
        return Ok(false);
    }
    page_holds(alloc, rows, asked, page, steps)
}
