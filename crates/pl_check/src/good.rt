// Whether the rows of a file are those of a good store.
ghost use Rattle.std.specs.Prelude.{◌≡◌, List, map, nat_lt, true, IfOk};
ghost use Rattle.std.specs.List.{list_all};
ghost use Rattle.std.specs.List.Sorted.{IsStrictlyIncreasing};
ghost use Rattle.pl_base.specs.Good.{IsGood, IsTree};
ghost use Rattle.pl_base.specs.Store.{Item, item_id};
ghost use Rattle.pl_base.specs.Tree.{has_item};
ghost use Rattle.pl_check.specs.Items.{AreReferences, item_ids};
ghost use Rattle.pl_base.specs.Touched.{ascends_above};
ghost use Rattle.pl_check.specs.Readable.{AreReadable};
ghost use Rattle.pl_check.specs.RowIds.{AreRowIds};
ghost use Rattle.pl_check.specs.Rows as good;
ghost use Rattle.pl_check.specs.Tags.{targets};
ghost use Rattle.pl_check.specs.Visited.{AreVisited};
ghost use Rattle.pl_stored.specs.declared.stored.StoredPage.{StoredPage};
ghost use Rattle.pl_stored.specs.declared.stored.StoredVisit.{StoredVisit};
ghost use Rattle.pl_stored.specs.Stored.{Stored, stored_store};

use crate::distinct::{are_distinct_hashes, are_distinct_texts, hashes};
use crate::items::{are_item_ids, have_good_items};
use crate::references::References;
use crate::roots::have_roots;
use crate::row_ids::RowIds;
use crate::tags::have_good_tags;
use crate::visited::Visited;
use pl_base::{Day, Micros, NoMemory, VisitId};
use pl_stored::{StoredPage, StoredRows, StoredVisit};
use std::alloc::Global;

/// Whether they are the rows of a good store, if its items are a tree.
pub fn are_good(alloc: Global, rows: &StoredRows, references: &References) -> Result<bool, NoMemory>
    requires readable { AreReadable rows.now }
    requires references { AreReferences rows.now.items references.now }
    ensures good { IfOk result (λ pass. pass ≡ true
        → IsTree rows.now.items → IsGood (stored_store rows.now)) }
    ensures ascending { IfOk result (λ pass. pass ≡ true
        → IsStrictlyIncreasing (map (λ (i : Item). i.id.0) rows.now.items)) }
    ensures pages { IfOk result (λ pass. pass ≡ true
        → IsStrictlyIncreasing (good.stored_page_ids rows.now.pages)) }
    ensures visits { IfOk result (λ pass. pass ≡ true
        → IsStrictlyIncreasing (good.stored_visit_ids rows.now.visits)) }
    ensures root { IfOk result (λ pass. pass ≡ true → has_item rows.now.items (item_id 1) ≡ true) }
    ensures whole { IsGood (stored_store rows.now) → IfOk result (λ pass. pass ≡ true) }
{
    if !pass_tests(alloc, rows, references)? {
        return Ok(false);
    }
    have_good_tags(alloc, &rows.items)
}

// Whether they are, if its items are a tree with good tags.
fn pass_tests(alloc: Global, rows: &StoredRows, references: &References) -> Result<bool, NoMemory>
    requires { AreReferences rows.now.items references.now }
    ensures { IfOk result (λ pass. pass ≡ good.are_good rows.now) }
{
    if !have_good_ids(rows) {
        return Ok(false);
    }
    have_good_rows(alloc, rows, references)
}

fn have_good_ids(rows: &StoredRows) -> bool
    ensures { result ≡ good.have_good_ids rows.now }
{
    have_good_numbers(rows)
        && are_page_ids(&rows.pages, rows.ids.page)
        && are_visit_ids(&rows.visits, rows.ids.visit)
        && are_item_ids(&rows.items, rows.ids.item)
}

// Whether each row is good by itself, URLs stand once, and the roots are there.
fn have_good_rows(
    alloc: Global,
    rows: &StoredRows,
    references: &References,
) -> Result<bool, NoMemory>
    requires references { AreReferences rows.now.items references.now }
    requires items { IsStrictlyIncreasing (item_ids rows.now.items) }
    ensures { IfOk result (λ pass. pass ≡ good.have_good_rows rows.now) }
{
    if !have_own_urls(alloc, &rows.pages)? {
        return Ok(false);
    }
    let visited = Visited::of(alloc, &rows.visits)?;
    let ids = RowIds::of(alloc, &rows.pages, &rows.visits)?;
    Ok(
        have_good_pages(rows, &visited, references)
            && have_good_visits(rows, &ids)
            && have_good_items(rows, &ids)
            && have_roots(&rows.items),
    )
}

fn have_good_numbers(rows: &StoredRows) -> bool
    ensures { result ≡ good.are_good_numbers rows.now }
{
    rows.day.0 <= Day::LAST.0
        && rows.ids.page >= 1
        && rows.ids.visit >= 1
        && rows.ids.item >= FIRST_ITEM
}

fn have_good_pages(rows: &StoredRows, visited: &Visited, references: &References) -> bool
    requires visited { AreVisited rows.now.visits visited.now }
    requires references { AreReferences rows.now.items references.now }
    ensures { result ≡ list_all (good.is_good_page rows.now) rows.now.pages }
{
    rows.pages
        .iter()
        .all(|page| is_good_page(visited, references, page))
}

fn have_good_visits(rows: &StoredRows, ids: &RowIds) -> bool
    requires ids { AreRowIds rows.now.pages rows.now.visits ids.now }
    ensures { result ≡ list_all (good.is_good_visit rows.now) rows.now.visits }
{
    rows.visits.iter().all(|visit| is_good_visit(ids, visit))
}

fn are_page_ids(pages: &[StoredPage], next: u32) -> bool
    ensures { result ≡ good.are_ids next (good.stored_page_ids pages.now) }
{
    pages_ascend(pages) && pages_lie_below(pages, next)
}

fn pages_lie_below(pages: &[StoredPage], next: u32) -> bool
    ensures { result ≡ list_all (λ id. nat_lt id next) (good.stored_page_ids pages.now) }
{
    pages.iter().map(|page| page.id.0).all(|id| id < next)
}

fn pages_ascend(pages: &[StoredPage]) -> bool
    ensures { result ≡ ascends_above 0 (good.stored_page_ids pages.now) }
{
    let mut last = 0;
    for page in pages {
        if page.id.0 <= last {
            return false;
        }
        last = page.id.0;
    }
    true
}

fn are_visit_ids(visits: &[StoredVisit], next: u32) -> bool
    ensures { result ≡ good.are_ids next (good.stored_visit_ids visits.now) }
{
    visits_ascend(visits) && visits_lie_below(visits, next)
}

fn visits_lie_below(visits: &[StoredVisit], next: u32) -> bool
    ensures { result ≡ list_all (λ id. nat_lt id next) (good.stored_visit_ids visits.now) }
{
    visits.iter().map(|visit| visit.id.0).all(|id| id < next)
}

fn visits_ascend(visits: &[StoredVisit]) -> bool
    ensures { result ≡ ascends_above 0 (good.stored_visit_ids visits.now) }
{
    let mut last = 0;
    for visit in visits {
        if visit.id.0 <= last {
            return false;
        }
        last = visit.id.0;
    }
    true
}

fn have_own_urls(alloc: Global, pages: &[StoredPage]) -> Result<bool, NoMemory>
    ensures { IfOk result (λ own. own ≡ good.have_own_urls pages.now) }
{
    let urls = urls(alloc, pages)?;
    // Where no two hashes are the same, the URLs themselves need not be compared.
    if are_distinct_hashes(hashes(alloc, &urls)?) {
        return Ok(true);
    }
    Ok(are_distinct_texts(urls))
}

fn urls(alloc: Global, pages: &[StoredPage]) -> Result<Vec<&str>, NoMemory>
    ensures { IfOk result (λ urls. targets urls.items ≡ map (λ p. p.url) pages.now) }
{
    let urls = pages.iter().map(|page| page.url.text());
    Ok(urls.collect(alloc)?)
}

// Told the pages that visits have, and those that items have.
fn is_good_page(visited: &Visited, references: &References, page: &StoredPage) -> bool
    ensures { (rows : Stored) → AreVisited rows.visits visited.now
        → AreReferences rows.items references.now → result ≡ good.is_good_page rows page.now }
{
    (visited.has(page.id) || references.has(page.id)) && (page.typed || !visited.has_typed(page.id))
}

// Told the ids of the pages and the visits.
fn is_good_visit(ids: &RowIds, visit: &StoredVisit) -> bool
    ensures { (rows : Stored) → AreRowIds rows.pages rows.visits ids.now
        → result ≡ good.is_good_visit rows visit.now }
{
    visit.date.0 <= Micros::LAST.0
        && ids.has_page(visit.page)
        && is_good_source(ids, visit.id, visit.source)
}

// Whether the source of a visit, if there is one, is a visit with a smaller id.
fn is_good_source(ids: &RowIds, id: VisitId, source: Option<VisitId>) -> bool
    ensures { (pages : List StoredPage) (visits : List StoredVisit)
        → AreRowIds pages visits ids.now → result ≡ good.is_good_source visits id source }
{
    source.is_none_or(|source| source.0 < id.0 && ids.has_visit(source))
}

/// The first id of an item that is no root.
const FIRST_ITEM: u32 = 7;
