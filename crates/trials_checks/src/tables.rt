// The rows of a store by hand, as tables, and whether they are a good store's.
ghost use Rattle.std.specs.Prelude.{◌≡◌, map, true, IfOk};
ghost use Rattle.std.specs.List.{All};
ghost use Rattle.std.specs.List.Sorted.{IsStrictlyIncreasing};
ghost use Rattle.pl_base.specs.Good.{IsTitle};
ghost use Rattle.pl_base.specs.Store.{Item, item_id};
ghost use Rattle.pl_base.specs.Tree.{has_item};
ghost use Rattle.pl_check.specs.Readable.{AreReadable};
ghost use Rattle.pl_stored.specs.declared.stored.StoredPage.{StoredPage};
ghost use Rattle.pl_stored.specs.Fits.{IsUrl};

use pl_base::{Day, Ids, ItemId, LONGEST_TITLE, Micros, NoMemory, PageId, TreeItem, Txt, VisitId};
use pl_check::{References, are_good};
use pl_items::Items;
use pl_link::Canon;
use pl_stored::{StoredPage, StoredRows, StoredVisit};
use std::alloc::Global;
use std::test::Fail;
use trials_trees::{ITEMS, Item, NEXT, PAGES, Page, VISITS, Visit};

/// The day, the next ids of pages, visits and items, and the rows of each kind.
#[derive(Clone, Copy)]
pub struct Tables<'a> {
    pub day: u32,
    pub next: [u32; 3],
    pub pages: &'a [Page<'a>],
    pub visits: &'a [Visit],
    pub items: &'a [Item<'a>],
}

/// A store with bookmarks and tags.
pub const TREE: Tables = Tables {
    day: 0,
    next: NEXT,
    pages: PAGES,
    visits: VISITS,
    items: ITEMS,
};

/// Whether each row passes its tests, and the items are a tree.
pub fn is_taken(alloc: Global, tables: &Tables<'_>) -> Result<bool, Fail> {
    let rows = stored(alloc, tables)?;
    let references = References::of(alloc, &rows.items)?;
    if !are_good(alloc, &rows, &references)? {
        return Ok(false);
    }
    Ok(are_planted(alloc, rows)?)
}

fn are_planted(alloc: Global, rows: StoredRows) -> Result<bool, NoMemory>
    requires ascending { IsStrictlyIncreasing (map (λ (i : Item). i.id.0) rows.items) }
    requires root { has_item rows.items (item_id 1) ≡ true }
{
    let StoredRows {
        day: _day,
        ids: _ids,
        pages: _pages,
        visits: _visits,
        items,
    } = rows;
    let planted = Items::planted(alloc, items)?;
    Ok(planted.is_some())
}

/// The list with this row at a place, which comes behind the others where there is no such place.
pub fn replaced<T: Copy>(mut rows: Vec<T>, place: usize, row: T) -> Result<Vec<T>, NoMemory> {
    match rows.get_mut(place) {
        Some(old) => *old = row,
        None => rows.push(row)?,
    }
    Ok(rows)
}

pub fn longest_title(alloc: Global) -> Result<String, NoMemory> {
    let mut title = String::new(alloc);
    for _byte in 0..LONGEST_TITLE {
        title.push('x')?;
    }
    Ok(title)
}

// The rows as a file has them.
fn stored(alloc: Global, tables: &Tables<'_>) -> Result<StoredRows, Fail>
    ensures { IfOk result AreReadable }
{
    let [page, visit, item] = tables.next;
    Ok(StoredRows {
        day: Day(tables.day),
        ids: Ids { page, visit, item },
        pages: stored_pages(alloc, tables.pages)?,
        visits: stored_visits(alloc, tables.visits)?,
        items: stored_items(alloc, tables.items)?,
    })
}

fn stored_pages(alloc: Global, pages: &[Page<'_>]) -> Result<Vec<StoredPage>, Fail>
    ensures urls { IfOk result (λ rows. All (λ (p : StoredPage). IsUrl p.url) rows.items) }
    ensures titles { IfOk result (λ rows. All (λ (p : StoredPage). IsTitle p.title) rows.items) }
{
    let mut rows = Vec::new(alloc);
    for page in pages {
        rows.push(stored_page(alloc, page)?)?;
    }
    Ok(rows)
}

// A frecency is not looked at.
fn stored_page(alloc: Global, page: &Page<'_>) -> Result<StoredPage, Fail>
    ensures url { IfOk result (λ row. IsUrl row.url) }
    ensures title { IfOk result (λ row. IsTitle row.title) }
{
    let (id, typed, address, title) = *page;
    Ok(StoredPage {
        id: PageId(id),
        typed,
        frecency: 0,
        url: url_of(alloc, address)?,
        title: title_of(alloc, title)?,
    })
}

// The address, which is its own URL.
fn url_of(alloc: Global, address: &str) -> Result<Canon, Fail>
    ensures { IfOk result IsUrl }
{
    let url = Canon::read(alloc, address)?;
    if url.text() != address {
        return Err("an address that is not its own URL".into());
    }
    Ok(url)
}

fn title_of(alloc: Global, title: &str) -> Result<Txt, Fail>
    ensures { IfOk result IsTitle }
{
    if title.len() > LONGEST_TITLE {
        return Err("a title that is too long".into());
    }
    Ok(Txt::copied(alloc, title)?)
}

fn stored_visits(alloc: Global, visits: &[Visit]) -> Result<Vec<StoredVisit>, NoMemory> {
    let rows = visits.iter().map(|visit| stored_visit(visit));
    Ok(rows.collect(alloc)?)
}

fn stored_visit(visit: &Visit) -> StoredVisit {
    let (id, page, date, transition, source) = *visit;
    StoredVisit {
        id: VisitId(id),
        page: PageId(page),
        date: Micros(date),
        transition,
        source: (source > 0).then_some(VisitId(source)),
    }
}

fn stored_items(alloc: Global, items: &[Item<'_>]) -> Result<Vec<TreeItem>, Fail>
    ensures { IfOk result (λ rows. All (λ (i : Item). IsTitle i.title) rows.items) }
{
    let mut rows = Vec::new(alloc);
    for item in items {
        rows.push(stored_item(alloc, item)?)?;
    }
    Ok(rows)
}

fn stored_item(alloc: Global, item: &Item<'_>) -> Result<TreeItem, Fail>
    ensures { IfOk result (λ row. IsTitle row.title) }
{
    let (id, kind, page, (added, modified), title, children) = *item;
    Ok(TreeItem {
        id: ItemId(id),
        kind,
        title: title_of(alloc, title)?,
        page: (page > 0).then_some(PageId(page)),
        added: Micros(added),
        modified: Micros(modified),
        children: children.iter().map(|child| ItemId(*child)).collect(alloc)?,
    })
}
