// What the look-ups of rows answer for an id.
use crate::asked::{has_item, has_page};
use pl_base::{ItemId, ItemRow, Mark, PageId, Rows, Slot, Steps, Txt, VisitId, VisitRow};
use std::sync::ledger::Ledger;
use std::test::Fail;

/// What is told of a page, whether it is there or not.
#[derive(Clone, Copy, Debug, PartialEq, Eq)]
pub struct PageLooks {
    pub next: Option<PageId>,
    pub mark: Option<Mark>,
    pub latest: Option<VisitId>,
    pub reference: Option<ItemId>,
}

/// What is told of a page that is there. Its origin is told by the first page that has it.
#[derive(Debug, PartialEq, Eq, Drop)]
pub struct PageTexts {
    pub url: Txt,
    pub title: Txt,
    pub total: u64,
    pub alike: Option<PageId>,
}

/// What is told of a visit.
#[derive(Clone, Copy, Debug, PartialEq, Eq)]
pub struct VisitLooks {
    pub row: Option<VisitRow>,
    pub older: Option<VisitId>,
    pub target: Option<VisitId>,
    pub next_target: Option<VisitId>,
}

/// What is told of an item.
#[derive(Clone, Copy, Debug, PartialEq, Eq)]
pub struct ItemLooks {
    pub row: Option<ItemRow>,
    pub first: Option<ItemId>,
    pub last: Option<ItemId>,
    pub sibling: Option<ItemId>,
    pub reference: Option<ItemId>,
}

pub fn page_looks<R: Rows, L: Ledger>(rows: &R, page: PageId, steps: &mut Steps<L>) -> PageLooks {
    PageLooks {
        next: rows.page_after(Some(page), steps),
        mark: rows.page_at(page, steps),
        latest: rows.latest(page, steps),
        reference: rows.first_reference(page, steps),
    }
}

pub fn visit_looks<R: Rows, L: Ledger>(
    rows: &R,
    visit: VisitId,
    steps: &mut Steps<L>,
) -> VisitLooks {
    VisitLooks {
        row: rows.visit_at(visit, steps),
        older: rows.older(visit, steps),
        target: rows.first_target(visit, steps),
        next_target: rows.next_target(visit, steps),
    }
}

pub fn item_looks<R: Rows, L: Ledger>(rows: &R, item: ItemId, steps: &mut Steps<L>) -> ItemLooks {
    ItemLooks {
        row: rows.item_at(item, steps),
        first: rows.first_child(item, steps),
        last: rows.last_child(item, steps),
        sibling: rows.next_sibling(item, steps),
        reference: rows.next_reference(item, steps),
    }
}

// The origin of a page, and its total.
fn origin<R: Rows, L: Ledger>(
    rows: &R,
    page: PageId,
    steps: &mut Steps<L>,
) -> Result<(Slot, u64), Fail> {
    if !has_page(rows, page, steps) {
        return Err("no page".into());
    }
    let origin = rows.origin_of(page, steps);
    let total = rows.origin_at(origin, steps).total;
    Ok((origin, total))
}

// The first page of an origin, among so many.
fn first_of<R: Rows, L: Ledger>(
    rows: &R,
    of: Slot,
    most: u32,
    steps: &mut Steps<L>,
) -> Result<Option<PageId>, Fail> {
    let mut next = rows.page_after(None, steps);
    for _ in 0..most {
        let Some(page) = next else {
            return Ok(None);
        };
        if origin(rows, page, steps)?.0 == of {
            return Ok(next);
        }
        next = rows.page_after(next, steps);
    }
    Ok(None)
}

// The URL and the title of a page.
fn texts<R: Rows, L: Ledger>(
    rows: &R,
    page: PageId,
    steps: &mut Steps<L>,
) -> Result<(Txt, Txt), Fail> {
    if !has_page(rows, page, steps) {
        return Err("no page".into());
    }
    let url = rows.url(page, steps)?;
    let title = rows.title(page, steps)?;
    Ok((url, title))
}

/// What is told of a page that is there.
pub fn page_texts<R: Rows, L: Ledger>(
    rows: &R,
    page: PageId,
    steps: &mut Steps<L>,
) -> Result<PageTexts, Fail> {
    let (origin, total) = origin(rows, page, steps)?;
    let most = rows.ids(steps).page;
    let alike = first_of(rows, origin, most, steps)?;
    let (url, title) = texts(rows, page, steps)?;
    Ok(PageTexts {
        url,
        title,
        total,
        alike,
    })
}

/// The title of an item that is there.
pub fn item_text<R: Rows, L: Ledger>(
    rows: &R,
    item: ItemId,
    steps: &mut Steps<L>,
) -> Result<Txt, Fail> {
    if !has_item(rows, item, steps) {
        return Err("no item".into());
    }
    Ok(rows.item_title(item, steps)?)
}
