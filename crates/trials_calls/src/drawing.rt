// The next call, drawn at random by what the rows have.
use crate::Chance;
use pl_base::{
    Day, ItemId, ItemKind, Mark, Micros, PageId, Rows, Steps, Transition, VisitId, VisitRow,
};
use pl_tree::Place;
use std::sync::ledger::Ledger;
use trials_forms::{Address, Call, Draft, Spot, Words, has_page, has_visit, is_idle};

/// Rows that have so many pages, visits and items get no more.
const MOST_PAGES: u32 = 100;

const MOST_VISITS: u32 = 300;

const MOST_ITEMS: u32 = 150;

// Whether there are so many pages.
fn has_pages<R: Rows, L: Ledger>(rows: &R, count: u32, steps: &mut Steps<L>) -> bool {
    let mut page = None;
    for _ in 0..count {
        page = rows.page_after(page, steps);
        if page.is_none() {
            return false;
        }
    }
    true
}

// A page, if there is one.
fn any_page<R: Rows, L: Ledger>(chance: &mut Chance, rows: &R, steps: &mut Steps<L>) -> PageId {
    let before = PageId(chance.below(rows.ids(steps).page));
    rows.page_after(Some(before), steps).unwrap_or(before)
}

// A page that nothing keeps, if there is one behind the one that is drawn.
fn idle_page<R: Rows, L: Ledger>(chance: &mut Chance, rows: &R, steps: &mut Steps<L>) -> PageId {
    let next = rows.ids(steps).page;
    let first = chance.below(next);
    for page in (first..next).map(PageId) {
        if has_page(rows, page, steps) && is_idle(rows, page, steps) {
            return page;
        }
    }
    PageId(first)
}

fn any_visit<R: Rows, L: Ledger>(chance: &mut Chance, rows: &R, steps: &mut Steps<L>) -> VisitId {
    let next = rows.ids(steps).visit;
    let first = chance.below(next);
    for visit in (first..next).map(VisitId) {
        if has_visit(rows, visit, steps) {
            return visit;
        }
    }
    VisitId(first)
}

// An item, or only a folder.
fn any_item<R: Rows, L: Ledger>(
    chance: &mut Chance,
    rows: &R,
    folder: bool,
    steps: &mut Steps<L>,
) -> ItemId {
    let next = rows.ids(steps).item;
    let first = chance.below(next);
    for item in (first..next).map(ItemId) {
        match rows.item_at(item, steps) {
            Some(row) if !folder || row.kind == ItemKind::Folder => return item,
            _ => {}
        }
    }
    ItemId(chance.below(7))
}

fn date(chance: &mut Chance) -> Micros {
    Micros(u64::from(chance.below(500)))
}

// A title of up to 4,096 bytes, which is mostly short.
fn words(chance: &mut Chance) -> Words {
    let most = if chance.once_in(4) { 4_097 } else { 150 };
    Words {
        number: chance.below(1_000),
        length: chance.below(most),
    }
}

// A URL of a few that are drawn again and again; some origins are rare.
fn address(chance: &mut Chance) -> Address {
    let most = chance.below(20);
    Address {
        origin: chance.below(most),
        number: chance.below(25),
        length: if chance.once_in(2) { 0 } else { 250 },
    }
}

fn spot<R: Rows, L: Ledger>(chance: &mut Chance, rows: &R, steps: &mut Steps<L>) -> Spot {
    let place = if chance.once_in(2) {
        Place::End
    } else {
        Place::Number(chance.below(6))
    };
    Spot {
        parent: any_item(chance, rows, true, steps),
        place,
        date: date(chance),
    }
}

fn kind(chance: &mut Chance) -> ItemKind {
    match chance.below(6) {
        0 => ItemKind::Separator,
        1 | 2 => ItemKind::Folder,
        _ => ItemKind::Bookmark,
    }
}

fn mark(chance: &mut Chance) -> Mark {
    Mark {
        frecency: i64::from(chance.below(1_000_000)) - 500_000,
        count: chance.below(1_000),
        typed: chance.once_in(2),
        hidden: chance.once_in(2),
    }
}

fn visit_row<R: Rows, L: Ledger>(chance: &mut Chance, rows: &R, steps: &mut Steps<L>) -> VisitRow {
    let number = u64::from(chance.below(10));
    let source = if chance.once_in(3) {
        None
    } else {
        Some(any_visit(chance, rows, steps))
    };
    VisitRow {
        page: any_page(chance, rows, steps),
        date: date(chance),
        transition: Transition::from_number(number).unwrap_or(Transition::RedirectPermanent),
        source,
    }
}

fn draw_page<R: Rows, L: Ledger>(chance: &mut Chance, rows: &R, steps: &mut Steps<L>) -> Call {
    if chance.once_in(2) || has_pages(rows, MOST_PAGES, steps) {
        Call::RemovePage(idle_page(chance, rows, steps))
    } else {
        Call::InsertPage(address(chance))
    }
}

fn draw_visit<R: Rows, L: Ledger>(chance: &mut Chance, rows: &R, steps: &mut Steps<L>) -> Call {
    if chance.once_in(3) || rows.visits(steps) >= MOST_VISITS {
        Call::RemoveVisit(any_visit(chance, rows, steps))
    } else {
        Call::InsertVisit(visit_row(chance, rows, steps))
    }
}

fn draw_item<R: Rows, L: Ledger>(chance: &mut Chance, rows: &R, steps: &mut Steps<L>) -> Call {
    if chance.once_in(4) || rows.items(steps) >= MOST_ITEMS {
        return Call::RemoveItem(any_item(chance, rows, false, steps));
    }
    Call::InsertItem(Draft {
        kind: kind(chance),
        page: any_page(chance, rows, steps),
        title: words(chance),
        spot: spot(chance, rows, steps),
    })
}

// A change of an item that stays.
fn draw_change<R: Rows, L: Ledger>(chance: &mut Chance, rows: &R, steps: &mut Steps<L>) -> Call {
    let item = any_item(chance, rows, false, steps);
    match chance.below(3) {
        0 => Call::MoveItem(item, spot(chance, rows, steps)),
        1 => Call::SetItem(item, words(chance), date(chance)),
        _ => Call::SetModified(item, date(chance)),
    }
}

/// The next call.
pub fn draw<R: Rows, L: Ledger>(chance: &mut Chance, rows: &R, steps: &mut Steps<L>) -> Call {
    match chance.below(16) {
        0 => Call::SetDay(Day(chance.below(40_000))),
        1 => Call::SetTitle(any_page(chance, rows, steps), words(chance)),
        2 => Call::SetMark(any_page(chance, rows, steps), mark(chance)),
        3 => Call::SetTotal(
            any_page(chance, rows, steps),
            u64::from(chance.below(u32::MAX)),
        ),
        4..=6 => draw_page(chance, rows, steps),
        7..=9 => draw_visit(chance, rows, steps),
        10..=12 => draw_item(chance, rows, steps),
        _ => draw_change(chance, rows, steps),
    }
}
