// A small store with a row of every kind, and what each look-up answers on it, worked out by hand.
// In the tables 0 says none.
ghost use Rattle.std.specs.Prelude.{◌≡◌, ◌<◌};

use pl_base::ItemKind::{self, Bookmark, Folder, Separator};
use pl_base::Transition::{self, Link, RedirectPermanent, Typed};
use pl_base::{Day, Ids, ItemId, ItemRow, Mark, Micros, PageId, Rows, Steps, VisitId, VisitRow};
use pl_linked::Linked;
use pl_plain::Flat;
use pl_tree::Place;
use std::alloc::Global;
use std::marker::Brand;
use std::process::Abort;
use std::sync::ledger::{Blank, Ledger};
use std::test::Fail;
use trials_forms::{
    Address, Answer, Call, Draft, GoodRows, ItemLooks, PageLooks, Spot, VisitLooks, Words,
    item_looks, item_text, page_looks, page_texts, visit_looks,
};

// Makes page 1, its bookmark 7 in the menu, the tag folder 8, and the page's entry 9 there.
const FILE: &str = "<!DOCTYPE NETSCAPE-Bookmark-file-1>\n<DL><p>\n\
    <DT><A HREF=\"https://host9.example/9/\" TAGS=\"tag\">Nine</A>\n";

// Pages by their origin, their number, and how much longer their URL is: 2 and 3.
const NEW_PAGES: &[(u32, u32, u32)] = &[(1, 1, 0), (1, 2, 100)];

// Visits 1 to 5: the page, the date and the visit that they came from.
const NEW_VISITS: &[(u32, u64, Transition, u32)] = &[
    (2, 5, Link, 0),
    (2, 5, Typed, 0),
    (3, 3, Link, 1),
    (2, 9, RedirectPermanent, 1),
    (1, 5, Typed, 1),
];

// Items 10 to 14: the page, the parent, the place behind how many, the title's length, the date.
const NEW_ITEMS: &[(ItemKind, u32, u32, u32, u32, u64)] = &[
    (Folder, 2, 2, 0, 3, 1),
    (Folder, 2, 10, 0, 0, 2),
    (Bookmark, 3, 11, 0, 121, 3),
    (Bookmark, 3, 11, 0, 0, 4),
    (Separator, 2, 10, 0, 0, 5),
];

// A page by its id: the next one, its mark, its latest visit and its first item.
const PAGES: &[(u32, u32, Option<(i64, u32, bool, bool)>, u32, u32)] = &[
    (0, 1, None, 0, 0),
    (1, 2, Some((0, 0, false, false)), 5, 7),
    (2, 3, Some((100, 3, true, false)), 4, 0),
    (3, 0, Some((0, 0, false, false)), 3, 12),
    (4, 0, None, 0, 0),
    (u32::MAX, 0, None, 0, 0),
];

// The URL, the title, the total of the origin, and the first page of the same origin.
const TEXTS: &[(u32, &str, &str, u64, u32)] = &[
    (1, "https://host9.example/9/", "", 0, 1),
    (2, "https://host1.example/1/", "", 77, 2),
    (
        3,
        "https://host1.example/2/cdefghijklmnopqrstuvwxyzabcdefghijklmnopqrstuvwxyz\
        abcdefghijklmnopqrstuvwxyzabcdefghijklmnopqrstuvwx",
        "abcdefghijklmnopqrstuvwxyzabcd",
        77,
        2,
    ),
];

// A visit by its id: the page, the date and the source of its row; then the visit before it, the
// first that came from it, and the next that came from its source.
const VISITS: &[(u32, Option<(u32, u64, Transition, u32)>, u32, u32, u32)] = &[
    (0, None, 0, 0, 0),
    (1, Some((2, 5, Link, 0)), 0, 4, 0),
    (2, Some((2, 5, Typed, 0)), 1, 0, 0),
    (3, Some((3, 3, Link, 1)), 0, 0, 5),
    (4, Some((2, 9, RedirectPermanent, 1)), 2, 0, 3),
    (5, Some((1, 5, Typed, 1)), 0, 0, 0),
    (6, None, 0, 0, 0),
    (u32::MAX, None, 0, 0, 0),
];

// An item by its id: the parent, the page and both dates of its row; then its first child and its
// last, its next sibling, and the next item of its page.
const ITEMS: &[(u32, Option<(ItemKind, u32, u32, u64)>, u32, u32, u32, u32)] = &[
    (0, None, 0, 0, 0, 0),
    (1, Some((Folder, 0, 0, 0)), 2, 6, 0, 0),
    (2, Some((Folder, 1, 0, 0)), 10, 7, 3, 0),
    (3, Some((Folder, 1, 0, 0)), 0, 0, 4, 0),
    (4, Some((Folder, 1, 0, 0)), 8, 8, 5, 0),
    (5, Some((Folder, 1, 0, 0)), 0, 0, 6, 0),
    (6, Some((Folder, 1, 0, 0)), 0, 0, 0, 0),
    (7, Some((Bookmark, 2, 1, 0)), 0, 0, 0, 9),
    (8, Some((Folder, 4, 0, 0)), 9, 9, 0, 0),
    (9, Some((Bookmark, 8, 1, 0)), 0, 0, 0, 0),
    (10, Some((Folder, 2, 0, 1)), 14, 11, 7, 0),
    (11, Some((Folder, 10, 0, 2)), 13, 12, 0, 0),
    (12, Some((Bookmark, 11, 3, 3)), 0, 0, 0, 13),
    (13, Some((Bookmark, 11, 3, 4)), 0, 0, 12, 0),
    (14, Some((Separator, 10, 0, 5)), 0, 0, 11, 0),
    (15, None, 0, 0, 0, 0),
    (u32::MAX, None, 0, 0, 0, 0),
];

// The titles of items.
const TITLES: &[(u32, &str)] = &[
    (1, ""),
    (7, "Nine"),
    (8, "tag"),
    (9, ""),
    (10, "abc"),
    (14, ""),
];

// Origins 2, pages 3, visits 5 and items 14; the URLs take 1, 1 and 2, the title of page 3 takes 1,
// and the titles of items 7, 8, 10 and 12 take 1, 1, 1 and 2.
const LIVE: u64 = 2 + 3 + 5 + 14 + 1 + 1 + 2 + 1 + 1 + 1 + 1 + 2;

fn page(number: u32) -> Option<PageId> {
    if number == 0 {
        return None;
    }
    Some(PageId(number))
}

fn visit(number: u32) -> Option<VisitId> {
    if number == 0 {
        return None;
    }
    Some(VisitId(number))
}

fn item(number: u32) -> Option<ItemId> {
    if number == 0 {
        return None;
    }
    Some(ItemId(number))
}

fn visit_row(row: (u32, u64, Transition, u32)) -> VisitRow {
    VisitRow {
        page: PageId(row.0),
        date: Micros(row.1),
        transition: row.2,
        source: visit(row.3),
    }
}

fn item_row(row: (ItemKind, u32, u32, u64)) -> ItemRow {
    ItemRow {
        kind: row.0,
        parent: item(row.1),
        page: page(row.2),
        added: Micros(row.3),
        modified: Micros(row.3),
    }
}

fn mark(mark: (i64, u32, bool, bool)) -> Mark {
    Mark {
        frecency: mark.0,
        count: mark.1,
        typed: mark.2,
        hidden: mark.3,
    }
}

fn new_item(new: (ItemKind, u32, u32, u32, u32, u64)) -> Call {
    let spot = Spot {
        parent: ItemId(new.2),
        place: Place::Number(new.3),
        date: Micros(new.5),
    };
    Call::InsertItem(Draft {
        kind: new.0,
        page: PageId(new.1),
        title: Words {
            number: 0,
            length: new.4,
        },
        spot,
    })
}

// The rows after a call, whose conditions hold.
fn made<R: Rows + Drop, L: Ledger>(
    good: GoodRows<R>,
    call: Call,
    steps: &mut Steps<L>,
) -> Result<GoodRows<R>, Fail> {
    let (good, answer) = good.apply(call, steps)?;
    if answer == Answer::Passed {
        return Err("a call whose conditions don't hold".into());
    }
    Ok(good)
}

fn with_pages<R: Rows + Drop, L: Ledger>(
    good: GoodRows<R>,
    steps: &mut Steps<L>,
) -> Result<GoodRows<R>, Fail> {
    let mut good = good;
    for (origin, number, length) in NEW_PAGES {
        let address = Address {
            origin: *origin,
            number: *number,
            length: *length,
        };
        good = made(good, Call::InsertPage(address), steps)?;
    }
    let words = Words {
        number: 0,
        length: 30,
    };
    let good = made(good, Call::SetTitle(PageId(3), words), steps)?;
    let told = mark((100, 3, true, false));
    let good = made(good, Call::SetMark(PageId(2), told), steps)?;
    let good = made(good, Call::SetTotal(PageId(2), 77), steps)?;
    made(good, Call::SetDay(Day(20_000)), steps)
}

fn with_visits<R: Rows + Drop, L: Ledger>(
    good: GoodRows<R>,
    steps: &mut Steps<L>,
) -> Result<GoodRows<R>, Fail> {
    let mut good = good;
    for new in NEW_VISITS {
        good = made(good, Call::InsertVisit(visit_row(*new)), steps)?;
    }
    Ok(good)
}

fn with_items<R: Rows + Drop, L: Ledger>(
    good: GoodRows<R>,
    steps: &mut Steps<L>,
) -> Result<GoodRows<R>, Fail> {
    let mut good = good;
    for new in NEW_ITEMS {
        good = made(good, new_item(*new), steps)?;
    }
    Ok(good)
}

fn small<R: Rows + Drop, L: Ledger>(
    good: GoodRows<R>,
    steps: &mut Steps<L>,
) -> Result<GoodRows<R>, Fail> {
    let good = good.import(FILE, steps)?;
    let good = with_pages(good, steps)?;
    let good = with_visits(good, steps)?;
    with_items(good, steps)
}

fn check_pages<R: Rows, L: Ledger>(rt: &impl Abort, rows: &R, steps: &mut Steps<L>) {
    for (id, next, told, latest, reference) in PAGES {
        let looks = PageLooks {
            next: page(*next),
            mark: told.map(mark),
            latest: visit(*latest),
            reference: item(*reference),
        };
        assert_eq!(rt; page_looks(rows, PageId(*id), steps), looks);
    }
}

fn check_texts<R: Rows, L: Ledger>(
    rt: &impl Abort,
    rows: &R,
    steps: &mut Steps<L>,
) -> Result<(), Fail> {
    for (id, url, title, total, alike) in TEXTS {
        let texts = page_texts(rows, PageId(*id), steps)?;
        assert_eq!(rt; texts.url.as_str(), *url);
        assert_eq!(rt; texts.title.as_str(), *title);
        assert!(rt; texts.total == *total && texts.alike == page(*alike));
    }
    Ok(())
}

fn check_visits<R: Rows, L: Ledger>(rt: &impl Abort, rows: &R, steps: &mut Steps<L>) {
    for (id, row, older, target, next_target) in VISITS {
        let looks = VisitLooks {
            row: row.map(visit_row),
            older: visit(*older),
            target: visit(*target),
            next_target: visit(*next_target),
        };
        assert_eq!(rt; visit_looks(rows, VisitId(*id), steps), looks);
    }
}

fn check_items<R: Rows, L: Ledger>(rt: &impl Abort, rows: &R, steps: &mut Steps<L>) {
    for (id, row, first, last, sibling, reference) in ITEMS {
        let looks = ItemLooks {
            row: row.map(item_row),
            first: item(*first),
            last: item(*last),
            sibling: item(*sibling),
            reference: item(*reference),
        };
        assert_eq!(rt; item_looks(rows, ItemId(*id), steps), looks);
    }
}

fn check_titles<R: Rows, L: Ledger>(
    rt: &impl Abort,
    rows: &R,
    steps: &mut Steps<L>,
) -> Result<(), Fail> {
    for (id, title) in TITLES {
        let text = item_text(rows, ItemId(*id), steps)?;
        assert_eq!(rt; text.as_str(), *title);
    }
    Ok(())
}

fn check_whole<R: Rows, L: Ledger>(rt: &impl Abort, rows: &R, steps: &mut Steps<L>) {
    let ids = Ids {
        page: 4,
        visit: 6,
        item: 15,
    };
    assert_eq!(rt; rows.ids(steps), ids);
    assert_eq!(rt; rows.day(steps), Day(20_000));
    assert_eq!(rt; rows.live(steps), LIVE);
    assert_eq!(rt; rows.page_after(None, steps), Some(PageId(1)));
    assert_eq!(rt; (rows.visits(steps), rows.items(steps)), (5, 14));
}

fn check<R: Rows + Drop, L: Ledger>(
    rt: &impl Abort,
    good: GoodRows<R>,
    steps: &mut Steps<L>,
) -> Result<(), Fail> {
    let good = small(good, steps)?;
    check_pages(rt, &good.rows, steps);
    check_visits(rt, &good.rows, steps);
    check_items(rt, &good.rows, steps);
    check_whole(rt, &good.rows, steps);
    check_texts(rt, &good.rows, steps)?;
    check_titles(rt, &good.rows, steps)
}

fn run<L: Ledger>(rt: &impl Abort, alloc: Global, blank: Blank) -> Result<(), Fail>
    requires name { blank.name ≡ L.name }
    requires parts { blank.parts ≡ L.parts }
    requires some { 0 < blank.parts }
{
    let steps = &mut Steps::<L>::none(blank);
    check(rt, GoodRows::over(alloc, Linked::opening(alloc)?), steps)?;
    check(rt, GoodRows::over(alloc, Flat::opening(alloc)?), steps)
}

#[test]
fn each_look_up_on_a_store_of_every_kind_of_row(rt: HostRuntime) -> Result<(), Fail> {
    run::<Brand>(&rt, rt.alloc(), Blank::new(1))
}
