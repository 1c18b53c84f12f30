// Rows of a store over vectors: pages with a redirect, its source and a link with the same source,
// and what is added to them.
ghost use Rattle.std.specs.Prelude.{◌≡◌, ◌<◌};

use pl_base::{Day, Mark, Micros, PageId, Rows, Slot, Steps, Transition, VisitId, VisitRow};
use pl_link::Canon;
use pl_plain::Flat;
use std::alloc::Global;
use std::marker::Brand;
use std::process::Abort;
use std::sync::ledger::{Blank, Ledger};
use std::test::Fail;
use trials_trees::{add_page, add_visit};

// Each page with its URL, its title, the name of its origin, its frecency, and whether it is
// hidden. Each has one visit that counts.
const PAGES: &[(u32, &str, &str, u32, i64, bool)] = &[
    (1, "https://a.example/", "A", 1, 25, true),
    (2, "https://b.example/", "", 2, 100, false),
    (3, "http://a.example/", "", 3, 100, false),
    (4, "https://a.example/x", "", 1, 100, false),
];

// The page of each visit, its date, its transition and its source: a link to the first page, a
// redirect from it to the second, a link from it to the third, and a link to the fourth.
const VISITS: &[(u32, u8, Transition, Option<VisitId>)] = &[
    (1, 0, Transition::Link, None),
    (2, 1, Transition::RedirectPermanent, Some(VisitId(1))),
    (3, 2, Transition::Link, Some(VisitId(1))),
    (4, 3, Transition::Link, None),
];

// The dates of links to page 4, beside its first one at the date 3, and then its visits with the
// latest first.
const DATES: &[u8] = &[0, 7, 3, 7, 1, 2, 9, 4, 8, 6, 5, 3];

const LATEST_FIRST: &[u32] = &[11, 13, 8, 6, 14, 15, 12, 16, 7, 4, 10, 9, 5];

// What no page and no visit has as its id.
const ABSENT: &[u32] = &[0, 19, 4_294_967_295];

// Visits 6 and 7 came from 5, and 5 and 8 from 4. What is left of all where 5 and 1 go, of which 2
// and 3 came: each visit with its page, its date, its transition and its source.
const LEFT: &[(u32, u32, u8, Transition, Option<VisitId>)] = &[
    (2, 2, 1, Transition::RedirectPermanent, None),
    (3, 3, 2, Transition::Link, None),
    (4, 4, 3, Transition::Link, None),
    (6, 4, 9, Transition::RedirectTemporary, None),
    (7, 4, 9, Transition::Link, None),
    (8, 4, 9, Transition::Link, Some(VisitId(4))),
];

fn add_link<L: Ledger>(
    flat: &mut Flat,
    page: PageId,
    date: u8,
    steps: &mut Steps<L>,
) -> Result<VisitId, Fail> {
    let row = VisitRow {
        page,
        date: Micros(u64::from(date)),
        transition: Transition::Link,
        source: None,
    };
    add_visit(flat, &row, steps)
}

// A visit to page 4 that came from this one.
fn add_target<L: Ledger>(
    flat: &mut Flat,
    source: VisitId,
    transition: Transition,
    steps: &mut Steps<L>,
) -> Result<VisitId, Fail> {
    let row = VisitRow {
        page: PageId(4),
        date: Micros(9),
        transition,
        source: Some(source),
    };
    add_visit(flat, &row, steps)
}

// What is kept of a page.
fn mark_of(frecency: i64, hidden: bool) -> Mark {
    Mark {
        frecency,
        count: 1,
        typed: false,
        hidden,
    }
}

fn add_pages<L: Ledger>(
    rt: &impl Abort,
    alloc: Global,
    flat: &mut Flat,
    steps: &mut Steps<L>,
) -> Result<(), Fail> {
    for (id, url, title, _, frecency, hidden) in PAGES {
        let page = add_page(alloc, flat, url, steps)?;
        assert_eq!(rt; page, PageId(*id));
        set_title(rt, flat, page, title, steps)?;
        set_mark(flat, page, mark_of(*frecency, *hidden), steps)?;
    }
    Ok(())
}

fn add_visits<L: Ledger>(flat: &mut Flat, steps: &mut Steps<L>) -> Result<(), Fail> {
    for (page, date, transition, source) in VISITS {
        let row = VisitRow {
            page: PageId(*page),
            date: Micros(u64::from(*date)),
            transition: *transition,
            source: *source,
        };
        add_visit(flat, &row, steps)?;
    }
    Ok(())
}

// The pages and the visits.
fn redirected<L: Ledger>(
    rt: &impl Abort,
    alloc: Global,
    steps: &mut Steps<L>,
) -> Result<Flat, Fail> {
    let mut flat = Flat::opening(alloc)?;
    add_pages(rt, alloc, &mut flat, steps)?;
    add_visits(&mut flat, steps)?;
    Ok(flat)
}

fn check_texts<L: Ledger>(
    rt: &impl Abort,
    flat: &Flat,
    page: PageId,
    texts: (&str, &str),
    steps: &mut Steps<L>,
) -> Result<(), Fail> {
    flat.page_at(page, steps).ok_or("no page")?;
    let (url, title) = (flat.url(page, steps)?, flat.title(page, steps)?);
    assert_eq!(rt; url.as_str(), texts.0);
    assert_eq!(rt; title.as_str(), texts.1);
    Ok(())
}

fn check_origin<L: Ledger>(
    rt: &impl Abort,
    flat: &Flat,
    page: PageId,
    origin: u32,
    steps: &mut Steps<L>,
) -> Result<(), Fail> {
    flat.page_at(page, steps).ok_or("no page")?;
    assert_eq!(rt; flat.origin_of(page, steps), Slot(origin));
    Ok(())
}

fn check_order<L: Ledger>(
    rt: &impl Abort,
    flat: &Flat,
    page: PageId,
    order: &[u32],
    steps: &mut Steps<L>,
) {
    let mut next = flat.latest(page, steps);
    for id in order {
        let visit = VisitId(*id);
        assert_eq!(rt; next, Some(visit));
        next = flat.older(visit, steps);
    }
    assert_eq!(rt; next, None);
}

fn check_absent<L: Ledger>(rt: &impl Abort, flat: &Flat, steps: &mut Steps<L>) {
    for id in ABSENT {
        assert_eq!(rt; flat.latest(PageId(*id), steps), None);
        assert_eq!(rt; flat.older(VisitId(*id), steps), None);
    }
}

fn check_targets<L: Ledger>(
    rt: &impl Abort,
    flat: &Flat,
    source: u32,
    targets: &[u32],
    steps: &mut Steps<L>,
) {
    let mut next = flat.first_target(VisitId(source), steps);
    for id in targets {
        let visit = VisitId(*id);
        assert_eq!(rt; next, Some(visit));
        next = flat.next_target(visit, steps);
    }
    assert_eq!(rt; next, None);
}

// No page changes, since there are none.
fn check_touched<L: Ledger>(
    rt: &impl Abort,
    flat: &mut Flat,
    steps: &mut Steps<L>,
) -> Result<(), Fail> {
    let change = flat.touched(steps)?;
    assert_eq!(rt;
        (change.before(), change.after(), change.count()),
        (1, 1, 0)
    );
    Ok(())
}

fn check_pages<L: Ledger>(rt: &impl Abort, flat: &Flat, steps: &mut Steps<L>) -> Result<(), Fail> {
    for (id, url, title, origin, frecency, hidden) in PAGES {
        let page = PageId(*id);
        assert!(rt; flat.page_at(page, steps) == Some(mark_of(*frecency, *hidden)));
        check_texts(rt, flat, page, (*url, *title), steps)?;
        check_origin(rt, flat, page, *origin, steps)?;
    }
    Ok(())
}

fn set_title<L: Ledger>(
    rt: &impl Abort,
    flat: &mut Flat,
    page: PageId,
    title: &str,
    steps: &mut Steps<L>,
) -> Result<(), Fail> {
    flat.page_at(page, steps).ok_or("no page")?;
    assert!(rt; title.len() < 100);
    assert!(rt; flat.live(steps) < 4_000_000);
    flat.set_title(page, title, steps)?;
    Ok(())
}

fn set_mark<L: Ledger>(
    flat: &mut Flat,
    page: PageId,
    mark: Mark,
    steps: &mut Steps<L>,
) -> Result<(), Fail> {
    flat.page_at(page, steps).ok_or("no page")?;
    flat.set_mark(page, mark, steps);
    Ok(())
}

fn mark_first<L: Ledger>(
    rt: &impl Abort,
    flat: &mut Flat,
    steps: &mut Steps<L>,
) -> Result<(), Fail> {
    let old = flat.page_at(PageId(1), steps).ok_or("no page")?;
    let mark = Mark { count: 3, ..old };
    set_mark(flat, PageId(1), mark, steps)?;
    assert!(rt; flat.page_at(PageId(1), steps) == Some(mark));
    Ok(())
}

// 6 items, 3 origins, 4 pages with a slot for each URL and one for a title, and the visits.
fn add_rows<L: Ledger>(rt: &impl Abort, flat: &mut Flat, steps: &mut Steps<L>) -> Result<(), Fail> {
    assert_eq!(rt; (flat.live(steps), flat.visits(steps)), (22, 4));
    for date in DATES {
        add_link(flat, PageId(4), *date, steps)?;
    }
    assert_eq!(rt; flat.visits(steps), 16);
    check_order(rt, flat, PageId(4), LATEST_FIRST, steps);
    add_target(flat, VisitId(4), Transition::Link, steps)?;
    check_targets(rt, flat, 4, &[17], steps);
    add_target(flat, VisitId(4), Transition::RedirectTemporary, steps)?;
    check_targets(rt, flat, 4, &[18, 17], steps);
    assert_eq!(rt; flat.visits(steps), 18);
    check_absent(rt, flat, steps);
    set_title(rt, flat, PageId(2), "B", steps)?;
    check_texts(rt, flat, PageId(2), ("https://b.example/", "B"), steps)?;
    assert_eq!(rt; flat.live(steps), 37);
    set_title(rt, flat, PageId(2), "", steps)?;
    assert_eq!(rt; flat.live(steps), 36);
    Ok(())
}

// Visits 5 to 8.
fn add_chain<L: Ledger>(
    rt: &impl Abort,
    flat: &mut Flat,
    steps: &mut Steps<L>,
) -> Result<(), Fail> {
    add_target(flat, VisitId(4), Transition::Link, steps)?;
    add_target(flat, VisitId(5), Transition::RedirectTemporary, steps)?;
    add_target(flat, VisitId(5), Transition::Link, steps)?;
    add_target(flat, VisitId(4), Transition::Link, steps)?;
    check_targets(rt, flat, 4, &[5, 8], steps);
    check_targets(rt, flat, 5, &[6, 7], steps);
    check_order(rt, flat, PageId(4), &[8, 7, 6, 5, 4], steps);
    assert_eq!(rt; (flat.live(steps), flat.visits(steps)), (26, 8));
    Ok(())
}

fn remove_visit<L: Ledger>(
    rt: &impl Abort,
    flat: &mut Flat,
    visit: VisitId,
    steps: &mut Steps<L>,
) -> Result<(), Fail> {
    flat.visit_at(visit, steps).ok_or("no visit")?;
    flat.remove_visit(visit, steps);
    assert!(rt; flat.visit_at(visit, steps).is_none());
    Ok(())
}

fn check_left<L: Ledger>(rt: &impl Abort, flat: &Flat, steps: &mut Steps<L>) {
    for (id, page, date, transition, source) in LEFT {
        let row = VisitRow {
            page: PageId(*page),
            date: Micros(u64::from(*date)),
            transition: *transition,
            source: *source,
        };
        assert!(rt; flat.visit_at(VisitId(*id), steps) == Some(row));
    }
}

// The middle one of a chain goes, which had two targets, and then the one visit of a page.
fn remove_visits<L: Ledger>(
    rt: &impl Abort,
    flat: &mut Flat,
    steps: &mut Steps<L>,
) -> Result<(), Fail> {
    remove_visit(rt, flat, VisitId(5), steps)?;
    check_targets(rt, flat, 4, &[8], steps);
    check_targets(rt, flat, 5, &[], steps);
    check_targets(rt, flat, 1, &[2, 3], steps);
    check_order(rt, flat, PageId(4), &[8, 7, 6, 4], steps);
    assert_eq!(rt; flat.older(VisitId(5), steps), None);
    assert_eq!(rt; (flat.live(steps), flat.visits(steps)), (25, 7));
    remove_visit(rt, flat, VisitId(1), steps)?;
    check_targets(rt, flat, 1, &[], steps);
    check_order(rt, flat, PageId(1), &[], steps);
    check_order(rt, flat, PageId(2), &[2], steps);
    assert_eq!(rt; (flat.live(steps), flat.visits(steps)), (24, 6));
    assert_eq!(rt; flat.ids(steps).visit, 9);
    check_left(rt, flat, steps);
    Ok(())
}

fn leave_visits<L: Ledger>(rt: &impl Abort, alloc: Global, blank: Blank) -> Result<(), Fail>
    requires name { blank.name ≡ L.name }
    requires parts { blank.parts ≡ L.parts }
    requires some { 0 < blank.parts }
{
    let steps = &mut Steps::<L>::none(blank);
    let mut flat = redirected(rt, alloc, steps)?;
    add_chain(rt, &mut flat, steps)?;
    remove_visits(rt, &mut flat, steps)?;
    check_touched(rt, &mut flat, steps)
}

fn keep_rows<L: Ledger>(rt: &impl Abort, alloc: Global, blank: Blank) -> Result<(), Fail>
    requires name { blank.name ≡ L.name }
    requires parts { blank.parts ≡ L.parts }
    requires some { 0 < blank.parts }
{
    let steps = &mut Steps::<L>::none(blank);
    let mut flat = redirected(rt, alloc, steps)?;
    check_pages(rt, &flat, steps)?;
    check_targets(rt, &flat, 1, &[2, 3], steps);
    check_targets(rt, &flat, 3, &[], steps);
    assert_eq!(rt; flat.page_after(Some(PageId(2)), steps), Some(PageId(3)));
    add_rows(rt, &mut flat, steps)?;
    mark_first(rt, &mut flat, steps)?;
    flat.set_day(Day(20_000), steps);
    assert_eq!(rt; flat.day(steps), Day(20_000));
    check_touched(rt, &mut flat, steps)
}

// A page that is the first one, and so in a new origin.
fn first_page<L: Ledger>(rt: &impl Abort, alloc: Global, blank: Blank) -> Result<(), Fail>
    requires name { blank.name ≡ L.name }
    requires parts { blank.parts ≡ L.parts }
    requires some { 0 < blank.parts }
{
    let steps = &mut Steps::<L>::none(blank);
    let mut flat = Flat::opening(alloc)?;
    let url = Canon::read(alloc, "https://a.example/")?;
    let page = flat.insert_page(url.text(), None, steps)?;
    assert_eq!(rt; page, PageId(1));
    check_texts(rt, &flat, page, ("https://a.example/", ""), steps)?;
    assert_eq!(rt; flat.live(steps), 9);
    assert_eq!(rt; (flat.visits(steps), flat.items(steps)), (0, 6));
    check_touched(rt, &mut flat, steps)
}

#[test]
fn keeps_rows(rt: HostRuntime) -> Result<(), Fail> {
    keep_rows::<Brand>(&rt, rt.alloc(), Blank::new(1))
}

#[test]
fn removes_visits(rt: HostRuntime) -> Result<(), Fail> {
    leave_visits::<Brand>(&rt, rt.alloc(), Blank::new(1))
}

#[test]
fn inserts_a_page(rt: HostRuntime) -> Result<(), Fail> {
    first_page::<Brand>(&rt, rt.alloc(), Blank::new(1))
}
