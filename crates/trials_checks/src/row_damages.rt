// Rows of pages and visits, and those that are no good store's.

use crate::tables::{TREE, Tables, is_taken, longest_title, replaced};
use Damage::{APage, AVisit, AnItem, Next, On};
use pl_base::ItemKind::{Bookmark, Folder};
use pl_base::Transition::{Link, RedirectPermanent, Typed};
use std::alloc::Global;
use std::process::Abort;
use std::test::Fail;
use trials_trees::{Item, Page, Visit};

// What is changed: the day, the next ids, or the row at a place of a list.
enum Damage {
    On(u32),
    Next([u32; 3]),
    APage(usize, Page<'static>),
    AVisit(usize, Visit),
    AnItem(usize, Item<'static>),
}

// What it is, and the damage.
type Damaged = (&'static str, Damage);

const A: &str = "https://a.example/";

const B: &str = "https://b.example/";

// Six folders, of which the first holds the others.
const ROOTS: &[Item] = &[
    (1, Folder, 0, (0, 0), "", &[2, 3, 4, 5, 6]),
    (2, Folder, 0, (0, 0), "", &[]),
    (3, Folder, 0, (0, 0), "", &[]),
    (4, Folder, 0, (0, 0), "", &[]),
    (5, Folder, 0, (0, 0), "", &[]),
    (6, Folder, 0, (0, 0), "", &[]),
];

// Two pages, of which the first was typed. A link and a typed visit of it, and between them a link
// of the second.
const PLAIN: Tables = Tables {
    day: 0,
    next: [3, 4, 7],
    pages: &[(1, true, A, ""), (2, false, B, "")],
    visits: &[(1, 1, 0, Link, 0), (2, 2, 0, Link, 0), (3, 1, 1, Typed, 0)],
    items: ROOTS,
};

const DAMAGES: &[Damaged] = &[
    ("a day after 9999", On(2_949_120)),
    ("the next id of pages", Next([2, 4, 7])),
    ("no next id of pages", Next([0, 4, 7])),
    ("the next id of visits", Next([3, 3, 7])),
    ("the next id of items", Next([3, 4, 6])),
    ("a page with id 0", APage(0, (0, true, A, ""))),
    ("an id of two pages", APage(0, (2, true, A, ""))),
    (
        "a typed visit of a page that is not typed",
        APage(0, (1, false, A, "")),
    ),
    ("a URL twice", APage(0, (1, true, B, ""))),
    (
        "an id that is not below the next one",
        APage(1, (3, false, B, "")),
    ),
    ("a visit with id 0", AVisit(0, (0, 1, 0, Link, 0))),
    ("a visit without its page", AVisit(0, (1, 3, 0, Link, 0))),
    ("its own source", AVisit(0, (1, 1, 0, Link, 1))),
    ("a date after 9999", AVisit(0, (1, 1, 4 << 56, Link, 0))),
    ("a page without a visit", AVisit(1, (2, 1, 0, Link, 0))),
    ("an id of two visits", AVisit(2, (2, 1, 1, Typed, 0))),
    (
        "a root that is a bookmark",
        AnItem(0, (1, Bookmark, 0, (0, 0), "", &[2, 3, 4, 5, 6])),
    ),
];

// A link to the first page, a redirect from it to the second, a link from it to the third, and a
// link to the fourth.
const REDIRECTED: Tables = Tables {
    day: 0,
    next: [5, 5, 7],
    pages: &[
        (1, false, A, "A"),
        (2, false, B, ""),
        (3, false, "http://a.example/", ""),
        (4, false, "https://a.example/x", ""),
    ],
    visits: &[
        (1, 1, 0, Link, 0),
        (2, 2, 1, RedirectPermanent, 1),
        (3, 3, 2, Link, 1),
        (4, 4, 3, Link, 0),
    ],
    items: ROOTS,
};

const SOURCES: &[Damaged] = &[
    ("a source of a later visit", AVisit(0, (1, 1, 0, Link, 4))),
    (
        "a visit that is its own source",
        AVisit(1, (2, 2, 1, RedirectPermanent, 2)),
    ),
    (
        "a source with a greater id",
        AVisit(1, (2, 2, 1, RedirectPermanent, 3)),
    ),
    (
        "a source that is no visit",
        AVisit(1, (2, 2, 1, RedirectPermanent, 9)),
    ),
];

// Of the store with bookmarks and tags.
const OF_ITEMS: &[Damaged] = &[
    ("the next id below that of an item", Next([6, 2, 18])),
    ("a next id of a root", Next([6, 2, 6])),
    (
        "a typed visit of a page that is not typed",
        APage(0, (1, false, A, "")),
    ),
];

// Whether the rows with this page at a place are taken.
fn is_page_taken<'a>(
    alloc: Global,
    good: &Tables<'a>,
    place: usize,
    page: Page<'a>,
) -> Result<bool, Fail> {
    let pages = replaced(Vec::from_slice(alloc, good.pages)?, place, page)?;
    is_taken(
        alloc,
        &Tables {
            pages: &pages,
            ..*good
        },
    )
}

// Whether the rows with the damage are taken.
fn is_damaged_taken(alloc: Global, good: &Tables<'_>, damage: &Damage) -> Result<bool, Fail> {
    match damage {
        On(day) => is_taken(alloc, &Tables { day: *day, ..*good }),
        Next(next) => is_taken(
            alloc,
            &Tables {
                next: *next,
                ..*good
            },
        ),
        APage(place, page) => is_page_taken(alloc, good, *place, *page),
        AVisit(place, visit) => {
            let visits = replaced(Vec::from_slice(alloc, good.visits)?, *place, *visit)?;
            is_taken(
                alloc,
                &Tables {
                    visits: &visits,
                    ..*good
                },
            )
        }
        AnItem(place, item) => {
            let items = replaced(Vec::from_slice(alloc, good.items)?, *place, *item)?;
            is_taken(
                alloc,
                &Tables {
                    items: &items,
                    ..*good
                },
            )
        }
    }
}

// The rows are taken, and with any of the damages they are not.
fn check_damages(
    rt: &impl Abort,
    alloc: Global,
    good: &Tables<'_>,
    damages: &[Damaged],
) -> Result<(), Fail> {
    assert!(rt; is_taken(alloc, good)?);
    for (what, damage) in damages {
        assert!(rt; !is_damaged_taken(alloc, good, damage)?, "{what}");
    }
    Ok(())
}

#[test]
fn refuses_each_damage(rt: HostRuntime) -> Result<(), Fail> {
    check_damages(&rt, rt.alloc(), &PLAIN, DAMAGES)
}

#[test]
fn refuses_damages_of_sources(rt: HostRuntime) -> Result<(), Fail> {
    check_damages(&rt, rt.alloc(), &REDIRECTED, SOURCES)
}

#[test]
fn refuses_damages_beside_items(rt: HostRuntime) -> Result<(), Fail> {
    check_damages(&rt, rt.alloc(), &TREE, OF_ITEMS)
}

#[test]
fn accepts_the_longest_title_of_a_page(rt: HostRuntime) -> Result<(), Fail> {
    let alloc = rt.alloc();
    let title = longest_title(alloc)?;
    let page = (1, false, A, title.as_str());
    assert!(rt; is_page_taken(alloc, &REDIRECTED, 0, page)?);
    Ok(())
}
