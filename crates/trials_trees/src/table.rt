//! The rows of a store with bookmarks and tags.

use ItemKind::{Bookmark, Folder, Separator};
use pl_base::{ItemKind, Transition};

/// A page by its id: whether its address was typed, its URL and its title.
pub type Page<'a> = (u32, bool, &'a str, &'a str);

/// A visit by its id: its page, its date, its transition, and the visit that it came from or 0.
pub type Visit = (u32, u32, u64, Transition, u32);

/// An item by its id: its kind, its page or 0, when it was added and modified, its title, and the
/// ids of its children.
pub type Item<'a> = (u32, ItemKind, u32, (u64, u64), &'a str, &'a [u32]);

/// The last microsecond of 9999.
pub const LAST: u64 = 253_402_300_799_999_999;

/// The next ids of pages, visits and items.
pub const NEXT: [u32; 3] = [6, 2, 30];

/// Five pages: the first has a typed visit and bookmarks; the second a bookmark, the third too, and
/// was typed once; the fourth a tag alone; the last is a query.
pub const PAGES: &[Page] = &[
    (1, true, "https://a.example/", ""),
    (2, false, "https://b.example/", ""),
    (3, true, "https://c.example/", ""),
    (4, false, "https://d.example/", ""),
    (5, false, "place:type=3", ""),
];

/// The one visit.
pub const VISITS: &[Visit] = &[(1, 1, 0, Transition::Typed, 0)];

/// In the menu a folder with a separator, a bookmark and a folder, and behind it a bookmark. Two
/// tags, which both have the first page.
pub const ITEMS: &[Item] = &[
    (1, Folder, 0, (0, 0), "", &[2, 3, 4, 5, 6]),
    (2, Folder, 0, (0, 0), "", &[7, 11]),
    (3, Folder, 0, (0, 0), "", &[]),
    (4, Folder, 0, (0, 0), "", &[12, 13]),
    (5, Folder, 0, (0, 0), "", &[14]),
    (6, Folder, 0, (0, 0), "", &[]),
    (7, Folder, 0, (3, 4), "F", &[9, 8, 10]),
    (8, Bookmark, 1, (5, 258), "A", &[]),
    (9, Separator, 0, (6, 6), "", &[]),
    (10, Folder, 0, (7, 7), " g, ", &[15]),
    (11, Bookmark, 2, (8, 1), "", &[]),
    (12, Folder, 0, (9, 9), "News", &[16]),
    (13, Folder, 0, (9, 9), "stra\u{df}e", &[17, 18]),
    (14, Bookmark, 3, (LAST, LAST), "B", &[]),
    (15, Bookmark, 5, (0, 0), "", &[]),
    (16, Bookmark, 1, (0, 0), "", &[]),
    (17, Bookmark, 1, (0, 0), "", &[]),
    (18, Bookmark, 4, (0, 0), "", &[]),
];
