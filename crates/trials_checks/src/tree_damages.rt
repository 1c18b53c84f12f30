// Rows with bookmarks and tags, and those that are no good store's.

use crate::tables::{TREE, Tables, is_taken, longest_title, replaced};
use ItemKind::{Bookmark, Folder, Separator};
use pl_base::ItemKind;
use std::alloc::Global;
use std::process::Abort;
use std::test::Fail;
use trials_trees::{Item, LAST};

// What is changed, and the items that stand at these places of the list in the place of its own.
// One at the end of the list is added.
type Change = (&'static str, &'static [(usize, Item<'static>)]);

// Both dates of an item, where they do not matter.
const DATES: (u64, u64) = (1, 1);

// The dates of the roots.
const NONE: (u64, u64) = (0, 0);

const BEYOND: u64 = LAST + 1;

// 100 bytes, and one byte more.
const LONGEST_TAG: &str = "xxxxxxxxxxxxxxxxxxxxxxxxxxxxxxxxxxxxxxxxxxxxxxxxxx\
    xxxxxxxxxxxxxxxxxxxxxxxxxxxxxxxxxxxxxxxxxxxxxxxxxx";

const LONGER_TAG: &str = "xxxxxxxxxxxxxxxxxxxxxxxxxxxxxxxxxxxxxxxxxxxxxxxxxxx\
    xxxxxxxxxxxxxxxxxxxxxxxxxxxxxxxxxxxxxxxxxxxxxxxxxx";

const ACCEPTED: &[Change] = &[
    ("the items as they are", &[]),
    (
        "a folder without a child",
        &[
            (4, (5, Folder, 0, NONE, "", &[])),
            (6, (7, Folder, 0, DATES, "F", &[9, 8, 10, 14])),
        ],
    ),
    (
        "a page twice in a folder",
        &[
            (4, (5, Folder, 0, NONE, "", &[14, 19])),
            (18, (19, Bookmark, 3, DATES, "", &[])),
        ],
    ),
    (
        "children in another order",
        &[(1, (2, Folder, 0, NONE, "", &[11, 7]))],
    ),
    (
        "tags in another order",
        &[(3, (4, Folder, 0, NONE, "", &[13, 12]))],
    ),
    (
        "ids with a gap",
        &[
            (4, (5, Folder, 0, NONE, "", &[14, 29])),
            (18, (29, Separator, 0, DATES, "", &[])),
        ],
    ),
    (
        "a separator with a title",
        &[(8, (9, Separator, 0, DATES, "x", &[]))],
    ),
    (
        "a tag of 100 bytes",
        &[(11, (12, Folder, 0, DATES, LONGEST_TAG, &[16]))],
    ),
    (
        "a tag with a blank within",
        &[(11, (12, Folder, 0, DATES, "new s", &[16]))],
    ),
    (
        "a tag whose fold is not that of another",
        &[(11, (12, Folder, 0, DATES, "strase", &[16]))],
    ),
];

// Items that are no tree.
const NO_TREES: &[Change] = &[
    (
        "its own parent",
        &[
            (6, (7, Folder, 0, DATES, "F", &[9, 8])),
            (9, (10, Folder, 0, DATES, "", &[15, 10])),
        ],
    ),
    (
        "its own parent, and another's child",
        &[(9, (10, Folder, 0, DATES, "", &[15, 10]))],
    ),
    (
        "two items in a ring",
        &[
            (1, (2, Folder, 0, NONE, "", &[11])),
            (9, (10, Folder, 0, DATES, "", &[15, 7])),
        ],
    ),
    (
        "a child in two folders",
        &[(9, (10, Folder, 0, DATES, "", &[15, 8]))],
    ),
    (
        "a child twice in a folder",
        &[(6, (7, Folder, 0, DATES, "F", &[9, 8, 10, 8]))],
    ),
    (
        "a child twice, side by side",
        &[(6, (7, Folder, 0, DATES, "F", &[9, 9, 8, 10]))],
    ),
    ("nobody's child", &[(1, (2, Folder, 0, NONE, "", &[7]))]),
    (
        "a folder that is nobody's child",
        &[(1, (2, Folder, 0, NONE, "", &[11]))],
    ),
    (
        "a child that is no item",
        &[(1, (2, Folder, 0, NONE, "", &[7, 11, 29]))],
    ),
    ("a child 0", &[(1, (2, Folder, 0, NONE, "", &[7, 11, 0]))]),
    (
        "a child that is a root",
        &[(1, (2, Folder, 0, NONE, "", &[7, 11, 6]))],
    ),
    (
        "a child that is item 1",
        &[(1, (2, Folder, 0, NONE, "", &[7, 11, 1]))],
    ),
];

// An item that is not good.
const BAD_ITEMS: &[Change] = &[
    (
        "a bookmark without a page",
        &[(7, (8, Bookmark, 0, DATES, "A", &[]))],
    ),
    (
        "a folder with a page",
        &[(9, (10, Folder, 1, DATES, "", &[15]))],
    ),
    (
        "a separator with a page",
        &[(8, (9, Separator, 1, DATES, "", &[]))],
    ),
    (
        "a separator with a child",
        &[
            (6, (7, Folder, 0, DATES, "F", &[9, 10])),
            (8, (9, Separator, 0, DATES, "", &[8])),
        ],
    ),
    (
        "a bookmark with a child",
        &[
            (6, (7, Folder, 0, DATES, "F", &[8, 10])),
            (7, (8, Bookmark, 1, DATES, "A", &[9])),
        ],
    ),
    (
        "a page that is not there",
        &[(7, (8, Bookmark, 6, DATES, "A", &[]))],
    ),
    (
        "a page that nothing has",
        &[(14, (15, Bookmark, 1, DATES, "", &[]))],
    ),
    (
        "added after 9999",
        &[(8, (9, Separator, 0, (BEYOND, 0), "", &[]))],
    ),
    (
        "modified after 9999",
        &[(8, (9, Separator, 0, (0, BEYOND), "", &[]))],
    ),
];

// Ids that do not ascend, or are none.
const BAD_IDS: &[Change] = &[
    (
        "an id 0",
        &[(0, (0, Folder, 0, NONE, "", &[2, 3, 4, 5, 6]))],
    ),
    (
        "ids that fall",
        &[
            (7, (9, Separator, 0, DATES, "", &[])),
            (8, (8, Bookmark, 1, DATES, "A", &[])),
        ],
    ),
    (
        "an id of two items",
        &[(18, (18, Bookmark, 4, DATES, "", &[]))],
    ),
    (
        "the next id",
        &[
            (1, (2, Folder, 0, NONE, "", &[7, 11, 30])),
            (18, (30, Separator, 0, DATES, "", &[])),
        ],
    ),
];

// Roots that do not stand as at first.
const BAD_ROOTS: &[Change] = &[
    (
        "a root that was added late",
        &[(2, (3, Folder, 0, (1, 0), "", &[]))],
    ),
    (
        "a root that was modified",
        &[(0, (1, Folder, 0, (0, 1), "", &[2, 3, 4, 5, 6]))],
    ),
    (
        "a root with a title",
        &[(5, (6, Folder, 0, NONE, "mobile", &[]))],
    ),
    (
        "item 1 with a title",
        &[(0, (1, Folder, 0, NONE, "x", &[2, 3, 4, 5, 6]))],
    ),
    (
        "roots in another order",
        &[(0, (1, Folder, 0, NONE, "", &[2, 4, 3, 5, 6]))],
    ),
    (
        "a sixth root",
        &[
            (0, (1, Folder, 0, NONE, "", &[2, 3, 4, 5, 6, 11])),
            (1, (2, Folder, 0, NONE, "", &[7])),
        ],
    ),
    (
        "a root within another",
        &[
            (0, (1, Folder, 0, NONE, "", &[2, 3, 4, 5])),
            (1, (2, Folder, 0, NONE, "", &[7, 11, 6])),
        ],
    ),
    (
        "a root that is a bookmark",
        &[(5, (6, Bookmark, 1, NONE, "", &[]))],
    ),
    (
        "a root that is a separator",
        &[(2, (3, Separator, 0, NONE, "", &[]))],
    ),
];

// Tags that are none, or are one twice.
const BAD_TAGS: &[Change] = &[
    (
        "a tag without an entry",
        &[
            (3, (4, Folder, 0, NONE, "", &[12, 13, 19])),
            (18, (19, Folder, 0, DATES, "x", &[])),
        ],
    ),
    (
        "tags that fold alike",
        &[(11, (12, Folder, 0, DATES, "STRASSE", &[16]))],
    ),
    (
        "tags with the same name",
        &[(12, (13, Folder, 0, DATES, "News", &[17, 18]))],
    ),
    (
        "a tag entry with a title",
        &[(15, (16, Bookmark, 1, DATES, "x", &[]))],
    ),
    (
        "a tag entry that is a folder",
        &[(15, (16, Folder, 0, DATES, "", &[]))],
    ),
    (
        "a tag entry that is a separator",
        &[(15, (16, Separator, 0, DATES, "", &[]))],
    ),
    (
        "a page twice in a tag",
        &[(16, (17, Bookmark, 4, DATES, "", &[]))],
    ),
    (
        "a blank behind a tag",
        &[(11, (12, Folder, 0, DATES, "News ", &[16]))],
    ),
    (
        "a blank before a tag",
        &[(11, (12, Folder, 0, DATES, "\tNews", &[16]))],
    ),
    (
        "a tag with a comma",
        &[(11, (12, Folder, 0, DATES, "a,", &[16]))],
    ),
    (
        "a tag without a name",
        &[(11, (12, Folder, 0, DATES, "", &[16]))],
    ),
    (
        "a tag of 101 bytes",
        &[(11, (12, Folder, 0, DATES, LONGER_TAG, &[16]))],
    ),
    (
        "a tag that is a bookmark",
        &[
            (1, (2, Folder, 0, NONE, "", &[7])),
            (3, (4, Folder, 0, NONE, "", &[12, 13, 11])),
            (10, (11, Bookmark, 2, DATES, "B", &[])),
        ],
    ),
    (
        "a tag that is a separator",
        &[
            (3, (4, Folder, 0, NONE, "", &[12, 13, 9])),
            (6, (7, Folder, 0, DATES, "F", &[8, 10])),
            (8, (9, Separator, 0, DATES, "x", &[])),
        ],
    ),
];

// Whether the rows with the changes of their items are taken.
fn are_taken<'a>(
    alloc: Global,
    good: &Tables<'a>,
    changes: &[(usize, Item<'a>)],
) -> Result<bool, Fail> {
    let mut items = Vec::from_slice(alloc, good.items)?;
    for (place, item) in changes {
        items = replaced(items, *place, *item)?;
    }
    is_taken(
        alloc,
        &Tables {
            items: &items,
            ..*good
        },
    )
}

// The rows with each of the changes.
fn expect_refusals(rt: &impl Abort, alloc: Global, changes: &[Change]) -> Result<(), Fail> {
    for (what, change) in changes {
        assert!(rt; !are_taken(alloc, &TREE, change)?, "{what}");
    }
    Ok(())
}

#[test]
fn accepts_trees(rt: HostRuntime) -> Result<(), Fail> {
    let alloc = rt.alloc();
    for (what, changes) in ACCEPTED {
        assert!(rt; are_taken(alloc, &TREE, changes)?, "{what}");
    }
    Ok(())
}

#[test]
fn accepts_the_longest_title(rt: HostRuntime) -> Result<(), Fail> {
    let alloc = rt.alloc();
    let title = longest_title(alloc)?;
    let item = (11, Bookmark, 2, DATES, title.as_str(), &[][..]);
    assert!(rt; are_taken(alloc, &TREE, &[(10, item)])?);
    Ok(())
}

#[test]
fn refuses_what_is_no_tree(rt: HostRuntime) -> Result<(), Fail> {
    expect_refusals(&rt, rt.alloc(), NO_TREES)?;
    Ok(())
}

#[test]
fn refuses_bad_items(rt: HostRuntime) -> Result<(), Fail> {
    expect_refusals(&rt, rt.alloc(), BAD_ITEMS)?;
    Ok(())
}

#[test]
fn refuses_bad_ids(rt: HostRuntime) -> Result<(), Fail> {
    expect_refusals(&rt, rt.alloc(), BAD_IDS)?;
    Ok(())
}

#[test]
fn refuses_bad_roots(rt: HostRuntime) -> Result<(), Fail> {
    expect_refusals(&rt, rt.alloc(), BAD_ROOTS)?;
    Ok(())
}

#[test]
fn refuses_bad_tags(rt: HostRuntime) -> Result<(), Fail> {
    expect_refusals(&rt, rt.alloc(), BAD_TAGS)?;
    Ok(())
}
