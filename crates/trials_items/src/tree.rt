// The items of a store over vectors: what is put into a tree that was empty, and how it changes.
ghost use Rattle.std.specs.Prelude.{◌≡◌, ◌<◌};

use crate::items::{
    check_children, check_references, insert, move_item, remove, set, set_modified,
};
use ItemKind::{Bookmark, Folder, Separator};
use pl_base::{ItemId, ItemKind, ItemRow, Mark, Micros, PageId, Rows, Steps, Txt, VisitId};
use pl_link::Canon;
use pl_plain::Flat;
use std::alloc::Global;
use std::marker::Brand;
use std::process::Abort;
use std::sync::ledger::{Blank, Ledger};
use std::test::Fail;

// A change of the items. Where an item stands behind none, 0 is written.
enum Change<'a> {
    // A parent, the child before, and the new item. Each bookmark has page 1.
    Insert(u32, u32, ItemKind, &'a str),
    // The item, its new parent, and the child before.
    Move(u32, u32, u32),
    // The item, its title and its modified date.
    Set(u32, &'a str, u64),
    SetModified(u32, u64),
    Remove(u32),
}

use Change::{Insert, Move, Remove, Set, SetModified};

// The dates of each new item.
const ADDED: Micros = Micros(5);

const MODIFIED: Micros = Micros(6);

// What is kept of the page, which has no visit.
const MARK: Mark = Mark {
    frecency: 140,
    count: 0,
    typed: false,
    hidden: false,
};

// 120 bytes, and one byte more.
const ONE_SLOT: &str = "aaaaaaaaaaaaaaaaaaaaaaaaaaaaaaaaaaaaaaaaaaaaaaaaaaaaaaaaaaaa\
    bbbbbbbbbbbbbbbbbbbbbbbbbbbbbbbbbbbbbbbbbbbbbbbbbbbbbbbbbbbb";

const TWO_SLOTS: &str = "aaaaaaaaaaaaaaaaaaaaaaaaaaaaaaaaaaaaaaaaaaaaaaaaaaaaaaaaaaaa\
    bbbbbbbbbbbbbbbbbbbbbbbbbbbbbbbbbbbbbbbbbbbbbbbbbbbbbbbbbbbbb";

// Some folders with their children.
type Children<'a> = &'a [(u32, &'a [u32])];

// Each change with the children of some folders after it, the items that have the page, how many
// items there are, and the slots. Before them there are 9: those of six roots, and of a page with
// its URL and its origin.
const CHANGES: &[(Change, Children, &[u32], u32, u64)] = &[
    (
        Insert(2, 0, Folder, "F"),
        &[(2, &[7]), (7, &[])],
        &[],
        7,
        11,
    ),
    (Insert(7, 0, Bookmark, "A"), &[(7, &[8])], &[8], 8, 13),
    (Insert(2, 0, Separator, ""), &[(2, &[9, 7])], &[8], 9, 14),
    (
        Insert(2, 7, Separator, ""),
        &[(2, &[9, 7, 10])],
        &[8],
        10,
        15,
    ),
    (
        Insert(2, 9, Bookmark, TWO_SLOTS),
        &[(2, &[9, 11, 7, 10])],
        &[8, 11],
        11,
        18,
    ),
    (
        Insert(7, 8, Folder, ONE_SLOT),
        &[(7, &[8, 12])],
        &[8, 11],
        12,
        20,
    ),
    (
        Insert(12, 0, Bookmark, ""),
        &[(12, &[13])],
        &[8, 11, 13],
        13,
        21,
    ),
    (
        Insert(5, 0, Bookmark, ""),
        &[(5, &[14]), (2, &[9, 11, 7, 10])],
        &[8, 11, 13, 14],
        14,
        22,
    ),
    // Within one folder.
    (
        Move(10, 2, 0),
        &[(2, &[10, 9, 11, 7])],
        &[8, 11, 13, 14],
        14,
        22,
    ),
    (
        Move(10, 2, 7),
        &[(2, &[9, 11, 7, 10])],
        &[8, 11, 13, 14],
        14,
        22,
    ),
    (
        Move(11, 2, 7),
        &[(2, &[9, 7, 11, 10])],
        &[8, 11, 13, 14],
        14,
        22,
    ),
    (
        Move(11, 2, 9),
        &[(2, &[9, 11, 7, 10])],
        &[8, 11, 13, 14],
        14,
        22,
    ),
    (
        Move(9, 2, 0),
        &[(2, &[9, 11, 7, 10])],
        &[8, 11, 13, 14],
        14,
        22,
    ),
    (
        Move(7, 2, 11),
        &[(2, &[9, 11, 7, 10])],
        &[8, 11, 13, 14],
        14,
        22,
    ),
    (
        Move(9, 2, 11),
        &[(2, &[11, 9, 7, 10])],
        &[8, 11, 13, 14],
        14,
        22,
    ),
    // To another one.
    (
        Move(11, 7, 8),
        &[(2, &[9, 7, 10]), (7, &[8, 11, 12])],
        &[8, 11, 13, 14],
        14,
        22,
    ),
    (
        Move(12, 6, 0),
        &[(6, &[12]), (12, &[13]), (7, &[8, 11])],
        &[8, 11, 13, 14],
        14,
        22,
    ),
    (
        Move(8, 12, 13),
        &[(12, &[13, 8]), (7, &[11])],
        &[8, 11, 13, 14],
        14,
        22,
    ),
    (
        Move(14, 7, 0),
        &[(7, &[14, 11]), (5, &[])],
        &[8, 11, 13, 14],
        14,
        22,
    ),
    (
        Move(14, 1, 4),
        &[(1, &[2, 3, 4, 14, 5, 6]), (7, &[11])],
        &[8, 11, 13, 14],
        14,
        22,
    ),
    (
        Move(14, 3, 0),
        &[(1, &[2, 3, 4, 5, 6]), (3, &[14])],
        &[8, 11, 13, 14],
        14,
        22,
    ),
    // Titles and dates.
    (
        Set(7, "", 7),
        &[(2, &[9, 7, 10]), (7, &[11])],
        &[8, 11, 13, 14],
        14,
        21,
    ),
    (
        Set(9, TWO_SLOTS, 8),
        &[(2, &[9, 7, 10]), (9, &[])],
        &[8, 11, 13, 14],
        14,
        23,
    ),
    (Set(11, "B", 0), &[(7, &[11])], &[8, 11, 13, 14], 14, 22),
    (
        SetModified(12, 9),
        &[(12, &[13, 8])],
        &[8, 11, 13, 14],
        14,
        22,
    ),
    // A folder goes once it is empty, and its id is not given again.
    (Remove(13), &[(12, &[8])], &[8, 11, 14], 13, 21),
    (
        Insert(7, 11, Folder, "x"),
        &[(7, &[11, 15])],
        &[8, 11, 14],
        14,
        23,
    ),
    (Remove(15), &[(7, &[11])], &[8, 11, 14], 13, 21),
    (Remove(11), &[(7, &[])], &[8, 14], 12, 19),
    (Remove(7), &[(2, &[9, 10])], &[8, 14], 11, 18),
    (
        Insert(2, 9, Bookmark, ""),
        &[(2, &[9, 16, 10])],
        &[8, 14, 16],
        12,
        19,
    ),
];

// The items that are left: their kinds, parents, modified dates and titles.
const LEFT: &[(u32, ItemKind, u32, u64, &str)] = &[
    (8, Bookmark, 12, 6, "A"),
    (9, Separator, 2, 8, TWO_SLOTS),
    (10, Separator, 2, 6, ""),
    (12, Folder, 6, 9, ONE_SLOT),
    (14, Bookmark, 3, 6, ""),
    (16, Bookmark, 2, 6, ""),
];

const LEFT_CHILDREN: Children = &[
    (1, &[2, 3, 4, 5, 6]),
    (2, &[9, 16, 10]),
    (3, &[14]),
    (4, &[]),
    (5, &[]),
    (6, &[12]),
    (12, &[8]),
];

pub fn some_item(id: u32) -> Option<ItemId> {
    (id > 0).then_some(ItemId(id))
}

fn row(kind: ItemKind, parent: u32) -> ItemRow {
    ItemRow {
        kind,
        parent: Some(ItemId(parent)),
        page: (kind == Bookmark).then_some(PageId(1)),
        added: ADDED,
        modified: MODIFIED,
    }
}

fn perform<L: Ledger>(
    rt: &impl Abort,
    flat: &mut Flat,
    change: &Change<'_>,
    steps: &mut Steps<L>,
) -> Result<(), Fail> {
    match change {
        Insert(parent, after, kind, title) => {
            let next = ItemId(flat.ids(steps).item);
            let row = row(*kind, *parent);
            let id = insert(rt, flat, &row, title, some_item(*after), steps)?;
            assert_eq!(rt; id, next);
            Ok(())
        }
        Move(item, parent, after) => {
            let (item, parent) = (ItemId(*item), ItemId(*parent));
            move_item(rt, flat, item, parent, some_item(*after), steps)
        }
        Set(item, title, modified) => {
            set(rt, flat, ItemId(*item), title, Micros(*modified), steps)
        }
        SetModified(item, modified) => {
            set_modified(rt, flat, ItemId(*item), Micros(*modified), steps)
        }
        Remove(item) => remove(rt, flat, ItemId(*item), steps),
    }
}

// The page is the only one, and there is no visit.
fn check_page<L: Ledger>(rt: &impl Abort, flat: &Flat, steps: &mut Steps<L>) {
    let page = PageId(1);
    assert!(rt; flat.page_at(page, steps) == Some(MARK));
    assert_eq!(rt; flat.page_after(None, steps), Some(page));
    assert_eq!(rt; flat.page_after(Some(page), steps), None);
    assert!(rt; flat.visit_at(VisitId(1), steps).is_none());
    assert_eq!(rt; flat.visits(steps), 0);
    assert_eq!(rt; (flat.ids(steps).page, flat.ids(steps).visit), (2, 1));
}

pub fn check_title<L: Ledger>(
    rt: &impl Abort,
    flat: &Flat,
    item: ItemId,
    title: &str,
    steps: &mut Steps<L>,
) -> Result<(), Fail> {
    flat.item_at(item, steps).ok_or("no item")?;
    let text: Txt = flat.item_title(item, steps)?;
    assert_eq!(rt; text.as_str(), title);
    Ok(())
}

// The children of these folders.
fn check_lists<L: Ledger>(rt: &impl Abort, flat: &Flat, lists: Children<'_>, steps: &mut Steps<L>) {
    for (parent, children) in lists {
        check_children(rt, flat, *parent, children, steps);
    }
}

// What the changes leave.
fn check_left<L: Ledger>(rt: &impl Abort, flat: &Flat, steps: &mut Steps<L>) -> Result<(), Fail> {
    check_lists(rt, flat, LEFT_CHILDREN, steps);
    for (id, kind, parent, modified, title) in LEFT {
        let want = ItemRow {
            modified: Micros(*modified),
            ..row(*kind, *parent)
        };
        assert!(rt; flat.item_at(ItemId(*id), steps) == Some(want));
        check_title(rt, flat, ItemId(*id), title, steps)?;
    }
    for id in [0, 7, 11, 13, 15, 17] {
        assert!(rt; flat.item_at(ItemId(id), steps).is_none());
    }
    check_references(rt, flat, 1, &[8, 14, 16], steps);
    check_page(rt, flat, steps);
    assert_eq!(rt; flat.ids(steps).item, 17);
    assert_eq!(rt; (flat.items(steps), flat.live(steps)), (12, 19));
    Ok(())
}

// The opening store with a page that an item will have.
fn opening<L: Ledger>(alloc: Global, steps: &mut Steps<L>) -> Result<Flat, Fail> {
    let mut flat = Flat::opening(alloc)?;
    let url = Canon::read(alloc, "https://a.example/")?;
    let page = flat.insert_page(url.text(), None, steps)?;
    flat.set_mark(page, MARK, steps);
    Ok(flat)
}

// The changes, one after another, and what each leaves.
fn grow<L: Ledger>(rt: &impl Abort, flat: &mut Flat, steps: &mut Steps<L>) -> Result<(), Fail> {
    for (change, folders, references, items, live) in CHANGES {
        perform(rt, flat, change, steps)?;
        check_lists(rt, flat, folders, steps);
        check_references(rt, flat, 1, references, steps);
        check_page(rt, flat, steps);
        assert_eq!(rt; (flat.items(steps), flat.live(steps)), (*items, *live));
    }
    Ok(())
}

fn grow_tree<L: Ledger>(rt: &impl Abort, alloc: Global, blank: Blank) -> Result<(), Fail>
    requires name { blank.name ≡ L.name }
    requires parts { blank.parts ≡ L.parts }
    requires some { 0 < blank.parts }
{
    let steps = &mut Steps::<L>::none(blank);
    let mut flat = opening(alloc, steps)?;
    assert_eq!(rt; flat.live(steps), 9);
    grow(rt, &mut flat, steps)?;
    check_left(rt, &flat, steps)?;
    assert_eq!(rt; flat.touched(steps)?.count(), 0);
    check_left(rt, &flat, steps)
}

#[test]
fn grows_a_tree(rt: HostRuntime) -> Result<(), Fail> {
    grow_tree::<Brand>(&rt, rt.alloc(), Blank::new(1))
}
