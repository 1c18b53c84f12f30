// Trees of many items: wide, deep, and all in one folder with one page.
ghost use Rattle.std.specs.Prelude.{◌≡◌, ◌<◌};

use crate::items::{insert, move_item, remove, set, set_modified};
use pl_base::{ItemId, ItemKind, ItemRow, Micros, PageId, Rows, Steps};
use pl_plain::Flat;
use std::alloc::Global;
use std::marker::Brand;
use std::process::Abort;
use std::sync::ledger::{Blank, Ledger};
use std::test::Fail;
use trials_trees::add_page;

// How many items there are beside the roots and folder 7.
const COUNT: u32 = 10_000;

// The last of them.
const LAST_ITEM: u32 = 7 + COUNT;

// What each of them is: its kind, and page 1 where it is a bookmark.
fn row(kind: ItemKind, parent: ItemId) -> ItemRow {
    ItemRow {
        kind,
        parent: Some(parent),
        page: (kind == ItemKind::Bookmark).then_some(PageId(1)),
        added: Micros(0),
        modified: Micros(0),
    }
}

// A store with folder 7 in the menu, and with page 1 if bookmarks are to come.
fn with_folder<L: Ledger>(
    rt: &impl Abort,
    alloc: Global,
    kind: ItemKind,
    steps: &mut Steps<L>,
) -> Result<Flat, Fail> {
    let mut flat = Flat::opening(alloc)?;
    if kind == ItemKind::Bookmark {
        let page = add_page(alloc, &mut flat, "https://a.example/", steps)?;
        assert_eq!(rt; page, PageId(1));
    }
    let folder = row(ItemKind::Folder, ItemId(2));
    assert_eq!(rt; insert(rt, &mut flat, &folder, "", None, steps)?, ItemId(7));
    Ok(flat)
}

// Folder 7 gets so many items, which are of this kind.
fn fill_folder<L: Ledger>(
    rt: &impl Abort,
    flat: &mut Flat,
    kind: ItemKind,
    steps: &mut Steps<L>,
) -> Result<(), Fail> {
    let mut last = None;
    for _item in 0..COUNT {
        let item = insert(rt, flat, &row(kind, ItemId(7)), "", last, steps)?;
        last = Some(item);
    }
    Ok(())
}

// Each folder from 7 on gets the next one.
fn fill_folders<L: Ledger>(
    rt: &impl Abort,
    flat: &mut Flat,
    steps: &mut Steps<L>,
) -> Result<(), Fail> {
    let mut parent = ItemId(7);
    for _item in 0..COUNT {
        parent = insert(rt, flat, &row(ItemKind::Folder, parent), "", None, steps)?;
    }
    Ok(())
}

// Folder 7 holds all others, which are of this kind.
fn wide<L: Ledger>(
    rt: &impl Abort,
    alloc: Global,
    kind: ItemKind,
    steps: &mut Steps<L>,
) -> Result<Flat, Fail> {
    let mut flat = with_folder(rt, alloc, kind, steps)?;
    fill_folder(rt, &mut flat, kind, steps)?;
    Ok(flat)
}

// Each folder holds the next one.
fn deep<L: Ledger>(rt: &impl Abort, alloc: Global, steps: &mut Steps<L>) -> Result<Flat, Fail> {
    let mut flat = with_folder(rt, alloc, ItemKind::Folder, steps)?;
    fill_folders(rt, &mut flat, steps)?;
    Ok(flat)
}

// The items from one number up to the other stand each in the one before.
fn check_chain<L: Ledger>(rt: &impl Abort, flat: &Flat, from: u32, to: u32, steps: &mut Steps<L>) {
    for id in from..to {
        assert_eq!(rt; flat.first_child(ItemId(id), steps), Some(ItemId(id + 1)));
    }
}

// They stand side by side.
fn check_row<L: Ledger>(rt: &impl Abort, flat: &Flat, from: u32, to: u32, steps: &mut Steps<L>) {
    for id in from..to {
        assert_eq!(rt; flat.next_sibling(ItemId(id), steps), Some(ItemId(id + 1)));
    }
}

// They have the same page.
fn check_same_page<L: Ledger>(
    rt: &impl Abort,
    flat: &Flat,
    from: u32,
    to: u32,
    steps: &mut Steps<L>,
) {
    for id in from..to {
        assert_eq!(rt;
            flat.next_reference(ItemId(id), steps),
            Some(ItemId(id + 1))
        );
    }
}

// The items from 7 on stand one below the other: the first of them, the middle, and the last.
fn check_depth<L: Ledger>(rt: &impl Abort, flat: &Flat, steps: &mut Steps<L>) {
    let middle = 7 + COUNT / 2;
    check_chain(rt, flat, 7, 107, steps);
    check_chain(rt, flat, middle - 50, middle + 50, steps);
    check_chain(rt, flat, LAST_ITEM - 100, LAST_ITEM, steps);
    assert_eq!(rt; flat.first_child(ItemId(LAST_ITEM), steps), None);
}

// The first and the last children of folder 7.
fn check_width<L: Ledger>(rt: &impl Abort, flat: &Flat, steps: &mut Steps<L>) {
    assert_eq!(rt; flat.first_child(ItemId(7), steps), Some(ItemId(8)));
    check_row(rt, flat, 8, 208, steps);
    check_row(rt, flat, LAST_ITEM - 200, LAST_ITEM, steps);
    assert_eq!(rt; flat.next_sibling(ItemId(LAST_ITEM), steps), None);
    assert_eq!(rt; flat.last_child(ItemId(7), steps), Some(ItemId(LAST_ITEM)));
    assert_eq!(rt; flat.items(steps), LAST_ITEM);
}

// The first and the last items with the page.
fn check_references<L: Ledger>(rt: &impl Abort, flat: &Flat, steps: &mut Steps<L>) {
    assert_eq!(rt; flat.first_reference(PageId(1), steps), Some(ItemId(8)));
    check_same_page(rt, flat, 8, 208, steps);
    check_same_page(rt, flat, LAST_ITEM - 200, LAST_ITEM, steps);
    assert_eq!(rt; flat.next_reference(ItemId(LAST_ITEM), steps), None);
}

// The first child of folder 7 goes behind the last one and back.
fn move_there_and_back<L: Ledger>(
    rt: &impl Abort,
    flat: &mut Flat,
    steps: &mut Steps<L>,
) -> Result<(), Fail> {
    let (first, folder, last) = (ItemId(8), ItemId(7), ItemId(LAST_ITEM));
    move_item(rt, flat, first, folder, Some(last), steps)?;
    assert_eq!(rt; flat.next_sibling(last, steps), Some(first));
    assert_eq!(rt; flat.last_child(folder, steps), Some(first));
    assert_eq!(rt; flat.first_child(folder, steps), Some(ItemId(9)));
    move_item(rt, flat, first, folder, None, steps)
}

// A new folder comes into this one as its first child, changes, and goes.
fn come_and_go<L: Ledger>(
    rt: &impl Abort,
    flat: &mut Flat,
    parent: ItemId,
    steps: &mut Steps<L>,
) -> Result<(), Fail> {
    let row = ItemRow {
        kind: ItemKind::Folder,
        parent: Some(parent),
        page: None,
        added: Micros(1),
        modified: Micros(1),
    };
    let item = insert(rt, flat, &row, "", None, steps)?;
    assert_eq!(rt; flat.first_child(parent, steps), Some(item));
    set(rt, flat, item, "t", Micros(2), steps)?;
    set_modified(rt, flat, item, Micros(3), steps)?;
    let dated = ItemRow {
        modified: Micros(3),
        ..row
    };
    assert_eq!(rt; flat.item_at(item, steps), Some(dated));
    remove(rt, flat, item, steps)
}

// Folder 7 holds all others, which are of this kind.
fn keep_wide<L: Ledger>(
    rt: &impl Abort,
    alloc: Global,
    kind: ItemKind,
    steps: &mut Steps<L>,
) -> Result<Flat, Fail> {
    let mut flat = wide(rt, alloc, kind, steps)?;
    check_width(rt, &flat, steps);
    move_there_and_back(rt, &mut flat, steps)?;
    check_width(rt, &flat, steps);
    come_and_go(rt, &mut flat, ItemId(7), steps)?;
    check_width(rt, &flat, steps);
    Ok(flat)
}

// The middle of the chain goes into another root, with all below it, and back.
fn detour<L: Ledger>(rt: &impl Abort, flat: &mut Flat, steps: &mut Steps<L>) -> Result<(), Fail> {
    let (above, middle) = (ItemId(7 + COUNT / 2), ItemId(8 + COUNT / 2));
    move_item(rt, flat, middle, ItemId(5), None, steps)?;
    assert_eq!(rt; flat.first_child(above, steps), None);
    assert_eq!(rt; flat.first_child(ItemId(5), steps), Some(middle));
    move_item(rt, flat, middle, above, None, steps)
}

fn keep_deep<L: Ledger>(rt: &impl Abort, alloc: Global, steps: &mut Steps<L>) -> Result<(), Fail> {
    let mut flat = deep(rt, alloc, steps)?;
    check_depth(rt, &flat, steps);
    detour(rt, &mut flat, steps)?;
    check_depth(rt, &flat, steps);
    come_and_go(rt, &mut flat, ItemId(LAST_ITEM), steps)?;
    check_depth(rt, &flat, steps);
    Ok(())
}

fn keep_trees<L: Ledger>(rt: &impl Abort, alloc: Global, blank: Blank) -> Result<(), Fail>
    requires name { blank.name ≡ L.name }
    requires parts { blank.parts ≡ L.parts }
    requires some { 0 < blank.parts }
{
    let steps = &mut Steps::<L>::none(blank);
    keep_wide(rt, alloc, ItemKind::Folder, steps)?;
    let flat = keep_wide(rt, alloc, ItemKind::Bookmark, steps)?;
    check_references(rt, &flat, steps);
    keep_deep(rt, alloc, steps)
}

#[test]
fn keeps_large_trees(rt: HostRuntime) -> Result<(), Fail> {
    keep_trees::<Brand>(&rt, rt.alloc(), Blank::new(1))
}
