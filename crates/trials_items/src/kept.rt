// The rows of a table with bookmarks and tags, put into the opening store item by item, and an item
// that goes away and comes back.
ghost use Rattle.std.specs.Prelude.{◌≡◌, ◌<◌};

use crate::items::{check_children, check_references, insert, move_item};
use crate::tree::{check_title, some_item};
use pl_base::{ItemId, ItemRow, Micros, PageId, Rows, Steps, VisitId, VisitRow};
use pl_plain::Flat;
use std::alloc::Global;
use std::marker::Brand;
use std::process::Abort;
use std::sync::ledger::{Blank, Ledger};
use std::test::Fail;
use trials_trees::{ITEMS, Item, PAGES, VISITS, add_page, add_visit};

// The item that holds this one, and the child before it among those that are there, or 0: the ones
// with smaller ids.
fn place_of(item: u32) -> (u32, u32) {
    let mut place = (0, 0);
    for (parent, _, _, _, _, children) in ITEMS {
        if children.contains(&item) {
            place = (*parent, before(children, item));
        }
    }
    place
}

fn before(children: &[u32], item: u32) -> u32 {
    let mut last = 0;
    for child in children {
        if *child == item {
            return last;
        }
        if *child < item {
            last = *child;
        }
    }
    last
}

// An item comes to its place among those that are there.
fn add_item<L: Ledger>(
    rt: &impl Abort,
    flat: &mut Flat,
    item: &Item<'_>,
    steps: &mut Steps<L>,
) -> Result<(), Fail> {
    let (id, kind, page, (added, modified), title, _) = *item;
    let (parent, after) = place_of(id);
    let row = ItemRow {
        kind,
        parent: Some(ItemId(parent)),
        page: (page > 0).then_some(PageId(page)),
        added: Micros(added),
        modified: Micros(modified),
    };
    let new = insert(rt, flat, &row, title, some_item(after), steps)?;
    assert_eq!(rt; new, ItemId(id));
    Ok(())
}

// The one visit, which came from none.
fn add_visits<L: Ledger>(
    rt: &impl Abort,
    flat: &mut Flat,
    steps: &mut Steps<L>,
) -> Result<(), Fail> {
    for (id, page, date, transition, _) in VISITS {
        let row = VisitRow {
            page: PageId(*page),
            date: Micros(*date),
            transition: *transition,
            source: None,
        };
        assert_eq!(rt; add_visit(flat, &row, steps)?, VisitId(*id));
    }
    Ok(())
}

// The rows of the table, where the roots are there already.
fn tree<L: Ledger>(rt: &impl Abort, alloc: Global, steps: &mut Steps<L>) -> Result<Flat, Fail> {
    let mut flat = Flat::opening(alloc)?;
    for (id, _, url, _) in PAGES {
        assert_eq!(rt; add_page(alloc, &mut flat, url, steps)?, PageId(*id));
    }
    add_visits(rt, &mut flat, steps)?;
    for item in ITEMS.iter().skip(6) {
        add_item(rt, &mut flat, item, steps)?;
    }
    Ok(flat)
}

// The item of the table.
fn check_item<L: Ledger>(
    rt: &impl Abort,
    flat: &Flat,
    item: &Item<'_>,
    steps: &mut Steps<L>,
) -> Result<(), Fail> {
    let (id, kind, page, (added, modified), title, children) = *item;
    let row = flat.item_at(ItemId(id), steps).ok_or("no item")?;
    assert_eq!(rt; row.kind, kind);
    assert_eq!(rt; row.page.map_or(0, |page| page.0), page);
    assert_eq!(rt;
        (row.added, row.modified),
        (Micros(added), Micros(modified))
    );
    check_title(rt, flat, ItemId(id), title, steps)?;
    check_children(rt, flat, id, children, steps);
    Ok(())
}

// Pages with the items that have them.
const REFERENCES: &[(u32, &[u32])] = &[
    (0, &[]),
    (1, &[8, 16, 17]),
    (2, &[11]),
    (3, &[14]),
    (4, &[18]),
    (5, &[15]),
    (6, &[]),
];

// The rows, which are 5 origins, 5 pages, 5 URLs, a visit, 18 items and 6 titles.
fn check_rows<L: Ledger>(rt: &impl Abort, flat: &Flat, steps: &mut Steps<L>) -> Result<(), Fail> {
    for item in ITEMS {
        check_item(rt, flat, item, steps)?;
    }
    let root = flat.item_at(ItemId(1), steps).ok_or("no root")?;
    assert!(rt; root.parent.is_none());
    assert_eq!(rt; (flat.visits(steps), flat.items(steps)), (1, 18));
    assert_eq!(rt; flat.live(steps), 40);
    Ok(())
}

fn check_pages<L: Ledger>(rt: &impl Abort, flat: &Flat, steps: &mut Steps<L>) {
    for (page, items) in REFERENCES {
        check_references(rt, flat, *page, items, steps);
    }
}

// A folder goes into another root and back.
fn detour<L: Ledger>(rt: &impl Abort, flat: &mut Flat, steps: &mut Steps<L>) -> Result<(), Fail> {
    move_item(rt, flat, ItemId(7), ItemId(5), Some(ItemId(14)), steps)?;
    check_children(rt, flat, 5, &[14, 7], steps);
    move_item(rt, flat, ItemId(7), ItemId(2), None, steps)
}

fn keep_tree<L: Ledger>(rt: &impl Abort, alloc: Global, blank: Blank) -> Result<(), Fail>
    requires name { blank.name ≡ L.name }
    requires parts { blank.parts ≡ L.parts }
    requires some { 0 < blank.parts }
{
    let steps = &mut Steps::<L>::none(blank);
    let mut flat = tree(rt, alloc, steps)?;
    check_rows(rt, &flat, steps)?;
    check_pages(rt, &flat, steps);
    detour(rt, &mut flat, steps)?;
    check_rows(rt, &flat, steps)
}

#[test]
fn keeps_a_tree(rt: HostRuntime) -> Result<(), Fail> {
    keep_tree::<Brand>(&rt, rt.alloc(), Blank::new(1))
}
