// The store before its first command: each look-up beside that over vectors, and its bytes.
ghost use Rattle.std.specs.Prelude.{◌≡◌, ◌<◌, true};
ghost use Rattle.pl_base.specs.Tree.{has_item};
ghost use Rattle.pl_linked.specs.Linked.{kept_of};

use pl_base::{ItemId, NoMemory, PageId, Rows, Steps, VisitId};
use pl_linked::Linked;
use pl_plain::Flat;
use std::alloc::Global;
use std::marker::Brand;
use std::process::Abort;
use std::sync::ledger::{Blank, Ledger};
use std::test::Fail;

// The fields of page 1, which has zeros behind them.
const HEADER: &[u8; 68] = b"PLSTORE1\x03\0\0\0\0\0\0\0\
    \x01\0\0\0\x01\0\0\0\x07\0\0\0\x07\0\0\0\
    \0\0\0\0\0\0\0\0\0\0\0\0\0\0\0\0\0\0\0\0\0\0\0\0\x01\0\0\0\x06\0\0\0\
    \x06\0\0\0";

// Item 1 in the first slot, and item 6 in the sixth, without their last zeros.
const FIRST: &[u8; 36] = b"\x04\x02\0\0\0\0\0\0\x02\0\0\0\x01\0\0\0\0\0\0\0\
    \0\0\0\0\0\0\0\0\x02\0\0\0\x06\0\0\0";

const SIXTH: &[u8; 36] = b"\x04\x02\0\0\x05\0\0\0\0\0\0\0\x06\0\0\0\x01\0\0\0\
    \x05\0\0\0\0\0\0\0\0\0\0\0\0\0\0\0";

// The seventh slot is free, before the eighth.
const SEVENTH: &[u8; 8] = b"\0\0\0\0\x08\0\0\0";

// Ids of items that are there, and others.
const ITEMS: &[u32] = &[0, 1, 2, 3, 4, 5, 6, 7, 8, u32::MAX];

// No page and no visit has one of these.
const OTHERS: &[u32] = &[0, 1, 2, u32::MAX];

fn check_item<L: Ledger>(
    rt: &impl Abort,
    linked: &Linked,
    flat: &Flat,
    item: ItemId,
    steps: &mut Steps<L>,
) {
    assert_eq!(rt; linked.item_at(item, steps), flat.item_at(item, steps));
    assert_eq!(rt;
        linked.first_child(item, steps),
        flat.first_child(item, steps)
    );
    assert_eq!(rt;
        linked.last_child(item, steps),
        flat.last_child(item, steps)
    );
    assert_eq!(rt;
        linked.next_sibling(item, steps),
        flat.next_sibling(item, steps)
    );
    assert_eq!(rt;
        linked.next_reference(item, steps),
        flat.next_reference(item, steps)
    );
}

fn check_page<L: Ledger>(
    rt: &impl Abort,
    linked: &Linked,
    flat: &Flat,
    page: PageId,
    steps: &mut Steps<L>,
) {
    assert_eq!(rt;
        linked.page_after(Some(page), steps),
        flat.page_after(Some(page), steps)
    );
    assert_eq!(rt; linked.page_at(page, steps), flat.page_at(page, steps));
    assert_eq!(rt; linked.latest(page, steps), flat.latest(page, steps));
    assert_eq!(rt;
        linked.first_reference(page, steps),
        flat.first_reference(page, steps)
    );
}

fn check_visit<L: Ledger>(
    rt: &impl Abort,
    linked: &Linked,
    flat: &Flat,
    visit: VisitId,
    steps: &mut Steps<L>,
) {
    assert_eq!(rt; linked.visit_at(visit, steps), flat.visit_at(visit, steps));
    assert_eq!(rt; linked.older(visit, steps), flat.older(visit, steps));
    assert_eq!(rt;
        linked.first_target(visit, steps),
        flat.first_target(visit, steps)
    );
    assert_eq!(rt;
        linked.next_target(visit, steps),
        flat.next_target(visit, steps)
    );
}

fn check_whole<L: Ledger>(rt: &impl Abort, linked: &Linked, flat: &Flat, steps: &mut Steps<L>) {
    assert_eq!(rt; linked.day(steps), flat.day(steps));
    assert_eq!(rt; linked.ids(steps), flat.ids(steps));
    assert_eq!(rt; linked.live(steps), flat.live(steps));
    assert_eq!(rt;
        linked.page_after(None, steps),
        flat.page_after(None, steps)
    );
    assert_eq!(rt; (linked.visits(steps), linked.items(steps)), (0, 6));
}

fn check_rows<L: Ledger>(rt: &impl Abort, linked: &Linked, flat: &Flat, steps: &mut Steps<L>) {
    for id in ITEMS {
        check_item(rt, linked, flat, ItemId(*id), steps);
    }
    for id in OTHERS {
        check_page(rt, linked, flat, PageId(*id), steps);
    }
    for id in OTHERS {
        check_visit(rt, linked, flat, VisitId(*id), steps);
    }
    check_whole(rt, linked, flat, steps);
}

fn is_there<L: Ledger>(linked: &Linked, item: ItemId, steps: &mut Steps<L>) -> bool
    ensures { result ≡ true → has_item (kept_of linked.now).items item ≡ true }
{
    linked.item_at(item, steps).is_some()
}

fn check_titles<L: Ledger>(
    rt: &impl Abort,
    linked: &Linked,
    steps: &mut Steps<L>,
) -> Result<(), NoMemory> {
    for id in 1..7 {
        assert!(rt; is_there(linked, ItemId(id), steps));
        assert_eq!(rt; linked.item_title(ItemId(id), steps)?.as_str(), "");
    }
    Ok(())
}

fn holds(image: &[u8], at: usize, bytes: &[u8]) -> bool {
    at <= image.len() && image[at..].starts_with(bytes)
}

fn check_touched<L: Ledger>(
    rt: &impl Abort,
    linked: &mut Linked,
    steps: &mut Steps<L>,
) -> Result<(), NoMemory> {
    let change = linked.touched(steps)?;
    assert!(rt; change.before() == 1 && change.after() == 3 && change.count() == 2);
    assert!(rt; change.page(0) == 1 && change.page(1) == 2);
    assert!(rt; holds(change.image(0), 0, HEADER));
    assert!(rt; holds(change.image(1), 0, FIRST));
    assert!(rt; holds(change.image(1), 640, SIXTH) && holds(change.image(1), 768, SEVENTH));
    let rest = linked.touched(steps)?;
    assert!(rt; rest.before() == 3 && rest.after() == 3 && rest.count() == 0);
    Ok(())
}

fn check_opening<L: Ledger>(rt: &impl Abort, alloc: Global, blank: Blank) -> Result<(), Fail>
    requires name { blank.name ≡ L.name }
    requires parts { blank.parts ≡ L.parts }
    requires some { 0 < blank.parts }
{
    let steps = &mut Steps::<L>::none(blank);
    let mut linked = Linked::opening(alloc)?;
    let flat = Flat::opening(alloc)?;
    check_rows(rt, &linked, &flat, steps);
    check_titles(rt, &linked, steps)?;
    check_touched(rt, &mut linked, steps)?;
    check_rows(rt, &linked, &flat, steps);
    Ok(())
}

#[test]
fn the_opening_store_is_that_over_vectors(rt: HostRuntime) -> Result<(), Fail> {
    check_opening::<Brand>(&rt, rt.alloc(), Blank::new(1))
}
