// Visits of one page, in slots and beside them over vectors.
ghost use Rattle.std.specs.Prelude.{◌≡◌, ◌<◌};

use crate::{add_link, add_target, came_from, drop_visit, same_order};
use pl_base::{PageId, Rows, Steps, Transition};
use pl_link::Canon;
use pl_linked::Linked;
use pl_plain::Flat;
use std::alloc::Global;
use std::marker::Brand;
use std::process::Abort;
use std::sync::ledger::{Blank, Ledger};
use std::test::Fail;

// The dates of three visits that came from one, in each order.
const ORDERS: &[(u32, u32, u32)] = &[
    (1, 2, 3),
    (1, 3, 2),
    (2, 1, 3),
    (2, 3, 1),
    (3, 1, 2),
    (3, 2, 1),
];

// Three visits that came from a new one: the second by a redirect, which stands first.
fn add_three<R: Rows, L: Ledger>(
    rt: &impl Abort,
    rows: &mut R,
    page: PageId,
    dates: (u32, u32, u32),
    steps: &mut Steps<L>,
) -> Result<(), Fail> {
    let source = add_link(rows, page, 2, steps)?;
    let first = add_target(rows, page, (dates.0, Transition::Link, source), steps)?;
    let made = (dates.1, Transition::RedirectPermanent, source);
    let redirect = add_target(rows, page, made, steps)?;
    let last = add_target(rows, page, (dates.2, Transition::Typed, source), steps)?;
    assert!(rt; came_from(rows, source, &[redirect, first, last], steps));
    Ok(())
}

fn try_orders<A: Rows, B: Rows, L: Ledger>(
    rt: &impl Abort,
    one: &mut A,
    other: &mut B,
    page: PageId,
    steps: &mut Steps<L>,
) -> Result<(), Fail> {
    for dates in ORDERS {
        add_three(rt, one, page, *dates, steps)?;
        add_three(rt, other, page, *dates, steps)?;
        assert!(rt; same_order(one, other, page, steps));
    }
    Ok(())
}

// Ten thousand visits: every second one in descending order of date, and the others in one that is
// like chance.
fn add_many<R: Rows, L: Ledger>(
    rows: &mut R,
    page: PageId,
    steps: &mut Steps<L>,
) -> Result<(), Fail> {
    for number in 0..5_000_u32 {
        add_link(rows, page, 5_000 - number, steps)?;
        add_link(rows, page, number * 7_919 % 10_007, steps)?;
    }
    Ok(())
}

// A visit from which a thousand came goes, and each of them came from none then.
fn try_source<R: Rows, L: Ledger>(
    rt: &impl Abort,
    rows: &mut R,
    page: PageId,
    steps: &mut Steps<L>,
) -> Result<(), Fail> {
    let source = add_link(rows, page, 5, steps)?;
    for number in 0..500_u32 {
        add_target(rows, page, (number, Transition::Link, source), steps)?;
        let made = (number, Transition::RedirectTemporary, source);
        add_target(rows, page, made, steps)?;
    }
    drop_visit(rows, source, steps)?;
    assert!(rt; rows.first_target(source, steps).is_none());
    Ok(())
}

fn try_all<A: Rows, B: Rows, L: Ledger>(
    rt: &impl Abort,
    one: &mut A,
    other: &mut B,
    page: PageId,
    steps: &mut Steps<L>,
) -> Result<(), Fail> {
    try_orders(rt, one, other, page, steps)?;
    add_many(one, page, steps)?;
    add_many(other, page, steps)?;
    assert!(rt; same_order(one, other, page, steps));
    try_source(rt, one, page, steps)?;
    try_source(rt, other, page, steps)?;
    assert!(rt; same_order(one, other, page, steps));
    assert!(rt; one.live(steps) == other.live(steps));
    Ok(())
}

fn run<L: Ledger>(rt: &impl Abort, alloc: Global, blank: Blank) -> Result<(), Fail>
    requires name { blank.name ≡ L.name }
    requires parts { blank.parts ≡ L.parts }
    requires some { 0 < blank.parts }
{
    let steps = &mut Steps::<L>::none(blank);
    let mut linked = Linked::opening(alloc)?;
    let mut flat = Flat::opening(alloc)?;
    let url = Canon::read(alloc, "https://a.example/")?;
    let page = linked.insert_page(url.text(), None, steps)?;
    assert!(rt; flat.insert_page(url.text(), None, steps)? == page);
    try_all(rt, &mut linked, &mut flat, page, steps)
}

#[test]
fn visits_come_and_go_as_over_vectors(rt: HostRuntime) -> Result<(), Fail> {
    run::<Brand>(&rt, rt.alloc(), Blank::new(1))
}
