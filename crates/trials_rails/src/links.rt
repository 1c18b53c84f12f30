// Which links make a list, by hand.
ghost use Rattle.std.specs.Prelude.{◌≡◌, ◌<◌};

use crate::calls::{Chain, list};
use crate::stores::{
    FIRST, LAST, NEXT, Named, PREVIOUS, VISITS, are, arena_of, link, name, sixteen,
};
use pl_base::{NoMemory, Slot, Steps};
use pl_rail::Owner;
use pl_slot::{Arena, Rail, SLOT_SIZE};
use std::alloc::Global;
use std::marker::Brand;
use std::process::Abort;
use std::sync::ledger::{Blank, Ledger};
use std::test::Fail;
use trials_arenas::{blank, put};

const MOST: u32 = u32::MAX;

// The visits of the page in slot 2 are 3, 4, 5, but for these links; and its list.
const LISTS: &[(&[Named], &[u32])] = &[
    (&[], &[3, 4, 5]),
    (&[(2, FIRST, 0), (2, LAST, 0)], &[]),
    (
        &[(5, NEXT, 16), (16, PREVIOUS, 5), (2, LAST, 16)],
        &[3, 4, 5, 16],
    ),
    (
        &[(5, NEXT, 1), (1, PREVIOUS, 5), (2, LAST, 1)],
        &[3, 4, 5, 1],
    ),
];

// Links by which it has no list, though each names a visit or none.
const NO_LISTS: &[&[Named]] = &[
    // loops: to the first one, the second, the last, and to the first as each link tells
    &[(5, NEXT, 3)],
    &[(5, NEXT, 4)],
    &[(5, NEXT, 5)],
    &[(5, NEXT, 3), (3, PREVIOUS, 5)],
    // a previous link that lies
    &[(3, PREVIOUS, 6)],
    &[(4, PREVIOUS, 5)],
    &[(5, PREVIOUS, 0)],
    // a last that is not the end
    &[(2, LAST, 4)],
    &[(2, LAST, 6)],
    &[(2, LAST, 0)],
    &[(2, FIRST, 0)],
    // 0 in the middle
    &[(3, NEXT, 0)],
];

// Links that name no visit.
const NO_MEMBERS: &[&[Named]] = &[
    // a page among them, and an item at the end
    &[
        (3, NEXT, 7),
        (7, PREVIOUS, 3),
        (7, NEXT, 5),
        (5, PREVIOUS, 7),
    ],
    &[(5, NEXT, 9), (9, PREVIOUS, 5), (2, LAST, 9)],
    // a free slot
    &[(4, NEXT, 15)],
    &[(2, FIRST, 15), (2, LAST, 15)],
    // no slot: the greatest number, and the one past the last slot
    &[(3, NEXT, MOST)],
    &[(2, FIRST, MOST), (2, LAST, MOST)],
    &[(5, NEXT, 17), (2, LAST, 17)],
];

// The arena in which the visits of the page in slot 2 are 3, 4, 5 but for these links.
fn linked(alloc: Global, links: &[Named]) -> Result<Arena, Fail> {
    let mut bytes = sixteen(alloc)?;
    link(&mut bytes, &[3, 4, 5])?;
    for named in links {
        name(&mut bytes, *named)?;
    }
    arena_of(bytes)
}

// Whether the list of a chain is this one, or there is none.
fn lists<L: Ledger>(
    rt: &impl Abort,
    alloc: Global,
    arena: &Arena,
    chain: Chain,
    want: Option<&[u32]>,
    steps: &mut Steps<L>,
) -> Result<bool, NoMemory> {
    match list(rt, alloc, arena, chain, steps)? {
        Some(slots) => Ok(is_wanted(&slots, want)),
        None => Ok(want.is_none()),
    }
}

fn is_wanted(slots: &[Slot], want: Option<&[u32]>) -> bool {
    match want {
        Some(want) => are(slots, want),
        None => false,
    }
}

fn check<L: Ledger>(
    rt: &impl Abort,
    alloc: Global,
    links: &[Named],
    page: u32,
    want: Option<&[u32]>,
    steps: &mut Steps<L>,
) -> Result<(), Fail> {
    let arena = linked(alloc, links)?;
    let chain = Chain {
        rail: Rail::PageVisits,
        owner: Owner::At(Slot(page)),
    };
    let is_right = lists(rt, alloc, &arena, chain, want, steps)?;
    assert!(rt; is_right, "{page} {links:?}");
    Ok(())
}

fn check_lists<L: Ledger>(rt: &impl Abort, alloc: Global, blank: Blank) -> Result<(), Fail>
    requires name { blank.name ≡ L.name }
    requires parts { blank.parts ≡ L.parts }
    requires some { 0 < blank.parts }
{
    let steps = &mut Steps::<L>::none(blank);
    for (links, want) in LISTS {
        check(rt, alloc, links, 2, Some(want), steps)?;
    }
    Ok(())
}

#[test]
fn lists_members_where_links_make_a_list(rt: HostRuntime) -> Result<(), Fail> {
    check_lists::<Brand>(&rt, rt.alloc(), Blank::new(1))
}

fn check_none<L: Ledger>(
    rt: &impl Abort,
    alloc: Global,
    cases: &[&[Named]],
    blank: Blank,
) -> Result<(), Fail>
    requires name { blank.name ≡ L.name }
    requires parts { blank.parts ≡ L.parts }
    requires some { 0 < blank.parts }
{
    let steps = &mut Steps::<L>::none(blank);
    for links in cases {
        check(rt, alloc, links, 2, None, steps)?;
    }
    Ok(())
}

#[test]
fn lists_none_where_links_lie(rt: HostRuntime) -> Result<(), Fail> {
    check_none::<Brand>(&rt, rt.alloc(), NO_LISTS, Blank::new(1))
}

#[test]
fn lists_none_where_links_name_no_member(rt: HostRuntime) -> Result<(), Fail> {
    check_none::<Brand>(&rt, rt.alloc(), NO_MEMBERS, Blank::new(1))
}

// The page in slot 7 names visits of the page in slot 2, which keeps its list: the second, the
// last, the first alone, and the second behind one of its own.
const OWNERS: &[&[Named]] = &[
    &[(7, FIRST, 4), (7, LAST, 5)],
    &[(7, FIRST, 5), (7, LAST, 5)],
    &[(7, FIRST, 3), (7, LAST, 3)],
    &[(7, FIRST, 6), (7, LAST, 5), (6, NEXT, 4)],
];

fn check_owners<L: Ledger>(rt: &impl Abort, alloc: Global, blank: Blank) -> Result<(), Fail>
    requires name { blank.name ≡ L.name }
    requires parts { blank.parts ≡ L.parts }
    requires some { 0 < blank.parts }
{
    let steps = &mut Steps::<L>::none(blank);
    for links in OWNERS {
        check(rt, alloc, links, 7, None, steps)?;
        check(rt, alloc, links, 2, Some(&[3, 4, 5]), steps)?;
    }
    Ok(())
}

#[test]
fn lists_no_member_for_a_second_owner(rt: HostRuntime) -> Result<(), Fail> {
    check_owners::<Brand>(&rt, rt.alloc(), Blank::new(1))
}

const MANY: u32 = 100_000;

// The bytes of visits and, in slot 2, of a page.
fn held(alloc: Global) -> Result<Vec<u8>, Fail> {
    let mut bytes = blank(alloc, 12_503, 0)?;
    for n in 0..100_008 {
        put(&mut bytes, 2048 + SLOT_SIZE * n, &[3, 1])?;
    }
    put(&mut bytes, 2048 + SLOT_SIZE, &[2, 0])?;
    Ok(bytes)
}

// Links many visits behind the page, from slot 3 on.
fn link_many(bytes: &mut [u8]) -> Result<(), Fail> {
    name(bytes, (2, FIRST, 3))?;
    name(bytes, (2, LAST, MANY + 2))?;
    for slot in 3..MANY + 2 {
        name(bytes, (slot, NEXT, slot + 1))?;
        name(bytes, (slot + 1, PREVIOUS, slot))?;
    }
    Ok(())
}

fn many(alloc: Global) -> Result<Arena, Fail> {
    let mut bytes = held(alloc)?;
    link_many(&mut bytes)?;
    arena_of(bytes)
}

fn are_many(slots: &[Slot]) -> bool {
    slots.len() == MANY as usize
        && slots
            .iter()
            .enumerate()
            .all(|(n, slot)| slot.0 as usize == n + 3)
}

fn check_many<L: Ledger>(rt: &impl Abort, alloc: Global, blank: Blank) -> Result<(), Fail>
    requires name { blank.name ≡ L.name }
    requires parts { blank.parts ≡ L.parts }
    requires some { 0 < blank.parts }
{
    let steps = &mut Steps::<L>::none(blank);
    let arena = many(alloc)?;
    let is_right = match list(rt, alloc, &arena, VISITS, steps)? {
        Some(slots) => are_many(&slots),
        None => false,
    };
    assert!(rt; is_right);
    Ok(())
}

#[test]
fn lists_many_members_in_one_pass(rt: HostRuntime) -> Result<(), Fail> {
    check_many::<Brand>(&rt, rt.alloc(), Blank::new(1))
}
