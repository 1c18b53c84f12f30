// Changes of chains, by hand. Each list is read back by `listed`, and member by member.
ghost use Rattle.std.specs.Prelude.{◌≡◌, ◌<◌};

use crate::calls::{Chain, insert, leads_along, list, named_by, take_out};
use crate::stores::{VISITS, are, arena_of, chained, sixteen};
use pl_base::{NoMemory, Slot, Steps};
use pl_rail::{Owner, Side};
use pl_slot::{Arena, LiveKind, Rail};
use std::alloc::Global;
use std::marker::Brand;
use std::process::Abort;
use std::sync::ledger::{Blank, Ledger};
use std::test::Fail;

// A change of a chain: a slot comes behind another one, or in front of all behind 0; or it goes.
#[derive(Clone, Copy, Debug)]
enum Change {
    Comes(u32, u32),
    Goes(u32),
}

use Change::{Comes, Goes};

// The members before, the change, and those after.
const CASES: &[(&[u32], Change, &[u32])] = &[
    // in front
    (&[], Comes(0, 4), &[4]),
    (&[3], Comes(0, 4), &[4, 3]),
    (&[3, 5], Comes(0, 4), &[4, 3, 5]),
    // in the middle
    (&[3, 5], Comes(3, 4), &[3, 4, 5]),
    (&[1, 5, 16], Comes(5, 4), &[1, 5, 4, 16]),
    // at the end
    (&[3], Comes(3, 4), &[3, 4]),
    (&[3, 5], Comes(5, 16), &[3, 5, 16]),
    // the first one
    (&[3, 5], Goes(3), &[5]),
    (&[16, 5, 4], Goes(16), &[5, 4]),
    // the last one
    (&[3, 5], Goes(5), &[3]),
    (&[16, 5, 4], Goes(4), &[16, 5]),
    // the only one
    (&[5], Goes(5), &[]),
    // one in the middle
    (&[3, 4, 5], Goes(4), &[3, 5]),
    (&[1, 6, 5, 16], Goes(5), &[1, 6, 16]),
];

fn lists<L: Ledger>(
    rt: &impl Abort,
    alloc: Global,
    arena: &Arena,
    chain: Chain,
    want: &[u32],
    steps: &mut Steps<L>,
) -> Result<bool, NoMemory> {
    match list(rt, alloc, arena, chain, steps)? {
        Some(slots) => Ok(are(&slots, want)),
        None => Ok(false),
    }
}

// Sees that a chain has these members.
fn check<L: Ledger>(
    rt: &impl Abort,
    alloc: Global,
    arena: &Arena,
    chain: Chain,
    want: &[u32],
    steps: &mut Steps<L>,
) -> Result<(), NoMemory> {
    let is_list = lists(rt, alloc, arena, chain, want, steps)?;
    assert!(rt; is_list, "{chain:?} {want:?}");
    assert!(rt;
        leads_along(rt, arena, chain, want, steps),
        "{chain:?} {want:?}"
    );
    Ok(())
}

// Makes a change. The links of a member that went are 0.
fn make<L: Ledger>(
    rt: &impl Abort,
    alloc: Global,
    arena: &mut Arena,
    chain: Chain,
    by: Change,
    steps: &mut Steps<L>,
) -> Result<(), NoMemory> {
    match by {
        Comes(0, slot) => insert(rt, alloc, arena, chain, None, Slot(slot), steps)?,
        Comes(after, slot) => {
            insert(
                rt,
                alloc,
                arena,
                chain,
                Some(Slot(after)),
                Slot(slot),
                steps,
            )?
        }
        Goes(slot) => {
            take_out(rt, alloc, arena, chain, Slot(slot), steps)?;
            let before = named_by(rt, arena, chain, Side::Before, Slot(slot), steps);
            let behind = named_by(rt, arena, chain, Side::Behind, Slot(slot), steps);
            assert!(rt; before.0 == 0 && behind.0 == 0, "{chain:?} {slot}");
        }
    }
    Ok(())
}

// Makes a change, and sees that a chain has these members then.
fn change_to<L: Ledger>(
    rt: &impl Abort,
    alloc: Global,
    arena: &mut Arena,
    chain: Chain,
    by: Change,
    want: &[u32],
    steps: &mut Steps<L>,
) -> Result<(), NoMemory> {
    make(rt, alloc, arena, chain, by, steps)?;
    check(rt, alloc, arena, chain, want, steps)
}

fn check_case<L: Ledger>(
    rt: &impl Abort,
    alloc: Global,
    arena: &mut Arena,
    case: &(&[u32], Change, &[u32]),
    steps: &mut Steps<L>,
) -> Result<(), NoMemory> {
    let (old, by, new) = *case;
    check(rt, alloc, arena, VISITS, old, steps)?;
    change_to(rt, alloc, arena, VISITS, by, new, steps)
}

fn check_cases<L: Ledger>(rt: &impl Abort, alloc: Global, blank: Blank) -> Result<(), Fail>
    requires name { blank.name ≡ L.name }
    requires parts { blank.parts ≡ L.parts }
    requires some { 0 < blank.parts }
{
    let steps = &mut Steps::<L>::none(blank);
    for case in CASES {
        let mut arena = chained(alloc, case.0)?;
        check_case(rt, alloc, &mut arena, case, steps)?;
    }
    Ok(())
}

#[test]
fn changes_a_list_by_one_member(rt: HostRuntime) -> Result<(), Fail> {
    check_cases::<Brand>(&rt, rt.alloc(), Blank::new(1))
}

fn change_row<L: Ledger>(
    rt: &impl Abort,
    alloc: Global,
    arena: &mut Arena,
    steps: &mut Steps<L>,
) -> Result<(), NoMemory> {
    change_to(rt, alloc, arena, VISITS, Comes(0, 4), &[4, 3, 5], steps)?;
    change_to(rt, alloc, arena, VISITS, Goes(3), &[4, 5], steps)
}

fn check_row<L: Ledger>(rt: &impl Abort, alloc: Global, blank: Blank) -> Result<(), Fail>
    requires name { blank.name ≡ L.name }
    requires parts { blank.parts ≡ L.parts }
    requires some { 0 < blank.parts }
{
    let steps = &mut Steps::<L>::none(blank);
    let mut arena = chained(alloc, &[3, 5])?;
    change_row(rt, alloc, &mut arena, steps)?;
    Ok(())
}

#[test]
fn puts_4_before_3_and_5_and_takes_3_out(rt: HostRuntime) -> Result<(), Fail> {
    check_row::<Brand>(&rt, rt.alloc(), Blank::new(1))
}

// All visits.
const LIVE: Chain = Chain {
    rail: Rail::Live,
    owner: Owner::Header(LiveKind::Visit),
};

// Those that came from the visit in slot 6.
const TARGETS: Chain = Chain {
    rail: Rail::Targets,
    owner: Owner::At(Slot(6)),
};

// Changes one after another, each with what all visits are then, those of the page, and those that
// came from the visit. The visit in slot 4 stands in all three chains until it leaves one by one.
const CHANGES: &[(Chain, Change, [&[u32]; 3])] = &[
    (LIVE, Comes(0, 3), [&[3], &[], &[]]),
    (LIVE, Comes(3, 4), [&[3, 4], &[], &[]]),
    (LIVE, Comes(4, 5), [&[3, 4, 5], &[], &[]]),
    (VISITS, Comes(0, 4), [&[3, 4, 5], &[4], &[]]),
    (VISITS, Comes(0, 5), [&[3, 4, 5], &[5, 4], &[]]),
    (TARGETS, Comes(0, 4), [&[3, 4, 5], &[5, 4], &[4]]),
    (TARGETS, Comes(4, 3), [&[3, 4, 5], &[5, 4], &[4, 3]]),
    (LIVE, Goes(3), [&[4, 5], &[5, 4], &[4, 3]]),
    (VISITS, Goes(4), [&[4, 5], &[5], &[4, 3]]),
    (VISITS, Comes(0, 4), [&[4, 5], &[4, 5], &[4, 3]]),
    (TARGETS, Goes(4), [&[4, 5], &[4, 5], &[3]]),
    (LIVE, Goes(4), [&[5], &[4, 5], &[3]]),
];

fn check_three<L: Ledger>(
    rt: &impl Abort,
    alloc: Global,
    arena: &Arena,
    want: &[&[u32]; 3],
    steps: &mut Steps<L>,
) -> Result<(), NoMemory> {
    check(rt, alloc, arena, LIVE, want[0], steps)?;
    check(rt, alloc, arena, VISITS, want[1], steps)?;
    check(rt, alloc, arena, TARGETS, want[2], steps)
}

fn change_three<L: Ledger>(
    rt: &impl Abort,
    alloc: Global,
    arena: &mut Arena,
    change: &(Chain, Change, [&[u32]; 3]),
    steps: &mut Steps<L>,
) -> Result<(), NoMemory> {
    make(rt, alloc, arena, change.0, change.1, steps)?;
    check_three(rt, alloc, arena, &change.2, steps)
}

fn check_changes<L: Ledger>(rt: &impl Abort, alloc: Global, blank: Blank) -> Result<(), Fail>
    requires name { blank.name ≡ L.name }
    requires parts { blank.parts ≡ L.parts }
    requires some { 0 < blank.parts }
{
    let steps = &mut Steps::<L>::none(blank);
    let mut arena = arena_of(sixteen(alloc)?)?;
    for change in CHANGES {
        change_three(rt, alloc, &mut arena, change, steps)?;
    }
    Ok(())
}

#[test]
fn a_change_of_one_chain_leaves_two_others(rt: HostRuntime) -> Result<(), Fail> {
    check_changes::<Brand>(&rt, rt.alloc(), Blank::new(1))
}

// A chain, and two slots that may be its members.
const RAILS: &[(Rail, Owner, u32, u32)] = &[
    (Rail::Live, Owner::Header(LiveKind::Origin), 8, 14),
    (Rail::Live, Owner::Header(LiveKind::Place), 7, 13),
    (Rail::Live, Owner::Header(LiveKind::Visit), 16, 1),
    (Rail::Live, Owner::Header(LiveKind::Item), 9, 12),
    (Rail::OriginPages, Owner::At(Slot(8)), 13, 2),
    (Rail::PageVisits, Owner::At(Slot(7)), 1, 16),
    (Rail::Targets, Owner::At(Slot(1)), 3, 6),
    (Rail::Children, Owner::At(Slot(9)), 12, 10),
    (Rail::References, Owner::At(Slot(13)), 11, 10),
];

fn change_rail<L: Ledger>(
    rt: &impl Abort,
    alloc: Global,
    arena: &mut Arena,
    of: &(Rail, Owner, u32, u32),
    steps: &mut Steps<L>,
) -> Result<(), NoMemory> {
    let (rail, owner, first, second) = *of;
    let chain = Chain { rail, owner };
    let both = [first, second];
    check(rt, alloc, arena, chain, &[], steps)?;
    change_to(rt, alloc, arena, chain, Comes(0, second), &both[1..], steps)?;
    change_to(rt, alloc, arena, chain, Comes(0, first), &both, steps)?;
    change_to(rt, alloc, arena, chain, Goes(second), &both[..1], steps)?;
    change_to(rt, alloc, arena, chain, Goes(first), &[], steps)
}

fn check_rails<L: Ledger>(rt: &impl Abort, alloc: Global, blank: Blank) -> Result<(), Fail>
    requires name { blank.name ≡ L.name }
    requires parts { blank.parts ≡ L.parts }
    requires some { 0 < blank.parts }
{
    let steps = &mut Steps::<L>::none(blank);
    let mut arena = arena_of(sixteen(alloc)?)?;
    for of in RAILS {
        change_rail(rt, alloc, &mut arena, of, steps)?;
    }
    Ok(())
}

#[test]
fn each_rail_has_chains(rt: HostRuntime) -> Result<(), Fail> {
    check_rails::<Brand>(&rt, rt.alloc(), Blank::new(1))
}
