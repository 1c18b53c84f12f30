//! Calls on rails. Each asks first for what the call takes for granted: that an owner has a list is
//! what `listed` says of it.
ghost use Rattle.std.specs.Prelude.{◌≡◌, Ok, true, IfOk, IfSome, IsSome};
ghost use Rattle.pl_rail.specs.declared.owner.Side.TheVariants as sides;
ghost use Rattle.pl_rail.specs.Rails as rails;
ghost use Rattle.pl_slot.specs.declared.links.Link.TheVariants as link;
ghost use Rattle.pl_slot.specs.Links as links;
ghost use Rattle.trials_rails.specs.Asked as asked;

use pl_base::{NoMemory, Slot, Steps};
use pl_rail::{Owner, Side, first, insert_after, is_member, listed, next, unlink};
use pl_slot::{Arena, Link, Rail, SlotKind};
use std::alloc::Global;
use std::process::Abort;
use std::sync::ledger::Ledger;

/// A chain: its rail, and its owner.
#[derive(Clone, Copy, Debug)]
pub struct Chain {
    pub rail: Rail,
    pub owner: Owner,
}

// Whether slots of the kind have chains of the rail.
fn has_ends(rail: Rail, kind: SlotKind) -> bool
    ensures { result ≡ true → IsSome (links.ends_at rail kind) }
{
    match rail {
        Rail::Live => false,
        Rail::OriginPages => kind == SlotKind::Origin,
        Rail::PageVisits | Rail::References => kind == SlotKind::Place,
        Rail::Targets => kind == SlotKind::Visit,
        Rail::Children => kind == SlotKind::Item,
    }
}

fn is_owner<L: Ledger>(arena: &Arena, rail: Rail, slot: Slot, steps: &mut Steps<L>) -> bool
    ensures { result ≡ true → IsSome (links.link_at rail link.First slot.0 arena.now) }
{
    if slot.0 == 0 || slot.0 > 8 * (arena.pages() - 2) {
        return false;
    }
    has_ends(rail, arena.read(slot, steps).kind())
}

// Whether the rail has this owner.
fn has_owner<L: Ledger>(arena: &Arena, chain: Chain, steps: &mut Steps<L>) -> bool
    ensures { result ≡ true
        → IsSome (rails.end_at sides.Behind chain.rail chain.owner arena.now) }
{
    match chain.owner {
        Owner::Header(_) => chain.rail == Rail::Live,
        Owner::At(slot) => is_owner(arena, chain.rail, slot, steps),
    }
}

/// The list of an owner, if links make one.
pub fn list<L: Ledger>(
    rt: &impl Abort,
    alloc: Global,
    arena: &Arena,
    chain: Chain,
    steps: &mut Steps<L>,
) -> Result<Option<Vec<Slot>>, NoMemory>
    ensures { IfOk result (λ found. IfSome found (λ slots.
        rails.Lists chain.rail chain.owner slots.items arena.now)) }
{
    assert!(rt; has_owner(arena, chain, steps));
    listed(alloc, arena, chain.rail, chain.owner, steps)
}

/// The slot that one which may be a member names at a side.
pub fn named_by<L: Ledger>(
    rt: &impl Abort,
    arena: &Arena,
    chain: Chain,
    side: Side,
    slot: Slot,
    steps: &mut Steps<L>,
) -> Slot {
    assert!(rt; is_member(arena, chain.rail, chain.owner, slot, steps));
    arena.link(slot, chain.rail, side.side_link(), steps)
}

/// Whether `first` and `next` give these members in order, and no more.
pub fn leads_along<L: Ledger>(
    rt: &impl Abort,
    arena: &Arena,
    chain: Chain,
    members: &[u32],
    steps: &mut Steps<L>,
) -> bool {
    assert!(rt; has_owner(arena, chain, steps));
    let mut met = first(arena, chain.rail, chain.owner, steps);
    for member in members {
        let Some(slot) = met else {
            return false;
        };
        if slot.0 != *member {
            return false;
        }
        assert!(rt; is_member(arena, chain.rail, chain.owner, slot, steps));
        met = next(arena, chain.rail, slot, steps);
    }
    met.is_none()
}

// Whether a front of the slots ends there.
fn has_front(slots: &[Slot], after: Option<Slot>) -> bool
    ensures { result ≡ true → asked.HasFront after slots.now }
{
    match after {
        Some(slot) => slots.contains(&slot),
        None => true,
    }
}

fn has_place<L: Ledger>(
    rt: &impl Abort,
    alloc: Global,
    arena: &Arena,
    chain: Chain,
    after: Option<Slot>,
    steps: &mut Steps<L>,
) -> Result<bool, NoMemory>
    ensures { result ≡ Ok true → rails.HasPlace chain.rail chain.owner after arena.now }
{
    match list(rt, alloc, arena, chain, steps)? {
        Some(slots) => Ok(has_front(&slots, after)),
        None => Ok(false),
    }
}

// Whether the slot may be a member, and names itself as the one before it, and none behind. No
// member of a chain does so.
fn is_apart<L: Ledger>(arena: &Arena, chain: Chain, slot: Slot, steps: &mut Steps<L>) -> bool
    ensures { result ≡ true → asked.MayCome chain.rail chain.owner slot arena.now }
{
    if !is_member(arena, chain.rail, chain.owner, slot, steps) {
        return false;
    }
    let before = arena.link(slot, chain.rail, Link::Previous, steps);
    let behind = arena.link(slot, chain.rail, Link::Next, steps);
    before.0 == slot.0 && behind.0 == 0
}

/// Puts a slot, which names none, into a chain.
pub fn insert<L: Ledger>(
    rt: &impl Abort,
    alloc: Global,
    arena: &mut Arena,
    chain: Chain,
    after: Option<Slot>,
    slot: Slot,
    steps: &mut Steps<L>,
) -> Result<(), NoMemory> {
    assert!(rt; is_member(arena, chain.rail, chain.owner, slot, steps));
    let before = arena.link(slot, chain.rail, Link::Previous, steps);
    assert!(rt; before.0 == 0);
    arena.set_link(slot, chain.rail, Link::Previous, slot);
    let may = has_place(rt, alloc, arena, chain, after, steps)?;
    assert!(rt; may);
    assert!(rt; is_apart(arena, chain, slot, steps));
    insert_after(arena, chain.rail, chain.owner, after, slot, steps);
    Ok(())
}

fn has_member<L: Ledger>(
    rt: &impl Abort,
    alloc: Global,
    arena: &Arena,
    chain: Chain,
    slot: Slot,
    steps: &mut Steps<L>,
) -> Result<bool, NoMemory>
    ensures { result ≡ Ok true → rails.HasMember chain.rail chain.owner slot arena.now }
{
    match list(rt, alloc, arena, chain, steps)? {
        Some(slots) => Ok(slots.contains(&slot)),
        None => Ok(false),
    }
}

/// Takes a member out of a chain.
pub fn take_out<L: Ledger>(
    rt: &impl Abort,
    alloc: Global,
    arena: &mut Arena,
    chain: Chain,
    slot: Slot,
    steps: &mut Steps<L>,
) -> Result<(), NoMemory> {
    let may = has_member(rt, alloc, arena, chain, slot, steps)?;
    assert!(rt; may);
    unlink(arena, chain.rail, chain.owner, slot, steps);
    Ok(())
}
