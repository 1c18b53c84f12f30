// Which slots may be members of a chain.
ghost use Rattle.std.specs.Prelude.{◌≡◌, ◌+◌, ◌≤◌};
ghost use Rattle.pl_base.specs.declared.id.Slot.{Slot as Number};
ghost use Rattle.pl_rail.specs.declared.owner.Owner.TheVariants as owners;
ghost use Rattle.pl_rail.specs.Rails as rails;
ghost use Rattle.pl_slot.specs.declared.links.Rail.TheVariants.{Live};
ghost use Rattle.pl_slot.specs.Arena as slots;

use crate::owner::Owner;
use pl_base::{PAGE_SIZE, Slot, Steps};
use pl_slot::{Arena, LiveKind, Rail, SLOT_SIZE, SlotKind};
use std::sync::ledger::Ledger;

const SLOTS_A_PAGE: u32 = (PAGE_SIZE / SLOT_SIZE) as u32;

/// Whether a number is that of a slot which may be a member of an owner's chain. It counts a record
/// if it is that of a slot.
pub fn is_member<L: Ledger>(
    arena: &Arena,
    rail: Rail,
    owner: Owner,
    slot: Slot,
    steps: &mut Steps<L>,
) -> bool
    ensures member { result ≡ rails.is_member rail owner arena.now slot }
    ensures few { steps.new ≤ steps.old + 1 }
{
    if !is_slot(arena, slot) {
        return false;
    }
    let kind = arena.read(slot, steps).kind();
    is_kind(kind, member_kind(rail, owner))
}

// Whether a number is that of a slot.
fn is_slot(arena: &Arena, slot: Slot) -> bool
    ensures { result ≡ slots.is_slot slot.0 arena.now }
{
    let count = SLOTS_A_PAGE * (arena.pages() - 2);
    1 <= slot.0 && slot.0 <= count
}

fn is_kind(kind: SlotKind, wanted: Option<SlotKind>) -> bool
    ensures { result ≡ rails.is_kind (Some kind) wanted }
{
    match wanted {
        Some(wanted) => kind.number() == wanted.number(),
        None => false,
    }
}

// What the members of an owner's chain are, if the rail has such owners.
fn member_kind(rail: Rail, owner: Owner) -> Option<SlotKind>
    ensures { result ≡ rails.member_kind rail owner }
{
    match owner {
        Owner::Header(kind) => header_members(rail, kind),
        Owner::At(_) => slot_members(rail),
    }
}

fn header_members(rail: Rail, kind: LiveKind) -> Option<SlotKind>
    ensures { result ≡ rails.member_kind rail (owners.Header kind) }
{
    match rail {
        Rail::Live => Some(live_slots(kind)),
        Rail::OriginPages | Rail::PageVisits | Rail::Targets | Rail::Children | Rail::References =>
            None,
    }
}

fn live_slots(kind: LiveKind) -> SlotKind
    ensures { result ≡ rails.live_slots kind }
{
    match kind {
        LiveKind::Origin => SlotKind::Origin,
        LiveKind::Place => SlotKind::Place,
        LiveKind::Visit => SlotKind::Visit,
        LiveKind::Item => SlotKind::Item,
    }
}

fn slot_members(rail: Rail) -> Option<SlotKind>
    ensures { (slot : Number) → result ≡ rails.member_kind rail (owners.At slot) }
{
    match rail {
        Rail::Live => None,
        Rail::OriginPages => Some(SlotKind::Place),
        Rail::PageVisits | Rail::Targets => Some(SlotKind::Visit),
        Rail::Children | Rail::References => Some(SlotKind::Item),
    }
}
