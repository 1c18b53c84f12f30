// The calls of all rails.
ghost use Rattle.std.specs.Prelude.{◌≡◌, ◌+◌, ◌∷◌, ◌++◌, List, Some, IsSome, true, false};
ghost use Rattle.pl_base.specs.declared.id.Slot.{Slot as Number};
ghost use Rattle.pl_rail.specs.declared.owner.Owner.{Owner as Has};
ghost use Rattle.pl_rail.specs.declared.owner.Side.TheVariants as sides;
ghost use Rattle.pl_rail.specs.Rails as rails;
ghost use Rattle.pl_slot.specs.declared.links.Link.TheVariants as link;
ghost use Rattle.pl_slot.specs.Links as links;

use crate::owner::{Owner, Side};
use crate::sides::{end, is_none, join, neighbour, set_neighbour};
use pl_base::{Slot, Steps};
use pl_slot::{Arena, Link, Rail};
use std::sync::ledger::Ledger;

/// The first member of an owner's chain. The rail has this owner.
pub fn first<L: Ledger>(
    arena: &Arena,
    rail: Rail,
    owner: Owner,
    steps: &mut Steps<L>,
) -> Option<Slot>
    requires owner { IsSome (rails.end_at sides.Behind rail owner arena.now) }
    ensures first { (slots : List Number) → rails.Lists rail owner slots arena.now
        → result ≡ rails.first_of slots }
    ensures counted { steps.new ≡ steps.old + 1 }
{
    named(end(arena, rail, owner, Side::Behind, steps))
}

/// The last member of an owner's chain. The rail has this owner.
pub fn last<L: Ledger>(
    arena: &Arena,
    rail: Rail,
    owner: Owner,
    steps: &mut Steps<L>,
) -> Option<Slot>
    requires owner { IsSome (rails.end_at sides.Before rail owner arena.now) }
    ensures last { (slots : List Number) → rails.Lists rail owner slots arena.now
        → result ≡ rails.last_of slots }
    ensures counted { steps.new ≡ steps.old + 1 }
{
    named(end(arena, rail, owner, Side::Before, steps))
}

/// The member behind another one of its chain. The slot is one that may be a member.
pub fn next<L: Ledger>(arena: &Arena, rail: Rail, slot: Slot, steps: &mut Steps<L>) -> Option<Slot>
    requires member { IsSome (links.link_at rail link.Next slot.0 arena.now) }
    ensures next { (owner : Has) (front back : List Number)
        → rails.Lists rail owner (front ++ slot ∷ back) arena.now → result ≡ rails.first_of back }
    ensures counted { steps.new ≡ steps.old + 1 }
{
    named(arena.link(slot, rail, Link::Next, steps))
}

// A slot, unless it is 0.
fn named(slot: Slot) -> Option<Slot>
    ensures { result ≡ rails.named slot }
{
    if is_none(slot) {
        return None;
    }
    Some(slot)
}

// The slot, or 0.
fn number(slot: Option<Slot>) -> Slot
    ensures { result ≡ rails.or_none slot }
{
    slot.unwrap_or(Slot(0))
}

/// Puts a slot into an owner's chain, behind this member or in front. The slot may be a member, and
/// stands in no chain of the rail. It counts a record that is read.
pub fn insert_after<L: Ledger>(
    arena: &mut Arena,
    rail: Rail,
    owner: Owner,
    after: Option<Slot>,
    slot: Slot,
    steps: &mut Steps<L>,
)
    requires place { rails.HasPlace rail owner after arena.old }
    requires member { rails.is_member rail owner arena.old slot ≡ true }
    requires free { (o : Has) (slots : List Number) → rails.Lists rail o slots arena.old
        → rails.is_in slot slots ≡ false }
    ensures list { (front back : List Number) → rails.Lists rail owner (front ++ back) arena.old
        → rails.last_of front ≡ after → rails.Lists rail owner (front ++ slot ∷ back) arena.new }
    ensures owners { (slots : List Number) → rails.Lists rail owner slots arena.old
        → rails.KeepsOwners rail owner slots arena.old arena.new }
    ensures others { rails.KeepsRails rail arena.old arena.new }
    ensures rest { rails.KeepsRest rail owner arena.old arena.new }
    ensures beside { (slots : List Number) → rails.Lists rail owner slots arena.old
        → rails.KeepsBeside rail slot slots arena.old arena.new }
    ensures pages { (front back : List Number) → rails.Lists rail owner (front ++ back) arena.old
        → rails.last_of front ≡ after
        → rails.ChangesAround owner front slot back arena.old arena.new }
    ensures counted { steps.new ≡ steps.old + 1 }
{
    let before = number(after);
    let behind = neighbour(arena, rail, owner, Side::Behind, before, steps);
    join(arena, rail, owner, before, slot);
    join(arena, rail, owner, slot, behind);
}

/// Takes a member out of an owner's chain. Its links name no slot then. It counts two records that
/// are read.
pub fn unlink<L: Ledger>(
    arena: &mut Arena,
    rail: Rail,
    owner: Owner,
    slot: Slot,
    steps: &mut Steps<L>,
)
    requires member { rails.HasMember rail owner slot arena.old }
    ensures list { (front back : List Number)
        → rails.Lists rail owner (front ++ slot ∷ back) arena.old
        → rails.Lists rail owner (front ++ back) arena.new }
    ensures before { links.link_at rail link.Previous slot.0 arena.new ≡ Some rails.none }
    ensures behind { links.link_at rail link.Next slot.0 arena.new ≡ Some rails.none }
    ensures owners { (slots : List Number) → rails.Lists rail owner slots arena.old
        → rails.KeepsOwners rail owner slots arena.old arena.new }
    ensures others { rails.KeepsRails rail arena.old arena.new }
    ensures rest { rails.KeepsRest rail owner arena.old arena.new }
    ensures beside { (slots : List Number) → rails.Lists rail owner slots arena.old
        → rails.KeepsBeside rail slot slots arena.old arena.new }
    ensures pages { (front back : List Number)
        → rails.Lists rail owner (front ++ slot ∷ back) arena.old
        → rails.ChangesAround owner front slot back arena.old arena.new }
    ensures counted { steps.new ≡ steps.old + 2 }
{
    let before = neighbour(arena, rail, owner, Side::Before, slot, steps);
    let behind = neighbour(arena, rail, owner, Side::Behind, slot, steps);
    join(arena, rail, owner, before, behind);
    set_neighbour(arena, rail, owner, Side::Before, slot, Slot(0));
    set_neighbour(arena, rail, owner, Side::Behind, slot, Slot(0));
}
