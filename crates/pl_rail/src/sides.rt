// The neighbours of a slot in a chain, read and set. The owner stands there as the slot 0.
ghost use Rattle.std.specs.Prelude.{◌≡◌, ◌+◌, ◌==◌, Some, IsSome};
ghost use Rattle.pl_rail.specs.declared.owner.Side.TheVariants as sides;
ghost use Rattle.pl_rail.specs.Rails as rails;
ghost use Rattle.pl_sheets.specs.Sheets.{page_count};
ghost use Rattle.pl_slot.specs.Arena as held;
ghost use Rattle.pl_slot.specs.Header as header;

use crate::owner::{Owner, Side};
use pl_base::{Slot, Steps};
use pl_slot::{Arena, LiveKind, Rail};
use std::sync::ledger::Ledger;

/// Whether a number names no slot.
pub fn is_none(slot: Slot) -> bool
    ensures { result ≡ (slot.0 == 0) }
{
    slot.0 == 0
}

/// The slot at a side of another one, or of the owner. It counts a record that is read.
pub fn neighbour<L: Ledger>(
    arena: &Arena,
    rail: Rail,
    owner: Owner,
    side: Side,
    slot: Slot,
    steps: &mut Steps<L>,
) -> Slot
    requires there { IsSome (rails.neighbour side rail owner arena.now slot) }
    ensures named { rails.neighbour side rail owner arena.now slot ≡ Some result }
    ensures counted { steps.new ≡ steps.old + 1 }
{
    if is_none(slot) {
        end(arena, rail, owner, side, steps)
    } else {
        arena.link(slot, rail, side.side_link(), steps)
    }
}

/// The first member of an owner, or the last one, 0 where it has none.
pub fn end<L: Ledger>(
    arena: &Arena,
    rail: Rail,
    owner: Owner,
    side: Side,
    steps: &mut Steps<L>,
) -> Slot
    requires there { IsSome (rails.end_at side rail owner arena.now) }
    ensures named { rails.end_at side rail owner arena.now ≡ Some result }
    ensures counted { steps.new ≡ steps.old + 1 }
{
    match owner {
        Owner::Header(kind) => {
            steps.tick();
            header_end(arena, kind, side)
        }
        Owner::At(slot) => arena.link(slot, rail, side.end_link(), steps),
    }
}

fn header_end(arena: &Arena, kind: LiveKind, side: Side) -> Slot
    ensures { result ≡ rails.end_in side (header.ends_of kind (held.header_of arena.now)) }
{
    match side {
        Side::Behind => arena.first_of(kind),
        Side::Before => arena.last_of(kind),
    }
}

/// Makes two slots neighbours, or one the first or the last of the owner's.
pub fn join(arena: &mut Arena, rail: Rail, owner: Owner, slot: Slot, next: Slot)
    requires forth { IsSome (rails.neighbour sides.Behind rail owner arena.old slot) }
    requires back { IsSome (rails.neighbour sides.Before rail owner arena.old next) }
    ensures { rails.Joins rail owner slot next arena.old arena.new }
{
    set_neighbour(arena, rail, owner, Side::Behind, slot, next);
    set_neighbour(arena, rail, owner, Side::Before, next, slot);
}

/// Makes a slot the neighbour of another at a side.
pub fn set_neighbour(arena: &mut Arena, rail: Rail, owner: Owner, side: Side, slot: Slot, to: Slot)
    requires there { IsSome (rails.neighbour side rail owner arena.old slot) }
    ensures { rails.SetsSide side rail owner slot to arena.old arena.new }
{
    if is_none(slot) {
        set_end(arena, rail, owner, side, to);
    } else {
        arena.set_link(slot, rail, side.side_link(), to);
    }
}

// Makes a slot the first of the owner's, or the last.
fn set_end(arena: &mut Arena, rail: Rail, owner: Owner, side: Side, to: Slot)
    requires there { IsSome (rails.end_at side rail owner arena.old) }
    ensures { rails.SetsSide side rail owner rails.none to arena.old arena.new }
{
    match owner {
        Owner::Header(kind) => set_header_end(arena, kind, side, to),
        Owner::At(slot) => arena.set_link(slot, rail, side.end_link(), to),
    }
}

fn set_header_end(arena: &mut Arena, kind: LiveKind, side: Side, to: Slot)
    ensures set { held.SetsHeader (rails.with_end side kind to) arena.old arena.new }
    ensures as_many { page_count arena.new ≡ page_count arena.old }
{
    match side {
        Side::Behind => arena.set_first_of(kind, to),
        Side::Before => arena.set_last_of(kind, to),
    }
}
