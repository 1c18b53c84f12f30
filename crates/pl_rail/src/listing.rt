// The list of an owner, looked for along links that may name anything.
ghost use Rattle.std.specs.Prelude.{◌≡◌, ◌≤◌, ◌+◌, ◌*◌, List, length, IfOk, IfSome, IsSome};
ghost use Rattle.pl_base.specs.declared.id.Slot.{Slot as Number};
ghost use Rattle.pl_rail.specs.declared.owner.Side.TheVariants as sides;
ghost use Rattle.pl_rail.specs.Rails as rails;
ghost use Rattle.pl_slot.specs.Arena as held;

use crate::members::is_member;
use crate::owner::{Owner, Side};
use crate::sides::{end, neighbour};
use pl_base::{NoMemory, Slot, Steps};
use pl_slot::{Arena, Rail};
use std::alloc::Global;
use std::sync::ledger::Ledger;

/// The list of an owner, in order. The rail has this owner, and links may name anything. `None`
/// comes exactly where they make no list: some number is not that of a slot of the members' kind,
/// or a member does not name the one before it, or the owner not the last one. It counts three
/// records for each member and two for the owner, and never more than three for each live slot and
/// four.
pub fn listed<L: Ledger>(
    alloc: Global,
    arena: &Arena,
    rail: Rail,
    owner: Owner,
    steps: &mut Steps<L>,
) -> Result<Option<Vec<Slot>>, NoMemory>
    requires owner { IsSome (rails.end_at sides.Behind rail owner arena.now) }
    ensures found { IfOk result (λ found. IfSome found (λ slots.
        rails.Lists rail owner slots.items arena.now)) }
    ensures none { IfOk result (λ found. found ≡ None
        → (slots : List Number) → rails.Lists rail owner slots arena.now → ⊥) }
    ensures counted { IfOk result (λ found. IfSome found (λ slots.
        steps.new ≤ steps.old + 3 * length slots.items + 2)) }
    ensures few { steps.new ≤ steps.old + 3 * held.live_count arena.now + 4 }
{
    let mut slots = Vec::new(alloc);
    let mut last = Slot(0);
    let mut next = end(arena, rail, owner, Side::Behind, steps);
    while next.0 != 0 {
        let Some(behind) = behind(arena, rail, owner, last, next, steps) else {
            return Ok(None);
        };
        slots.push(next)?;
        last = next;
        next = behind;
    }
    let told = end(arena, rail, owner, Side::Before, steps);
    Ok(if told.0 == last.0 { Some(slots) } else { None })
}

// The slot behind another one, if the number is that of a member which names this one before it.
fn behind<L: Ledger>(
    arena: &Arena,
    rail: Rail,
    owner: Owner,
    before: Slot,
    slot: Slot,
    steps: &mut Steps<L>,
) -> Option<Slot>
    ensures some { IfSome result (λ next.
        rails.IsBetween rail owner before slot next arena.now) }
    ensures none { result ≡ None
        → (next : Number) → rails.IsBetween rail owner before slot next arena.now → ⊥ }
    ensures few { steps.new ≤ steps.old + 3 }
{
    if !is_member(arena, rail, owner, slot, steps) {
        return None;
    }
    let named = neighbour(arena, rail, owner, Side::Before, slot, steps);
    if named.0 != before.0 {
        return None;
    }
    Some(neighbour(arena, rail, owner, Side::Behind, slot, steps))
}
