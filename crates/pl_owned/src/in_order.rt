// Lists whose order is demanded.
ghost use Rattle.std.specs.Prelude.{◌≡◌, ◌≤◌, ◌+◌, ◌*◌, true, false, length, IfOk, IsSome};
ghost use Rattle.std.specs.List.{All, sum_by};
ghost use Rattle.pl_owned.specs.Owned.{owned_by, reads};
ghost use Rattle.pl_rail.specs.declared.owner.Owner.TheVariants.{At};
ghost use Rattle.pl_rail.specs.declared.owner.Side.TheVariants as sides;
ghost use Rattle.pl_rail.specs.Rails as rails;
ghost use Rattle.pl_slot.specs.Arena as held;

use crate::owned::{Member, Owned};
use crate::slots::slot_count;
use pl_base::{NoMemory, Slot, Steps};
use pl_rail::{Owner, listed};
use pl_slot::{Arena, Rail};
use std::alloc::Global;
use std::sync::ledger::Ledger;

/// Whether the links of each owner make the list of the members that name it, in the order in which
/// they come. The rail has these owners, and links may name anything. It passes over the members
/// once, and then reads the chain of one owner after another, up to the first that is another list.
/// It takes the memory of a vector for each slot.
pub fn are_listed<L: Ledger>(
    alloc: Global,
    arena: &Arena,
    rail: Rail,
    owners: &[Slot],
    members: &[Member],
    steps: &mut Steps<L>,
) -> Result<bool, NoMemory>
    requires owners { All (λ o. IsSome (rails.end_at sides.Behind rail (At o) arena.now))
        owners.now }
    requires members { All (λ m. m.owner.0 ≤ held.slot_count arena.now) members.now }
    ensures yes { IfOk result (λ yes. yes ≡ true
        → All (λ o. rails.Lists rail (At o) (owned_by members.now o) arena.now) owners.now) }
    ensures no { IfOk result (λ yes. yes ≡ false
        → All (λ o. rails.Lists rail (At o) (owned_by members.now o) arena.now) owners.now → ⊥) }
    ensures few { steps.new ≤ steps.old + sum_by (reads members.now) owners.now
        + 3 * held.live_count arena.now + 4 }
{
    let owned = Owned::of(alloc, slot_count(arena) as usize + 1, members)?;
    for owner in owners {
        if !is_listed(alloc, arena, rail, *owner, owned.list(*owner), steps)? {
            return Ok(false);
        }
    }
    Ok(true)
}

// Whether an owner's links make this list.
fn is_listed<L: Ledger>(
    alloc: Global,
    arena: &Arena,
    rail: Rail,
    owner: Slot,
    wanted: &[Slot],
    steps: &mut Steps<L>,
) -> Result<bool, NoMemory>
    requires { IsSome (rails.end_at sides.Behind rail (At owner) arena.now) }
    ensures yes { IfOk result (λ yes. yes ≡ true
        → rails.Lists rail (At owner) wanted.now arena.now) }
    ensures no { IfOk result (λ yes. yes ≡ false
        → rails.Lists rail (At owner) wanted.now arena.now → ⊥) }
    ensures counted { IfOk result (λ yes. yes ≡ true
        → steps.new ≤ steps.old + 3 * length wanted.now + 2) }
    ensures few { steps.new ≤ steps.old + 3 * held.live_count arena.now + 4 }
{
    let found = listed(alloc, arena, rail, Owner::At(owner), steps)?;
    Ok(match found {
        Some(slots) => slots.as_slice() == wanted,
        None => false,
    })
}
