// Lists whose order is free.
ghost use Rattle.std.specs.Prelude.{◌≡◌, ◌≤◌, ◌+◌, ◌*◌, true, false, List, length, map};
ghost use Rattle.std.specs.Prelude.{IfOk, IfSome, IsSome};
ghost use Rattle.std.specs.List.{All, AllZip, sum_by};
ghost use Rattle.std.specs.List.Sorted.{IsNonDecreasingBy, IsPermutation};
ghost use Rattle.std.specs.Vec.{vec_items};
ghost use Rattle.pl_base.specs.declared.id.Slot.{Slot as Number};
ghost use Rattle.pl_owned.specs.Owned.{IsListed, reads};
ghost use Rattle.pl_rail.specs.declared.owner.Owner.TheVariants.{At};
ghost use Rattle.pl_rail.specs.declared.owner.Side.TheVariants as sides;
ghost use Rattle.pl_rail.specs.Rails as rails;
ghost use Rattle.pl_slot.specs.Arena as held;

use crate::owned::{Member, Owned};
use crate::slots::slot_count;
use pl_base::{NoMemory, Slot, Steps};
use pl_rail::{Owner, listed};
use pl_slot::{Arena, Rail};
use std::alloc::Global;
use std::sync::ledger::Ledger;

/// The lists that the links of the owners make, one for each owner in their order, if each has
/// exactly the members that name its owner, in any order. `None` comes where an owner's links make
/// no list, or one of other slots. The rail has these owners, and links may name anything. It
/// passes over the members once, and then reads the chain of one owner after another, up to the
/// first that has other slots; it sorts each list and what it compares it with. It takes the memory
/// of a vector for each slot.
pub fn listed_in_any_order<L: Ledger>(
    alloc: Global,
    arena: &Arena,
    rail: Rail,
    owners: &[Slot],
    members: &[Member],
    steps: &mut Steps<L>,
) -> Result<Option<Vec<Vec<Slot>>>, NoMemory>
    requires owners { All (λ o. IsSome (rails.end_at sides.Behind rail (At o) arena.now))
        owners.now }
    requires members { All (λ m. m.owner.0 ≤ held.slot_count arena.now) members.now }
    ensures found { IfOk result (λ found. IfSome found (λ lists.
        AllZip (IsListed rail members.now arena.now) owners.now (map vec_items lists.items))) }
    ensures none { IfOk result (λ found. found ≡ None → (lists : List (List Number))
        → AllZip (IsListed rail members.now arena.now) owners.now lists → ⊥) }
    ensures few { steps.new ≤ steps.old + sum_by (reads members.now) owners.now
        + 3 * held.live_count arena.now + 4 }
{
    let owned = Owned::of(alloc, slot_count(arena) as usize + 1, members)?;
    let mut lists = Vec::with_capacity(alloc, owners.len())?;
    for owner in owners {
        match listed_as(alloc, arena, rail, *owner, owned.list(*owner), steps)? {
            Some(slots) => lists.push(slots)?,
            None => return Ok(None),
        }
    }
    Ok(Some(lists))
}

// The list that an owner's links make, if it has these slots in any order.
fn listed_as<L: Ledger>(
    alloc: Global,
    arena: &Arena,
    rail: Rail,
    owner: Slot,
    wanted: &[Slot],
    steps: &mut Steps<L>,
) -> Result<Option<Vec<Slot>>, NoMemory>
    requires { IsSome (rails.end_at sides.Behind rail (At owner) arena.now) }
    ensures lists { IfOk result (λ found. IfSome found (λ slots.
        rails.Lists rail (At owner) slots.items arena.now)) }
    ensures same { IfOk result (λ found. IfSome found (λ slots.
        IsPermutation slots.items wanted.now)) }
    ensures none { IfOk result (λ found. found ≡ None → (slots : List Number)
        → rails.Lists rail (At owner) slots arena.now → IsPermutation slots wanted.now → ⊥) }
    ensures counted { IfOk result (λ found. IfSome found (λ slots.
        steps.new ≤ steps.old + 3 * length wanted.now + 2)) }
    ensures few { steps.new ≤ steps.old + 3 * held.live_count arena.now + 4 }
{
    let Some(slots) = listed(alloc, arena, rail, Owner::At(owner), steps)? else {
        return Ok(None);
    };
    let same = have_same(alloc, &slots, wanted)?;
    Ok(if same { Some(slots) } else { None })
}

// Whether two lists have the same slots, each as often.
fn have_same(alloc: Global, slots: &[Slot], others: &[Slot]) -> Result<bool, NoMemory>
    ensures yes { IfOk result (λ yes. yes ≡ true → IsPermutation slots.now others.now) }
    ensures no { IfOk result (λ yes. yes ≡ false → IsPermutation slots.now others.now → ⊥) }
{
    if slots == others {
        return Ok(true);
    }
    let slots = by_number(alloc, slots)?;
    let others = by_number(alloc, others)?;
    Ok(slots.as_slice() == others.as_slice())
}

// The same slots by ascending numbers.
fn by_number(alloc: Global, slots: &[Slot]) -> Result<Vec<Slot>, NoMemory>
    ensures same { IfOk result (λ sorted. IsPermutation slots.now sorted.items) }
    ensures sorted { IfOk result (λ sorted. IsNonDecreasingBy (λ s. s.0) sorted.items) }
{
    let mut sorted = Vec::from_slice(alloc, slots)?;
    sorted.sort_unstable();
    Ok(sorted)
}
