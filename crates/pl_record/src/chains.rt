// Chains that get a member behind all others, or lose one.
ghost use Rattle.std.specs.Prelude.{◌≡◌, ◌≢◌, List, true, false};
ghost use Rattle.pl_base.specs.declared.id.Slot.{Slot as Number};
ghost use Rattle.pl_record.specs.ItemChanges as items;
ghost use Rattle.pl_record.specs.SlotChanges as spec;
ghost use Rattle.pl_rail.specs.declared.owner.Owner.{Owner as Has};
ghost use Rattle.pl_rail.specs.declared.owner.Owner.TheVariants as owners;
ghost use Rattle.pl_rail.specs.Rails as rails;

use crate::rows::named;
use pl_base::{Slot, Steps};
use pl_rail::{Owner, insert_after, last, unlink};
use pl_slot::{Arena, Rail};
use std::sync::ledger::Ledger;

/// Puts a slot behind all members of an owner's chain. It stands in no chain of the rail.
pub fn append<L: Ledger>(
    arena: &mut Arena,
    rail: Rail,
    owner: Owner,
    slot: Slot,
    steps: &mut Steps<L>,
)
    requires listed { (slots : List Number) × rails.Lists rail owner slots arena.old }
    requires member { rails.is_member rail owner arena.old slot ≡ true }
    requires free { (o : Has) (slots : List Number) → rails.Lists rail o slots arena.old
        → rails.is_in slot slots ≡ false }
    ensures { spec.Appends rail owner slot arena.old arena.new }
{
    let after = last(arena, rail, owner, steps);
    insert_after(arena, rail, owner, after, slot, steps);
}

/// Takes a slot out of the chain of the owner in a slot, 0 for none.
pub fn leave<L: Ledger>(
    arena: &mut Arena,
    rail: Rail,
    owner: Slot,
    slot: Slot,
    steps: &mut Steps<L>,
)
    requires member { owner.0 ≢ 0 → rails.HasMember rail (owners.At owner) slot arena.old }
    ensures { items.LeavesOwner rail owner slot arena.old arena.new }
{
    let Some(from) = named(owner) else {
        return;
    };
    unlink(arena, rail, Owner::At(from), slot, steps);
}
