// The slot of an item that moves.
ghost use Rattle.std.specs.Prelude.{◌≡◌, ◌≢◌, Some, IfSome};
ghost use Rattle.pl_record.specs.ChainMap as maps;
ghost use Rattle.pl_record.specs.declared.rows.Item.{Item as Row};
ghost use Rattle.pl_record.specs.ItemChanges as spec;
ghost use Rattle.pl_record.specs.Rows as row;
ghost use Rattle.pl_rail.specs.declared.owner.Owner.TheVariants as owners;
ghost use Rattle.pl_rail.specs.Rails as rails;
ghost use Rattle.pl_slot.specs.declared.kind.SlotKind.TheVariants as kinds;
ghost use Rattle.pl_slot.specs.declared.links.Rail.TheVariants.{Children};
ghost use Rattle.pl_slot.specs.Arena as slots;
ghost use Rattle.pl_slot.specs.Links.{kind_at};

use crate::chains::leave;
use crate::rows::read_item;
use crate::writing::put_parent;
use pl_base::{Slot, Steps};
use pl_rail::{Owner, insert_after};
use pl_slot::{Arena, Rail};
use std::sync::ledger::Ledger;

/// The item in a slot becomes a child of the one in another slot, behind this child or in front. It
/// leaves the parent that it had, if any, which may be the same.
pub fn move_item<L: Ledger>(
    arena: &mut Arena,
    slot: Slot,
    parent: Slot,
    after: Option<Slot>,
    steps: &mut Steps<L>,
)
    requires item { kind_at slot.0 arena.old ≡ Some kinds.Item }
    requires parent { kind_at parent.0 arena.old ≡ Some kinds.Item }
    requires of_parent { (i : Row) → row.record_at slot.0 arena.old ≡ Some (row.item_row i)
        → i.parent.0 ≢ 0 → rails.HasMember Children (owners.At i.parent) slot arena.old }
    requires loose { (i : Row) → row.record_at slot.0 arena.old ≡ Some (row.item_row i)
        → i.parent.0 ≡ 0 → (chains : maps.ChainMap) → maps.AreChains chains arena.old
        → maps.IsLoose Children slot chains }
    requires after { IfSome after (λ s. (s ≢ slot)
        × rails.HasMember Children (owners.At parent) s arena.old) }
    requires chained { (chains : maps.ChainMap) × maps.AreChains chains arena.old
        × maps.AreApart Children chains }
    ensures moved { (i : Row) → row.record_at slot.0 arena.old ≡ Some (row.item_row i)
        → spec.MovesItem i slot parent after arena.old arena.new }
    ensures arena { slots.IsArena arena.new }
{
    prove!(arena.pages() > 0);
    let item = read_item(arena, slot, steps);
    leave(arena, Rail::Children, item.parent, slot, steps);
    insert_after(arena, Rail::Children, Owner::At(parent), after, slot, steps);
    put_parent(arena, slot, parent, steps);
}
