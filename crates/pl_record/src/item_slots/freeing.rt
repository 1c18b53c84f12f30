// The slots of an item that goes.
ghost use Rattle.std.specs.Prelude.{◌≡◌, ◌≢◌, [], Some};
ghost use Rattle.pl_record.specs.ItemChanges as spec;
ghost use Rattle.pl_rail.specs.declared.owner.Owner.TheVariants as owners;
ghost use Rattle.pl_rail.specs.Rails as rails;
ghost use Rattle.pl_slot.specs.declared.kind.LiveKind.TheVariants as live;
ghost use Rattle.pl_slot.specs.declared.kind.SlotKind.TheVariants as kinds;
ghost use Rattle.pl_slot.specs.declared.links.Rail.TheVariants.{Children, Live, References};
ghost use Rattle.pl_slot.specs.Arena as slots;
ghost use Rattle.pl_slot.specs.Links.{kind_at};

use crate::chains::leave;
use crate::rows::{Item, read_item};
use pl_base::{Slot, Steps};
use pl_rail::{Owner, unlink};
use pl_slot::{Arena, LiveKind, Rail};
use pl_text::free;
use std::sync::ledger::Ledger;

/// Frees the slots of an item, which has no children, and of its title.
pub fn remove_item<L: Ledger>(arena: &mut Arena, slot: Slot, steps: &mut Steps<L>)
    requires held { spec.HoldsLeaf slot arena.old }
    ensures removed { (held : spec.HoldsLeaf slot arena.old)
        → spec.RemovesItem held.item held.text slot arena.old arena.new }
    ensures arena { slots.IsArena arena.new }
{
    let item = read_item(arena, slot, steps);
    free_item(arena, item, slot, steps);
    free(arena, item.title.slot, steps);
}

// Frees the slot of an item.
fn free_item<L: Ledger>(arena: &mut Arena, item: Item, slot: Slot, steps: &mut Steps<L>)
    requires item { kind_at slot.0 arena.old ≡ Some kinds.Item }
    requires of_header { rails.HasMember Live (owners.Header live.Item) slot arena.old }
    requires of_parent { item.parent.0 ≢ 0
        → rails.HasMember Children (owners.At item.parent) slot arena.old }
    requires of_page { item.page.0 ≢ 0
        → rails.HasMember References (owners.At item.page) slot arena.old }
    requires no_child { rails.Lists Children (owners.At slot) [] arena.old }
    ensures freed { spec.FreesItem item slot arena.old arena.new }
    ensures arena { slots.IsArena arena.new }
{
    leave(arena, Rail::Children, item.parent, slot, steps);
    leave(arena, Rail::References, item.page, slot, steps);
    unlink(
        arena,
        Rail::Live,
        Owner::Header(LiveKind::Item),
        slot,
        steps,
    );
    arena.give_back(slot);
}
