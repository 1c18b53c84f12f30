// The slot of a visit that goes.
ghost use Rattle.std.specs.Prelude.{◌≡◌, ◌≢◌, List};
ghost use Rattle.pl_base.specs.declared.id.Slot.{Slot as Number};
ghost use Rattle.pl_record.specs.VisitChanges as spec;
ghost use Rattle.pl_rail.specs.declared.owner.Owner.TheVariants as owners;
ghost use Rattle.pl_rail.specs.Rails as rails;
ghost use Rattle.pl_slot.specs.declared.links.Rail.TheVariants.{Targets};
ghost use Rattle.pl_slot.specs.Arena as slots;

use crate::rows::{Visit, named, read_visit};
use crate::writing::put_source;
use pl_base::{Slot, Steps};
use pl_rail::{Owner, first, unlink};
use pl_slot::{Arena, LiveKind, Rail};
use std::sync::ledger::Ledger;

/// The visits that came from the one in a slot come from none from then on.
pub fn drop_targets<L: Ledger>(arena: &mut Arena, slot: Slot, steps: &mut Steps<L>)
    requires listed { (targets : List Number)
        × rails.Lists Targets (owners.At slot) targets arena.old }
    ensures dropped { (targets : List Number)
        → rails.Lists Targets (owners.At slot) targets arena.old
        → spec.DropsTargets slot targets arena.old arena.new }
    ensures arena { slots.IsArena arena.new }
{
    prove!(arena.pages() > 0);
    let owner = Owner::At(slot);
    while let Some(target) = first(arena, Rail::Targets, owner, steps) {
        unlink(arena, Rail::Targets, owner, target, steps);
        put_source(arena, target, Slot(0), steps);
    }
}

/// Frees the slot of a visit from which none came.
pub fn free_visit<L: Ledger>(arena: &mut Arena, slot: Slot, steps: &mut Steps<L>)
    requires held { spec.HoldsVisit slot arena.old }
    ensures freed { (held : spec.HoldsVisit slot arena.old)
        → spec.FreesVisit held.visit slot arena.old arena.new }
    ensures arena { slots.IsArena arena.new }
{
    let visit = read_visit(arena, slot, steps);
    leave_source(arena, visit, slot, steps);
    unlink(arena, Rail::PageVisits, Owner::At(visit.page), slot, steps);
    unlink(
        arena,
        Rail::Live,
        Owner::Header(LiveKind::Visit),
        slot,
        steps,
    );
    arena.give_back(slot);
}

// Takes the slot of a visit out of the targets of its source, if it has one.
fn leave_source<L: Ledger>(arena: &mut Arena, visit: Visit, slot: Slot, steps: &mut Steps<L>)
    requires of_source { visit.source.0 ≢ 0
        → rails.HasMember Targets (owners.At visit.source) slot arena.old }
    ensures left { spec.LeavesSource visit slot arena.old arena.new }
{
    let Some(source) = named(visit.source) else {
        return;
    };
    unlink(arena, Rail::Targets, Owner::At(source), slot, steps);
}
