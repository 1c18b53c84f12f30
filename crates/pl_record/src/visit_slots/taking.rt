// The slot of a visit that comes.
ghost use Rattle.std.specs.Prelude.{◌≡◌, ◌<◌, List, Some, IfOk, IfSome, OnErr};
ghost use Rattle.pl_base.specs.declared.id.Slot.{Slot as Number};
ghost use Rattle.pl_base.specs.Live.{slot_limit};
ghost use Rattle.pl_record.specs.ChainMap as maps;
ghost use Rattle.pl_record.specs.Rows as row;
ghost use Rattle.pl_record.specs.VisitChanges as spec;
ghost use Rattle.pl_rail.specs.declared.owner.Owner.TheVariants as owners;
ghost use Rattle.pl_rail.specs.Rails as rails;
ghost use Rattle.pl_slot.specs.declared.kind.SlotKind.TheVariants as kinds;
ghost use Rattle.pl_slot.specs.declared.links.Rail.TheVariants.{PageVisits, Targets};
ghost use Rattle.pl_slot.specs.Arena as slots;
ghost use Rattle.pl_slot.specs.Links.{kind_at};

use crate::chains::append;
use crate::rows::{Visit, named, read_visit};
use pl_base::{Micros, NoMemory, Slot, Steps, Transition};
use pl_rail::{Owner, first, insert_after, last, next};
use pl_slot::{Arena, LiveKind, Rail, SlotRow};
use std::sync::ledger::Ledger;

const NONE: Slot = Slot(0);

/// Takes a slot for a new visit: behind all visits; among its page's, which stand the latest first,
/// in front of those that are not later; and among the targets of its source a redirect in front of
/// all others, and any other behind all.
pub fn take_visit<L: Ledger>(
    arena: &mut Arena,
    visit: Visit,
    steps: &mut Steps<L>,
) -> Result<Slot, NoMemory>
    requires page { kind_at visit.page.0 arena.old ≡ Some kinds.Place }
    requires source { IfSome (rails.named visit.source) (λ s.
        kind_at s.0 arena.old ≡ Some kinds.Visit) }
    requires few { slots.live_count arena.old < slot_limit }
    requires chained { (chains : maps.ChainMap) × maps.AreChains chains arena.old
        × maps.AreApart PageVisits chains × maps.AreApart Targets chains }
    ensures taken { IfOk result (λ slot. spec.TakesVisit visit slot arena.old arena.new) }
    ensures err { OnErr result (arena.new ≡ arena.old) }
{
    let slot = arena.take(&new_visit(visit))?;
    append(
        arena,
        Rail::Live,
        Owner::Header(LiveKind::Visit),
        slot,
        steps,
    );
    let after = last_later(arena, visit.page, visit.date, steps);
    insert_after(
        arena,
        Rail::PageVisits,
        Owner::At(visit.page),
        after,
        slot,
        steps,
    );
    put_target(arena, visit, slot, steps);
    Ok(slot)
}

// Puts the slot of a visit among the targets of its source, if it has one.
fn put_target<L: Ledger>(arena: &mut Arena, visit: Visit, slot: Slot, steps: &mut Steps<L>)
    requires source { IfSome (rails.named visit.source) (λ s.
        kind_at s.0 arena.old ≡ Some kinds.Visit) }
    requires member { kind_at slot.0 arena.old ≡ Some kinds.Visit }
    requires chained { (chains : maps.ChainMap) × maps.AreChains chains arena.old
        × maps.AreApart Targets chains × maps.IsLoose Targets slot chains }
    ensures put { spec.PutsTarget visit slot arena.old arena.new }
{
    let Some(source) = named(visit.source) else {
        return;
    };
    let after = last_before(arena, source, visit.transition, steps);
    insert_after(arena, Rail::Targets, Owner::At(source), after, slot, steps);
}

// The target of a visit behind which another comes: none for a redirect, and the last for others.
fn last_before<L: Ledger>(
    arena: &Arena,
    source: Slot,
    transition: Transition,
    steps: &mut Steps<L>,
) -> Option<Slot>
    requires source { kind_at source.0 arena.now ≡ Some kinds.Visit }
    ensures place { (targets : List Number)
        → rails.Lists Targets (owners.At source) targets arena.now
        → spec.IsTargetPlace transition result targets }
{
    if transition.is_redirect() {
        return None;
    }
    last(arena, Rail::Targets, Owner::At(source), steps)
}

// The last of the visits of a page that are later than this, up to the first that is not.
fn last_later<L: Ledger>(
    arena: &Arena,
    page: Slot,
    date: Micros,
    steps: &mut Steps<L>,
) -> Option<Slot>
    requires listed { (visits : List Number)
        × rails.Lists PageVisits (owners.At page) visits arena.now }
    ensures place { (visits : List Number)
        → rails.Lists PageVisits (owners.At page) visits arena.now
        → spec.IsPlaceInTime date result visits arena.now }
{
    let mut after = None;
    let mut behind = first(arena, Rail::PageVisits, Owner::At(page), steps);
    while let Some(slot) = behind {
        if read_visit(arena, slot, steps).date <= date {
            break;
        }
        after = behind;
        behind = next(arena, Rail::PageVisits, slot, steps);
    }
    after
}

fn new_visit(visit: Visit) -> SlotRow
    ensures { result ≡ row.visit_row visit }
{
    SlotRow::Visit {
        transition: visit.transition,
        live_previous: NONE,
        live_next: NONE,
        id: visit.id,
        page: visit.page,
        page_previous: NONE,
        page_next: NONE,
        source: visit.source,
        target_previous: NONE,
        target_next: NONE,
        first_target: NONE,
        last_target: NONE,
        date: visit.date,
    }
}
