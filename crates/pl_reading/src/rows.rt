// The rows in slots of a kind, but for their links.
ghost use Rattle.std.specs.Prelude.{◌≡◌, IfOk, Some};
ghost use Rattle.std.specs.List.{All, AllZip};
ghost use Rattle.pl_reading.specs.Live as spec;
ghost use Rattle.pl_slot.specs.declared.kind.SlotKind.TheVariants as kinds;
ghost use Rattle.pl_slot.specs.Links.{kind_at};

use pl_base::{NoMemory, Slot, Steps};
use pl_record::{Item, Place, Visit, read_item, read_place, read_total, read_visit};
use pl_slot::Arena;
use std::alloc::Global;
use std::sync::ledger::Ledger;

/// The totals of the origins in these slots.
pub fn read_totals<L: Ledger>(
    alloc: Global,
    arena: &Arena,
    slots: &[Slot],
    steps: &mut Steps<L>,
) -> Result<Vec<u64>, NoMemory>
    requires { All (λ s. kind_at s.0 arena.now ≡ Some kinds.Origin) slots.now }
    ensures { IfOk result (λ totals. AllZip (spec.HoldsTotal arena.now) slots.now totals.items) }
{
    let mut totals = Vec::with_capacity(alloc, slots.len())?;
    for slot in slots {
        totals.push(read_total(arena, *slot, steps))?;
    }
    Ok(totals)
}

/// The pages in these slots.
pub fn read_places<L: Ledger>(
    alloc: Global,
    arena: &Arena,
    slots: &[Slot],
    steps: &mut Steps<L>,
) -> Result<Vec<Place>, NoMemory>
    requires { All (λ s. kind_at s.0 arena.now ≡ Some kinds.Place) slots.now }
    ensures { IfOk result (λ places. AllZip (spec.HoldsPlace arena.now) slots.now places.items) }
{
    let mut places = Vec::with_capacity(alloc, slots.len())?;
    for slot in slots {
        places.push(read_place(arena, *slot, steps))?;
    }
    Ok(places)
}

/// The visits in these slots.
pub fn read_visits<L: Ledger>(
    alloc: Global,
    arena: &Arena,
    slots: &[Slot],
    steps: &mut Steps<L>,
) -> Result<Vec<Visit>, NoMemory>
    requires { All (λ s. kind_at s.0 arena.now ≡ Some kinds.Visit) slots.now }
    ensures { IfOk result (λ visits. AllZip (spec.HoldsVisit arena.now) slots.now visits.items) }
{
    let mut visits = Vec::with_capacity(alloc, slots.len())?;
    for slot in slots {
        visits.push(read_visit(arena, *slot, steps))?;
    }
    Ok(visits)
}

/// The items in these slots.
pub fn read_items<L: Ledger>(
    alloc: Global,
    arena: &Arena,
    slots: &[Slot],
    steps: &mut Steps<L>,
) -> Result<Vec<Item>, NoMemory>
    requires { All (λ s. kind_at s.0 arena.now ≡ Some kinds.Item) slots.now }
    ensures { IfOk result (λ items. AllZip (spec.HoldsItem arena.now) slots.now items.items) }
{
    let mut items = Vec::with_capacity(alloc, slots.len())?;
    for slot in slots {
        items.push(read_item(arena, *slot, steps))?;
    }
    Ok(items)
}
