// The slots of rows by the numbers of their ids.
ghost use Rattle.std.specs.Prelude.{◌≡◌, map, length, IfOk};
ghost use Rattle.std.specs.List.{zip};
ghost use Rattle.std.specs.List.Sorted.{IsStrictlyIncreasing};

use pl_base::{NoMemory, Slot, TreeItem};
use pl_stored::{StoredPage, StoredVisit};
use std::alloc::Global;
use std::collections::BTreeMap;

/// The slots of pages.
pub(crate) fn page_slots(
    alloc: Global,
    pages: &[StoredPage],
    slots: &[Slot],
) -> Result<BTreeMap<u32, Slot>, NoMemory>
    requires as_many { length slots.now ≡ length pages.now }
    requires ascending { IsStrictlyIncreasing (map (λ p. p.id.0) pages.now) }
    ensures { IfOk result (λ found.
        found.entries ≡ zip (map (λ p. p.id.0) pages.now) slots.now) }
{
    let ids: Vec<u32> = pages.iter().map(|page| page.id.0).collect(alloc)?;
    by_number(alloc, &ids, slots)
}

/// The slots of visits.
pub(crate) fn visit_slots(
    alloc: Global,
    visits: &[StoredVisit],
    slots: &[Slot],
) -> Result<BTreeMap<u32, Slot>, NoMemory>
    requires as_many { length slots.now ≡ length visits.now }
    requires ascending { IsStrictlyIncreasing (map (λ v. v.id.0) visits.now) }
    ensures { IfOk result (λ found.
        found.entries ≡ zip (map (λ v. v.id.0) visits.now) slots.now) }
{
    let ids: Vec<u32> = visits.iter().map(|visit| visit.id.0).collect(alloc)?;
    by_number(alloc, &ids, slots)
}

/// The slots of items.
pub(crate) fn item_slots(
    alloc: Global,
    items: &[TreeItem],
    slots: &[Slot],
) -> Result<BTreeMap<u32, Slot>, NoMemory>
    requires as_many { length slots.now ≡ length items.now }
    requires ascending { IsStrictlyIncreasing (map (λ i. i.id.0) items.now) }
    ensures { IfOk result (λ found.
        found.entries ≡ zip (map (λ i. i.id.0) items.now) slots.now) }
{
    let ids: Vec<u32> = items.iter().map(|item| item.id.0).collect(alloc)?;
    by_number(alloc, &ids, slots)
}

// These slots by these numbers.
fn by_number(
    alloc: Global,
    numbers: &[u32],
    slots: &[Slot],
) -> Result<BTreeMap<u32, Slot>, NoMemory>
    requires as_many { length slots.now ≡ length numbers.now }
    requires ascending { IsStrictlyIncreasing numbers.now }
    ensures { IfOk result (λ found. found.entries ≡ zip numbers.now slots.now) }
{
    let entries = numbers.iter().copied().zip(slots.iter().copied());
    Ok(entries.collect(alloc)?)
}
