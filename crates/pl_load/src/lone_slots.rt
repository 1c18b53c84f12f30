// Slots of rows that name no owner in a rail.
ghost use Rattle.std.specs.Prelude.{◌≡◌, true, false, length, IfOk, IsSome, Some};
ghost use Rattle.std.specs.List.{All, zip};
ghost use Rattle.pl_load.specs.Chained.{HasLoneSlots};
ghost use Rattle.pl_load.specs.RowSlots as spec;
ghost use Rattle.pl_owned.specs.Owned.{owned_by};
ghost use Rattle.pl_record.specs.Chains.{IsAlone};
ghost use Rattle.pl_rail.specs.Rails.{none};
ghost use Rattle.pl_slot.specs.declared.kind.SlotKind.TheVariants as kinds;
ghost use Rattle.pl_slot.specs.declared.links.Link.TheVariants.{Next};
ghost use Rattle.pl_slot.specs.declared.links.Rail.TheVariants.{Children, References, Targets};
ghost use Rattle.pl_slot.specs.Links.{kind_at, link_at};

use crate::file_rows::FileRows;
use crate::members::{parent_members, reference_members, source_members};
use pl_base::{NoMemory, Slot, Steps};
use pl_owned::{Member, are_alone};
use pl_record::{Item, Visit};
use pl_slot::{Arena, Rail};
use std::alloc::Global;
use std::sync::ledger::Ledger;

/// Whether the visits that came from none, the items without a parent and those without a page name
/// no neighbours. It reads two links of each, up to the first that names one.
pub fn have_lone_slots<L: Ledger>(
    alloc: Global,
    arena: &Arena,
    rows: &FileRows,
    steps: &mut Steps<L>,
) -> Result<bool, NoMemory>
    requires listed { spec.HasListed arena.now rows.now }
    requires as_many { spec.HasRowEach rows.now }
    ensures yes { IfOk result (λ yes. yes ≡ true → HasLoneSlots arena.now rows.now) }
    ensures no { IfOk result (λ yes. yes ≡ false → HasLoneSlots arena.now rows.now → ⊥) }
{
    let visits = have_lone_visits(alloc, arena, &rows.live.visits, &rows.visits, steps)?;
    if !visits {
        return Ok(false);
    }
    let roots = have_lone_roots(alloc, arena, &rows.live.items, &rows.items, steps)?;
    if !roots {
        return Ok(false);
    }
    have_lone_items(alloc, arena, &rows.live.items, &rows.items, steps)
}

// Whether the visits in these slots that came from none stand alone.
fn have_lone_visits<L: Ledger>(
    alloc: Global,
    arena: &Arena,
    slots: &[Slot],
    visits: &[Visit],
    steps: &mut Steps<L>,
) -> Result<bool, NoMemory>
    requires kinds { All (λ s. kind_at s.0 arena.now ≡ Some kinds.Visit) slots.now }
    requires as_many { length slots.now ≡ length visits.now }
    ensures yes { IfOk result (λ yes. yes ≡ true
        → All (λ v. v.1.source.0 ≡ 0 → IsAlone Targets v.0 arena.now) (zip slots.now visits.now)) }
    ensures no { IfOk result (λ yes. yes ≡ false
        → All (λ v. v.1.source.0 ≡ 0 → IsAlone Targets v.0 arena.now) (zip slots.now visits.now)
        → ⊥) }
{
    let members = source_members(alloc, slots, visits)?;
    are_lone(alloc, arena, Rail::Targets, &members, steps)
}

// Whether the items in these slots that have no parent stand alone.
fn have_lone_roots<L: Ledger>(
    alloc: Global,
    arena: &Arena,
    slots: &[Slot],
    items: &[Item],
    steps: &mut Steps<L>,
) -> Result<bool, NoMemory>
    requires kinds { All (λ s. kind_at s.0 arena.now ≡ Some kinds.Item) slots.now }
    requires as_many { length slots.now ≡ length items.now }
    ensures yes { IfOk result (λ yes. yes ≡ true
        → All (λ i. i.1.parent.0 ≡ 0 → IsAlone Children i.0 arena.now) (zip slots.now items.now)) }
    ensures no { IfOk result (λ yes. yes ≡ false
        → All (λ i. i.1.parent.0 ≡ 0 → IsAlone Children i.0 arena.now) (zip slots.now items.now)
        → ⊥) }
{
    let members = parent_members(alloc, slots, items)?;
    are_lone(alloc, arena, Rail::Children, &members, steps)
}

// Whether the items in these slots that have no page stand alone.
fn have_lone_items<L: Ledger>(
    alloc: Global,
    arena: &Arena,
    slots: &[Slot],
    items: &[Item],
    steps: &mut Steps<L>,
) -> Result<bool, NoMemory>
    requires kinds { All (λ s. kind_at s.0 arena.now ≡ Some kinds.Item) slots.now }
    requires as_many { length slots.now ≡ length items.now }
    ensures yes { IfOk result (λ yes. yes ≡ true
        → All (λ i. i.1.page.0 ≡ 0 → IsAlone References i.0 arena.now) (zip slots.now items.now)) }
    ensures no { IfOk result (λ yes. yes ≡ false
        → All (λ i. i.1.page.0 ≡ 0 → IsAlone References i.0 arena.now) (zip slots.now items.now)
        → ⊥) }
{
    let members = reference_members(alloc, slots, items)?;
    are_lone(alloc, arena, Rail::References, &members, steps)
}

// Whether the members that name no owner stand alone.
fn are_lone<L: Ledger>(
    alloc: Global,
    arena: &Arena,
    rail: Rail,
    members: &[Member],
    steps: &mut Steps<L>,
) -> Result<bool, NoMemory>
    requires { All (λ m. IsSome (link_at rail Next m.slot.0 arena.now)) members.now }
    ensures yes { IfOk result (λ yes. yes ≡ true
        → All (λ m. m.owner.0 ≡ 0 → IsAlone rail m.slot arena.now) members.now) }
    ensures no { IfOk result (λ yes. yes ≡ false
        → All (λ m. m.owner.0 ≡ 0 → IsAlone rail m.slot arena.now) members.now → ⊥) }
{
    let slots = ownerless(alloc, members)?;
    Ok(are_alone(arena, rail, &slots, steps))
}

// The slots of the members that name no owner.
fn ownerless(alloc: Global, members: &[Member]) -> Result<Vec<Slot>, NoMemory>
    ensures { IfOk result (λ slots. slots.items ≡ owned_by members.now none) }
{
    let lone = members.iter().filter(|member| member.owner.0 == 0);
    let slots = lone.map(|member| member.slot);
    Ok(slots.collect(alloc)?)
}
