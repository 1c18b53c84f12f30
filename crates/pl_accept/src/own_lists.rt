// Whether the links of origins and of pages make the lists that the rows demand.
ghost use Rattle.std.specs.Prelude.{◌≡◌, ◌≢◌, ◌≤◌, true, false, length, IfOk, IsSome, Some};
ghost use Rattle.std.specs.List.{All, AllPairs, list_all};
ghost use Rattle.pl_accept.specs.Held.{HasOwnersBelow};
ghost use Rattle.pl_accept.specs.OwnLists as spec;
ghost use Rattle.pl_load.specs.Chained.{HasOwnLists};
ghost use Rattle.pl_load.specs.RowSlots.{HasListed, HasRowEach};
ghost use Rattle.pl_slot.specs.declared.kind.SlotKind.TheVariants as kinds;
ghost use Rattle.pl_slot.specs.declared.links.Link.TheVariants.{First};
ghost use Rattle.pl_slot.specs.declared.links.Rail.TheVariants.{OriginPages};
ghost use Rattle.pl_slot.specs.Arena.{slot_count};
ghost use Rattle.pl_slot.specs.Links.{kind_at, link_at};

use pl_base::{NoMemory, Slot, Steps};
use pl_load::{FileRows, origin_members, page_members, reference_members};
use pl_owned::are_listed;
use pl_record::{Item, Place, Visit};
use pl_slot::{Arena, Link, Rail};
use std::alloc::Global;
use std::sync::ledger::Ledger;

/// Whether each origin has a list of its pages, and at least one, and each page has a list of its
/// visits, the latest first, and one of its items. It takes the memory of a vector for each slot.
pub(crate) fn have_own_lists<L: Ledger>(
    alloc: Global,
    arena: &Arena,
    rows: &FileRows,
    steps: &mut Steps<L>,
) -> Result<bool, NoMemory>
    requires listed { HasListed arena.now rows.now }
    requires as_many { HasRowEach rows.now }
    requires below { HasOwnersBelow arena.now rows.now }
    requires ids { AllPairs (λ v w. v.id.0 ≢ w.id.0) rows.now.visits }
    ensures yes { IfOk result (λ yes. yes ≡ true → HasOwnLists arena.now rows.now) }
    ensures no { IfOk result (λ yes. yes ≡ false → HasOwnLists arena.now rows.now → ⊥) }
{
    let live = &rows.live;
    let pages = have_page_lists(
        alloc,
        arena,
        &live.origins,
        &live.places,
        &rows.places,
        steps,
    )?;
    if !pages {
        return Ok(false);
    }
    let visits = have_visit_lists(
        alloc,
        arena,
        &live.places,
        &live.visits,
        &rows.visits,
        steps,
    )?;
    if !visits {
        return Ok(false);
    }
    have_reference_lists(alloc, arena, &live.places, &live.items, &rows.items, steps)
}

// Whether each of these origins has a list of its pages, and at least one.
fn have_page_lists<L: Ledger>(
    alloc: Global,
    arena: &Arena,
    origins: &[Slot],
    slots: &[Slot],
    places: &[Place],
    steps: &mut Steps<L>,
) -> Result<bool, NoMemory>
    requires kinds { All (λ o. kind_at o.0 arena.now ≡ Some kinds.Origin) origins.now }
    requires as_many { length slots.now ≡ length places.now }
    requires below { All (λ p. p.origin.0 ≤ slot_count arena.now) places.now }
    ensures yes { IfOk result (λ yes. yes ≡ true
        → spec.HasPageLists arena.now origins.now slots.now places.now) }
    ensures no { IfOk result (λ yes. yes ≡ false
        → spec.HasPageLists arena.now origins.now slots.now places.now → ⊥) }
{
    let members = origin_members(alloc, slots, places)?;
    let listed = are_listed(alloc, arena, Rail::OriginPages, origins, &members, steps)?;
    if !listed {
        return Ok(false);
    }
    Ok(have_pages(arena, origins, steps))
}

// Whether each of these origins names a first page. It reads a link of each, up to the first that
// names none.
fn have_pages<L: Ledger>(arena: &Arena, origins: &[Slot], steps: &mut Steps<L>) -> bool
    requires { All (λ o. IsSome (link_at OriginPages First o.0 arena.now)) origins.now }
    ensures { result ≡ list_all (spec.names_first arena.now) origins.now }
{
    for origin in origins {
        let first = arena.link(*origin, Rail::OriginPages, Link::First, steps);
        if first.0 == 0 {
            return false;
        }
    }
    true
}

// Whether each of these pages has a list of its visits, the latest first.
fn have_visit_lists<L: Ledger>(
    alloc: Global,
    arena: &Arena,
    owners: &[Slot],
    slots: &[Slot],
    visits: &[Visit],
    steps: &mut Steps<L>,
) -> Result<bool, NoMemory>
    requires kinds { All (λ s. kind_at s.0 arena.now ≡ Some kinds.Place) owners.now }
    requires as_many { length slots.now ≡ length visits.now }
    requires below { All (λ v. v.page.0 ≤ slot_count arena.now) visits.now }
    requires ids { AllPairs (λ v w. v.id.0 ≢ w.id.0) visits.now }
    ensures yes { IfOk result (λ yes. yes ≡ true
        → spec.HasVisitLists arena.now owners.now slots.now visits.now) }
    ensures no { IfOk result (λ yes. yes ≡ false
        → spec.HasVisitLists arena.now owners.now slots.now visits.now → ⊥) }
{
    let members = page_members(alloc, slots, visits)?;
    are_listed(alloc, arena, Rail::PageVisits, owners, &members, steps)
}

// Whether each of these pages has a list of its items.
fn have_reference_lists<L: Ledger>(
    alloc: Global,
    arena: &Arena,
    owners: &[Slot],
    slots: &[Slot],
    items: &[Item],
    steps: &mut Steps<L>,
) -> Result<bool, NoMemory>
    requires kinds { All (λ s. kind_at s.0 arena.now ≡ Some kinds.Place) owners.now }
    requires as_many { length slots.now ≡ length items.now }
    requires below { All (λ i. i.page.0 ≤ slot_count arena.now) items.now }
    ensures yes { IfOk result (λ yes. yes ≡ true
        → spec.HasReferenceLists arena.now owners.now slots.now items.now) }
    ensures no { IfOk result (λ yes. yes ≡ false
        → spec.HasReferenceLists arena.now owners.now slots.now items.now → ⊥) }
{
    let members = reference_members(alloc, slots, items)?;
    are_listed(alloc, arena, Rail::References, owners, &members, steps)
}
