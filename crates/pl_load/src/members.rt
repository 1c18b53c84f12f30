// The members of chains, as the rows that were read name their owners.
ghost use Rattle.std.specs.Prelude.{◌≡◌, ◌≢◌, length, map, IfOk};
ghost use Rattle.std.specs.List.{AllPairs, zip};
ghost use Rattle.std.specs.Ordering.{is_lt};
ghost use Rattle.pl_load.specs.Members as spec;

use pl_base::{NoMemory, Slot};
use pl_owned::Member;
use pl_record::{Item, Place, Visit};
use std::alloc::Global;
use std::cmp::Ordering;

/// The pages in these slots, each with its origin.
pub fn origin_members(
    alloc: Global,
    slots: &[Slot],
    places: &[Place],
) -> Result<Vec<Member>, NoMemory>
    requires { length slots.now ≡ length places.now }
    ensures { IfOk result (λ members. members.items ≡ spec.origin_members slots.now places.now) }
{
    let rows = slots.iter().zip(places);
    let members = rows.map(|(slot, place)| Member {
        owner: place.origin,
        slot: *slot,
    });
    Ok(members.collect(alloc)?)
}

/// The visits in these slots, each with its source.
pub fn source_members(
    alloc: Global,
    slots: &[Slot],
    visits: &[Visit],
) -> Result<Vec<Member>, NoMemory>
    requires { length slots.now ≡ length visits.now }
    ensures { IfOk result (λ members. members.items ≡ spec.source_members slots.now visits.now) }
{
    let rows = slots.iter().zip(visits);
    let members = rows.map(|(slot, visit)| Member {
        owner: visit.source,
        slot: *slot,
    });
    Ok(members.collect(alloc)?)
}

/// The visits in these slots, each with its page, the latest first.
pub fn page_members(
    alloc: Global,
    slots: &[Slot],
    visits: &[Visit],
) -> Result<Vec<Member>, NoMemory>
    requires as_many { length slots.now ≡ length visits.now }
    requires ids { AllPairs (λ v w. v.id.0 ≢ w.id.0) visits.now }
    ensures { IfOk result (λ members. members.items ≡ spec.page_members slots.now visits.now) }
{
    let mut rows = visits_in(alloc, slots, visits)?;
    rows.sort_unstable_by(|a, b| newest_first(a, b));
    members_by_page(alloc, &rows)
}

fn members_by_page(alloc: Global, rows: &[(Slot, Visit)]) -> Result<Vec<Member>, NoMemory>
    ensures { IfOk result (λ members. members.items ≡ map spec.page_member rows.now) }
{
    let members = rows.iter().map(|(slot, visit)| Member {
        owner: visit.page,
        slot: *slot,
    });
    Ok(members.collect(alloc)?)
}

fn visits_in(
    alloc: Global,
    slots: &[Slot],
    visits: &[Visit],
) -> Result<Vec<(Slot, Visit)>, NoMemory>
    requires { length slots.now ≡ length visits.now }
    ensures { IfOk result (λ rows. rows.items ≡ zip slots.now visits.now) }
{
    let rows = slots.iter().copied().zip(visits.iter().copied());
    Ok(rows.collect(alloc)?)
}

// By date and id, the greater first.
fn newest_first(a: &(Slot, Visit), b: &(Slot, Visit)) -> Ordering
    ensures { is_lt result ≡ spec.is_newer a.now b.now }
{
    b.1.date.cmp(&a.1.date).then(b.1.id.cmp(&a.1.id))
}

/// The items in these slots, each with its parent.
pub fn parent_members(
    alloc: Global,
    slots: &[Slot],
    items: &[Item],
) -> Result<Vec<Member>, NoMemory>
    requires { length slots.now ≡ length items.now }
    ensures { IfOk result (λ members. members.items ≡ spec.parent_members slots.now items.now) }
{
    let rows = slots.iter().zip(items);
    let members = rows.map(|(slot, item)| Member {
        owner: item.parent,
        slot: *slot,
    });
    Ok(members.collect(alloc)?)
}

/// The items in these slots, each with its page.
pub fn reference_members(
    alloc: Global,
    slots: &[Slot],
    items: &[Item],
) -> Result<Vec<Member>, NoMemory>
    requires { length slots.now ≡ length items.now }
    ensures { IfOk result (λ members. members.items ≡ spec.reference_members slots.now items.now) }
{
    let rows = slots.iter().zip(items);
    let members = rows.map(|(slot, item)| Member {
        owner: item.page,
        slot: *slot,
    });
    Ok(members.collect(alloc)?)
}
