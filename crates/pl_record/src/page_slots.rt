// The slots of origins and pages, taken and linked, unlinked and given back.
ghost use Rattle.std.specs.Prelude.{◌≡◌, ◌≤◌, ◌<◌, ◌+◌, ◌∷◌, ◌++◌, [], List, true, false};
ghost use Rattle.std.specs.Prelude.{IfOk, OnErr, Some};
ghost use Rattle.pl_base.specs.declared.id.Slot.{Slot as Number};
ghost use Rattle.pl_base.specs.Live.{chunks, slot_limit};
ghost use Rattle.pl_record.specs.ChainMap as maps;
ghost use Rattle.pl_record.specs.SlotChanges as spec;
ghost use Rattle.pl_rail.specs.declared.owner.Owner.TheVariants as owners;
ghost use Rattle.pl_rail.specs.Rails as rails;
ghost use Rattle.pl_slot.specs.declared.kind.LiveKind.TheVariants as live;
ghost use Rattle.pl_slot.specs.declared.kind.SlotKind.TheVariants as kinds;
ghost use Rattle.pl_slot.specs.declared.links.Rail.TheVariants.{Live, OriginPages};
ghost use Rattle.pl_slot.specs.declared.links.Rail.TheVariants.{PageVisits, References};
ghost use Rattle.pl_slot.specs.Arena as slots;
ghost use Rattle.pl_slot.specs.Links.{kind_at};

use crate::chains::append;
use crate::rows::{TextAt, read_place};
use pl_base::{NoMemory, PageId, Slot, Steps};
use pl_rail::{Owner, unlink};
use pl_slot::{Arena, LiveKind, Rail, SlotRow};
use pl_text::{free, store};
use std::sync::ledger::Ledger;

const NONE: Slot = Slot(0);

const NEW_ORIGIN: SlotRow = SlotRow::Origin {
    live_previous: NONE,
    live_next: NONE,
    first_page: NONE,
    last_page: NONE,
    total: 0,
};

/// Takes a slot for an origin, which has no page yet, behind all others.
pub fn insert_origin<L: Ledger>(arena: &mut Arena, steps: &mut Steps<L>) -> Result<Slot, NoMemory>
    requires few { slots.live_count arena.old < slot_limit }
    requires chained { (chains : maps.ChainMap) × maps.AreChains chains arena.old }
    ensures inserted { IfOk result (λ slot. spec.InsertsOrigin slot arena.old arena.new) }
    ensures err { OnErr result (arena.new ≡ arena.old) }
{
    let slot = arena.take(&NEW_ORIGIN)?;
    append(
        arena,
        Rail::Live,
        Owner::Header(LiveKind::Origin),
        slot,
        steps,
    );
    Ok(slot)
}

/// Frees the slot of an origin without pages.
pub fn remove_origin<L: Ledger>(arena: &mut Arena, slot: Slot, steps: &mut Steps<L>)
    requires member { rails.HasMember Live (owners.Header live.Origin) slot arena.old }
    requires empty { rails.Lists OriginPages (owners.At slot) [] arena.old }
    ensures removed { spec.RemovesOrigin slot arena.old arena.new }
    ensures arena { slots.IsArena arena.new }
{
    unlink(
        arena,
        Rail::Live,
        Owner::Header(LiveKind::Origin),
        slot,
        steps,
    );
    arena.give_back(slot);
}

/// Takes the slots of a new page and its URL, behind all pages, also of its origin.
pub fn insert_place<L: Ledger>(
    arena: &mut Arena,
    page: PageId,
    url: &str,
    origin: Slot,
    steps: &mut Steps<L>,
) -> Result<Slot, NoMemory>
    requires origin { kind_at origin.0 arena.old ≡ Some kinds.Origin }
    requires few { slots.live_count arena.old + 1 + chunks url.now ≤ slot_limit }
    requires chained { (chains : maps.ChainMap) × maps.AreChains chains arena.old
        × maps.AreApart OriginPages chains }
    ensures inserted { IfOk result (λ slot.
        spec.InsertsPlace page url.now origin slot arena.old arena.new) }
    ensures err { OnErr result (spec.KeepsAll arena.old arena.new) }
{
    prove!(arena.pages() > 0);
    let text = TextAt {
        slot: store(arena, url.as_bytes(), steps)?,
        length: url.len() as u32,
    };
    match take_place(arena, page, origin, text, steps) {
        Ok(slot) => Ok(slot),
        Err(error) => {
            free(arena, text.slot, steps);
            Err(error)
        }
    }
}

// Takes a slot for a page whose URL is stored.
fn take_place<L: Ledger>(
    arena: &mut Arena,
    page: PageId,
    origin: Slot,
    url: TextAt,
    steps: &mut Steps<L>,
) -> Result<Slot, NoMemory>
    requires origin { kind_at origin.0 arena.old ≡ Some kinds.Origin }
    requires few { slots.live_count arena.old < slot_limit }
    requires chained { (chains : maps.ChainMap) × maps.AreChains chains arena.old
        × maps.AreApart OriginPages chains }
    ensures taken { IfOk result (λ slot.
        spec.TakesPlace (spec.new_place page origin url.slot url.length) origin slot
        arena.old arena.new) }
    ensures err { OnErr result (arena.new ≡ arena.old) }
{
    let slot = arena.take(&new_place(page, origin, url))?;
    append(
        arena,
        Rail::Live,
        Owner::Header(LiveKind::Place),
        slot,
        steps,
    );
    append(arena, Rail::OriginPages, Owner::At(origin), slot, steps);
    Ok(slot)
}

/// Frees the slots of a page, which has no visit and no item, and those of its texts.
pub fn remove_place<L: Ledger>(arena: &mut Arena, slot: Slot, steps: &mut Steps<L>)
    requires bare { spec.HoldsBare slot arena.old }
    ensures removed { (held : spec.HoldsBare slot arena.old)
        → spec.RemovesPlace held.url_slots held.title_slots held.place.origin slot
        arena.old arena.new }
    ensures arena { slots.IsArena arena.new }
{
    let place = read_place(arena, slot, steps);
    free_place(arena, place.origin, slot, steps);
    free(arena, place.url.slot, steps);
    free(arena, place.title.slot, steps);
}

// Frees the slot of a page in an origin.
fn free_place<L: Ledger>(arena: &mut Arena, origin: Slot, slot: Slot, steps: &mut Steps<L>)
    requires place { kind_at slot.0 arena.old ≡ Some kinds.Place }
    requires of_origin { rails.HasMember OriginPages (owners.At origin) slot arena.old }
    requires of_header { rails.HasMember Live (owners.Header live.Place) slot arena.old }
    requires no_visit { rails.Lists PageVisits (owners.At slot) [] arena.old }
    requires no_item { rails.Lists References (owners.At slot) [] arena.old }
    ensures freed { spec.FreesPlace origin slot arena.old arena.new }
    ensures arena { slots.IsArena arena.new }
{
    unlink(arena, Rail::OriginPages, Owner::At(origin), slot, steps);
    unlink(
        arena,
        Rail::Live,
        Owner::Header(LiveKind::Place),
        slot,
        steps,
    );
    arena.give_back(slot);
}

fn new_place(page: PageId, origin: Slot, url: TextAt) -> SlotRow
    ensures { result ≡ spec.new_place page origin url.slot url.length }
{
    SlotRow::Place {
        typed: false,
        hidden: false,
        live_previous: NONE,
        live_next: NONE,
        id: page,
        origin,
        origin_previous: NONE,
        origin_next: NONE,
        first_visit: NONE,
        last_visit: NONE,
        first_reference: NONE,
        last_reference: NONE,
        url_text: url.slot,
        url_length: url.length,
        title_text: NONE,
        title_length: 0,
        frecency: 0,
        count: 0,
    }
}
