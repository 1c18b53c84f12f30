// The slots of all rows, as the header lists them.
ghost use Rattle.std.specs.Prelude.{◌≡◌, List, IfOk, IfSome, None};
ghost use Rattle.pl_base.specs.declared.id.Slot.{Slot as Number};
ghost use Rattle.pl_rail.specs.declared.owner.Owner.TheVariants.{Header};
ghost use Rattle.pl_rail.specs.Rails.{Lists};
ghost use Rattle.pl_reading.specs.Live as spec;
ghost use Rattle.pl_slot.specs.declared.links.Rail.TheVariants.{Live};

use pl_base::{NoMemory, Slot, Steps};
use pl_rail::{Owner, listed};
use pl_slot::{Arena, LiveKind, Rail};
use std::alloc::Global;
use std::sync::ledger::Ledger;

/// The slots of a store's rows, in the order of the header's chains.
#[derive(Debug, Drop)]
pub struct LiveSlots {
    pub origins: Vec<Slot>,
    pub places: Vec<Slot>,
    pub visits: Vec<Slot>,
    pub items: Vec<Slot>,
}

/// The slots of rows that the header lists. `None` comes exactly where the links of some kind make
/// no list.
pub fn live_slots<L: Ledger>(
    alloc: Global,
    arena: &Arena,
    steps: &mut Steps<L>,
) -> Result<Option<LiveSlots>, NoMemory>
    ensures found { IfOk result (λ found. IfSome found (λ live. spec.AreListed live.origins.items
        live.places.items live.visits.items live.items.items arena.now)) }
    ensures none { IfOk result (λ found. found ≡ None
        → (origins places visits items : List Number)
        → spec.AreListed origins places visits items arena.now → ⊥) }
{
    let Some(origins) = slots_of(alloc, arena, LiveKind::Origin, steps)? else {
        return Ok(None);
    };
    let Some(places) = slots_of(alloc, arena, LiveKind::Place, steps)? else {
        return Ok(None);
    };
    let Some(visits) = slots_of(alloc, arena, LiveKind::Visit, steps)? else {
        return Ok(None);
    };
    let Some(items) = slots_of(alloc, arena, LiveKind::Item, steps)? else {
        return Ok(None);
    };
    Ok(Some(LiveSlots {
        origins,
        places,
        visits,
        items,
    }))
}

// Those of a kind.
fn slots_of<L: Ledger>(
    alloc: Global,
    arena: &Arena,
    kind: LiveKind,
    steps: &mut Steps<L>,
) -> Result<Option<Vec<Slot>>, NoMemory>
    ensures found { IfOk result (λ found. IfSome found (λ slots.
        Lists Live (Header kind) slots.items arena.now)) }
    ensures none { IfOk result (λ found. found ≡ None
        → (slots : List Number) → Lists Live (Header kind) slots arena.now → ⊥) }
{
    listed(alloc, arena, Rail::Live, Owner::Header(kind), steps)
}
