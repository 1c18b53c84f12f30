// The rows in the slots that a header lists, but for their links.
ghost use Rattle.std.specs.Prelude.{IfOk, IsErrOf};
ghost use Rattle.pl_load.specs.Held as spec;
ghost use Rattle.pl_load.specs.Reads.{AreReadFrom, Reads};

use pl_base::{CheckError, Steps};
use pl_reading::{LiveSlots, live_slots, read_items, read_places, read_totals, read_visits};
use pl_record::{Item, Place, Visit};
use pl_slot::Arena;
use std::alloc::Global;
use std::sync::ledger::Ledger;

/// The slots that a header lists, and what they hold.
#[derive(Debug, Drop)]
pub struct LiveRows {
    pub live: LiveSlots,
    pub totals: Vec<u64>,
    pub places: Vec<Place>,
    pub visits: Vec<Visit>,
    pub items: Vec<Item>,
}

/// These rows. `NotAStore` comes where the links of some kind make no list.
pub fn held_rows<L: Ledger>(
    alloc: Global,
    arena: &Arena,
    steps: &mut Steps<L>,
) -> Result<LiveRows, CheckError>
    ensures held { IfOk result (spec.AreHeld arena.now) }
    ensures none { IsErrOf result CheckError.NotAStore → (reads : Reads)
        → AreReadFrom arena.now reads → ⊥ }
{
    let Some(live) = live_slots(alloc, arena, steps)? else {
        return Err(CheckError::NotAStore);
    };
    let totals = read_totals(alloc, arena, &live.origins, steps)?;
    let places = read_places(alloc, arena, &live.places, steps)?;
    let visits = read_visits(alloc, arena, &live.visits, steps)?;
    let items = read_items(alloc, arena, &live.items, steps)?;
    Ok(LiveRows {
        live,
        totals,
        places,
        visits,
        items,
    })
}
