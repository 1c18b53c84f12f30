// What the header and the names of origins say of the rows that were read.
ghost use Rattle.std.specs.Prelude.{◌≡◌, ◌+◌, ◌<◌, ◌^◌, true, false, length, map, IfOk};
ghost use Rattle.pl_base.specs.Live.{origin_count};
ghost use Rattle.pl_origins.specs.Names.{AreNamed, named};
ghost use Rattle.pl_reading.specs.Texts as texts;
ghost use Rattle.pl_slot.specs.Arena.{header_of};

use crate::file_rows::FileRows;
use pl_base::{NoMemory, Slot};
use pl_origins::named_origins;
use pl_reading::{row_texts, wanted_slots};
use pl_record::Place;
use pl_slot::Arena;
use std::alloc::Global;

/// Whether the header counts the slots of the rows and of their texts.
pub fn counts_slots(alloc: Global, arena: &Arena, rows: &FileRows) -> Result<bool, NoMemory>
    ensures yes { IfOk result (λ yes. yes ≡ true → (header_of arena.now).live
        ≡ length rows.now.origins + length rows.now.places + length rows.now.visits
        + length rows.now.items + texts.wanted (texts.row_texts rows.now.places rows.now.items)) }
    ensures no { IfOk result (λ yes. yes ≡ false → (header_of arena.now).live
        ≡ length rows.now.origins + length rows.now.places + length rows.now.visits
        + length rows.now.items + texts.wanted (texts.row_texts rows.now.places rows.now.items)
        → ⊥) }
{
    let live = arena.live();
    let texts = row_texts(alloc, &rows.places, &rows.items)?;
    let Some(wanted) = wanted_slots(&texts) else {
        return Ok(false);
    };
    let slots = rows.live.origins.len() as u128 + rows.places.len() as u128;
    let rest = rows.visits.len() as u128 + rows.items.len() as u128;
    Ok(u128::from(live) == slots + rest + u128::from(wanted))
}

/// Whether pages have the same slot of an origin exactly where they have the same origin, and there
/// are as many origins as the header lists.
pub fn have_names(alloc: Global, rows: &FileRows) -> Result<bool, NoMemory>
    requires as_many { length rows.now.stored.pages ≡ length rows.now.places }
    requires few { length rows.now.stored.pages < 2 ^ 32 }
    ensures names { IfOk result (λ yes. yes ≡ true
        → AreNamed (named rows.now.stored.pages (map (λ p. p.origin) rows.now.places))) }
    ensures count { IfOk result (λ yes. yes ≡ true → length rows.now.origins
        ≡ origin_count (map (λ p. p.url) rows.now.stored.pages)) }
    ensures no { IfOk result (λ yes. yes ≡ false
        → AreNamed (named rows.now.stored.pages (map (λ p. p.origin) rows.now.places))
        → length rows.now.origins ≡ origin_count (map (λ p. p.url) rows.now.stored.pages) → ⊥) }
{
    let names = origin_slots(alloc, &rows.places)?;
    let Some(count) = named_origins(alloc, &rows.stored.pages, &names)? else {
        return Ok(false);
    };
    Ok(rows.live.origins.len() == count as usize)
}

// The slots of the pages' origins.
fn origin_slots(alloc: Global, places: &[Place]) -> Result<Vec<Slot>, NoMemory>
    ensures { IfOk result (λ slots. slots.items ≡ map (λ p. p.origin) places.now) }
{
    Ok(places.iter().map(|place| place.origin).collect(alloc)?)
}
