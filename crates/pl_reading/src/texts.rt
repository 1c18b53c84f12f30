// The slots of texts, which may be anywhere.
ghost use Rattle.std.specs.Prelude.{◌≡◌, ◌++◌, ◌≤◌, ◌^◌, IfOk, IfSome, None, map};
ghost use Rattle.std.specs.List.{All, flat_map};
ghost use Rattle.pl_reading.specs.Texts as spec;

use pl_base::{NoMemory, Slot, Steps};
use pl_record::{Item, Place, TextAt};
use pl_slot::Arena;
use pl_text::chunks;
use std::alloc::Global;
use std::sync::ledger::Ledger;

/// The texts of pages and items: the URL and the title of each page, then the title of each item.
pub fn row_texts(alloc: Global, places: &[Place], items: &[Item]) -> Result<Vec<TextAt>, NoMemory>
    ensures { IfOk result (λ texts. texts.items ≡ spec.row_texts places.now items.now) }
{
    let mut texts = page_texts(alloc, places)?;
    for item in items {
        texts.push(item.title)?;
    }
    Ok(texts)
}

fn page_texts(alloc: Global, places: &[Place]) -> Result<Vec<TextAt>, NoMemory>
    ensures { IfOk result (λ texts. texts.items ≡ flat_map spec.page_texts places.now) }
{
    let mut texts = Vec::with_capacity(alloc, 2 * places.len())?;
    for place in places {
        texts.push(place.url)?;
        texts.push(place.title)?;
    }
    Ok(texts)
}

/// How many slots these texts want by their lengths. `None` comes exactly where they want
/// 4,294,967,296 or more.
pub fn wanted_slots(texts: &[TextAt]) -> Option<u32>
    ensures sum { IfSome result (λ wanted. wanted ≡ spec.wanted texts.now) }
    ensures none { result ≡ None → 2 ^ 32 ≤ spec.wanted texts.now }
{
    let mut wanted = 0_u32;
    for text in texts {
        wanted = wanted.checked_add(text.slots())?;
    }
    Some(wanted)
}

/// The slots of these texts, one text behind the other. `None` comes exactly where one is not
/// there.
pub fn text_slots<L: Ledger>(
    alloc: Global,
    arena: &Arena,
    texts: &[TextAt],
    steps: &mut Steps<L>,
) -> Result<Option<Vec<u32>>, NoMemory>
    ensures held { IfOk result (λ found. IfSome found (λ slots.
        All (spec.IsHeld arena.now) texts.now)) }
    ensures slots { IfOk result (λ found. IfSome found (λ slots.
        slots.items ≡ flat_map (spec.text_parts arena.now) texts.now)) }
    ensures none { IfOk result (λ found. found ≡ None
        → All (spec.IsHeld arena.now) texts.now → ⊥) }
{
    let mut slots = Vec::new(alloc);
    for text in texts {
        let Some(parts) = chunks(alloc, arena, text.slot, text.length, steps)? else {
            return Ok(None);
        };
        push_all(&mut slots, &parts)?;
    }
    Ok(Some(slots))
}

fn push_all(slots: &mut Vec<u32>, parts: &[Slot]) -> Result<(), NoMemory>
    ensures { IfOk result (λ _. slots.new.items ≡ slots.old.items ++ map (λ s. s.0) parts.now) }
{
    for part in parts {
        slots.push(part.0)?;
    }
    Ok(())
}
