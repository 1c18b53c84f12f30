// Calls on texts. Each asks first for what the call takes for granted, and the records that it
// counts are thrown away.
ghost use Rattle.std.specs.Prelude.{◌≡◌, ◌+◌, ◌<◌, ◌≤◌, ℕ, List, true, IfOk, IfSome};
ghost use Rattle.std.specs.Str.{IsUtf8};
ghost use Rattle.pl_base.specs.Live.{chunks, slot_limit};
ghost use Rattle.pl_slot.specs.Arena as slots;
ghost use Rattle.pl_text.specs.Chunks as spec;

use pl_base::{NoMemory, Slot, Steps, Txt};
use pl_slot::Arena;
use std::alloc::Global;
use std::marker::Brand;
use std::process::Abort;
use std::sync::ledger::{Blank, Ledger};

// Stores a text in an arena that has few pages.
pub fn store(rt: &impl Abort, arena: &mut Arena, text: &[u8]) -> Result<Slot, NoMemory> {
    assert!(rt; arena.pages() < 100_000);
    assert!(rt; text.len() < 100_000);
    store_in::<Brand>(arena, text, Blank::new(1))
}

fn store_in<L: Ledger>(arena: &mut Arena, text: &[u8], blank: Blank) -> Result<Slot, NoMemory>
    requires few { slots.live_count arena.old + chunks text.now ≤ slot_limit }
    requires name { blank.name ≡ L.name }
    requires parts { blank.parts ≡ L.parts }
    requires some { 0 < blank.parts }
{
    let mut steps = Steps::<L>::none(blank);
    pl_text::store(arena, text, &mut steps)
}

// The slots of a text of so many bytes, if there is one.
pub fn find(
    alloc: Global,
    arena: &Arena,
    slot: Slot,
    length: u32,
) -> Result<Option<Vec<Slot>>, NoMemory>
    ensures { IfOk result (λ found. IfSome found (λ these.
        spec.HasText slot length arena.now)) }
{
    find_in::<Brand>(alloc, arena, slot, length, Blank::new(1))
}

fn find_in<L: Ledger>(
    alloc: Global,
    arena: &Arena,
    slot: Slot,
    length: u32,
    blank: Blank,
) -> Result<Option<Vec<Slot>>, NoMemory>
    requires name { blank.name ≡ L.name }
    requires parts { blank.parts ≡ L.parts }
    requires some { 0 < blank.parts }
    ensures { IfOk result (λ found. IfSome found (λ these.
        spec.HasText slot length arena.now)) }
{
    let mut steps = Steps::<L>::none(blank);
    pl_text::chunks(alloc, arena, slot, length, &mut steps)
}

// Whether there is a text of so many bytes.
fn has_text(alloc: Global, arena: &Arena, slot: Slot, length: u32) -> Result<bool, NoMemory>
    ensures { IfOk result (λ has. has ≡ true → spec.HasText slot length arena.now) }
{
    match find(alloc, arena, slot, length)? {
        Some(_) => Ok(true),
        None => Ok(false),
    }
}

// The bytes of a text, which is there.
pub fn bytes(
    rt: &impl Abort,
    alloc: Global,
    arena: &Arena,
    slot: Slot,
    length: u32,
) -> Result<Vec<u8>, NoMemory> {
    let has = has_text(alloc, arena, slot, length)?;
    assert!(rt; has);
    bytes_in::<Brand>(alloc, arena, slot, length, Blank::new(1))
}

fn bytes_in<L: Ledger>(
    alloc: Global,
    arena: &Arena,
    slot: Slot,
    length: u32,
    blank: Blank,
) -> Result<Vec<u8>, NoMemory>
    requires text { spec.HasText slot length arena.now }
    requires name { blank.name ≡ L.name }
    requires parts { blank.parts ≡ L.parts }
    requires some { 0 < blank.parts }
    ensures { IfOk result (λ bytes. (text : List ℕ)
        → spec.HoldsText slot text arena.now → bytes.items ≡ text) }
{
    let mut steps = Steps::<L>::none(blank);
    pl_text::bytes(alloc, arena, slot, length, &mut steps)
}

// Whether a text, which is there, is UTF-8.
fn is_utf8(alloc: Global, arena: &Arena, slot: Slot, length: u32) -> Result<bool, NoMemory>
    requires text { spec.HasText slot length arena.now }
    ensures { IfOk result (λ is_utf8. is_utf8 ≡ true → (text : List ℕ)
        → spec.HoldsText slot text arena.now → IsUtf8 text) }
{
    let bytes = bytes_in::<Brand>(alloc, arena, slot, length, Blank::new(1))?;
    match std::str::from_utf8(&bytes) {
        Ok(_) => Ok(true),
        Err(_) => Ok(false),
    }
}

// A text, which is there and UTF-8.
pub fn load(
    rt: &impl Abort,
    alloc: Global,
    arena: &Arena,
    slot: Slot,
    length: u32,
) -> Result<Txt, NoMemory> {
    let has = has_text(alloc, arena, slot, length)?;
    assert!(rt; has);
    let is_utf8 = is_utf8(alloc, arena, slot, length)?;
    assert!(rt; is_utf8);
    load_in::<Brand>(alloc, arena, slot, length, Blank::new(1))
}

fn load_in<L: Ledger>(
    alloc: Global,
    arena: &Arena,
    slot: Slot,
    length: u32,
    blank: Blank,
) -> Result<Txt, NoMemory>
    requires text { spec.HasText slot length arena.now }
    requires utf8 { (text : List ℕ) → spec.HoldsText slot text arena.now → IsUtf8 text }
    requires name { blank.name ≡ L.name }
    requires parts { blank.parts ≡ L.parts }
    requires some { 0 < blank.parts }
{
    let mut steps = Steps::<L>::none(blank);
    pl_text::load(alloc, arena, slot, length, &mut steps)
}

// Frees a text, which is there.
pub fn free(
    rt: &impl Abort,
    alloc: Global,
    arena: &mut Arena,
    slot: Slot,
    length: u32,
) -> Result<(), NoMemory> {
    let has = has_text(alloc, arena, slot, length)?;
    assert!(rt; has);
    free_in::<Brand>(arena, slot, Blank::new(1));
    Ok(())
}

fn free_in<L: Ledger>(arena: &mut Arena, slot: Slot, blank: Blank)
    requires text { (text : List ℕ) × spec.HoldsText slot text arena.old }
    requires name { blank.name ≡ L.name }
    requires parts { blank.parts ≡ L.parts }
    requires some { 0 < blank.parts }
{
    let mut steps = Steps::<L>::none(blank);
    pl_text::free(arena, slot, &mut steps);
}
