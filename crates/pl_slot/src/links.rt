// The links of slots, each read and set by its four bytes.
ghost use Rattle.std.specs.Prelude.{◌≡◌, ◌+◌, ◌≤◌, true, Some, IfSome, IsSome};
ghost use Rattle.std.specs.Int.{w32, to_le_bytes, from_le_bytes};
ghost use Rattle.pl_base.specs.Live.{slot_size};
ghost use Rattle.pl_sheets.specs.Sheets.{bytes_at, place_in, with_bytes};
ghost use Rattle.pl_slot.specs.declared.kind.SlotKind.{SlotKind as Kind};
ghost use Rattle.pl_slot.specs.Arena as arena;
ghost use Rattle.pl_slot.specs.Links as links;

use crate::arena::Arena;
use crate::slots::{byte_of, page_of};
use pl_base::{Slot, Steps};
use pl_sheets::Sheets;
use std::sync::ledger::Ledger;

/// The kinds of chain that link slots. Each has an owner, which names the first member and the
/// last.
#[derive(Clone, Copy, Debug, PartialEq, Eq, Hash)]
pub enum Rail {
    /// All slots of a kind, owned by the header.
    Live,
    /// The pages of an origin.
    OriginPages,
    /// The visits of a page.
    PageVisits,
    /// The visits that came from a visit.
    Targets,
    /// The children of an item.
    Children,
    /// The items of a page.
    References,
}

/// A link of a rail: the first two are an owner's, the others a member's.
#[derive(Clone, Copy, Debug, PartialEq, Eq, Hash)]
pub enum Link {
    First,
    Last,
    Previous,
    Next,
}

// The byte of a slot at which a link stands, where it has that link.
fn place(rail: Rail, link: Link) -> usize
    ensures there { (kind : Kind) → IfSome (links.link_place rail link kind) (λ n. result ≡ n) }
    ensures within { result + 4 ≤ slot_size }
{
    match link {
        Link::First => ends(rail),
        Link::Last => ends(rail) + 4,
        Link::Previous => sides(rail),
        Link::Next => sides(rail) + 4,
    }
}

// The byte at which an owner's links begin. No slot owns a chain of live slots.
fn ends(rail: Rail) -> usize
    ensures there { (kind : Kind) → IfSome (links.ends_at rail kind) (λ n. result ≡ n) }
    ensures within { result + 8 ≤ slot_size }
{
    match rail {
        Rail::Live => 0,
        Rail::OriginPages => 12,
        Rail::PageVisits | Rail::Children => 28,
        Rail::Targets => 40,
        Rail::References => 36,
    }
}

// The byte at which a member's links begin.
fn sides(rail: Rail) -> usize
    ensures there { (kind : Kind) → IfSome (links.sides_at rail kind) (λ n. result ≡ n) }
    ensures within { result + 8 ≤ slot_size }
{
    match rail {
        Rail::Live => 4,
        Rail::OriginPages | Rail::PageVisits | Rail::Children => 20,
        Rail::Targets => 32,
        Rail::References => 40,
    }
}

// The number of 4 bytes at a place of a slot.
#[inline(always)]
fn four_of(sheets: &Sheets, slot: Slot, at: usize) -> u32
    requires there { arena.is_slot slot.0 sheets.now ≡ true }
    requires within { at + 4 ≤ slot_size }
    ensures { result ≡ from_le_bytes w32
        (bytes_at (place_in (arena.slot_page slot.0) (arena.slot_byte slot.0 + at)) 4
        sheets.now.bytes) }
{
    let mut number = [0; 4];
    sheets.get(page_of(slot), byte_of(slot) + at, &mut number);
    u32::from_le_bytes(number)
}

// Puts a number of 4 bytes to a place of a slot.
fn put_four_of(sheets: &mut Sheets, slot: Slot, at: usize, value: u32)
    requires there { arena.is_slot slot.0 sheets.old ≡ true }
    requires within { at + 4 ≤ slot_size }
    ensures { sheets.new ≡ with_bytes (arena.slot_page slot.0) (arena.slot_byte slot.0 + at)
        (to_le_bytes w32 value) sheets.old }
{
    sheets.put(page_of(slot), byte_of(slot) + at, &value.to_le_bytes());
}

impl Arena {
    /// The slot that a link of a slot names, 0 where it names none. It counts a record that is
    /// read.
    #[inline(always)]
    pub fn link<L: Ledger>(&self, slot: Slot, rail: Rail, link: Link, steps: &mut Steps<L>) -> Slot
        requires there { IsSome (links.link_at rail link slot.0 self.now) }
        ensures named { links.link_at rail link slot.0 self.now ≡ Some result }
        ensures counted { steps.new ≡ steps.old + 1 }
    {
        steps.tick();
        Slot(four_of(&self.sheets, slot, place(rail, link)))
    }

    /// Sets a link of a slot: a `link` of it gives what was set.
    pub fn set_link(&mut self, slot: Slot, rail: Rail, link: Link, to: Slot)
        requires there { IsSome (links.link_at rail link slot.0 self.old) }
        ensures set { links.SetsLink rail link slot to self.old self.new }
    {
        put_four_of(&mut self.sheets, slot, place(rail, link), to.0);
    }
}
