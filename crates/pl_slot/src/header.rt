// The fields of the header, read and set.
ghost use Rattle.std.specs.Prelude.{◌≡◌, ◌≤◌};
ghost use Rattle.pl_sheets.specs.Sheets.{page_count};
ghost use Rattle.pl_slot.specs.Arena as arena;
ghost use Rattle.pl_slot.specs.Header as header;

use crate::arena::Arena;
use crate::kind::LiveKind;
use crate::slots::{four_at, put_four};
use pl_base::{Day, Ids, Slot};

// The bytes of page 1 at which its fields begin, of 4 bytes each.
pub const PAGES: usize = 8;

const DAY: usize = 12;

const NEXT_PAGE: usize = 16;

const NEXT_VISIT: usize = 20;

const NEXT_ITEM: usize = 24;

pub const FIRST_FREE: usize = 28;

const LIVE: usize = 64;

// The byte at which the first slot of the chain of a kind stands. The last one is behind it.
fn ends_at(kind: LiveKind) -> usize
    ensures { result ≡ header.ends_place kind }
{
    match kind {
        LiveKind::Origin => 32,
        LiveKind::Place => 40,
        LiveKind::Visit => 48,
        LiveKind::Item => 56,
    }
}

impl Arena {
    /// The length of the store in pages.
    pub fn pages(&self) -> u32
        ensures count { result ≡ page_count self.now }
        ensures header { result ≡ (arena.header_of self.now).pages }
        ensures arena { arena.IsArena self.now }
        ensures few { arena.live_count self.now ≤ arena.slot_count self.now }
    {
        four_at(&self.sheets, PAGES)
    }

    pub fn day(&self) -> Day
        ensures { result ≡ (arena.header_of self.now).day }
    {
        Day(four_at(&self.sheets, DAY))
    }

    /// The next ids.
    pub fn ids(&self) -> Ids
        ensures { result ≡ (arena.header_of self.now).ids }
    {
        Ids {
            page: four_at(&self.sheets, NEXT_PAGE),
            visit: four_at(&self.sheets, NEXT_VISIT),
            item: four_at(&self.sheets, NEXT_ITEM),
        }
    }

    /// The first free slot, 0 where none is free.
    pub fn first_free(&self) -> Slot
        ensures { result ≡ (arena.header_of self.now).first_free }
    {
        Slot(four_at(&self.sheets, FIRST_FREE))
    }

    /// The header's number of live slots, which `take` and `give_back` leave as it is.
    pub fn live(&self) -> u32
        ensures { result ≡ (arena.header_of self.now).live }
    {
        four_at(&self.sheets, LIVE)
    }

    /// The first slot of the chain of a kind, 0 where it has none.
    pub fn first_of(&self, kind: LiveKind) -> Slot
        ensures { result ≡ (header.ends_of kind (arena.header_of self.now)).first }
    {
        Slot(four_at(&self.sheets, ends_at(kind)))
    }

    /// The last slot of the chain of a kind, 0 where it has none.
    pub fn last_of(&self, kind: LiveKind) -> Slot
        ensures { result ≡ (header.ends_of kind (arena.header_of self.now)).last }
    {
        Slot(four_at(&self.sheets, ends_at(kind) + 4))
    }

    pub fn set_day(&mut self, day: Day)
        ensures set { arena.SetsHeader
            (λ h. record h { day = day }) self.old self.new }
        ensures arena { arena.IsArena self.new }
    {
        put_four(&mut self.sheets, DAY, day.0);
    }

    pub fn set_ids(&mut self, ids: &Ids)
        ensures set { arena.SetsHeader
            (λ h. record h { ids = ids.now }) self.old self.new }
        ensures arena { arena.IsArena self.new }
    {
        put_four(&mut self.sheets, NEXT_PAGE, ids.page);
        put_four(&mut self.sheets, NEXT_VISIT, ids.visit);
        put_four(&mut self.sheets, NEXT_ITEM, ids.item);
    }

    pub fn set_live(&mut self, live: u32)
        ensures set { arena.SetsHeader
            (λ h. record h { live = live }) self.old self.new }
        ensures arena { arena.IsArena self.new }
    {
        put_four(&mut self.sheets, LIVE, live);
    }

    pub fn set_first_of(&mut self, kind: LiveKind, slot: Slot)
        ensures set { arena.SetsHeader (header.with_first kind slot) self.old self.new }
        ensures as_many { page_count self.new ≡ page_count self.old }
    {
        put_four(&mut self.sheets, ends_at(kind), slot.0);
    }

    pub fn set_last_of(&mut self, kind: LiveKind, slot: Slot)
        ensures set { arena.SetsHeader (header.with_last kind slot) self.old self.new }
        ensures as_many { page_count self.new ≡ page_count self.old }
    {
        put_four(&mut self.sheets, ends_at(kind) + 4, slot.0);
    }
}
