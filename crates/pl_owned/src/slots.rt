// How many slots there are.
ghost use Rattle.std.specs.Prelude.{◌≡◌, ◌≤◌};
ghost use Rattle.pl_base.specs.Live.{slot_limit};
ghost use Rattle.pl_slot.specs.Arena as slots;

use pl_base::PAGE_SIZE;
use pl_slot::{Arena, SLOT_SIZE};

const SLOTS_A_PAGE: u32 = (PAGE_SIZE / SLOT_SIZE) as u32;

/// The number of the last slot, 0 where there is none.
pub fn slot_count(arena: &Arena) -> u32
    ensures count { result ≡ slots.slot_count arena.now }
    ensures few { result ≤ slot_limit }
{
    SLOTS_A_PAGE * (arena.pages() - 2)
}
