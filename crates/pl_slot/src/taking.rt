// Free slots, which are taken and given back.
ghost use Rattle.std.specs.Prelude.{◌≡◌, ◌≢◌, ◌+◌, ◌<◌, ◌∷◌, [], true, OnErr, OnOk};
ghost use Rattle.pl_base.specs.Live.{slot_limit};
ghost use Rattle.pl_sheets.specs.Sheets.{page_count, with_blank};
ghost use Rattle.pl_slot.specs.declared.row.SlotRow.TheVariants.{Free};
ghost use Rattle.pl_slot.specs.Arena as arena;
ghost use Rattle.pl_slot.specs.Taking as taking;

use crate::header::{FIRST_FREE, PAGES};
use crate::row::SlotRow;
use crate::slots::{SLOTS_A_PAGE, four_at, known_row, put_four, put_row};
use pl_base::{NoMemory, Slot};
use pl_sheets::Sheets;

/// Sees to it that a slot is free, by a page more where none is. After an `Err` nothing has
/// changed.
pub fn make_free(sheets: &mut Sheets) -> Result<(), NoMemory>
    requires arena { arena.IsArena sheets.old }
    requires few { arena.live_count sheets.old < slot_limit }
    ensures arena { arena.IsArena sheets.new }
    ensures ok { OnOk result (taking.MakesFree sheets.old sheets.new) }
    ensures err { OnErr result (sheets.new ≡ sheets.old) }
{
    if four_at(sheets, FIRST_FREE) != 0 {
        return Ok(());
    }
    grow(sheets)
}

// Adds a page of slots, which are the free ones then.
fn grow(sheets: &mut Sheets) -> Result<(), NoMemory>
    requires arena { arena.IsArena sheets.old }
    requires full { (arena.header_of sheets.old).first_free.0 ≡ 0 }
    requires few { arena.live_count sheets.old < slot_limit }
    ensures arena { arena.IsArena sheets.new }
    ensures ok { OnOk result (taking.MakesFree sheets.old sheets.new) }
    ensures err { OnErr result (sheets.new ≡ sheets.old) }
{
    sheets.grow()?;
    let pages = sheets.pages();
    let first = SLOTS_A_PAGE * (pages - 3) + 1;
    link(sheets, first);
    put_four(sheets, PAGES, pages);
    put_four(sheets, FIRST_FREE, first);
    Ok(())
}

// Links the slots of a page of zeros, from the first of them on.
fn link(sheets: &mut Sheets, first: u32)
    requires arena { taking.IsGrown first sheets.old }
    ensures { taking.IsLinked 7 first sheets.old sheets.new }
{
    for slot in first..first + SLOTS_A_PAGE - 1 {
        let next = Slot(slot + 1);
        put_row(sheets, Slot(slot), &SlotRow::Free { next });
    }
}

/// Takes the first free slot.
pub fn take_free(sheets: &mut Sheets, row: &SlotRow) -> Slot
    requires arena { arena.IsArena sheets.old }
    requires free { (arena.header_of sheets.old).first_free.0 ≢ 0 }
    requires row { arena.IsLiveRow row.now }
    ensures arena { arena.IsArena sheets.new }
    ensures first { result ≡ (arena.header_of sheets.old).first_free }
    ensures rows { arena.IsSet result.0 row.now sheets.old sheets.new }
    ensures header { arena.KeepsFields sheets.old sheets.new }
    ensures count { arena.live_count sheets.new ≡ arena.live_count sheets.old + 1 }
    ensures pages { arena.ChangesOnly (arena.header_page ∷ arena.slot_page result.0 ∷ [])
        sheets.old sheets.new }
    ensures as_many { page_count sheets.new ≡ page_count sheets.old }
{
    let slot = Slot(four_at(sheets, FIRST_FREE));
    let next = next_free(sheets, slot);
    put_row(sheets, slot, row);
    put_four(sheets, FIRST_FREE, next.0);
    slot
}

// The free slot behind a free one in their chain.
fn next_free(sheets: &Sheets, slot: Slot) -> Slot
    requires there { arena.is_free slot.0 sheets.now ≡ true }
    ensures { arena.row_at slot.0 sheets.now ≡ Some (Free result) }
{
    match known_row(sheets, slot) {
        SlotRow::Free { next } => next,
        _ => unreachable!(),
    }
}

/// Frees a live slot, the first of the free ones then.
pub fn give_back(sheets: &mut Sheets, slot: Slot)
    requires arena { arena.IsArena sheets.old }
    requires live { arena.is_live slot.0 sheets.old ≡ true }
    ensures arena { arena.IsArena sheets.new }
    ensures rows { arena.IsSet slot.0 (Free (arena.header_of sheets.old).first_free)
        sheets.old sheets.new }
    ensures header { arena.header_of sheets.new
        ≡ record (arena.header_of sheets.old) { first_free = slot } }
    ensures count { arena.live_count sheets.new + 1 ≡ arena.live_count sheets.old }
    ensures pages { arena.ChangesOnly (arena.header_page ∷ arena.slot_page slot.0 ∷ [])
        sheets.old sheets.new }
    ensures as_many { page_count sheets.new ≡ page_count sheets.old }
{
    let next = Slot(four_at(sheets, FIRST_FREE));
    put_row(sheets, slot, &SlotRow::Free { next });
    put_four(sheets, FIRST_FREE, slot.0);
}
