ghost use Rattle.std.specs.Prelude.{◌≡◌, ◌+◌, ◌<◌, ◌≤◌, ◌∷◌, [], Some, true};
ghost use Rattle.std.specs.Prelude.{IfErr, IfOk, OnErr, OnOk};
ghost use Rattle.pl_base.specs.declared.check_error.CheckError.TheVariants as errors;
ghost use Rattle.pl_base.specs.Live.{slot_limit};
ghost use Rattle.pl_sheets.specs.Sheets.{change_of, page_count, settled};
ghost use Rattle.pl_slot.specs.declared.row.SlotRow.TheVariants.{Free};
ghost use Rattle.pl_slot.specs.Arena as arena;
ghost use Rattle.pl_slot.specs.Slot.{IsSlotRow};

use crate::checking::check;
use crate::header::PAGES;
use crate::row::SlotRow;
use crate::slots::{four_at, known_row, put_row};
use crate::taking::{give_back, make_free, take_free};
use pl_base::{CheckError, NoMemory, Slot, Steps, Touched};
use pl_sheets::Sheets;
use std::marker::Model;
use std::sync::ledger::Ledger;

/// The slots of a store's file and its header, in memory. Each slot is live, with a row that is
/// none of a free slot, or free; the free ones are in a chain. Contracts see the pages, and what
/// they hold.
#[derive(Debug, Drop)]
pub struct Arena {
    pub(crate) sheets: Sheets,
}

impl Model for Arena {
    ghost use Rattle.pl_sheets.specs.Sheets.{Pages};

    ghost Value = { Pages };

    ghost view = { λ a. a.sheets };

    ghost use Rattle.pl_slot.specs.Arena.{IsArena};

    ghost invariant = { λ a. IsArena a.sheets };
}

impl Arena {
    /// An arena over these pages, of which there are at least two, as many as the header says, and
    /// at most those of 4,194,304 slots. `NotAStore` comes exactly where a slot holds no row, or
    /// the free slots are not in one chain from the one that the header names.
    pub fn over(sheets: Sheets) -> Result<Self, CheckError>
        requires some { 2 ≤ page_count sheets }
        requires few { arena.slot_count sheets ≤ slot_limit }
        requires told { (arena.header_of sheets).pages ≡ page_count sheets }
        ensures same { IfOk result (λ arena. arena ≡ sheets) }
        ensures ok { OnOk result (arena.IsArena sheets) }
        ensures err { OnErr result (arena.KeepsSlots sheets → ⊥) }
        ensures cause { IfErr result (λ error. error ≡ errors.NotAStore) }
    {
        if !check(&sheets) {
            return Err(CheckError::NotAStore);
        }
        Ok(Arena { sheets })
    }

    /// The number of pages that the header has, which is to be theirs where an arena is made over
    /// them.
    pub fn length_in(sheets: &Sheets) -> u32
        requires { 2 ≤ page_count sheets.now }
        ensures { result ≡ (arena.header_of sheets.now).pages }
    {
        four_at(sheets, PAGES)
    }

    /// The row that a slot holds. It counts a record that is read.
    #[inline(always)]
    pub fn read<L: Ledger>(&self, slot: Slot, steps: &mut Steps<L>) -> SlotRow
        requires there { arena.is_slot slot.0 self.now ≡ true }
        ensures row { arena.row_at slot.0 self.now ≡ Some result }
        ensures fits { IsSlotRow result }
        ensures counted { steps.new ≡ steps.old + 1 }
    {
        steps.tick();
        known_row(&self.sheets, slot)
    }

    /// Puts a row into a live slot, in place of the one that it holds.
    pub fn write(&mut self, slot: Slot, row: &SlotRow)
        requires live { arena.is_live slot.0 self.old ≡ true }
        requires row { arena.IsLiveRow row.now }
        ensures arena { arena.IsArena self.new }
        ensures rows { arena.IsSet slot.0 row.now self.old self.new }
        ensures header { arena.header_of self.new ≡ arena.header_of self.old }
        ensures count { arena.live_count self.new ≡ arena.live_count self.old }
        ensures pages { arena.ChangesOnly (arena.slot_page slot.0 ∷ []) self.old self.new }
    {
        put_row(&mut self.sheets, slot, row);
    }

    /// Takes a free slot, which is live with this row then. Where none is free, it adds a page.
    /// There are fewer than 4,194,304 live slots before. After an `Err` nothing has changed.
    pub fn take(&mut self, row: &SlotRow) -> Result<Slot, NoMemory>
        requires row { arena.IsLiveRow row.now }
        requires few { arena.live_count self.old < slot_limit }
        ensures arena { arena.IsArena self.new }
        ensures taken { IfOk result (λ slot. arena.IsTaken slot.0 row.now self.old self.new) }
        ensures header { arena.KeepsFields self.old self.new }
        ensures pages { IfOk result (λ slot.
            arena.ChangesOnly (arena.header_page ∷ arena.slot_page slot.0 ∷ []) self.old self.new) }
        ensures longer { page_count self.old ≤ page_count self.new }
        ensures err { OnErr result (self.new ≡ self.old) }
    {
        make_free(&mut self.sheets)?;
        Ok(take_free(&mut self.sheets, row))
    }

    /// Frees a live slot. It holds no byte of its row any more.
    pub fn give_back(&mut self, slot: Slot)
        requires live { arena.is_live slot.0 self.old ≡ true }
        ensures arena { arena.IsArena self.new }
        ensures rows { arena.IsSet slot.0 (Free (arena.header_of self.old).first_free)
            self.old self.new }
        ensures header { arena.header_of self.new
            ≡ record (arena.header_of self.old) { first_free = slot } }
        ensures count { arena.live_count self.new + 1 ≡ arena.live_count self.old }
        ensures pages { arena.ChangesOnly (arena.header_page ∷ arena.slot_page slot.0 ∷ [])
            self.old self.new }
        ensures as_many { page_count self.new ≡ page_count self.old }
    {
        give_back(&mut self.sheets, slot);
    }

    /// The pages that have changed since the last call, or since the pages were made, as
    /// `Sheets::touched` gives them. After an `Err` nothing has changed.
    pub fn touched(&mut self) -> Result<Touched, NoMemory>
        ensures listed { IfOk result (λ change. change ≡ change_of self.old) }
        ensures ok { OnOk result (self.new ≡ settled self.old) }
        ensures err { OnErr result (self.new ≡ self.old) }
        ensures rows { arena.KeepsRows self.old self.new }
        ensures header { arena.header_of self.new ≡ arena.header_of self.old }
        ensures count { arena.live_count self.new ≡ arena.live_count self.old }
    {
        self.sheets.touched()
    }
}
