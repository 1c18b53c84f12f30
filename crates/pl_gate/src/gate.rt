ghost use Rattle.std.specs.Prelude.{◌≡◌, ◌≤◌, ◌<◌, ◌+◌, ◌*◌, ℕ, List, [], Some, length, IfOk, OnOk};
ghost use Rattle.std.specs.Option.{option_map};
ghost use Rattle.pl_base.specs.Touched.{IsWithin, changed, bytes_before, page_size};
ghost use Rattle.pl_desk.specs.Shown.{AtAnyMoment, Rests};
ghost use Rattle.pl_desk.specs.Counts.{Counts, Writes};
ghost use Rattle.pl_gate.specs.FileCalls.{CallsFile};
ghost use Rattle.pl_gate.specs.Device.{with_gate, with_images};
ghost use Rattle.pl_gate.specs.Gate.{Holds, entry_size};
ghost use Rattle.pl_gate.specs.States.{HoldsEither, IsArmed, IsClosed, IsInstalled, IsStaged};

use crate::device::{write_entries, write_gate, write_images, write_place};
use crate::states::{Armed, Closed, Installed, Staged};
use pl_base::{DeviceFault, PAGE_SIZE, Touched};
use pl_desk::Desk;

/// The gate of a desk's file. It holds the desk for itself until it goes.
///
/// A commit takes a change through the states `Closed`, `Staged`, `Armed`, `Installed` and `Closed`
/// again. From a call that fails there is no state to go on from.
#[derive(Drop)]
pub struct Gate<'d, D> {
    pub(crate) desk: &'d mut D,
}

impl<'d, D: Desk> Gate<'d, D> {
    pub fn of(desk: &'d mut D) -> Self
        ensures same_desk { result.desk.ghost_name ≡ desk.entry.ghost_name }
        ensures desk { result.desk.now ≡ desk.old }
    {
        Gate { desk }
    }

    /// Takes a file whose gate is not set as it is, or an empty one. No call is made.
    pub fn adopt(&self) -> Closed {
        Closed { seal: () }
    }

    /// Writes the journal of the change behind the store's pages, old and new, and tells the gate's
    /// page of it: one write for each entry, one for the page, and a sync.
    pub fn stage<'t>(&mut self, _: Closed, touched: &'t Touched) -> Result<Staged<'t>, DeviceFault>
        requires within { IsWithin touched.now }
        requires some { 1 ≤ touched.now.before }

        ensures change { IfOk result (λ staged. staged ≡ touched.now) }
        ensures staged { OnOk result
            ((pages : List ℕ) → Rests D.Desk self.old.desk.now (IsClosed pages)
            → length pages ≡ bytes_before touched.now.before
            → Rests D.Desk self.new.desk.now (IsStaged touched.now pages)) }
        ensures staged_empty { OnOk result
            (D.held self.old.desk.now ≡ Some [] → touched.now.before ≡ 1 → 1 < touched.now.after
            → Rests D.Desk self.new.desk.now (IsStaged touched.now [])) }
        ensures any_moment { (pages : List ℕ) → Rests D.Desk self.old.desk.now (IsClosed pages)
            → length pages ≡ bytes_before touched.now.before
            → AtAnyMoment D.Desk self.old.desk.now self.new.desk.now (Holds pages) }

        ensures written { Writes result (entry_size * length touched.now.pages + 16)
            (D.written self.old.desk.now) (D.written self.new.desk.now) }
        ensures calls { CallsFile D.Desk (Counts result) self.old.desk.now self.new.desk.now }
        ensures same_desk { self.new.desk.ghost_name ≡ self.old.desk.ghost_name }
    {
        let after = touched.after();
        let start = PAGE_SIZE as u64 * touched.before().max(after) as u64;
        let count = touched.count() as u32;
        write_entries(self.desk, start, touched)?;
        write_place(self.desk, start, count, after)?;
        self.desk.sync()?;
        Ok(Staged { touched })
    }

    /// Sets the gate and syncs.
    pub fn arm<'t>(&mut self, staged: Staged<'t>) -> Result<Armed<'t>, DeviceFault>
        ensures change { IfOk result (λ armed. armed ≡ staged.entry) }
        ensures armed { OnOk result
            ((pages : List ℕ) → Rests D.Desk self.old.desk.now (IsStaged staged.entry pages)
            → Rests D.Desk self.new.desk.now (IsArmed staged.entry (changed staged.entry pages))) }
        ensures set { OnOk result
            (D.held self.new.desk.now ≡ option_map (with_gate 1) (D.held self.old.desk.now)) }
        ensures any_moment { (pages : List ℕ)
            → Rests D.Desk self.old.desk.now (IsStaged staged.entry pages)
            → AtAnyMoment D.Desk self.old.desk.now self.new.desk.now
            (HoldsEither staged.entry pages) }

        ensures written { Writes result 1
            (D.written self.old.desk.now) (D.written self.new.desk.now) }
        ensures calls { CallsFile D.Desk (Counts result) self.old.desk.now self.new.desk.now }
        ensures same_desk { self.new.desk.ghost_name ≡ self.old.desk.ghost_name }
    {
        write_gate(self.desk, 1)?;
        Ok(Armed {
            touched: staged.touched,
        })
    }

    /// Writes each image in its page's place and syncs.
    pub fn install<'t>(&mut self, armed: Armed<'t>) -> Result<Installed<'t>, DeviceFault>
        ensures change { IfOk result (λ installed. installed ≡ armed.entry) }
        ensures installed { OnOk result
            ((pages : List ℕ) → Rests D.Desk self.old.desk.now (IsArmed armed.entry pages)
            → Rests D.Desk self.new.desk.now (IsInstalled armed.entry pages)) }
        ensures placed { OnOk result
            (D.held self.new.desk.now
            ≡ option_map (with_images armed.entry.pages) (D.held self.old.desk.now)) }
        ensures any_moment { (pages : List ℕ)
            → Rests D.Desk self.old.desk.now (IsArmed armed.entry pages)
            → AtAnyMoment D.Desk self.old.desk.now self.new.desk.now (Holds pages) }

        ensures written { Writes result (page_size * length armed.entry.pages)
            (D.written self.old.desk.now) (D.written self.new.desk.now) }
        ensures calls { CallsFile D.Desk (Counts result) self.old.desk.now self.new.desk.now }
        ensures same_desk { self.new.desk.ghost_name ≡ self.old.desk.ghost_name }
    {
        write_images(self.desk, armed.touched)?;
        self.desk.sync()?;
        Ok(Installed {
            touched: armed.touched,
        })
    }

    /// Clears the gate and syncs.
    pub fn disarm(&mut self, installed: Installed<'_>) -> Result<Closed, DeviceFault>
        ensures closed { OnOk result
            ((pages : List ℕ) → Rests D.Desk self.old.desk.now (IsInstalled installed.entry pages)
            → Rests D.Desk self.new.desk.now (IsClosed pages)) }
        ensures cleared { OnOk result
            (D.held self.new.desk.now ≡ option_map (with_gate 0) (D.held self.old.desk.now)) }
        ensures any_moment { (pages : List ℕ)
            → Rests D.Desk self.old.desk.now (IsInstalled installed.entry pages)
            → AtAnyMoment D.Desk self.old.desk.now self.new.desk.now (Holds pages) }

        ensures written { Writes result 1
            (D.written self.old.desk.now) (D.written self.new.desk.now) }
        ensures calls { CallsFile D.Desk (Counts result) self.old.desk.now self.new.desk.now }
        ensures same_desk { self.new.desk.ghost_name ≡ self.old.desk.ghost_name }
    {
        write_gate(self.desk, 0)?;
        Ok(Closed { seal: () })
    }
}
