ghost use Rattle.std.specs.Prelude.{◌≡◌, ◌≤◌, ◌<◌, ◌+◌, ◌*◌, ℕ, List, Some, None, Err, true};
ghost use Rattle.std.specs.Prelude.{IfSome, OnOk};
ghost use Rattle.pl_base.specs.Touched.{page_size};
ghost use Rattle.pl_desk.specs.Desk.{last_offset, Only};
ghost use Rattle.pl_desk.specs.Settling.{IsFirstSync, Settles};
ghost use Rattle.pl_desk.specs.Shown.{AtAnyMoment, Rests};
ghost use Rattle.pl_desk.specs.Counts.{CountsAt, Writes};
ghost use Rattle.pl_gate.specs.FileCalls.{CallsFile};
ghost use Rattle.pl_gate.specs.Gate.{entry_size, has_gate, is_set};
ghost use Rattle.pl_gate.specs.Recovery.{IsGatePageOf, IsSettledAs, SettlesGate, StandsAs};
ghost use Rattle.pl_gate.specs.Recovery.{recovery_bytes};

use crate::device::write_gate;
use crate::error::GateError;
use crate::gate::Gate;
use crate::journal::{check_journal, install_journal};
use crate::read::{GatePage, read_gate_page};
use crate::states::Closed;
use pl_base::PAGE_SIZE;
use pl_desk::Desk;

impl<'d, D: Desk> Gate<'d, D> {
    /// Settles the gate of a file that a stop may have left: it syncs, and installs a journal whose
    /// gate is set. `BadGate` comes just where the file has less than 1,024 bytes, and where the
    /// gate is set over a journal that breaks its format.
    pub fn recover(&mut self) -> Result<Closed, GateError>
        ensures settles { SettlesGate D.Desk result self.old.desk.now self.new.desk.now }
        ensures unwritten { result ≡ Err GateError.BadGate → (file : List ℕ)
            → D.held self.old.desk.now ≡ Some file
            → D.written self.new.desk.now ≡ D.written self.old.desk.now }
        ensures at_rest { result ≡ Err GateError.BadGate → (file : List ℕ)
            → D.held self.old.desk.now ≡ Some file → Only file (D.may_leave self.new.desk.now) }

        // Before the first sync ends, a stop shows a file that it might have left at first; from
        // then on each file that it shows stands for the one that a read gave. Before it no byte is
        // written, and it has ended where the device had no fault.
        ensures any_moment { (file : List ℕ) → D.held self.old.desk.now ≡ Some file
            → Settles D.Desk (result ≡ Err GateError.DeviceFault)
            self.old.desk.now self.new.desk.now (StandsAs file) }

        ensures written { (file : List ℕ) → D.held self.old.desk.now ≡ Some file
            → Writes result (recovery_bytes file)
            (D.written self.old.desk.now) (D.written self.new.desk.now) }
        // A byte is written only behind the first sync.
        ensures synced { D.written self.old.desk.now < D.written self.new.desk.now
            → (turn : D) × IsFirstSync D.Desk self.old.desk.now turn }
        ensures calls { CallsFile D.Desk (CountsAt (result ≡ Err GateError.DeviceFault))
            self.old.desk.now self.new.desk.now }
        ensures same_desk { self.new.desk.ghost_name ≡ self.old.desk.ghost_name }
    {
        self.desk.sync()?;
        let len = self.desk.len()?;
        if len < PAGE_SIZE as u64 {
            return Err(GateError::BadGate);
        }
        let told = read_gate_page(self.desk)?;
        if told.is_set {
            check_journal(self.desk, &told, len)?;
            clear_gate(self.desk, &told)?;
        }
        Ok(Closed { seal: () })
    }
}

// Installs the journal and clears the gate, on a file that is at rest.
fn clear_gate<D: Desk>(desk: &mut D, told: &GatePage) -> Result<(), GateError>
    requires range { told.now.start + entry_size * told.now.count ≤ last_offset }
    requires told { IfSome (D.held desk.old) (IsGatePageOf told.now) }
    requires set { IfSome (D.held desk.old) (λ file. is_set file ≡ true) }
    requires gate { IfSome (D.held desk.old) (λ file. has_gate file ≡ true) }
    requires only { IfSome (D.held desk.old) (λ file. Only file (D.may_leave desk.old)) }
    ensures settled { OnOk result
        ((file : List ℕ) → D.held desk.old ≡ Some file → Rests D.Desk desk.new (IsSettledAs file)) }
    ensures any_moment { (file : List ℕ) → D.held desk.old ≡ Some file
        → AtAnyMoment D.Desk desk.old desk.new (StandsAs file) }
    ensures left { (file : List ℕ) → D.held desk.old ≡ Some file → (later : List ℕ)
        → D.may_leave desk.new later → StandsAs file later }
    ensures good { result ≡ Err GateError.BadGate → D.held desk.old ≡ None }
    ensures written { Writes result (page_size * told.now.count + 1)
        (D.written desk.old) (D.written desk.new) }
    ensures calls { CallsFile D.Desk (CountsAt (result ≡ Err GateError.DeviceFault))
        desk.old desk.new }
{
    install_journal(desk, told)?;
    desk.sync()?;
    write_gate(desk, 0)?;
    Ok(())
}
