ghost use Rattle.std.specs.Prelude.{◌≡◌, ◌≤◌, length, OnOk};
ghost use Rattle.pl_base.specs.Touched.{IsWithin};
ghost use Rattle.pl_desk.specs.Counts.{Counts, Writes};
ghost use Rattle.pl_gate.specs.FileCalls.{CallsFile};
ghost use Rattle.pl_gate.specs.Gate.{commit_bytes};
ghost use Rattle.pl_gate.specs.States.{ShowsChange, TakesChange};

use crate::gate::Gate;
use crate::states::Closed;
use pl_base::{DeviceFault, Touched};
use pl_desk::Desk;

impl<'d, D: Desk> Gate<'d, D> {
    /// Takes a change through all four states. A stop at any moment leaves a file that stands for
    /// the pages before or for those after; after `Ok` it is those after, on the disk.
    pub fn commit(&mut self, closed: Closed, touched: &Touched) -> Result<Closed, DeviceFault>
        requires within { IsWithin touched.now }
        requires some { 1 ≤ touched.now.before }

        ensures closed { OnOk result
            (TakesChange D.Desk touched.now self.old.desk.now self.new.desk.now) }
        ensures any_moment { ShowsChange D.Desk touched.now self.old.desk.now self.new.desk.now }

        ensures written { Writes result (commit_bytes (length touched.now.pages))
            (D.written self.old.desk.now) (D.written self.new.desk.now) }
        ensures calls { CallsFile D.Desk (Counts result) self.old.desk.now self.new.desk.now }
        ensures same_desk { self.new.desk.ghost_name ≡ self.old.desk.ghost_name }
    {
        let staged = self.stage(closed, touched)?;
        let armed = self.arm(staged)?;
        let installed = self.install(armed)?;
        self.disarm(installed)
    }
}
