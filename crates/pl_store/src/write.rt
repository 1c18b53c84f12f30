ghost use Rattle.std.specs.Prelude.{◌≤◌, length, OnOk};
ghost use Rattle.pl_base.specs.Touched.{IsWithin};
ghost use Rattle.pl_desk.specs.Counts.{Counts, Writes};
ghost use Rattle.pl_gate.specs.FileCalls.{CallsFile};
ghost use Rattle.pl_gate.specs.Gate.{commit_bytes};
ghost use Rattle.pl_gate.specs.States.{ShowsChange, TakesChange};

use pl_base::{DeviceFault, Touched};
use pl_desk::Desk;
use pl_gate::Gate;

/// Takes a change of a file whose gate is not set, or of an empty one, through the gate.
pub(crate) fn write_change<D: Desk>(desk: &mut D, touched: &Touched) -> Result<(), DeviceFault>
    requires within { IsWithin touched.now }
    requires some { 1 ≤ touched.now.before }

    ensures closed { OnOk result (TakesChange D.Desk touched.now desk.old desk.new) }
    ensures any_moment { ShowsChange D.Desk touched.now desk.old desk.new }

    ensures written { Writes result (commit_bytes (length touched.now.pages))
        (D.written desk.old) (D.written desk.new) }
    ensures calls { CallsFile D.Desk (Counts result) desk.old desk.new }
{
    let mut gate = Gate::of(desk);
    let closed = gate.adopt();
    gate.commit(closed, touched)?;
    Ok(())
}
