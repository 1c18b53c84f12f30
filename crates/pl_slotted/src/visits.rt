// Visits and their targets, changed.
mod insert;
mod remove;

ghost use Rattle.std.specs.Prelude.{◌≡◌, true, Some};
ghost use Rattle.pl_base.specs.Rows.{has_visit};
ghost use Rattle.pl_record.specs.LinkedRows as index;

use crate::slotted::Slotted;
use pl_base::{Slot, VisitId};

impl Slotted {
    ghost use Rattle.pl_slotted.specs.Slotted.{kept_of};

    // The slot of a visit that is there.
    fn visit_slot(&self, visit: VisitId) -> Slot
        requires { has_visit (kept_of self.now) visit ≡ true }
        ensures { index.slot_at self.now.visits.entries visit.0 ≡ Some result }
    {
        match self.visits.slot_at(visit.0) {
            Some(slot) => slot,
            None => unreachable!(),
        }
    }
}
