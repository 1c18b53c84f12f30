// A visit that goes.
ghost use Rattle.std.specs.Prelude.{◌≡◌, ℕ, List, true};
ghost use Rattle.pl_base.specs.Rows.{has_visit, without_visit};

use crate::slotted::Slotted;
use pl_base::{Steps, VisitId};
use pl_record::{drop_targets, free_visit};
use std::sync::ledger::Ledger;

impl Slotted {
    ghost use Rattle.pl_slotted.specs.Slotted.{IsBase, kept_of};

    /// The visit goes, and the visits that came from it came from none from then on. No memory is
    /// taken.
    pub fn remove_visit<L: Ledger>(&mut self, visit: VisitId, steps: &mut Steps<L>)
        requires { has_visit (kept_of self.old) visit ≡ true }
        ensures kept { kept_of self.new ≡ without_visit visit (kept_of self.old) }
        ensures base { (bytes : List ℕ) → IsBase self.old bytes → IsBase self.new bytes }
    {
        let slot = self.visit_slot(visit);
        drop_targets(&mut self.arena, slot, steps);
        free_visit(&mut self.arena, slot, steps);
        let live = self.arena.live() - 1;
        self.arena.set_live(live);
        self.visits.remove(visit.0);
    }
}
