// The marks of pages and the totals of origins, set.
ghost use Rattle.std.specs.Prelude.{◌≡◌, ◌≤◌, ◌+◌, ℕ, List, true};
ghost use Rattle.pl_base.specs.Rows.{has_origin, has_page, most_reads, with_mark, with_total};
ghost use Rattle.pl_base.specs.Touched.{IsAtMostMore};

use crate::slotted::Slotted;
use pl_base::{Mark, PageId, Slot, Steps};
use pl_record::{put_mark, put_total};
use std::sync::ledger::Ledger;

impl Slotted {
    ghost use Rattle.pl_slotted.specs.Slotted.{IsBase, kept_of, pending_of};

    pub fn set_mark<L: Ledger>(&mut self, page: PageId, mark: Mark, steps: &mut Steps<L>)
        requires { has_page (kept_of self.old) page ≡ true }
        ensures kept { kept_of self.new ≡ with_mark page mark (kept_of self.old) }
        ensures pages { IsAtMostMore 1 (pending_of self.old) (pending_of self.new) }
        ensures base { (bytes : List ℕ) → IsBase self.old bytes → IsBase self.new bytes }
        ensures cost { steps.new ≤ steps.old + most_reads }
    {
        let slot = self.page_slot(page);
        put_mark(&mut self.arena, slot, mark, steps);
    }

    pub fn set_total<L: Ledger>(&mut self, origin: Slot, total: u64, steps: &mut Steps<L>)
        requires { has_origin (kept_of self.old) origin ≡ true }
        ensures kept { kept_of self.new ≡ with_total origin total (kept_of self.old) }
        ensures pages { IsAtMostMore 1 (pending_of self.old) (pending_of self.new) }
        ensures base { (bytes : List ℕ) → IsBase self.old bytes → IsBase self.new bytes }
        ensures cost { steps.new ≤ steps.old + most_reads }
    {
        put_total(&mut self.arena, origin, total, steps);
    }
}
