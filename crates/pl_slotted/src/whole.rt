// The opening store, the day that is set, and the pages that changed.
ghost use Rattle.std.specs.Prelude.{◌≡◌, ◌↔◌, ◌≤◌, ◌+◌, ℕ, List, [], Some, IfOk, IfSome, OnOk};
ghost use Rattle.std.specs.Prelude.{length};
ghost use Rattle.std.specs.List.{All};
ghost use Rattle.pl_base.specs.Date.{IsDay};
ghost use Rattle.pl_base.specs.Rows.{IsSound, most_reads, opening_with, with_day};
ghost use Rattle.pl_base.specs.Touched.{IsWithin, MayDiffer, bytes_before, changed, page_numbers};

use crate::slotted::Slotted;
use pl_base::{Day, Ids, NoMemory, Steps, Touched};
use pl_byid::SlotIndex;
use pl_record::{opening_arena, root_slots};
use std::alloc::Global;
use std::sync::ledger::Ledger;

impl Slotted {
    ghost use Rattle.pl_slotted.specs.Slotted.{IsBase, bytes_of, kept_of, pending_of};

    /// The store before its first command, made over page 0 alone.
    pub fn opening(alloc: Global) -> Result<Slotted, NoMemory>
        ensures kept { IfOk result (λ slotted. kept_of slotted ≡ opening_with Ids.OPENING) }
        ensures sound { IfOk result (λ slotted. IsSound (kept_of slotted)) }
        ensures base { IfOk result (λ slotted. (bytes : List ℕ)
            → IsBase slotted bytes ↔ (bytes ≡ [])) }
    {
        Ok(Slotted {
            arena: opening_arena(alloc)?,
            pages: SlotIndex::new(alloc),
            visits: SlotIndex::new(alloc),
            items: SlotIndex::of(alloc, root_slots(alloc)?)?,
        })
    }

    pub fn set_day<L: Ledger>(&mut self, day: Day, steps: &mut Steps<L>)
        requires { IsDay day }
        ensures kept { kept_of self.new ≡ with_day day (kept_of self.old) }
        ensures base { (bytes : List ℕ) → IsBase self.old bytes → IsBase self.new bytes }
        ensures cost { steps.new ≤ steps.old + most_reads }
    {
        self.arena.set_day(day);
    }

    /// The pages of the bytes that changed since the last such call, or since the rows were made.
    pub fn touched<L: Ledger>(&mut self, steps: &mut Steps<L>) -> Result<Touched, NoMemory>
        ensures whole { IfOk result (λ change. (base_bytes : List ℕ) → IsBase self.old base_bytes
            → changed change base_bytes ≡ bytes_of self.old) }
        ensures before { IfOk result (λ change. (base_bytes : List ℕ) → IsBase self.old base_bytes
            → length base_bytes ≡ bytes_before change.before) }
        ensures after { IfOk result (λ change.
            length (bytes_of self.old) ≡ bytes_before change.after) }
        ensures within { IfOk result IsWithin }
        ensures some { IfOk result (λ change. 1 ≤ change.before) }
        // No page is listed that is the same in all bytes that the last call may have told of.
        ensures needed { IfOk result (λ change.
            All (MayDiffer (IsBase self.old) (bytes_of self.old)) (page_numbers change.pages)) }
        ensures listed { IfOk result (λ change.
            IfSome (pending_of self.old) (λ count. length change.pages ≡ count)) }
        ensures pending { OnOk result (IfSome (pending_of self.old) (λ count.
            pending_of self.new ≡ Some 0)) }
        ensures kept { kept_of self.new ≡ kept_of self.old }
        ensures bytes { bytes_of self.new ≡ bytes_of self.old }
        ensures base { OnOk result ((base_bytes : List ℕ)
            → IsBase self.new base_bytes ↔ (base_bytes ≡ bytes_of self.old)) }
    {
        self.arena.touched()
    }
}
