// The opening store, and the day, the next ids and how many slots are live, read.
ghost use Rattle.std.specs.Prelude.{◌≡◌, ◌↔◌, ◌≤◌, ◌+◌, ℕ, List, [], IfOk};
ghost use Rattle.pl_base.specs.Live.{live_slots};
ghost use Rattle.pl_base.specs.Rows.{IsSound, most_reads, opening_with, store_of};

use crate::linked::Linked;
use pl_base::{Day, Ids, NoMemory, Steps};
use pl_slotted::Slotted;
use std::alloc::Global;
use std::sync::ledger::Ledger;

impl Linked {
    ghost use Rattle.pl_linked.specs.Linked.{IsBase, kept_of};

    /// The store before its first command, made over page 0 alone.
    pub fn opening(alloc: Global) -> Result<Linked, NoMemory>
        ensures kept { IfOk result (λ linked. kept_of linked ≡ opening_with Ids.OPENING) }
        ensures sound { IfOk result (λ linked. IsSound (kept_of linked)) }
        ensures base { IfOk result (λ linked. (bytes : List ℕ)
            → IsBase linked bytes ↔ (bytes ≡ [])) }
    {
        Ok(Linked {
            alloc,
            slots: Slotted::opening(alloc)?,
        })
    }

    pub fn day<L: Ledger>(&self, steps: &mut Steps<L>) -> Day
        ensures day { result ≡ (kept_of self.now).day }
        ensures cost { steps.new ≤ steps.old + most_reads }
    {
        self.slots.arena.day()
    }

    /// The next ids.
    pub fn ids<L: Ledger>(&self, steps: &mut Steps<L>) -> Ids
        ensures ids { result ≡ (kept_of self.now).ids }
        ensures cost { steps.new ≤ steps.old + most_reads }
    {
        self.slots.arena.ids()
    }

    /// How many slots of 128 bytes the store takes.
    pub fn live<L: Ledger>(&self, steps: &mut Steps<L>) -> u64
        ensures live { result ≡ live_slots (store_of (kept_of self.now)) }
        ensures cost { steps.new ≤ steps.old + most_reads }
    {
        u64::from(self.slots.arena.live())
    }
}
