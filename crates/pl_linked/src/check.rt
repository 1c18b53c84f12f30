// What a file of linked slots stands for.
ghost use Rattle.std.specs.Prelude.{◌≡◌, ◌↔◌, ℕ, List, IfOk, IsErrOf};
ghost use Rattle.pl_accept.specs.Accepted.{IsAccepted};
ghost use Rattle.pl_base.specs.Rows.{IsSound, store_of};
ghost use Rattle.pl_base.specs.Store.{Store};
ghost use Rattle.pl_linked.specs.Linked as rows;
ghost use Rattle.pl_reading.specs.File.{FileStandsFor, stored_bytes};
ghost use Rattle.pl_slotted.specs.Slotted as slots;

use crate::linked::Linked;
use pl_accept::{Accepted, accept};
use pl_base::{CheckError, NoMemory, Steps};
use pl_byid::SlotIndex;
use pl_reading::arena_in;
use pl_slot::Arena;
use pl_slotted::Slotted;
use std::alloc::Global;
use std::sync::ledger::Ledger;

impl Linked {
    /// The store that a file stands for, which takes its bytes over. Page 0, the gate's, is not
    /// looked at, and what lies behind the store's pages is free.
    ///
    /// `NotAStore` comes exactly where the bytes are no file of a store. Each slot is read a few
    /// times, each kind of row is sorted, each URL is parsed once, and each mark and total is
    /// computed afresh.
    pub fn check<L: Ledger>(
        alloc: Global,
        bytes: Vec<u8>,
        steps: &mut Steps<L>,
    ) -> Result<Linked, CheckError>
        ensures stands { IfOk result (λ linked.
            FileStandsFor bytes.items (store_of (rows.kept_of linked))) }
        ensures sound { IfOk result (λ linked. IsSound (rows.kept_of linked)) }
        ensures bytes { IfOk result (λ linked. rows.bytes_of linked ≡ stored_bytes bytes.items) }
        // What was read, of which the next change is told.
        ensures base { IfOk result (λ linked. (base_bytes : List ℕ)
            → rows.IsBase linked base_bytes ↔ (base_bytes ≡ stored_bytes bytes.items)) }
        // The bytes stand for one store at most.
        ensures one { (a b : Store) → FileStandsFor bytes.items a → FileStandsFor bytes.items b
            → a ≡ b }
        ensures not_a_store { IsErrOf result CheckError.NotAStore → (store : Store)
            → FileStandsFor bytes.items store → ⊥ }
    {
        let arena = arena_in(bytes)?;
        let accepted = accept(alloc, &arena, steps)?;
        let slots = rows_of(alloc, arena, accepted)?;
        Ok(Linked { alloc, slots })
    }
}

// The rows of a file that was accepted.
fn rows_of(alloc: Global, arena: Arena, accepted: Accepted) -> Result<Slotted, NoMemory>
    requires { IsAccepted arena accepted }
    ensures arena { IfOk result (λ slotted. slotted.arena ≡ arena) }
    ensures sound { IfOk result (λ slotted. IsSound (slots.kept_of slotted)) }
{
    let pages = SlotIndex::of(alloc, accepted.pages)?;
    let visits = SlotIndex::of(alloc, accepted.visits)?;
    let items = SlotIndex::of(alloc, accepted.items)?;
    Ok(Slotted {
        arena,
        pages,
        visits,
        items,
    })
}
