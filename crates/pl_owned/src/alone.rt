// Slots that stand in no chain.
ghost use Rattle.std.specs.Prelude.{◌≡◌, ◌≤◌, ◌+◌, ◌*◌, true, false, length, IsSome};
ghost use Rattle.std.specs.List.{All};
ghost use Rattle.pl_record.specs.Chains.{IsAlone};
ghost use Rattle.pl_slot.specs.declared.links.Link.TheVariants as link;
ghost use Rattle.pl_slot.specs.Links.{link_at};

use pl_base::{Slot, Steps};
use pl_slot::{Arena, Link, Rail};
use std::sync::ledger::Ledger;

/// Whether each of these slots names no neighbour in a rail. They are slots that may be members of
/// its chains. It reads two links of each, up to the first that names one.
pub fn are_alone<L: Ledger>(arena: &Arena, rail: Rail, slots: &[Slot], steps: &mut Steps<L>) -> bool
    requires { All (λ s. IsSome (link_at rail link.Next s.0 arena.now)) slots.now }
    ensures yes { result ≡ true → All (λ s. IsAlone rail s arena.now) slots.now }
    ensures no { result ≡ false → All (λ s. IsAlone rail s arena.now) slots.now → ⊥ }
    ensures few { steps.new ≤ steps.old + 2 * length slots.now }
{
    for slot in slots {
        if !is_alone(arena, rail, *slot, steps) {
            return false;
        }
    }
    true
}

fn is_alone<L: Ledger>(arena: &Arena, rail: Rail, slot: Slot, steps: &mut Steps<L>) -> bool
    requires { IsSome (link_at rail link.Next slot.0 arena.now) }
    ensures yes { result ≡ true → IsAlone rail slot arena.now }
    ensures no { result ≡ false → IsAlone rail slot arena.now → ⊥ }
    ensures counted { steps.new ≡ steps.old + 2 }
{
    let before = arena.link(slot, rail, Link::Previous, steps);
    let behind = arena.link(slot, rail, Link::Next, steps);
    before.0 == 0 && behind.0 == 0
}
