// Whether redirects stand first.
ghost use Rattle.std.specs.Prelude.{◌≡◌, ◌≤◌, ◌+◌, true, false, length, Some};
ghost use Rattle.std.specs.List.{All};
ghost use Rattle.pl_owned.specs.Redirects.{HasRedirectsFirst, holds_redirect};
ghost use Rattle.pl_slot.specs.declared.kind.SlotKind.TheVariants as kinds;
ghost use Rattle.pl_slot.specs.Links.{kind_at};

use pl_base::{Slot, Steps};
use pl_record::read_visit;
use pl_slot::Arena;
use std::sync::ledger::Ledger;

/// Whether no redirect stands behind another visit in this list. The slots hold visits. It reads
/// each, up to the first redirect that does.
pub fn have_redirects_first<L: Ledger>(arena: &Arena, slots: &[Slot], steps: &mut Steps<L>) -> bool
    requires { All (λ s. kind_at s.0 arena.now ≡ Some kinds.Visit) slots.now }
    ensures yes { result ≡ true → HasRedirectsFirst slots.now arena.now }
    ensures no { result ≡ false → HasRedirectsFirst slots.now arena.now → ⊥ }
    ensures few { steps.new ≤ steps.old + length slots.now }
{
    let mut all_so_far = true;
    for slot in slots {
        let is_redirect = is_redirect(arena, *slot, steps);
        if is_redirect && !all_so_far {
            return false;
        }
        all_so_far = is_redirect;
    }
    true
}

// Whether a redirect made the visit in a slot.
fn is_redirect<L: Ledger>(arena: &Arena, slot: Slot, steps: &mut Steps<L>) -> bool
    requires { kind_at slot.0 arena.now ≡ Some kinds.Visit }
    ensures redirect { result ≡ holds_redirect arena.now slot }
    ensures counted { steps.new ≡ steps.old + 1 }
{
    read_visit(arena, slot, steps).transition.is_redirect()
}
