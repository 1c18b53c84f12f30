// Whether the links of visits list those that came from them.
ghost use Rattle.std.specs.Prelude.{◌≡◌, ◌≤◌, true, false, length, IfOk, Some};
ghost use Rattle.std.specs.List.{All};
ghost use Rattle.pl_load.specs.Chained.{HasTargetLists, HasTargetsIn};
ghost use Rattle.pl_load.specs.RowSlots as spec;
ghost use Rattle.pl_owned.specs.Redirects.{HasRedirectsFirst};
ghost use Rattle.pl_slot.specs.declared.kind.SlotKind.TheVariants as kinds;
ghost use Rattle.pl_slot.specs.Arena.{slot_count};
ghost use Rattle.pl_slot.specs.Links.{kind_at};

use crate::file_rows::FileRows;
use crate::members::source_members;
use pl_base::{NoMemory, Slot, Steps};
use pl_owned::{have_redirects_first, listed_in_any_order};
use pl_record::Visit;
use pl_slot::{Arena, Rail};
use std::alloc::Global;
use std::sync::ledger::Ledger;

/// Whether each visit has a list of the visits that came from it, redirects first. It takes the
/// memory of a vector for each slot.
pub fn have_target_lists<L: Ledger>(
    alloc: Global,
    arena: &Arena,
    rows: &FileRows,
    steps: &mut Steps<L>,
) -> Result<bool, NoMemory>
    requires listed { spec.HasListed arena.now rows.now }
    requires as_many { spec.HasRowEach rows.now }
    requires below { All (λ v. v.source.0 ≤ slot_count arena.now) rows.now.visits }
    ensures yes { IfOk result (λ yes. yes ≡ true → HasTargetLists arena.now rows.now) }
    ensures no { IfOk result (λ yes. yes ≡ false → HasTargetLists arena.now rows.now → ⊥) }
{
    have_targets_in(alloc, arena, &rows.live.visits, &rows.visits, steps)
}

// Whether each of the visits in these slots has such a list.
fn have_targets_in<L: Ledger>(
    alloc: Global,
    arena: &Arena,
    slots: &[Slot],
    visits: &[Visit],
    steps: &mut Steps<L>,
) -> Result<bool, NoMemory>
    requires kinds { All (λ s. kind_at s.0 arena.now ≡ Some kinds.Visit) slots.now }
    requires as_many { length slots.now ≡ length visits.now }
    requires below { All (λ v. v.source.0 ≤ slot_count arena.now) visits.now }
    ensures yes { IfOk result (λ yes. yes ≡ true
        → HasTargetsIn arena.now slots.now visits.now) }
    ensures no { IfOk result (λ yes. yes ≡ false
        → HasTargetsIn arena.now slots.now visits.now → ⊥) }
{
    let members = source_members(alloc, slots, visits)?;
    let found = listed_in_any_order(alloc, arena, Rail::Targets, slots, &members, steps)?;
    let Some(lists) = found else {
        return Ok(false);
    };
    Ok(all_redirects_first(arena, &lists, steps))
}

// Whether in each of these lists no redirect stands behind another visit.
fn all_redirects_first<L: Ledger>(arena: &Arena, lists: &[Vec<Slot>], steps: &mut Steps<L>) -> bool
    requires { All (λ l. All (λ s. kind_at s.0 arena.now ≡ Some kinds.Visit) l.items) lists.now }
    ensures yes { result ≡ true → All (λ l. HasRedirectsFirst l.items arena.now) lists.now }
    ensures no { result ≡ false → All (λ l. HasRedirectsFirst l.items arena.now) lists.now → ⊥ }
{
    for slots in lists {
        if !have_redirects_first(arena, slots, steps) {
            return false;
        }
    }
    true
}
