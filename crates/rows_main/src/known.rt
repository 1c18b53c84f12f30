// Rows that are asked for, and are there.
ghost use Rattle.std.specs.Prelude.{◌≡◌, ◌≤◌, ◌+◌, true, IfOk, IfSome};
ghost use Rattle.pl_base.specs.Live.{live_slots, slot_limit};
ghost use Rattle.pl_base.specs.Rows.{has_origin, has_page, has_visit, store_of};
ghost use Rattle.pl_base.specs.Tree.{has_item};

use crate::fault::Fault;
use pl_base::{ItemId, ItemRow, Mark, PageId, Rows, Slot, Steps, VisitId};
use std::sync::ledger::Ledger;
use trials_forms::{has_room, has_source};

/// What is kept of a page that is there.
pub fn known_page<R: Rows, L: Ledger>(
    rows: &R,
    page: PageId,
    steps: &mut Steps<L>,
) -> Result<Mark, Fault>
    ensures { IfOk result (λ _. has_page (R.kept rows.now) page ≡ true) }
{
    rows.page_at(page, steps).ok_or(Fault::NotHeld)
}

/// The origin of a page that is there.
pub fn known_origin<R: Rows, L: Ledger>(rows: &R, page: PageId, steps: &mut Steps<L>) -> Slot
    requires { has_page (R.kept rows.now) page ≡ true }
    ensures { has_origin (R.kept rows.now) result ≡ true }
{
    rows.origin_of(page, steps)
}

/// A visit is there, where one is named.
pub fn known_visit<R: Rows, L: Ledger>(
    rows: &R,
    visit: Option<VisitId>,
    steps: &mut Steps<L>,
) -> Result<(), Fault>
    ensures { IfOk result (λ _. IfSome visit (λ id. has_visit (R.kept rows.now) id ≡ true)) }
{
    if has_source(rows, visit, steps) {
        Ok(())
    } else {
        Err(Fault::NotHeld)
    }
}

/// The row of an item that is there.
pub fn known_item<R: Rows, L: Ledger>(
    rows: &R,
    item: ItemId,
    steps: &mut Steps<L>,
) -> Result<ItemRow, Fault>
    ensures { IfOk result (λ _. has_item (R.kept rows.now).items item ≡ true) }
{
    rows.item_at(item, steps).ok_or(Fault::NotHeld)
}

/// There are slots for so many more.
pub fn with_room<R: Rows, L: Ledger>(
    rows: &R,
    slots: u64,
    steps: &mut Steps<L>,
) -> Result<(), Fault>
    ensures { IfOk result (λ _. live_slots (store_of (R.kept rows.now)) + slots ≤ slot_limit) }
{
    if has_room(rows, slots, steps) {
        Ok(())
    } else {
        Err(Fault::Full)
    }
}
