// Rows that are asked for, and are there.
ghost use Rattle.std.specs.Prelude.{◌≡◌, true, IfOk};
ghost use Rattle.pl_base.specs.Rows.{has_origin, has_page};
ghost use Rattle.pl_base.specs.Tree.{has_item};

use crate::fault::Fault;
use pl_base::{ItemId, ItemRow, Mark, PageId, Rows, Slot, Steps};
use std::sync::ledger::Ledger;

/// What is kept of a page that is there.
pub fn known_page<R: Rows, L: Ledger>(
    rows: &R,
    page: PageId,
    steps: &mut Steps<L>,
) -> Result<Mark, Fault>
    ensures { IfOk result (λ _. has_page (R.kept rows.now) page ≡ true) }
{
    rows.page_at(page, steps).ok_or(Fault::NotHeld)
}

/// The origin of a page that is there.
pub fn known_origin<R: Rows, L: Ledger>(rows: &R, page: PageId, steps: &mut Steps<L>) -> Slot
    requires { has_page (R.kept rows.now) page ≡ true }
    ensures { has_origin (R.kept rows.now) result ≡ true }
{
    rows.origin_of(page, steps)
}

/// The row of an item that is there.
pub fn known_item<R: Rows, L: Ledger>(
    rows: &R,
    item: ItemId,
    steps: &mut Steps<L>,
) -> Result<ItemRow, Fault>
    ensures { IfOk result (λ _. has_item (R.kept rows.now).items item ≡ true) }
{
    rows.item_at(item, steps).ok_or(Fault::NotHeld)
}
