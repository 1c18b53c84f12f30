// What is asked of rows before a call is made.
ghost use Rattle.std.specs.Prelude.{◌≡◌, ◌≤◌, ◌+◌, true, false, IfSome};
ghost use Rattle.pl_base.specs.Good.{is_visited};
ghost use Rattle.pl_base.specs.Live.{live_slots, slot_limit};
ghost use Rattle.pl_base.specs.Marks.{is_referenced};
ghost use Rattle.pl_base.specs.Rows as spec;
ghost use Rattle.pl_base.specs.Rows.{store_of};
ghost use Rattle.pl_base.specs.Tree as tree;

use pl_base::{ItemId, PageId, Rows, SLOT_LIMIT, Steps, VisitId};
use std::sync::ledger::Ledger;

pub fn has_page<R: Rows, L: Ledger>(rows: &R, page: PageId, steps: &mut Steps<L>) -> bool
    ensures { result ≡ true → spec.has_page (R.kept rows.now) page ≡ true }
{
    rows.page_at(page, steps).is_some()
}

/// Whether the page, if there is one, is a page of the rows.
pub fn has_page_of<R: Rows, L: Ledger>(rows: &R, page: Option<PageId>, steps: &mut Steps<L>) -> bool
    ensures { result ≡ true → IfSome page (λ id. spec.has_page (R.kept rows.now) id ≡ true) }
{
    match page {
        Some(page) => has_page(rows, page, steps),
        None => true,
    }
}

pub fn has_visit<R: Rows, L: Ledger>(rows: &R, visit: VisitId, steps: &mut Steps<L>) -> bool
    ensures { result ≡ true → spec.has_visit (R.kept rows.now) visit ≡ true }
{
    rows.visit_at(visit, steps).is_some()
}

/// Whether the source, if there is one, is a visit of the rows.
pub fn has_source<R: Rows, L: Ledger>(
    rows: &R,
    source: Option<VisitId>,
    steps: &mut Steps<L>,
) -> bool
    ensures { result ≡ true → IfSome source (λ id. spec.has_visit (R.kept rows.now) id ≡ true) }
{
    match source {
        Some(visit) => has_visit(rows, visit, steps),
        None => true,
    }
}

pub fn has_item<R: Rows, L: Ledger>(rows: &R, item: ItemId, steps: &mut Steps<L>) -> bool
    ensures { result ≡ true → tree.has_item (R.kept rows.now).items item ≡ true }
{
    rows.item_at(item, steps).is_some()
}

/// Whether the page has neither a visit nor an item.
pub fn is_idle<R: Rows, L: Ledger>(rows: &R, page: PageId, steps: &mut Steps<L>) -> bool
    ensures unvisited { result ≡ true → is_visited (store_of (R.kept rows.now)) page ≡ false }
    ensures unreferenced { result ≡ true
        → is_referenced (store_of (R.kept rows.now)) page ≡ false }
{
    if rows.latest(page, steps).is_some() {
        return false;
    }
    rows.first_reference(page, steps).is_none()
}

/// Whether the store may take so many slots more.
pub fn has_room<R: Rows, L: Ledger>(rows: &R, slots: u64, steps: &mut Steps<L>) -> bool
    ensures { result ≡ true → live_slots (store_of (R.kept rows.now)) + slots ≤ slot_limit }
{
    slots <= u64::from(SLOT_LIMIT).saturating_sub(rows.live(steps))
}
