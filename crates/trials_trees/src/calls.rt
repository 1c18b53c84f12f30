//! Pages and visits that come to any rows.
ghost use Rattle.std.specs.Prelude.{◌≡◌, ◌≤◌, ◌<◌, ◌+◌, true, IfSome};
ghost use Rattle.pl_base.specs.Good.{end_of_ids};
ghost use Rattle.pl_base.specs.Live.{chunks, live_slots, slot_limit};
ghost use Rattle.pl_base.specs.Rows as spec;
ghost use Rattle.pl_base.specs.Rows.{store_of};
ghost use Rattle.pl_history.specs.Target.{IsTargetOf};

use crate::target::find_target;
use pl_base::{Ids, Micros, NoMemory, PageId, Rows, SLOT_LIMIT, Steps, VisitId, VisitRow, chunks};
use pl_history::{Target, page_for};
use pl_link::{Canon, split};
use std::alloc::Global;
use std::sync::ledger::Ledger;
use std::test::Fail;

/// The page with this address, which comes where there is none.
pub fn add_page<R: Rows, L: Ledger>(
    alloc: Global,
    rows: &mut R,
    address: &str,
    steps: &mut Steps<L>,
) -> Result<PageId, Fail> {
    let url = Canon::read(alloc, address)?;
    let parts = split(alloc, &url)?;
    let target = find_target(alloc, rows, &url, &parts, steps)?;
    if rows.ids(steps).page >= Ids::END || !has_room(rows, chunks(url.text()) + 2, steps) {
        return Err("no room".into());
    }
    Ok(page_of(rows, &url, target, steps)?)
}

// The page that the target names, where the store has room for one.
fn page_of<R: Rows, L: Ledger>(
    rows: &mut R,
    url: &Canon,
    target: Target,
    steps: &mut Steps<L>,
) -> Result<PageId, NoMemory>
    requires target { IsTargetOf (R.kept rows.old) url.now target }
    requires id { (R.kept rows.old).ids.page < end_of_ids }
    requires live { live_slots (store_of (R.kept rows.old)) + (chunks url.now + 2) ≤ slot_limit }
{
    page_for(rows, url, target, steps)
}

/// A visit with this row.
pub fn add_visit<R: Rows, L: Ledger>(
    rows: &mut R,
    row: &VisitRow,
    steps: &mut Steps<L>,
) -> Result<VisitId, Fail> {
    if !has_page(rows, row.page, steps) || !has_source(rows, row.source, steps) {
        return Err("no page or no source".into());
    }
    if row.date > Micros::LAST || rows.ids(steps).visit >= Ids::END || !has_room(rows, 1, steps) {
        return Err("no room".into());
    }
    Ok(rows.insert_visit(row, steps)?)
}

fn has_page<R: Rows, L: Ledger>(rows: &R, page: PageId, steps: &mut Steps<L>) -> bool
    ensures { result ≡ true → spec.has_page (R.kept rows.now) page ≡ true }
{
    rows.page_at(page, steps).is_some()
}

// Whether the source, if there is one, is a visit of the rows.
fn has_source<R: Rows, L: Ledger>(rows: &R, source: Option<VisitId>, steps: &mut Steps<L>) -> bool
    ensures { result ≡ true → IfSome source (λ id. spec.has_visit (R.kept rows.now) id ≡ true) }
{
    match source {
        Some(visit) => has_visit(rows, visit, steps),
        None => true,
    }
}

fn has_visit<R: Rows, L: Ledger>(rows: &R, visit: VisitId, steps: &mut Steps<L>) -> bool
    ensures { result ≡ true → spec.has_visit (R.kept rows.now) visit ≡ true }
{
    rows.visit_at(visit, steps).is_some()
}

// Whether the store may take so many slots more.
fn has_room<R: Rows, L: Ledger>(rows: &R, slots: u64, steps: &mut Steps<L>) -> bool
    ensures { result ≡ true → live_slots (store_of (R.kept rows.now)) + slots ≤ slot_limit }
{
    slots <= u64::from(SLOT_LIMIT).saturating_sub(rows.live(steps))
}
