// Calls that look rows up and change none.
use crate::fault::Fault;
use crate::known::{known_item, known_origin, known_page};
use crate::sum::Sum;
use pl_base::{ItemId, PageId, Rows, Steps, VisitId};
use std::sync::ledger::Ledger;

/// Looks a page up, and what belongs to it.
pub fn pages<R: Rows, L: Ledger>(
    rows: &R,
    page: PageId,
    sum: &mut Sum,
    steps: &mut Steps<L>,
) -> Result<(), Fault> {
    let mark = known_page(rows, page, steps)?;
    let origin = known_origin(rows, page, steps);
    sum.add(mark.frecency.cast_unsigned());
    sum.add(rows.origin_at(origin, steps).total);
    sum.page(rows.page_after(Some(page), steps));
    sum.visit(rows.latest(page, steps));
    sum.item(rows.first_reference(page, steps));
    Ok(())
}

/// Looks a visit up, and those beside it.
pub fn visits<R: Rows, L: Ledger>(
    rows: &R,
    visit: VisitId,
    sum: &mut Sum,
    steps: &mut Steps<L>,
) -> Result<(), Fault> {
    let row = rows.visit_at(visit, steps).ok_or(Fault::NotHeld)?;
    sum.add(row.date.0);
    sum.visit(rows.older(visit, steps));
    sum.visit(rows.first_target(visit, steps));
    sum.visit(rows.next_target(visit, steps));
    Ok(())
}

/// Looks an item up, and those beside it.
pub fn items<R: Rows, L: Ledger>(
    rows: &R,
    item: ItemId,
    sum: &mut Sum,
    steps: &mut Steps<L>,
) -> Result<(), Fault> {
    let row = rows.item_at(item, steps).ok_or(Fault::NotHeld)?;
    sum.item(row.parent);
    sum.page(row.page);
    sum.item(rows.first_child(item, steps));
    sum.item(rows.last_child(item, steps));
    sum.item(rows.next_sibling(item, steps));
    sum.item(rows.next_reference(item, steps));
    Ok(())
}

/// Reads the texts of a page and of an item.
pub fn texts<R: Rows, L: Ledger>(
    rows: &R,
    page: PageId,
    item: ItemId,
    sum: &mut Sum,
    steps: &mut Steps<L>,
) -> Result<(), Fault> {
    known_page(rows, page, steps)?;
    known_item(rows, item, steps)?;
    sum.text(&rows.url(page, steps)?);
    sum.text(&rows.title(page, steps)?);
    sum.text(&rows.item_title(item, steps)?);
    Ok(())
}

/// Asks for what is kept of all rows together.
pub fn whole<R: Rows, L: Ledger>(
    rows: &R,
    sum: &mut Sum,
    steps: &mut Steps<L>,
) -> Result<(), Fault> {
    let ids = rows.ids(steps);
    sum.add(u64::from(ids.page));
    sum.add(u64::from(ids.visit));
    sum.add(u64::from(ids.item));
    sum.add(u64::from(rows.day(steps).0));
    sum.add(rows.live(steps));
    sum.add(u64::from(rows.visits(steps)));
    sum.add(u64::from(rows.items(steps)));
    Ok(())
}
