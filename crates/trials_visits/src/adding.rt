// Visits that come to any rows, and go.
use pl_base::{Ids, Micros, PageId, Rows, Steps, Transition, VisitId, VisitRow};
use std::sync::ledger::Ledger;
use std::test::Fail;

/// A link to a page, with this date.
pub fn add_link<R: Rows, L: Ledger>(
    rows: &mut R,
    page: PageId,
    date: u32,
    steps: &mut Steps<L>,
) -> Result<VisitId, Fail> {
    rows.page_at(page, steps).ok_or("no page")?;
    if rows.ids(steps).visit >= Ids::END || rows.live(steps) >= 4_000_000 {
        return Err("no room".into());
    }
    let row = VisitRow {
        page,
        date: Micros(u64::from(date)),
        transition: Transition::Link,
        source: None,
    };
    Ok(rows.insert_visit(&row, steps)?)
}

/// A visit to a page that came from another.
pub fn add_target<R: Rows, L: Ledger>(
    rows: &mut R,
    page: PageId,
    visit: (u32, Transition, VisitId),
    steps: &mut Steps<L>,
) -> Result<VisitId, Fail> {
    rows.page_at(page, steps).ok_or("no page")?;
    rows.visit_at(visit.2, steps).ok_or("no source")?;
    if rows.ids(steps).visit >= Ids::END || rows.live(steps) >= 4_000_000 {
        return Err("no room".into());
    }
    let row = VisitRow {
        page,
        date: Micros(u64::from(visit.0)),
        transition: visit.1,
        source: Some(visit.2),
    };
    Ok(rows.insert_visit(&row, steps)?)
}

/// The visit goes, if it is there.
pub fn drop_visit<R: Rows, L: Ledger>(
    rows: &mut R,
    visit: VisitId,
    steps: &mut Steps<L>,
) -> Result<(), Fail> {
    rows.visit_at(visit, steps).ok_or("no visit")?;
    rows.remove_visit(visit, steps);
    Ok(())
}
