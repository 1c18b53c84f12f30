// A page with its texts.
use crate::fault::Fault;
use crate::known::{known_origin, known_page};
use pl_base::{Mark, PageId, Rows, Steps};
use std::sync::ledger::Ledger;

/// Says a page: its id, whether it is typed and hidden, its frecency, its visits, the total of its
/// origin, its latest visit and its first item, and its texts.
pub fn say_page<R: Rows, L: Ledger>(
    rt: &impl Print,
    rows: &R,
    page: PageId,
    steps: &mut Steps<L>,
) -> Result<(), Fault> {
    let mark = known_page(rows, page, steps)?;
    let origin = known_origin(rows, page, steps);
    let total = rows.origin_at(origin, steps).total;
    let latest = rows.latest(page, steps).map_or(0, |visit| visit.0);
    let item = rows.first_reference(page, steps).map_or(0, |item| item.0);
    let url = rows.url(page, steps)?;
    let title = rows.title(page, steps)?;
    let Mark {
        frecency,
        count,
        typed,
        hidden,
    } = mark;
    let (page, url, title) = (page.0, url.as_str(), title.as_str());
    let (first, second) = (url.len(), title.len());
    print!(rt; "page {page} {typed} {hidden} {frecency} {count} {total} {latest} {item} ").map_err(
        |_| Fault::NotSaid,
    )?;
    println!(rt; "{first} {url} {second} {title}").map_err(|_| Fault::NotSaid)
}
