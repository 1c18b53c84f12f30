// All rows of a store, with what their chains give. 0 stands for none.
use crate::fault::Fault;
use crate::known::known_item;
use crate::pages::say_page;
use pl_base::{Ids, ItemId, PageId, Rows, Steps, VisitId, VisitRow};
use std::sync::ledger::Ledger;

/// Says the day, the next ids, and each row by ascending id.
pub fn say_rows<R: Rows, L: Ledger>(
    rt: &impl Print,
    rows: &R,
    steps: &mut Steps<L>,
) -> Result<(), Fault> {
    let day = rows.day(steps).0;
    let Ids { page, visit, item } = rows.ids(steps);
    println!(rt; "store {day} {page} {visit} {item}").map_err(|_| Fault::NotSaid)?;
    say_pages(rt, rows, page, steps)?;
    say_visits(rt, rows, visit, steps)?;
    say_items(rt, rows, item, steps)
}

// The pages below an id.
fn say_pages<R: Rows, L: Ledger>(
    rt: &impl Print,
    rows: &R,
    end: u32,
    steps: &mut Steps<L>,
) -> Result<(), Fault> {
    for id in 1..end {
        let page = PageId(id);
        if rows.page_at(page, steps).is_some() {
            say_page(rt, rows, page, steps)?;
        }
    }
    Ok(())
}

// The visits below an id.
fn say_visits<R: Rows, L: Ledger>(
    rt: &impl Print,
    rows: &R,
    end: u32,
    steps: &mut Steps<L>,
) -> Result<(), Fault> {
    for id in 1..end {
        let visit = VisitId(id);
        if let Some(row) = rows.visit_at(visit, steps) {
            say_visit(rt, rows, visit, row, steps)?;
        }
    }
    Ok(())
}

// A visit: its id, page, date, transition and source, the older one of its page, the first one
// that came from it, and the next one that came from the same.
fn say_visit<R: Rows, L: Ledger>(
    rt: &impl Print,
    rows: &R,
    visit: VisitId,
    row: VisitRow,
    steps: &mut Steps<L>,
) -> Result<(), Fault> {
    let (page, date, transition) = (row.page.0, row.date.0, row.transition.number());
    let source = row.source.map_or(0, |visit| visit.0);
    let older = rows.older(visit, steps).map_or(0, |visit| visit.0);
    let first = rows.first_target(visit, steps).map_or(0, |visit| visit.0);
    let next = rows.next_target(visit, steps).map_or(0, |visit| visit.0);
    let visit = visit.0;
    println!(rt;
        "visit {visit} {page} {date} {transition} {source} {older} {first} {next}"
    ).map_err(|_| Fault::NotSaid)
}

// The items below an id.
fn say_items<R: Rows, L: Ledger>(
    rt: &impl Print,
    rows: &R,
    end: u32,
    steps: &mut Steps<L>,
) -> Result<(), Fault> {
    for id in 1..end {
        let item = ItemId(id);
        if rows.item_at(item, steps).is_some() {
            say_item(rt, rows, item, steps)?;
        }
    }
    Ok(())
}

// An item: its id, kind, parent, page and dates, its first child, its next sibling, the next item
// of its page, and its title.
fn say_item<R: Rows, L: Ledger>(
    rt: &impl Print,
    rows: &R,
    item: ItemId,
    steps: &mut Steps<L>,
) -> Result<(), Fault> {
    let row = known_item(rows, item, steps)?;
    let (kind, added, modified) = (row.kind.number(), row.added.0, row.modified.0);
    let parent = row.parent.map_or(0, |item| item.0);
    let page = row.page.map_or(0, |page| page.0);
    let child = rows.first_child(item, steps).map_or(0, |item| item.0);
    let sibling = rows.next_sibling(item, steps).map_or(0, |item| item.0);
    let next = rows.next_reference(item, steps).map_or(0, |item| item.0);
    let title = rows.item_title(item, steps)?;
    let (item, title) = (item.0, title.as_str());
    let len = title.len();
    print!(rt;
        "item {item} {kind} {parent} {page} {added} {modified} {child} {sibling} {next} "
    ).map_err(|_| Fault::NotSaid)?;
    println!(rt; "{len} {title}").map_err(|_| Fault::NotSaid)
}
