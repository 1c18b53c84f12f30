// Rows that hold the bookmarks of files, with visits to each page.
ghost use Rattle.std.specs.Prelude.{OnOk};
ghost use Rattle.pl_base.specs.Good.{HasGoodItems};
ghost use Rattle.pl_base.specs.Rows.{store_of};

use crate::fault::Fault;
use crate::work::marks::set_frecency;
use crate::work::titles::set_title;
use crate::work::visit_changes::{Visit, add_visit};
use pl_base::{PageId, Rows, Steps};
use std::sync::ledger::Ledger;
use trials_forms::GoodRows;

const TITLE: &str = "The title of a page";

/// The rows with the bookmarks of files, between two of which a NUL byte stands.
pub fn with_files<R: Rows + Drop, L: Ledger>(
    good: GoodRows<R>,
    files: &[u8],
    steps: &mut Steps<L>,
) -> Result<GoodRows<R>, Fault> {
    let mut good = good;
    for file in files.split(|byte| *byte == 0) {
        let Ok(file) = str::from_utf8(file) else {
            return Err(Fault::NoFile);
        };
        good = good.import(file, steps)?;
    }
    Ok(good)
}

// A title, a frecency and three visits, each of which came from the one before it.
fn fill_page<R: Rows, L: Ledger>(
    rows: &mut R,
    page: PageId,
    steps: &mut Steps<L>,
) -> Result<(), Fault>
    requires good { HasGoodItems (store_of (R.kept rows.old)) }
    ensures good { OnOk result (HasGoodItems (store_of (R.kept rows.new))) }
{
    set_title(rows, page, TITLE, steps)?;
    set_frecency(rows, page, page.0, steps)?;
    let mut visit = Visit {
        page,
        date: page.0 % 1_000_000,
        source: None,
    };
    visit.source = Some(add_visit(rows, visit, steps)?);
    visit.date += 1;
    visit.source = Some(add_visit(rows, visit, steps)?);
    visit.date += 1;
    add_visit(rows, visit, steps)?;
    Ok(())
}

/// Gives each page of an import a title, a frecency and visits.
pub fn fill<R: Rows, L: Ledger>(rows: &mut R, steps: &mut Steps<L>) -> Result<(), Fault>
    requires good { HasGoodItems (store_of (R.kept rows.old)) }
    ensures good { OnOk result (HasGoodItems (store_of (R.kept rows.new))) }
{
    let end = rows.ids(steps).page;
    for number in 1..end {
        fill_page(rows, PageId(number), steps)?;
    }
    Ok(())
}
