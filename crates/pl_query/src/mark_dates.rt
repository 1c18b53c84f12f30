// When the bookmarks of a page were added and modified.
ghost use Rattle.std.specs.Prelude.{◌≡◌, max, Some, true};
ghost use Rattle.pl_base.specs.Rows.{store_of};
ghost use Rattle.pl_base.specs.Store.{Item};
ghost use Rattle.pl_base.specs.Tree.{has_item, item_at};
ghost use Rattle.pl_query.specs.QueryAnswer.{last_added, last_modified};
ghost use Rattle.pl_query.specs.MarkDates as spec;

use pl_base::{ItemId, Micros, PageId, Rows, Steps};
use pl_marks::tag_folder;
use std::sync::ledger::Ledger;

/// When bookmarks were added and modified at the latest; the first moment of 1970 where there are
/// none.
#[derive(Clone, Copy, Debug, PartialEq, Eq)]
pub struct MarkDates {
    pub added: Micros,
    pub modified: Micros,
}

impl MarkDates {
    const NONE: MarkDates = MarkDates {
        added: Micros(0),
        modified: Micros(0),
    };
}

// The later of two dates.
fn later(first: Micros, second: Micros) -> Micros
    ensures { result.0 ≡ max first.0 second.0 }
{
    if first < second { second } else { first }
}

// The dates with those of one item more, where it is in no tag folder.
fn with_item<R: Rows, L: Ledger>(
    rows: &R,
    dates: MarkDates,
    item: ItemId,
    steps: &mut Steps<L>,
) -> MarkDates
    requires { has_item (R.kept rows.now).items item ≡ true }
    ensures { (i : Item) → item_at (R.kept rows.now).items item ≡ Some i
        → result ≡ spec.with_item (store_of (R.kept rows.now)) dates i }
{
    if tag_folder(rows, item, steps).is_some() {
        return dates;
    }
    let row = rows.item_at(item, steps).unwrap();
    MarkDates {
        added: later(dates.added, row.added),
        modified: later(dates.modified, row.modified),
    }
}

/// When the page's bookmarks were added and modified at the latest.
pub fn mark_dates<R: Rows, L: Ledger>(rows: &R, page: PageId, steps: &mut Steps<L>) -> MarkDates
    ensures added { result.added.0 ≡ last_added (store_of (R.kept rows.now)) page }
    ensures modified { result.modified.0 ≡ last_modified (store_of (R.kept rows.now)) page }
{
    let mut dates = MarkDates::NONE;
    let mut next = rows.first_reference(page, steps);
    while let Some(item) = next {
        dates = with_item(rows, dates, item, steps);
        next = rows.next_reference(item, steps);
    }
    dates
}
