// The dates of a page's visits.
ghost use Rattle.std.specs.Prelude.{◌≡◌};
ghost use Rattle.pl_base.specs.Due.{IsDue};
ghost use Rattle.pl_base.specs.Marks.{last_date_of};
ghost use Rattle.pl_base.specs.Rows.{store_of};

use pl_base::{Day, Micros, PageId, Rows, Steps};
use pl_score::{SAMPLE_SIZE, earlier, keeps_weight, next_change};
use std::sync::ledger::Ledger;

/// The date of the page's latest visit.
pub fn last_date<R: Rows, L: Ledger>(rows: &R, page: PageId, steps: &mut Steps<L>) -> Option<Micros>
    ensures { result ≡ last_date_of (store_of (R.kept rows.now)) page }
{
    let latest = rows.latest(page, steps)?;
    let row = rows.visit_at(latest, steps).unwrap();
    Some(row.date)
}

/// What the view of a page has of the dates of its visits.
#[derive(Clone, Copy)]
pub struct Dates {
    pub last: Option<Micros>,
    pub due: Option<Day>,
}

/// The date of the latest visit of a page, and the first day after that of the rows on which a
/// visit of its sample has another weight. No redirect is looked for, and no visit behind one
/// whose weight never changes again.
pub fn page_dates<R: Rows, L: Ledger>(rows: &R, page: PageId, steps: &mut Steps<L>) -> Dates
    ensures last { result.last ≡ last_date_of (store_of (R.kept rows.now)) page }
    ensures due { IsDue (store_of (R.kept rows.now)) page result.due }
{
    let day = rows.day(steps);
    let mut dates = Dates {
        last: None,
        due: None,
    };
    let mut next = rows.latest(page, steps);
    for _ in 0..SAMPLE_SIZE {
        let Some(visit) = next else {
            return dates;
        };
        let date = rows.visit_at(visit, steps).unwrap().date;
        dates.last = dates.last.or(Some(date));
        dates.due = earlier(dates.due, next_change(date, day));
        if keeps_weight(date, day) {
            return dates;
        }
        next = rows.older(visit, steps);
    }
    dates
}
