// What is computed of the visits of a page.
ghost use Rattle.std.specs.Prelude.{◌≡◌, Some, true};
ghost use Rattle.pl_base.specs.Rows.{IsRight, KeptPage, has_page, page_at, store_of};
ghost use Rattle.pl_marks.specs.Figures.{AreFiguresOf};

use crate::dates::page_dates;
use pl_base::{Day, Micros, PageId, Rows, Steps, View};
use std::sync::ledger::Ledger;

/// The part of a page's view that follows from its visits.
#[derive(Clone, Copy, Debug, PartialEq, Eq)]
pub struct Figures {
    pub frecency: i64,
    /// Its `visit_count`.
    pub count: u32,
    /// The date of its latest visit.
    pub last: Option<Micros>,
    /// The day on which its frecency is to be computed again, as in a view.
    pub due: Option<Day>,
    pub typed: bool,
    pub hidden: bool,
}

impl Figures {
    /// Those of a view.
    pub fn of(view: &View) -> Figures
        ensures frecency { result.frecency ≡ view.now.frecency }
        ensures count { result.count ≡ view.now.count }
        ensures last { result.last ≡ view.now.last }
        ensures due { result.due ≡ view.now.due }
        ensures typed { result.typed ≡ view.now.typed }
        ensures hidden { result.hidden ≡ view.now.hidden }
    {
        Figures {
            frecency: view.frecency,
            count: view.count,
            last: view.last,
            due: view.due,
            typed: view.typed,
            hidden: view.hidden,
        }
    }
}

/// The figures of a page. No text is read.
pub fn page_figures<R: Rows, L: Ledger>(rows: &R, page: PageId, steps: &mut Steps<L>) -> Figures
    requires page { has_page (R.kept rows.now) page ≡ true }
    requires right { IsRight (R.kept rows.now) }
    ensures { (p : KeptPage) → page_at (R.kept rows.now) page ≡ Some p
        → AreFiguresOf (store_of (R.kept rows.now)) p.page result }
{
    let mark = rows.page_at(page, steps).unwrap();
    let dates = page_dates(rows, page, steps);
    Figures {
        frecency: mark.frecency,
        count: mark.count,
        last: dates.last,
        due: dates.due,
        typed: mark.typed,
        hidden: mark.hidden,
    }
}
