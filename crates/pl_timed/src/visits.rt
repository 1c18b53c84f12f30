// Whether a page was visited within the times of a query.
ghost use Rattle.std.specs.Prelude.{◌≡◌, false};
ghost use Rattle.std.specs.Option.{option_and_then};
ghost use Rattle.pl_base.specs.Marks.{last_date_of};
ghost use Rattle.pl_base.specs.Rows.{first_id, older_visit, page_visits, store_of};
ghost use Rattle.pl_base.specs.Store.{Store};
ghost use Rattle.pl_conditions.specs.Asked.{IsAsked};
ghost use Rattle.pl_query.specs.QueryAnswer as spec;
ghost use Rattle.pl_timed.specs.Timed.{is_before, is_within};

use pl_base::{PageId, Rows, Steps, View, VisitId};
use pl_conditions::Asked as Timed;
use pl_dated::is_too_early;
use std::sync::ledger::Ledger;

// The visit to a page next before its latest one.
fn second_latest<R: Rows, L: Ledger>(
    rows: &R,
    page: PageId,
    steps: &mut Steps<L>,
) -> Option<VisitId>
    ensures { result ≡ option_and_then (older_visit (R.kept rows.now))
        (first_id (page_visits (R.kept rows.now) page)) }
{
    let latest = rows.latest(page, steps)?;
    rows.older(latest, steps)
}

// Whether a visit to the page lies within the times, where the latest does not: the others are gone
// along from the latest on, until one is before the times.
fn has_earlier_in_times<R: Rows, L: Ledger>(
    rows: &R,
    timed: &Timed<'_>,
    page: PageId,
    steps: &mut Steps<L>,
) -> bool
    requires asked { IsAsked (store_of (R.kept rows.now)) timed.now.query.now timed.now }
    requires outside { is_within (store_of (R.kept rows.now)) timed.now.query.now
        (last_date_of (store_of (R.kept rows.now)) page) ≡ false }
    ensures { result ≡ spec.has_visit_in_times (store_of (R.kept rows.now)) timed.now.query.now
        page }
{
    let mut next = second_latest(rows, page, steps);
    while let Some(visit) = next {
        let date = rows.visit_at(visit, steps).unwrap().date;
        if timed.is_in_times(date) {
            return true;
        }
        if is_too_early(timed, date) {
            return false;
        }
        next = rows.older(visit, steps);
    }
    false
}

/// Whether the latest visit to a page, if there is one, is before the times.
pub fn is_before_times(timed: &Timed<'_>, view: &View) -> bool
    ensures { (store : Store) → IsAsked store timed.now.query.now timed.now
        → result ≡ is_before store timed.now.query.now view.now.last }
{
    match view.last {
        Some(last) => is_too_early(timed, last),
        None => true,
    }
}

// Whether the latest visit to a page lies within the times.
fn is_latest_in_times(timed: &Timed<'_>, view: &View) -> bool
    ensures { (store : Store) → IsAsked store timed.now.query.now timed.now
        → result ≡ is_within store timed.now.query.now view.now.last }
{
    match view.last {
        Some(last) => timed.is_in_times(last),
        None => false,
    }
}

/// Whether a visit to the page of a view lies within the times.
pub fn is_visited<R: Rows, L: Ledger>(
    rows: &R,
    timed: &Timed<'_>,
    view: &View,
    steps: &mut Steps<L>,
) -> bool
    requires asked { IsAsked (store_of (R.kept rows.now)) timed.now.query.now timed.now }
    requires last { view.now.last ≡ last_date_of (store_of (R.kept rows.now)) view.now.id }
    ensures { result ≡ spec.has_visit_in_times (store_of (R.kept rows.now)) timed.now.query.now
        view.now.id }
{
    if is_latest_in_times(timed, view) {
        return true;
    }
    has_earlier_in_times(rows, timed, view.id, steps)
}
