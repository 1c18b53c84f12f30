// The visits that a query lists, gone along from the latest on.
ghost use Rattle.std.specs.Prelude.{◌≡◌, ◌++◌, ◌∷◌, [], ℕ, List, Some, false, not};
ghost use Rattle.std.specs.Prelude.{IfOk, IfSome, OnOk};
ghost use Rattle.std.specs.List.{filter};
ghost use Rattle.std.specs.Option.{option_map_or};
ghost use Rattle.pl_base.specs.Rows.{page_visits, store_of};
ghost use Rattle.pl_base.specs.Store.{Store};
ghost use Rattle.pl_base.specs.View.{AreViewsOf};
ghost use Rattle.pl_conditions.specs.Asked as conditions;
ghost use Rattle.pl_conditions.specs.Conditions.{in_times, is_not_before};
ghost use Rattle.pl_indexed.specs.Asked.{IsAsked};
ghost use Rattle.pl_known.specs.Known.{AreFollowed, view_of};
ghost use Rattle.pl_dated.specs.Latest.{AreApart, Keeps, Seen, is_past_floor, seen};
ghost use Rattle.pl_dated.specs.Listed.{FirstOf, part_of, seen_visits};
ghost use Rattle.pl_dated.specs.Listed as spec;

use crate::first::{First, FoundVisit};
use pl_base::{Micros, NoMemory, Rows, Steps, View};
use pl_conditions::Asked as Timed;
use pl_indexed::{Asked, KeptOrder, decides, next_view};
use pl_known::Known;
use std::alloc::Global;
use std::sync::ledger::Ledger;

// No more pages are looked up one by one: to go over all pages takes less time for each.
const MOST_LOOKED_UP: usize = 4_096;

/// Whether the date is before the first of the times.
pub fn is_too_early(timed: &Timed<'_>, date: Micros) -> bool
    ensures { (store : Store) → conditions.IsAsked store timed.now.query.now timed.now
        → result ≡ not (is_not_before store timed.now.query.now.begin_time
        timed.now.query.now.begin_ref date) }
{
    timed.begin.is_some_and(|begin| i128::from(date.0) < begin)
}

// Whether no visit of the date or an earlier one is among the first that are listed.
fn is_over(timed: &Timed<'_>, first: &First<'_>, date: Micros) -> bool
    ensures over { (store : Store) → conditions.IsAsked store timed.now.query.now timed.now
        → result ≡ spec.is_over store timed.now.query.now first.now.floor date }
    ensures floor { result ≡ false → is_past_floor first.now.floor date ≡ false }
{
    is_too_early(timed, date) || first.is_over(date)
}

// Whether no visit to the page, and to those behind it by their latest visits, is among the first.
fn is_page_over(timed: &Timed<'_>, first: &First<'_>, view: &View) -> bool
    ensures { (store : Store) → conditions.IsAsked store timed.now.query.now timed.now
        → result ≡ option_map_or (spec.is_over store timed.now.query.now first.now.floor)
        view.now.last false }
{
    match view.last {
        Some(last) => is_over(timed, first, last),
        None => false,
    }
}

// The visit joins the others, if it lies within the times.
fn add_in_times<'a>(
    timed: &Timed<'_>,
    found: FoundVisit<'a>,
    first: &mut First<'a>,
) -> Result<(), NoMemory>
    requires { is_past_floor first.old.floor found.date ≡ false }
    ensures { OnOk result ((store : Store) → conditions.IsAsked store timed.now.query.now timed.now
        → (most : ℕ) (visits : List Seen) → Keeps most first.old visits
        → Keeps most first.new (visits
        ++ filter (λ (s : Seen). in_times store timed.now.query.now s.date)
        (seen found.entry ∷ []))) }
{
    if !timed.is_in_times(found.date) {
        return Ok(());
    }
    first.add(found)
}

// The visits to a page that lie within the times join the others, as far as they may be among the
// first.
fn add_visits<'a, R: Rows, L: Ledger>(
    rows: &R,
    timed: &Timed<'_>,
    view: &'a View,
    first: &mut First<'a>,
    steps: &mut Steps<L>,
) -> Result<(), NoMemory>
    requires { conditions.IsAsked (store_of (R.kept rows.now)) timed.now.query.now timed.now }
    ensures { let listed = seen_visits (R.kept rows.now) timed.now.query.now view.now
        (page_visits (R.kept rows.now) view.now.id)
        in OnOk result ((most : ℕ) (visits : List Seen) → Keeps most first.old visits
        → AreApart (visits ++ listed) → Keeps most first.new (visits ++ listed)) }
{
    let mut next = rows.latest(view.id, steps);
    while let Some(visit) = next {
        let date = rows.visit_at(visit, steps).unwrap().date;
        if is_over(timed, first, date) {
            return Ok(());
        }
        add_in_times(timed, FoundVisit { view, visit, date }, first)?;
        next = rows.older(visit, steps);
    }
    Ok(())
}

// The visits to a page that are listed join the others, as far as they may be among the first.
fn add_page<'a, R: Rows, L: Ledger>(
    alloc: Global,
    rows: &R,
    known: &Known,
    timed: &Timed<'_>,
    asked: &Asked<'_>,
    view: &'a View,
    first: &mut First<'a>,
    steps: &mut Steps<L>,
) -> Result<(), NoMemory>
    requires followed { AreFollowed known.now }
    requires times { conditions.IsAsked (store_of (R.kept rows.now)) timed.now.query.now
        timed.now }
    requires asked { IsAsked asked.now.query.now asked.now }
    requires same { asked.now.query.now ≡ timed.now.query.now }
    requires view { view_of view.now.id known.now.views.items ≡ Some view.now }
    ensures { let listed = part_of (R.kept rows.now) timed.now.query.now view.now
        in OnOk result ((most : ℕ) (visits : List Seen) → Keeps most first.old visits
        → AreApart (visits ++ listed) → Keeps most first.new (visits ++ listed)) }
{
    if !decides(alloc, known, asked, view)? {
        return Ok(());
    }
    add_visits(rows, timed, view, first, steps)
}

// The first of the visits to all pages.
fn all_visits<'a, R: Rows, L: Ledger>(
    alloc: Global,
    rows: &R,
    known: &'a Known,
    timed: &Timed<'_>,
    asked: &Asked<'_>,
    steps: &mut Steps<L>,
) -> Result<First<'a>, NoMemory>
    requires followed { AreFollowed known.now }
    requires times { conditions.IsAsked (store_of (R.kept rows.now)) timed.now.query.now
        timed.now }
    requires asked { IsAsked asked.now.query.now asked.now }
    requires same { asked.now.query.now ≡ timed.now.query.now }
    ensures { let kept = R.kept rows.now
        in IfOk result (FirstOf kept timed.now.query.now known.now.views.items) }
{
    let mut first = First::new(alloc, timed.query.max_results);
    for view in &known.views {
        add_page(alloc, rows, known, timed, asked, view, &mut first, steps)?;
    }
    Ok(first)
}

// The first of the visits to pages, which are gone along from the latest visit on; none where too
// many pages would have to be looked up.
fn latest_visits<'a, R: Rows, L: Ledger>(
    alloc: Global,
    rows: &R,
    known: &'a Known,
    timed: &Timed<'_>,
    asked: &Asked<'_>,
    steps: &mut Steps<L>,
) -> Result<Option<First<'a>>, NoMemory>
    requires views { AreViewsOf (store_of (R.kept rows.now)) known.now.views.items }
    requires followed { AreFollowed known.now }
    requires times { conditions.IsAsked (store_of (R.kept rows.now)) timed.now.query.now
        timed.now }
    requires asked { IsAsked asked.now.query.now asked.now }
    requires same { asked.now.query.now ≡ timed.now.query.now }
    ensures { let kept = R.kept rows.now
        in IfOk result (λ latest. IfSome latest
        (FirstOf kept timed.now.query.now known.now.views.items)) }
{
    let mut first = First::new(alloc, timed.query.max_results);
    let mut next = next_view(known, KeptOrder::LatestFirst, None);
    for _ in 0..MOST_LOOKED_UP {
        let Some(view) = next else {
            return Ok(Some(first));
        };
        if is_page_over(timed, &first, view) {
            return Ok(Some(first));
        }
        add_page(alloc, rows, known, timed, asked, view, &mut first, steps)?;
        next = next_view(known, KeptOrder::LatestFirst, Some(view));
    }
    Ok(None)
}

/// The first of the visits that a query lists.
pub fn first_visits<'a, R: Rows, L: Ledger>(
    alloc: Global,
    rows: &R,
    known: &'a Known,
    timed: &Timed<'_>,
    asked: &Asked<'_>,
    steps: &mut Steps<L>,
) -> Result<First<'a>, NoMemory>
    requires views { AreViewsOf (store_of (R.kept rows.now)) known.now.views.items }
    requires followed { AreFollowed known.now }
    requires times { conditions.IsAsked (store_of (R.kept rows.now)) timed.now.query.now
        timed.now }
    requires asked { IsAsked asked.now.query.now asked.now }
    requires same { asked.now.query.now ≡ timed.now.query.now }
    ensures { let kept = R.kept rows.now
        in IfOk result (FirstOf kept timed.now.query.now known.now.views.items) }
{
    if let Some(first) = latest_visits(alloc, rows, known, timed, asked, steps)? {
        return Ok(first);
    }
    all_visits(alloc, rows, known, timed, asked, steps)
}
