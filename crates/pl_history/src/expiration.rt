// History that a user no longer wants, or that is old.
ghost use Rattle.std.specs.Prelude.{◌≡◌, ◌++◌, ◌∷◌, [], ℕ, List, Some, true, map, IfOk, OnOk};
ghost use Rattle.std.specs.List.{filter};
ghost use Rattle.std.specs.List.Sorted.{IsStrictlyIncreasing};
ghost use Rattle.pl_base.specs.declared.id.PageId.{PageId};
ghost use Rattle.pl_base.specs.Expiration as spec;
ghost use Rattle.pl_base.specs.Removal.{forgotten};
ghost use Rattle.pl_base.specs.Rows.{IsSound, has_visit, page_visits, store_of, visit_at};
ghost use Rattle.pl_base.specs.Store.{Visit};
ghost use Rattle.pl_history.specs.Addresses.{HaveAddresses};
ghost use Rattle.pl_history.specs.Bears.{BearsOnlyOn};
ghost use Rattle.pl_history.specs.Taken.{AreThese, ids_of, is_before};
ghost use Rattle.pl_history.specs.Went.{went};

use crate::removal::{Removal, remove_visits};
use pl_base::{Day, NoMemory, PageId, Rows, Steps, View, VisitId};
use std::alloc::Global;
use std::sync::ledger::Ledger;

// The page's visits join the others, the latest first.
pub(crate) fn add_visits<R: Rows, L: Ledger>(
    rows: &R,
    page: PageId,
    visits: &mut Vec<VisitId>,
    steps: &mut Steps<L>,
) -> Result<(), NoMemory>
    ensures { OnOk result (visits.new.items
        ≡ visits.old.items ++ ids_of (page_visits (R.kept rows.now) page)) }
{
    let mut next = rows.latest(page, steps);
    while let Some(visit) = next {
        visits.push(visit)?;
        next = rows.older(visit, steps);
    }
    Ok(())
}

/// All visits of the page go, and the page with them where no item has it.
pub fn forget<R: Rows, L: Ledger>(
    alloc: Global,
    rows: &mut R,
    views: &[View],
    page: PageId,
    steps: &mut Steps<L>,
) -> Result<Removal, NoMemory>
    requires sound { IsSound (R.kept rows.old) }
    requires views { HaveAddresses views.now (R.kept rows.old) }
    ensures store { OnOk result (store_of (R.kept rows.new)
        ≡ forgotten page (store_of (R.kept rows.old))) }
    ensures went { IfOk result (λ removal. removal.went
        ≡ went (store_of (R.kept rows.old)) (store_of (R.kept rows.new))) }
    ensures ascending { IfOk result (λ removal. IsStrictlyIncreasing
        (map (λ (page : PageId). page.0) removal.pages.items)) }
    ensures borne { IfOk result (λ removal. BearsOnlyOn removal.pages.items
        (store_of (R.kept rows.old)) (store_of (R.kept rows.new))) }
    ensures sound { OnOk result (IsSound (R.kept rows.new)) }
    ensures base { OnOk result ((bytes : List ℕ) → R.base rows.old bytes → R.base rows.new bytes) }
{
    let mut visits = Vec::new(alloc);
    add_visits(rows, page, &mut visits, steps)?;
    remove_visits(alloc, rows, views, &visits, steps)
}

// The visit joins the others where its day is before this one.
fn add_if_before<R: Rows, L: Ledger>(
    rows: &R,
    visit: VisitId,
    day: Day,
    visits: &mut Vec<VisitId>,
    steps: &mut Steps<L>,
) -> Result<(), NoMemory>
    requires { has_visit (R.kept rows.now) visit ≡ true }
    ensures { (v : Visit) → visit_at (R.kept rows.now) visit ≡ Some v
        → OnOk result (visits.new.items
        ≡ visits.old.items ++ ids_of (filter (is_before day) (v ∷ []))) }
{
    let row = rows.visit_at(visit, steps).unwrap();
    if row.date.day() < day {
        visits.push(visit)?;
    }
    Ok(())
}

// The page's visits of the days before this one join the others.
fn add_visits_before<R: Rows, L: Ledger>(
    rows: &R,
    page: PageId,
    day: Day,
    visits: &mut Vec<VisitId>,
    steps: &mut Steps<L>,
) -> Result<(), NoMemory>
    ensures { OnOk result (visits.new.items ≡ visits.old.items
        ++ ids_of (filter (is_before day) (page_visits (R.kept rows.now) page))) }
{
    let mut next = rows.latest(page, steps);
    while let Some(visit) = next {
        add_if_before(rows, visit, day, visits, steps)?;
        next = rows.older(visit, steps);
    }
    Ok(())
}

// The visits of the days before this one.
fn visits_before<R: Rows, L: Ledger>(
    alloc: Global,
    rows: &R,
    day: Day,
    steps: &mut Steps<L>,
) -> Result<Vec<VisitId>, NoMemory>
    ensures { IfOk result (λ visits. AreThese (spec.visits_before day (store_of (R.kept rows.now)))
        (R.kept rows.now) visits.items) }
{
    let mut visits = Vec::new(alloc);
    let mut next = rows.page_after(None, steps);
    while let Some(page) = next {
        add_visits_before(rows, page, day, &mut visits, steps)?;
        next = rows.page_after(Some(page), steps);
    }
    Ok(visits)
}

/// The visits of the days before this one go, and the pages that they alone kept.
pub fn expire<R: Rows, L: Ledger>(
    alloc: Global,
    rows: &mut R,
    views: &[View],
    day: Day,
    steps: &mut Steps<L>,
) -> Result<Removal, NoMemory>
    requires sound { IsSound (R.kept rows.old) }
    requires views { HaveAddresses views.now (R.kept rows.old) }
    ensures store { OnOk result (store_of (R.kept rows.new)
        ≡ spec.expired day (store_of (R.kept rows.old))) }
    ensures went { IfOk result (λ removal. removal.went
        ≡ went (store_of (R.kept rows.old)) (store_of (R.kept rows.new))) }
    ensures ascending { IfOk result (λ removal. IsStrictlyIncreasing
        (map (λ (page : PageId). page.0) removal.pages.items)) }
    ensures borne { IfOk result (λ removal. BearsOnlyOn removal.pages.items
        (store_of (R.kept rows.old)) (store_of (R.kept rows.new))) }
    ensures sound { OnOk result (IsSound (R.kept rows.new)) }
    ensures base { OnOk result ((bytes : List ℕ) → R.base rows.old bytes → R.base rows.new bytes) }
{
    let visits = visits_before(alloc, rows, day, steps)?;
    remove_visits(alloc, rows, views, &visits, steps)
}
