// Pages that go where there are too many.
ghost use Rattle.std.specs.Prelude.{◌≡◌, ◌≢◌, ◌++◌, ◌∷◌, [], ℕ, List, length, map};
ghost use Rattle.std.specs.Prelude.{IfOk, OnOk};
ghost use Rattle.std.specs.List.{AllPairs};
ghost use Rattle.std.specs.List.Sorted.{IsStrictlyIncreasing};
ghost use Rattle.pl_base.specs.declared.id.PageId.{PageId};
ghost use Rattle.pl_base.specs.Expiration as spec;
ghost use Rattle.pl_base.specs.Rows.{IsSound, KeptPage, store_of};
ghost use Rattle.pl_history.specs.declared.trimming.StalePage.{StalePage};
ghost use Rattle.pl_history.specs.Addresses.{HaveAddresses};
ghost use Rattle.pl_history.specs.Bears.{BearsOnlyOn};
ghost use Rattle.pl_history.specs.Stale.{stale, stale_page, visits_of_pages};
ghost use Rattle.pl_history.specs.Taken.{AreThese};
ghost use Rattle.pl_history.specs.Went.{went};

use crate::expiration::add_visits;
use crate::removal::{Removal, remove_visits};
use pl_base::{Micros, NoMemory, PageId, Rows, Steps, View, VisitId};
use pl_marks::last_date;
use std::alloc::Global;
use std::sync::ledger::Ledger;

// A page that no item has, and when it was last visited. The stalest one comes first.
#[derive(Clone, Copy, PartialEq, Eq, PartialOrd, Ord)]
struct StalePage {
    last: Option<Micros>,
    page: PageId,
}

// How many pages there are.
fn page_count<R: Rows, L: Ledger>(rows: &R, steps: &mut Steps<L>) -> u32
    ensures { result ≡ length (R.kept rows.now).pages }
{
    let mut count = 0;
    let mut next = rows.page_after(None, steps);
    while let Some(page) = next {
        count += 1;
        next = rows.page_after(Some(page), steps);
    }
    count
}

// The page joins the others where no item has it.
fn add_if_stale<R: Rows, L: Ledger>(
    rows: &R,
    page: PageId,
    pages: &mut Vec<StalePage>,
    steps: &mut Steps<L>,
) -> Result<(), NoMemory>
    ensures { OnOk result ((p : KeptPage) → p.page.id ≡ page → pages.new.items
        ≡ pages.old.items ++ stale (store_of (R.kept rows.now)) (p.page ∷ [])) }
{
    if rows.first_reference(page, steps).is_none() {
        let last = last_date(rows, page, steps);
        pages.push(StalePage { last, page })?;
    }
    Ok(())
}

// The pages that no item has, the stalest first.
fn stale_pages<R: Rows, L: Ledger>(
    alloc: Global,
    rows: &R,
    steps: &mut Steps<L>,
) -> Result<Vec<StalePage>, NoMemory>
    ensures { IfOk result (λ pages. pages.items
        ≡ map (stale_page (store_of (R.kept rows.now)))
        (spec.stale_pages (store_of (R.kept rows.now)))) }
{
    let mut pages = Vec::new(alloc);
    let mut next = rows.page_after(None, steps);
    while let Some(page) = next {
        add_if_stale(rows, page, &mut pages, steps)?;
        next = rows.page_after(Some(page), steps);
    }
    pages.sort_unstable();
    Ok(pages)
}

// The visits to the pages.
fn visits_to<R: Rows, L: Ledger>(
    alloc: Global,
    rows: &R,
    pages: &[StalePage],
    steps: &mut Steps<L>,
) -> Result<Vec<VisitId>, NoMemory>
    requires { AllPairs (λ (p q : StalePage). p.page.0 ≢ q.page.0) pages.now }
    ensures { IfOk result (λ visits. AreThese
        (visits_of_pages pages.now (store_of (R.kept rows.now))) (R.kept rows.now) visits.items) }
{
    let mut visits = Vec::new(alloc);
    for stale in pages {
        add_visits(rows, stale.page, &mut visits, steps)?;
    }
    Ok(visits)
}

/// Where there are more pages than these, as many as there are beyond go of those that no item
/// has, the ones first that were last visited longest ago.
pub fn trim<R: Rows, L: Ledger>(
    alloc: Global,
    rows: &mut R,
    views: &[View],
    most: u32,
    steps: &mut Steps<L>,
) -> Result<Removal, NoMemory>
    requires sound { IsSound (R.kept rows.old) }
    requires views { HaveAddresses views.now (R.kept rows.old) }
    ensures store { OnOk result (store_of (R.kept rows.new)
        ≡ spec.trimmed most (store_of (R.kept rows.old))) }
    ensures went { IfOk result (λ removal. removal.went
        ≡ went (store_of (R.kept rows.old)) (store_of (R.kept rows.new))) }
    ensures ascending { IfOk result (λ removal. IsStrictlyIncreasing
        (map (λ (page : PageId). page.0) removal.pages.items)) }
    ensures borne { IfOk result (λ removal. BearsOnlyOn removal.pages.items
        (store_of (R.kept rows.old)) (store_of (R.kept rows.new))) }
    ensures sound { OnOk result (IsSound (R.kept rows.new)) }
    ensures base { OnOk result ((bytes : List ℕ) → R.base rows.old bytes → R.base rows.new bytes) }
{
    let excess = page_count(rows, steps).saturating_sub(most);
    let mut pages = stale_pages(alloc, rows, steps)?;
    pages.truncate(excess as usize);
    let visits = visits_to(alloc, rows, &pages, steps)?;
    remove_visits(alloc, rows, views, &visits, steps)
}
