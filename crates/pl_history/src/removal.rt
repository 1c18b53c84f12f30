// Visits that go, with the pages that they alone kept.
ghost use Rattle.std.specs.Prelude.{◌≡◌, ◌≢◌, ◌∷◌, ◌++◌, ◌==◌, ℕ, List, [], true, map};
ghost use Rattle.std.specs.Prelude.{IfOk, OnOk};
ghost use Rattle.std.specs.List.{All, AllPairs, list_any};
ghost use Rattle.std.specs.List.Sorted.{IsStrictlyIncreasing};
ghost use Rattle.std.specs.Option.{option_to_list};
ghost use Rattle.pl_base.specs.declared.id.PageId.{PageId};
ghost use Rattle.pl_base.specs.declared.id.VisitId.{VisitId};
ghost use Rattle.pl_base.specs.Removal.{visits_left, without_visits};
ghost use Rattle.pl_base.specs.Rows.{IsSound, has_visit, store_of};
ghost use Rattle.pl_base.specs.Store.{Store};
ghost use Rattle.pl_marks.specs.Alike.{AreOthersAlike};
ghost use Rattle.pl_marks.specs.Refreshed as marks;
ghost use Rattle.pl_history.specs.Addresses.{HaveAddresses};
ghost use Rattle.pl_history.specs.Bears.{BearsOnlyOn};
ghost use Rattle.pl_history.specs.Borne.{WithRedirectPages};
ghost use Rattle.pl_history.specs.Settled.{AreOthersSettled};
ghost use Rattle.pl_history.specs.Went.{went};

use crate::settle::settle_all;
use pl_base::{NoMemory, PageId, Rows, Steps, View, VisitId, VisitRow};
use pl_marks::{keep_mark, unvisited_mark};
use std::alloc::Global;
use std::sync::ledger::Ledger;

/// How many visits and pages went.
#[derive(Clone, Copy, Debug, PartialEq, Eq)]
pub struct Removed {
    pub visits: u32,
    pub pages: u32,
}

/// What went, and the pages that it bore on: of each visit its page, the page of its source and the
/// pages of the redirects that came from it. The pages stand by ascending id, and some of them may
/// be gone.
#[derive(Debug, PartialEq, Eq, Drop)]
pub struct Removal {
    pub went: Removed,
    pub pages: Vec<PageId>,
}

// The page of the visit that a redirect came from.
fn source_page<R: Rows, L: Ledger>(rows: &R, row: &VisitRow, steps: &mut Steps<L>) -> Option<PageId>
    ensures { result ≡ marks.source_page (R.kept rows.now) row.now }
{
    if !row.transition.is_redirect() {
        return None;
    }
    let source = rows.visit_at(row.source?, steps)?;
    Some(source.page)
}

// The page of the visit, and that of the source of a redirect, join the others.
fn push_own_pages<R: Rows, L: Ledger>(
    rows: &R,
    row: &VisitRow,
    pages: &mut Vec<PageId>,
    steps: &mut Steps<L>,
) -> Result<(), NoMemory>
    ensures { OnOk result (pages.new.items ≡ pages.old.items
        ++ row.now.page ∷ option_to_list (marks.source_page (R.kept rows.now) row.now)) }
{
    pages.push(row.page)?;
    if let Some(source) = source_page(rows, row, steps) {
        pages.push(source)?;
    }
    Ok(())
}

// The pages of the redirects that came from the visit join the others.
fn push_redirect_pages<R: Rows, L: Ledger>(
    rows: &R,
    visit: VisitId,
    pages: &mut Vec<PageId>,
    steps: &mut Steps<L>,
) -> Result<(), NoMemory>
    ensures { OnOk result
        (WithRedirectPages (R.kept rows.now) visit pages.old.items pages.new.items) }
{
    // A redirect stands before all others.
    let mut next = rows.first_target(visit, steps);
    while let Some(target) = next {
        let row = rows.visit_at(target, steps).unwrap();
        if !row.transition.is_redirect() {
            return Ok(());
        }
        pages.push(row.page)?;
        next = rows.next_target(target, steps);
    }
    Ok(())
}

// The visit goes, and the pages that it bears on join the others.
fn remove_visit<R: Rows, L: Ledger>(
    rows: &mut R,
    visit: VisitId,
    pages: &mut Vec<PageId>,
    steps: &mut Steps<L>,
) -> Result<(), NoMemory>
    requires there { has_visit (R.kept rows.old) visit ≡ true }
    requires settled { AreOthersSettled pages.old.items (R.kept rows.old) }
    ensures store { OnOk result (store_of (R.kept rows.new)
        ≡ record (store_of (R.kept rows.old)) {
          visits = visits_left (visit ∷ []) (R.kept rows.old).visits;
        }) }
    ensures settled { OnOk result (AreOthersSettled pages.new.items (R.kept rows.new)) }
    ensures alike { OnOk result ((first : Store)
        → AreOthersAlike pages.old.items first (store_of (R.kept rows.old))
        → AreOthersAlike pages.new.items first (store_of (R.kept rows.new))) }
    ensures base { OnOk result ((bytes : List ℕ) → R.base rows.old bytes → R.base rows.new bytes) }
{
    let row = rows.visit_at(visit, steps).unwrap();
    push_own_pages(rows, &row, pages, steps)?;
    push_redirect_pages(rows, visit, pages, steps)?;
    rows.remove_visit(visit, steps);
    let mark = rows.page_at(row.page, steps).unwrap();
    keep_mark(rows, row.page, unvisited_mark(mark, row.transition), steps);
    Ok(())
}

/// The pages by ascending id, each once.
pub fn put_in_order(pages: &mut Vec<PageId>)
    ensures ascending { IsStrictlyIncreasing (map (λ (page : PageId). page.0) pages.new.items) }
    ensures same { (page : PageId)
        → list_any (λ (id : PageId). page.0 == id.0) pages.new.items
        ≡ list_any (λ (id : PageId). page.0 == id.0) pages.old.items }
{
    pages.sort_unstable();
    pages.dedup();
}

/// The visits go, each of which is named once. A page that has neither a visit nor an item then
/// goes too, and what is computed of each page that they bore on is computed afresh.
pub fn remove_visits<R: Rows, L: Ledger>(
    alloc: Global,
    rows: &mut R,
    views: &[View],
    visits: &[VisitId],
    steps: &mut Steps<L>,
) -> Result<Removal, NoMemory>
    requires there { All (λ (id : VisitId). has_visit (R.kept rows.old) id ≡ true) visits.now }
    requires apart { AllPairs (λ (a b : VisitId). a.0 ≢ b.0) visits.now }
    requires sound { IsSound (R.kept rows.old) }
    requires views { HaveAddresses views.now (R.kept rows.old) }
    ensures store { OnOk result (store_of (R.kept rows.new)
        ≡ without_visits visits.now (store_of (R.kept rows.old))) }
    ensures went { IfOk result (λ removal. removal.went
        ≡ went (store_of (R.kept rows.old)) (store_of (R.kept rows.new))) }
    ensures ascending { IfOk result (λ removal. IsStrictlyIncreasing
        (map (λ (page : PageId). page.0) removal.pages.items)) }
    ensures borne { IfOk result (λ removal. BearsOnlyOn removal.pages.items
        (store_of (R.kept rows.old)) (store_of (R.kept rows.new))) }
    ensures sound { OnOk result (IsSound (R.kept rows.new)) }
    ensures base { OnOk result ((bytes : List ℕ) → R.base rows.old bytes → R.base rows.new bytes) }
{
    let mut pages = Vec::new(alloc);
    for visit in visits {
        remove_visit(rows, *visit, &mut pages, steps)?;
    }
    put_in_order(&mut pages);
    let gone = settle_all(alloc, rows, views, &pages, steps)?;
    let went = Removed {
        visits: visits.len() as u32,
        pages: gone,
    };
    Ok(Removal { went, pages })
}
