// The visits that a query of history lists.
ghost use Rattle.std.specs.Prelude.{◌≡◌, ◌++◌, ◌∷◌, [], Some, true, is_some, map, OnOk};
ghost use Rattle.pl_base.specs.Good.{IsGood};
ghost use Rattle.pl_base.specs.Rows.{IsRight, KeptPage, has_page, page_at, page_visits, store_of};
ghost use Rattle.pl_base.specs.Rows.{visit_at};
ghost use Rattle.pl_base.specs.Store.{Visit};
ghost use Rattle.pl_query.specs.declared.shown.Subject.TheVariants.{Visit as OfVisit};
ghost use Rattle.pl_conditions.specs.Asked.{IsAsked};
ghost use Rattle.pl_query.specs.Candidates.{candidate_of, visit_subject, visits_in_times};
ghost use Rattle.pl_query.specs.Candidates.{visits_part};
ghost use Rattle.pl_query.specs.Subjects.{row_at};

use crate::candidates::add;
use crate::candidates::pages::{is_in_times, is_listed};
use crate::ordering::Candidate;
use crate::shown::Subject;
use pl_base::{NoMemory, PageId, Rows, Steps, VisitId};
use pl_conditions::Asked;
use std::alloc::Global;
use std::sync::ledger::Ledger;

// The visit to the page joins the candidates, if it lies within the times.
fn add_visit<R: Rows, L: Ledger>(
    alloc: Global,
    rows: &R,
    asked: &Asked<'_>,
    page: PageId,
    visit: VisitId,
    candidates: &mut Vec<Candidate>,
    steps: &mut Steps<L>,
) -> Result<(), NoMemory>
    requires there { is_some (row_at (R.kept rows.now) (OfVisit visit page)) ≡ true }
    requires good { IsGood (store_of (R.kept rows.now)) }
    requires right { IsRight (R.kept rows.now) }
    requires asked { IsAsked (store_of (R.kept rows.now)) asked.now.query.now asked.now }
    ensures { let q = asked.now.query.now
        in OnOk result ((p : KeptPage) (v : Visit) → page_at (R.kept rows.now) page ≡ Some p
        → visit_at (R.kept rows.now) visit ≡ Some v
        → candidates.new.items ≡ candidates.old.items
        ++ map (candidate_of visit_subject (store_of (R.kept rows.now)) q.sort)
        (visits_in_times (R.kept rows.now) q p (v ∷ []))) }
{
    if !is_in_times(rows, asked, visit, steps) {
        return Ok(());
    }
    let subject = Subject::Visit(visit, page);
    add(alloc, rows, asked.query.sort, subject, candidates, steps)
}

// The visits to the page that lie within the times join the candidates.
fn add_visits_in_times<R: Rows, L: Ledger>(
    alloc: Global,
    rows: &R,
    asked: &Asked<'_>,
    page: PageId,
    candidates: &mut Vec<Candidate>,
    steps: &mut Steps<L>,
) -> Result<(), NoMemory>
    requires page { has_page (R.kept rows.now) page ≡ true }
    requires good { IsGood (store_of (R.kept rows.now)) }
    requires right { IsRight (R.kept rows.now) }
    requires asked { IsAsked (store_of (R.kept rows.now)) asked.now.query.now asked.now }
    ensures { let q = asked.now.query.now
        in OnOk result ((p : KeptPage) → page_at (R.kept rows.now) page ≡ Some p
        → candidates.new.items ≡ candidates.old.items
        ++ map (candidate_of visit_subject (store_of (R.kept rows.now)) q.sort)
        (visits_in_times (R.kept rows.now) q p (page_visits (R.kept rows.now) page))) }
{
    let mut next = rows.latest(page, steps);
    while let Some(visit) = next {
        add_visit(alloc, rows, asked, page, visit, candidates, steps)?;
        next = rows.older(visit, steps);
    }
    Ok(())
}

/// The visits to the page that are listed join the candidates.
pub fn add_visits<R: Rows, L: Ledger>(
    alloc: Global,
    rows: &R,
    asked: &Asked<'_>,
    page: PageId,
    candidates: &mut Vec<Candidate>,
    steps: &mut Steps<L>,
) -> Result<(), NoMemory>
    requires page { has_page (R.kept rows.now) page ≡ true }
    requires good { IsGood (store_of (R.kept rows.now)) }
    requires right { IsRight (R.kept rows.now) }
    requires asked { IsAsked (store_of (R.kept rows.now)) asked.now.query.now asked.now }
    ensures { let q = asked.now.query.now
        in OnOk result ((p : KeptPage) → page_at (R.kept rows.now) page ≡ Some p
        → candidates.new.items ≡ candidates.old.items
        ++ map (candidate_of visit_subject (store_of (R.kept rows.now)) q.sort)
        (visits_part (R.kept rows.now) q p)) }
{
    let listed = is_listed(alloc, rows, asked, page, steps)?;
    if !listed {
        return Ok(());
    }
    add_visits_in_times(alloc, rows, asked, page, candidates, steps)
}
