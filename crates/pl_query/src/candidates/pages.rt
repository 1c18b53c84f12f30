// The pages that a query of history lists.
ghost use Rattle.std.specs.Prelude.{◌≡◌, ◌++◌, ◌&&◌, Some, true, map, IfOk, OnOk};
ghost use Rattle.pl_base.specs.Good.{IsGood};
ghost use Rattle.pl_base.specs.Rows.{IsRight, KeptPage, has_page, has_visit, page_at, store_of};
ghost use Rattle.pl_base.specs.Rows.{visit_at};
ghost use Rattle.pl_base.specs.Store.{Visit};
ghost use Rattle.pl_conditions.specs.Asked.{IsAsked};
ghost use Rattle.pl_query.specs.Candidates.{candidate_of, page_part, page_subject};
ghost use Rattle.pl_conditions.specs.Conditions as conditions;
ghost use Rattle.pl_query.specs.QueryAnswer as spec;

use crate::candidates::add;
use crate::ordering::Candidate;
use crate::shown::{Subject, visit_date};
use pl_base::{NoMemory, PageId, Rows, Steps, VisitId};
use pl_conditions::{Asked, history_holds};
use std::alloc::Global;
use std::sync::ledger::Ledger;

/// Whether the date of the visit lies within the times.
pub fn is_in_times<R: Rows, L: Ledger>(
    rows: &R,
    asked: &Asked<'_>,
    visit: VisitId,
    steps: &mut Steps<L>,
) -> bool
    requires visit { has_visit (R.kept rows.now) visit ≡ true }
    requires asked { IsAsked (store_of (R.kept rows.now)) asked.now.query.now asked.now }
    ensures { (v : Visit) → visit_at (R.kept rows.now) visit ≡ Some v
        → result ≡ conditions.in_times (store_of (R.kept rows.now)) asked.now.query.now v.date }
{
    asked.is_in_times(visit_date(rows, visit, steps))
}

// Whether the page has a visit within the times.
fn has_visit_in_times<R: Rows, L: Ledger>(
    rows: &R,
    asked: &Asked<'_>,
    page: PageId,
    steps: &mut Steps<L>,
) -> bool
    requires { IsAsked (store_of (R.kept rows.now)) asked.now.query.now asked.now }
    ensures { result ≡ spec.has_visit_in_times (store_of (R.kept rows.now)) asked.now.query.now
        page }
{
    let mut next = rows.latest(page, steps);
    while let Some(visit) = next {
        if is_in_times(rows, asked, visit, steps) {
            return true;
        }
        next = rows.older(visit, steps);
    }
    false
}

/// Whether the page has a visit within the times, and the conditions hold of it.
pub fn is_listed<R: Rows, L: Ledger>(
    alloc: Global,
    rows: &R,
    asked: &Asked<'_>,
    page: PageId,
    steps: &mut Steps<L>,
) -> Result<bool, NoMemory>
    requires page { has_page (R.kept rows.now) page ≡ true }
    requires good { IsGood (store_of (R.kept rows.now)) }
    requires right { IsRight (R.kept rows.now) }
    requires asked { IsAsked (store_of (R.kept rows.now)) asked.now.query.now asked.now }
    ensures { let store = store_of (R.kept rows.now)
        in IfOk result (λ listed. (p : KeptPage) → page_at (R.kept rows.now) page ≡ Some p
        → listed ≡ (spec.has_visit_in_times store asked.now.query.now p.page.id
        && conditions.history_holds store asked.now.query.now p.page)) }
{
    if !has_visit_in_times(rows, asked, page, steps) {
        return Ok(false);
    }
    history_holds(alloc, rows, asked, page, steps)
}

/// The page joins the candidates, if it is listed.
pub fn add_page<R: Rows, L: Ledger>(
    alloc: Global,
    rows: &R,
    asked: &Asked<'_>,
    page: PageId,
    candidates: &mut Vec<Candidate>,
    steps: &mut Steps<L>,
) -> Result<(), NoMemory>
    requires page { has_page (R.kept rows.now) page ≡ true }
    requires good { IsGood (store_of (R.kept rows.now)) }
    requires right { IsRight (R.kept rows.now) }
    requires asked { IsAsked (store_of (R.kept rows.now)) asked.now.query.now asked.now }
    ensures { let q = asked.now.query.now
        in OnOk result ((p : KeptPage) → page_at (R.kept rows.now) page ≡ Some p
        → candidates.new.items ≡ candidates.old.items
        ++ map (candidate_of page_subject (store_of (R.kept rows.now)) q.sort)
        (page_part (R.kept rows.now) q p)) }
{
    let listed = is_listed(alloc, rows, asked, page, steps)?;
    if !listed {
        return Ok(());
    }
    add(
        alloc,
        rows,
        asked.query.sort,
        Subject::Page(page),
        candidates,
        steps,
    )
}
