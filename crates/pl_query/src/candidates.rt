// The rows that may be answered, collected page by page.
ghost use Rattle.std.specs.Prelude.{◌≡◌, ◌++◌, ◌∷◌, [], Some, true, is_some, map, IfOk, OnOk};
ghost use Rattle.pl_base.specs.Good.{IsGood};
ghost use Rattle.pl_base.specs.Rows.{IsRight, KeptPage, has_page, page_at, store_of};
ghost use Rattle.pl_conditions.specs.Asked.{IsAsked};
ghost use Rattle.pl_query.specs.Candidates.{candidate_of, part_of, parts_of, sort_value};
ghost use Rattle.pl_query.specs.Candidates.{subject_of};
ghost use Rattle.pl_query.specs.Order.{Row};
ghost use Rattle.pl_query.specs.Subjects.{row_at};

mod bookmarks;
mod pages;
mod visits;

use crate::candidates::bookmarks::add_bookmarks;
use crate::candidates::pages::add_page;
use crate::candidates::visits::add_visits;
use crate::ordering::{Candidate, sort_value};
use crate::shown::Subject;
use pl_base::{NoMemory, PageId, Rows, Steps};
use pl_conditions::Asked;
use pl_place::{QueryType, ResultType, Sort};
use std::alloc::Global;
use std::sync::ledger::Ledger;

// The row of what is there joins the candidates.
fn add<R: Rows, L: Ledger>(
    alloc: Global,
    rows: &R,
    sort: Sort,
    subject: Subject,
    candidates: &mut Vec<Candidate>,
    steps: &mut Steps<L>,
) -> Result<(), NoMemory>
    requires there { is_some (row_at (R.kept rows.now) subject) ≡ true }
    requires good { IsGood (store_of (R.kept rows.now)) }
    requires right { IsRight (R.kept rows.now) }
    ensures { OnOk result ((row : Row) → row_at (R.kept rows.now) subject ≡ Some row
        → candidates.new.items ≡ candidates.old.items
        ++ record { subject = subject; value = sort_value (store_of (R.kept rows.now)) sort row }
        ∷ []) }
{
    let value = sort_value(alloc, rows, sort, subject, steps)?;
    candidates.push(Candidate { subject, value })?;
    Ok(())
}

// The rows of one page join the candidates.
fn add_rows<R: Rows, L: Ledger>(
    alloc: Global,
    rows: &R,
    asked: &Asked<'_>,
    page: PageId,
    candidates: &mut Vec<Candidate>,
    steps: &mut Steps<L>,
) -> Result<(), NoMemory>
    requires page { has_page (R.kept rows.now) page ≡ true }
    requires good { IsGood (store_of (R.kept rows.now)) }
    requires right { IsRight (R.kept rows.now) }
    requires asked { IsAsked (store_of (R.kept rows.now)) asked.now.query.now asked.now }
    ensures { let q = asked.now.query.now
        in OnOk result ((p : KeptPage) → page_at (R.kept rows.now) page ≡ Some p
        → candidates.new.items ≡ candidates.old.items
        ++ map (candidate_of (subject_of q.query_type q.result_type)
        (store_of (R.kept rows.now)) q.sort)
        (part_of q.query_type q.result_type (R.kept rows.now) q p)) }
{
    match asked.query.query_type {
        QueryType::Bookmarks => add_bookmarks(alloc, rows, asked, page, candidates, steps),
        QueryType::History => match asked.query.result_type {
            ResultType::Pages => add_page(alloc, rows, asked, page, candidates, steps),
            ResultType::Visits => add_visits(alloc, rows, asked, page, candidates, steps),
        },
    }
}

/// The rows that may be answered, in no order.
pub fn candidates<R: Rows, L: Ledger>(
    alloc: Global,
    rows: &R,
    asked: &Asked<'_>,
    steps: &mut Steps<L>,
) -> Result<Vec<Candidate>, NoMemory>
    requires good { IsGood (store_of (R.kept rows.now)) }
    requires right { IsRight (R.kept rows.now) }
    requires asked { IsAsked (store_of (R.kept rows.now)) asked.now.query.now asked.now }
    ensures { let q = asked.now.query.now
        in IfOk result (λ candidates. candidates.items
        ≡ map (candidate_of (subject_of q.query_type q.result_type)
        (store_of (R.kept rows.now)) q.sort)
        (parts_of q.query_type q.result_type (R.kept rows.now) q (R.kept rows.now).pages)) }
{
    let mut candidates = Vec::new(alloc);
    let mut next = rows.page_after(None, steps);
    while let Some(page) = next {
        add_rows(alloc, rows, asked, page, &mut candidates, steps)?;
        next = rows.page_after(Some(page), steps);
    }
    Ok(candidates)
}
