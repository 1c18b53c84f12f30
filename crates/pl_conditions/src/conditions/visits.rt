// What is asked of a page's visits, and of the marks that they give it.
ghost use Rattle.std.specs.Prelude.{◌≡◌, ◌==◌, ◌||◌, not, Some, true};
ghost use Rattle.pl_base.specs.Marks.{is_hidden, visit_count};
ghost use Rattle.pl_base.specs.Rows.{IsRight, KeptPage, has_page, has_visit, page_at, store_of};
ghost use Rattle.pl_base.specs.Rows.{visit_at};
ghost use Rattle.pl_base.specs.Store.{Visit};
ghost use Rattle.pl_base.specs.Transition.{transition_number};
ghost use Rattle.pl_conditions.specs.AskedParts as parts;
ghost use Rattle.pl_conditions.specs.Conditions as spec;

use pl_base::{PageId, Rows, Steps, Transition, VisitId};
use pl_place::Query;
use std::sync::ledger::Ledger;

/// Whether the number of visits lies within the bounds.
pub fn is_count_asked(query: &Query, count: u32) -> bool
    ensures { result ≡ parts.is_count_asked query.now count }
{
    query.min_visits.is_none_or(|least| least <= count)
        && query.max_visits.is_none_or(|most| count <= most)
}

/// Whether the page's `visit_count` lies within the bounds.
pub fn has_count_asked<R: Rows, L: Ledger>(
    rows: &R,
    query: &Query,
    page: PageId,
    steps: &mut Steps<L>,
) -> bool
    requires page { has_page (R.kept rows.now) page ≡ true }
    requires right { IsRight (R.kept rows.now) }
    ensures { result ≡ parts.is_count_asked query.now
        (visit_count (store_of (R.kept rows.now)) page) }
{
    let mark = rows.page_at(page, steps).unwrap();
    is_count_asked(query, mark.count)
}

/// Whether the page is not hidden, or hidden pages are not left out.
pub fn is_listed<R: Rows, L: Ledger>(
    rows: &R,
    query: &Query,
    page: PageId,
    steps: &mut Steps<L>,
) -> bool
    requires page { has_page (R.kept rows.now) page ≡ true }
    requires right { IsRight (R.kept rows.now) }
    ensures { (p : KeptPage) → page_at (R.kept rows.now) page ≡ Some p
        → result ≡ (query.now.include_hidden
        || not (is_hidden (store_of (R.kept rows.now)) p.page)) }
{
    let mark = rows.page_at(page, steps).unwrap();
    query.include_hidden || !mark.hidden
}

// Whether the visit has this transition.
fn has_transition<R: Rows, L: Ledger>(
    rows: &R,
    visit: VisitId,
    transition: Transition,
    steps: &mut Steps<L>,
) -> bool
    requires { has_visit (R.kept rows.now) visit ≡ true }
    ensures { (v : Visit) → visit_at (R.kept rows.now) visit ≡ Some v
        → result ≡ (transition_number v.transition == transition_number transition) }
{
    let row = rows.visit_at(visit, steps).unwrap();
    row.transition.number() == transition.number()
}

// Whether a visit of the page has this transition.
fn has_visit_by<R: Rows, L: Ledger>(
    rows: &R,
    transition: Transition,
    page: PageId,
    steps: &mut Steps<L>,
) -> bool
    ensures { result ≡ parts.has_visit_by (store_of (R.kept rows.now)) page transition }
{
    let mut next = rows.latest(page, steps);
    while let Some(visit) = next {
        if has_transition(rows, visit, transition, steps) {
            return true;
        }
        next = rows.older(visit, steps);
    }
    false
}

/// Whether the page has a visit of each transition.
pub fn has_transitions<R: Rows, L: Ledger>(
    rows: &R,
    transitions: &[Transition],
    page: PageId,
    steps: &mut Steps<L>,
) -> bool
    ensures { result ≡ spec.has_transitions (store_of (R.kept rows.now)) transitions.now page }
{
    for transition in transitions {
        if !has_visit_by(rows, *transition, page, steps) {
            return false;
        }
    }
    true
}
