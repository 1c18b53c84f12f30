// The visits that came from one: redirects, and behind them the others.
ghost use Rattle.std.specs.Prelude.{◌≡◌, ◌++◌, filter, map};
ghost use Rattle.std.specs.List.Sorted.{IsStrictlyIncreasing};
ghost use Rattle.pl_base.specs.Rows.{first_id};
ghost use Rattle.pl_stored.specs.Stored.{visit_of};
ghost use Rattle.pl_plain.specs.FlatRows.{flat_visit_ids};
ghost use Rattle.pl_plain.specs.Targets.{is_other_from, is_redirect_from};
ghost use Rattle.pl_plain.specs.Targets.{target_among, targets_of};

use crate::flat::search::visit_index;
use crate::flat::visit::{is_other_from, is_redirect_from};
use pl_base::VisitId;
use pl_stored::StoredVisit;

/// The first of the visits that came from this one.
pub fn first_target(visits: &[StoredVisit], source: VisitId) -> Option<VisitId>
    ensures { result ≡ first_id (targets_of (map visit_of visits.now) source) }
{
    first_of(visits, visits, source)
}

/// The next of the visits that came from the same one.
pub fn next_target(visits: &[StoredVisit], id: VisitId) -> Option<VisitId>
    requires { IsStrictlyIncreasing (flat_visit_ids visits.now) }
    ensures { result ≡ target_among (map visit_of visits.now) id }
{
    let index = visit_index(visits, id)?;
    let visit = visits[index];
    let source = visit.source?;
    let behind = &visits[index + 1..];
    if visit.transition.is_redirect() {
        first_of(behind, visits, source)
    } else {
        first_other(behind, source)
    }
}

// The first redirect of some that came from the source, and else the first other visit of some.
fn first_of(redirects: &[StoredVisit], others: &[StoredVisit], source: VisitId) -> Option<VisitId>
    ensures { result ≡ first_id (filter (is_redirect_from source) (map visit_of redirects.now)
        ++ filter (is_other_from source) (map visit_of others.now)) }
{
    first_redirect(redirects, source).or_else(|| first_other(others, source))
}

fn first_redirect(visits: &[StoredVisit], source: VisitId) -> Option<VisitId>
    ensures { result ≡ first_id (filter (is_redirect_from source) (map visit_of visits.now)) }
{
    let visit = visits.iter().find(|visit| is_redirect_from(visit, source))?;
    Some(visit.id)
}

fn first_other(visits: &[StoredVisit], source: VisitId) -> Option<VisitId>
    ensures { result ≡ first_id (filter (is_other_from source) (map visit_of visits.now)) }
{
    let visit = visits.iter().find(|visit| is_other_from(visit, source))?;
    Some(visit.id)
}
