// The order of visits, and their sources.
ghost use Rattle.std.specs.Prelude.{◌≡◌};
ghost use Rattle.std.specs.Option.{option_map};
ghost use Rattle.pl_base.specs.Redirects as redirects;
ghost use Rattle.pl_base.specs.Rows.{row_of};
ghost use Rattle.pl_base.specs.Visits as visits;
ghost use Rattle.pl_stored.specs.Stored.{visit_of};
ghost use Rattle.pl_plain.specs.Latest as latest;
ghost use Rattle.pl_plain.specs.Targets as targets;

use pl_base::{PageId, VisitId, VisitRow};
use pl_stored::StoredVisit;

// Whether the date is later, or the same and the id greater.
fn is_later(visit: &StoredVisit, other: &StoredVisit) -> bool
    ensures { result ≡ visits.is_later (visit_of visit.now) (visit_of other.now) }
{
    (visit.date, visit.id) > (other.date, other.id)
}

/// The later of a visit and another one, if there is another.
pub fn later_of(visit: StoredVisit, other: Option<StoredVisit>) -> StoredVisit
    ensures { visit_of result ≡ latest.later_of (visit_of visit) (option_map visit_of other) }
{
    match other {
        Some(other) if !is_later(&visit, &other) => other,
        _ => visit,
    }
}

/// Whether the visit is one of the page, and earlier than the limit if there is one.
pub fn is_within(visit: &StoredVisit, page: PageId, limit: Option<StoredVisit>) -> bool
    ensures { result ≡ latest.is_within page (option_map visit_of limit) (visit_of visit.now) }
{
    visit.page == page && limit.is_none_or(|limit| is_later(&limit, visit))
}

// Whether the visit came from the one with this id.
fn came_from(visit: &StoredVisit, source: VisitId) -> bool
    ensures { result ≡ redirects.is_source source visit.now.source }
{
    visit.source == Some(source)
}

/// Whether it is a redirect that came from the visit with this id.
pub fn is_redirect_from(visit: &StoredVisit, source: VisitId) -> bool
    ensures { result ≡ targets.is_redirect_from source (visit_of visit.now) }
{
    visit.transition.is_redirect() && came_from(visit, source)
}

/// Whether it is another visit that came from there.
pub fn is_other_from(visit: &StoredVisit, source: VisitId) -> bool
    ensures { result ≡ targets.is_other_from source (visit_of visit.now) }
{
    !visit.transition.is_redirect() && came_from(visit, source)
}

pub fn visit_row(visit: &StoredVisit) -> VisitRow
    ensures { result ≡ row_of (visit_of visit.now) }
{
    VisitRow {
        page: visit.page,
        date: visit.date,
        transition: visit.transition,
        source: visit.source,
    }
}
