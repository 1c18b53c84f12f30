ghost use Rattle.std.specs.Prelude.{◌≡◌, ◌==◌, filter, find, map, nat_lt};
ghost use Rattle.std.specs.List.{position};
ghost use Rattle.std.specs.List.Sorted.{IsStrictlyIncreasing};
ghost use Rattle.std.specs.Option.{option_copied, option_map};
ghost use Rattle.pl_base.specs.Visits.{latest_first};
ghost use Rattle.pl_stored.specs.Stored.{visit_of};
ghost use Rattle.pl_plain.specs.declared.flat.row.FlatPage.{FlatPage};
ghost use Rattle.pl_plain.specs.FlatRows.{flat_visit_ids};
ghost use Rattle.pl_plain.specs.FlatRows.{flat_page_ids};
ghost use Rattle.pl_plain.specs.Latest.{first_of, is_within};

use crate::flat::row::FlatPage;
use crate::flat::visit::{is_within, later_of};
use pl_base::{PageId, VisitId};
use pl_stored::StoredVisit;

/// Where the page with this id stands.
pub fn page_index(pages: &[FlatPage], id: PageId) -> Option<usize>
    requires { IsStrictlyIncreasing (flat_page_ids pages.now) }
    ensures { result ≡ position (λ p. p.id.0 == id.0) pages.now }
{
    pages.binary_search_by_key(&id.0, |page| page.id.0).ok()
}

pub fn find_page(pages: &[FlatPage], id: PageId) -> Option<&FlatPage>
    requires { IsStrictlyIncreasing (flat_page_ids pages.now) }
    ensures { option_copied result ≡ find (λ p. p.id.0 == id.0) pages.now }
{
    pages.get(page_index(pages, id)?)
}

/// The first page with a greater id.
pub fn behind(pages: &[FlatPage], id: u32) -> Option<PageId>
    requires { IsStrictlyIncreasing (flat_page_ids pages.now) }
    ensures { result
        ≡ option_map (λ (p : FlatPage). p.id) (find (λ p. nat_lt id p.id.0) pages.now) }
{
    let page = pages.get(pages.partition_point(|page| page.id.0 <= id))?;
    Some(page.id)
}

/// Where the visit with this id stands.
pub fn visit_index(visits: &[StoredVisit], id: VisitId) -> Option<usize>
    requires { IsStrictlyIncreasing (flat_visit_ids visits.now) }
    ensures { result ≡ position (λ v. v.id.0 == id.0) visits.now }
{
    visits.binary_search_by_key(&id.0, |visit| visit.id.0).ok()
}

pub fn find_visit(visits: &[StoredVisit], id: VisitId) -> Option<&StoredVisit>
    requires { IsStrictlyIncreasing (flat_visit_ids visits.now) }
    ensures { option_copied result ≡ find (λ v. v.id.0 == id.0) visits.now }
{
    visits.get(visit_index(visits, id)?)
}

/// The latest visit of a page, of all or of those before the limit.
pub fn latest_visit(
    visits: &[StoredVisit],
    page: PageId,
    limit: Option<StoredVisit>,
) -> Option<StoredVisit>
    ensures { option_map visit_of result ≡ first_of (latest_first
        (filter (is_within page (option_map visit_of limit)) (map visit_of visits.now))) }
{
    let mut latest = None;
    for visit in visits
        .iter()
        .rev()
        .filter(|visit| is_within(visit, page, limit))
    {
        latest = Some(later_of(*visit, latest));
    }
    latest
}
