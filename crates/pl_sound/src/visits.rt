// The visits of a file by their pages.
ghost use Rattle.std.specs.Prelude.{◌≡◌, ◌==◌, IfOk};
ghost use Rattle.std.specs.List.{filter};
ghost use Rattle.std.specs.List.Sorted.{IsStrictlyIncreasing};
ghost use Rattle.std.specs.Ordering.{is_lt};
ghost use Rattle.pl_base.specs.Visits.{is_later};
ghost use Rattle.pl_check.specs.Rows.{stored_visit_ids};
ghost use Rattle.pl_stored.specs.Stored.{visit_of};
ghost use Rattle.pl_sound.specs.Visits.{AreByPage};

use pl_base::{NoMemory, PageId};
use pl_stored::StoredVisit;
use std::alloc::Global;
use std::cmp::Ordering;
use std::marker::Model;

/// Visits by page, and those of one page the latest first.
#[derive(Debug, Drop)]
pub(crate) struct PageVisits {
    visits: Vec<StoredVisit>,
}

impl Model for PageVisits {
    ghost use Rattle.std.specs.Prelude.{List};
    ghost use Rattle.std.specs.List.Sorted.{IsNonDecreasingBy};
    ghost use Rattle.pl_stored.specs.declared.stored.StoredVisit.{StoredVisit};

    ghost Value = { List StoredVisit };

    ghost view = { λ v. v.visits.items };

    ghost invariant = { λ v. IsNonDecreasingBy (λ (w : StoredVisit). w.page.0) v.visits.items };
}

impl PageVisits {
    pub fn of(alloc: Global, visits: &[StoredVisit]) -> Result<PageVisits, NoMemory>
        requires { IsStrictlyIncreasing (stored_visit_ids visits.now) }
        ensures { IfOk result (AreByPage visits.now) }
    {
        let mut visits = Vec::from_slice(alloc, visits)?;
        visits.sort_unstable_by(|a, b| latest_first(a, b));
        visits.sort_by_key(|visit: &StoredVisit| visit.page.0)?;
        Ok(PageVisits { visits })
    }

    /// Those of a page, the latest first.
    pub fn of_page(&self, page: PageId) -> &[StoredVisit]
        ensures { result.now ≡ filter (λ v. v.page.0 == page.0) self.now }
    {
        let visits = self.visits.as_slice();
        let start = visits.partition_point(|visit| visit.page.0 < page.0);
        let rest = &visits[start..];
        let count = rest.partition_point(|visit| visit.page.0 <= page.0);
        &rest[..count]
    }
}

// By date and id, the greater first.
fn latest_first(a: &StoredVisit, b: &StoredVisit) -> Ordering
    ensures { is_lt result ≡ is_later (visit_of a.now) (visit_of b.now) }
{
    b.date.cmp(&a.date).then(b.id.cmp(&a.id))
}
