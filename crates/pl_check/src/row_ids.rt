// The ids of a file's pages and visits.
ghost use Rattle.std.specs.Prelude.{◌≡◌, ◌==◌, List, IfOk};
ghost use Rattle.std.specs.List.{list_any};
ghost use Rattle.pl_check.specs.RowIds.{AreRowIds};
ghost use Rattle.pl_check.specs.Rows.{stored_page_ids, stored_visit_ids};
ghost use Rattle.pl_stored.specs.declared.stored.StoredPage.{StoredPage as Page};
ghost use Rattle.pl_stored.specs.declared.stored.StoredVisit.{StoredVisit as Visit};

use crate::numbers::Numbers;
use pl_base::{NoMemory, PageId, VisitId};
use pl_stored::{StoredPage, StoredVisit};
use std::alloc::Global;

/// The ids that pages and visits have, apart from the rows, so that a search reads few bytes.
#[derive(Debug, Drop)]
pub struct RowIds {
    pages: Numbers,
    visits: Numbers,
}

impl RowIds {
    pub fn of(
        alloc: Global,
        pages: &[StoredPage],
        visits: &[StoredVisit],
    ) -> Result<RowIds, NoMemory>
        ensures { IfOk result (AreRowIds pages.now visits.now) }
    {
        Ok(RowIds {
            pages: Numbers::of(page_ids(alloc, pages)?),
            visits: Numbers::of(visit_ids(alloc, visits)?),
        })
    }

    /// Whether one of the pages has the id.
    pub fn has_page(&self, id: PageId) -> bool
        ensures { (pages : List Page) (visits : List Visit) → AreRowIds pages visits self.now
            → result ≡ list_any (λ p. p.id.0 == id.0) pages }
    {
        self.pages.has(id.0)
    }

    /// Whether one of the visits has the id.
    pub fn has_visit(&self, id: VisitId) -> bool
        ensures { (pages : List Page) (visits : List Visit) → AreRowIds pages visits self.now
            → result ≡ list_any (λ v. v.id.0 == id.0) visits }
    {
        self.visits.has(id.0)
    }
}

fn page_ids(alloc: Global, pages: &[StoredPage]) -> Result<Vec<u32>, NoMemory>
    ensures { IfOk result (λ ids. ids.items ≡ stored_page_ids pages.now) }
{
    Ok(pages.iter().map(|page| page.id.0).collect(alloc)?)
}

fn visit_ids(alloc: Global, visits: &[StoredVisit]) -> Result<Vec<u32>, NoMemory>
    ensures { IfOk result (λ ids. ids.items ≡ stored_visit_ids visits.now) }
{
    Ok(visits.iter().map(|visit| visit.id.0).collect(alloc)?)
}
