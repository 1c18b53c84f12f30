ghost use Rattle.std.specs.Prelude.{◌≡◌, ◌==◌, List, IfOk};
ghost use Rattle.std.specs.List.{list_any};
ghost use Rattle.pl_base.specs.Marks as marks;
ghost use Rattle.pl_check.specs.Rows.{is_typed_visit};
ghost use Rattle.pl_check.specs.Visited.{AreVisited, typed_pages, visited_pages};
ghost use Rattle.pl_stored.specs.declared.stored.StoredVisit.{StoredVisit};

use crate::numbers::Numbers;
use pl_base::{NoMemory, PageId, Transition};
use pl_stored::StoredVisit;
use std::alloc::Global;

/// The pages that visits have, and those that visits have whose address was typed.
#[derive(Debug, Drop)]
pub struct Visited {
    pages: Numbers,
    typed: Numbers,
}

impl Visited {
    pub fn of(alloc: Global, visits: &[StoredVisit]) -> Result<Visited, NoMemory>
        ensures { IfOk result (λ pages. AreVisited visits.now pages) }
    {
        Ok(Visited {
            pages: Numbers::of(visited_pages(alloc, visits)?),
            typed: Numbers::of(typed_pages(alloc, visits)?),
        })
    }

    /// Whether one of the visits has the page.
    pub fn has(&self, page: PageId) -> bool
        ensures { (visits : List StoredVisit) → AreVisited visits self.now
            → result ≡ list_any (λ v. v.page.0 == page.0) visits }
    {
        self.pages.has(page.0)
    }

    /// Whether one of the typed visits has the page.
    pub fn has_typed(&self, page: PageId) -> bool
        ensures { (visits : List StoredVisit) → AreVisited visits self.now
            → result ≡ list_any (is_typed_visit page) visits }
    {
        self.typed.has(page.0)
    }
}

fn visited_pages(alloc: Global, visits: &[StoredVisit]) -> Result<Vec<u32>, NoMemory>
    ensures { IfOk result (λ pages. pages.items ≡ visited_pages visits.now) }
{
    let pages = visits.iter().map(|visit| visit.page.0);
    Ok(pages.collect(alloc)?)
}

fn typed_pages(alloc: Global, visits: &[StoredVisit]) -> Result<Vec<u32>, NoMemory>
    ensures { IfOk result (λ pages. pages.items ≡ typed_pages visits.now) }
{
    let typed = visits.iter().filter(|visit| is_typed(visit.transition));
    Ok(typed.map(|visit| visit.page.0).collect(alloc)?)
}

fn is_typed(transition: Transition) -> bool
    ensures { result ≡ marks.is_typed transition }
{
    matches!(transition, Transition::Typed)
}
