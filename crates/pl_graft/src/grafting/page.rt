// The pages of an import: each is found, or made.
ghost use Rattle.std.specs.Prelude.{◌≡◌, ℕ, true, List, None, IfOk, IfSome, OnOk};
ghost use Rattle.pl_base.specs.Rows.{IsOriginOf, has_page, store_of};
ghost use Rattle.pl_base.specs.Visiting.{find_page, page_for, with_page_for};
ghost use Rattle.pl_keyed.specs.KnownPages.{IsOriginPage, page_id};
ghost use Rattle.pl_graft.specs.Gained.{Grows};
ghost use Rattle.pl_graft.specs.Standing.{GoesOn, HasRoom, IsStanding};

use super::Grafting;
use pl_base::{NoMemory, PageId, Rows, Slot, Steps};
use pl_keyed::Entered;
use pl_link::Canon;
use std::sync::ledger::Ledger;

impl Grafting {
    // The page of a URL, a new one where there is none yet.
    pub(super) fn page_of<R: Rows, L: Ledger>(
        &mut self,
        rows: &mut R,
        url: &Canon,
        steps: &mut Steps<L>,
    ) -> Result<PageId, NoMemory>
        requires standing { IsStanding (store_of (R.kept rows.old)) self.old }
        requires room { HasRoom (with_page_for (store_of (R.kept rows.old)) url.now) }
        ensures page { IfOk result (λ page.
            page ≡ (page_for (store_of (R.kept rows.old)) url.now).id) }
        ensures store { OnOk result (store_of (R.kept rows.new)
            ≡ with_page_for (store_of (R.kept rows.old)) url.now) }
        ensures standing { OnOk result (IsStanding (store_of (R.kept rows.new)) self.new) }
        ensures goes_on { OnOk result
            (GoesOn (R.kept rows.old) (R.kept rows.new) self.old self.new) }
        ensures base { OnOk result
            ((bytes : List ℕ) → R.base rows.old bytes → R.base rows.new bytes) }
    {
        let ids = rows.ids(steps);
        let entered = self.pages.enter(self.alloc, url, u64::from(ids.page))?;
        match entered {
            Entered::Found(page) => Ok(PageId(page as u32)),
            Entered::Added(other) => new_page(rows, url, other, steps),
        }
    }
}

// A new page with a URL that no page has; the other one, if there is one, has its origin.
fn new_page<R: Rows, L: Ledger>(
    rows: &mut R,
    url: &Canon,
    other: Option<u64>,
    steps: &mut Steps<L>,
) -> Result<PageId, NoMemory>
    requires absent { find_page url.now (store_of (R.kept rows.old)).pages ≡ None }
    requires other { IsOriginPage (store_of (R.kept rows.old)).pages url.now other }
    requires room { HasRoom (with_page_for (store_of (R.kept rows.old)) url.now) }
    ensures page { IfOk result (λ page.
        page ≡ (page_for (store_of (R.kept rows.old)) url.now).id) }
    ensures store { OnOk result (store_of (R.kept rows.new)
        ≡ with_page_for (store_of (R.kept rows.old)) url.now) }
    ensures grows { OnOk result (Grows (R.kept rows.old) (R.kept rows.new)) }
    ensures base { OnOk result
        ((bytes : List ℕ) → R.base rows.old bytes → R.base rows.new bytes) }
{
    let origin = origin_of_page(rows, other, steps);
    let page = rows.insert_page(url.text(), origin, steps)?;
    Ok(page)
}

// The origin of a page, if there is one.
fn origin_of_page<R: Rows, L: Ledger>(
    rows: &R,
    page: Option<u64>,
    steps: &mut Steps<L>,
) -> Option<Slot>
    requires { IfSome page (λ id. has_page (R.kept rows.now) (page_id id) ≡ true) }
    ensures { (url : List ℕ) → IsOriginPage (store_of (R.kept rows.now)).pages url page
        → IsOriginOf (R.kept rows.now) url result }
{
    match page {
        Some(page) => Some(rows.origin_of(PageId(page as u32), steps)),
        None => None,
    }
}
