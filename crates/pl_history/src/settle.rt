// Pages that lost a visit or an item: one that nothing keeps goes, any other is computed afresh.
ghost use Rattle.std.specs.Prelude.{◌≡◌, ◌+◌, ◌∷◌, true, false, ℕ, List, length, IfOk, OnOk};
ghost use Rattle.std.specs.Prelude.{if◌then◌else◌};
ghost use Rattle.pl_base.specs.declared.id.PageId.{PageId};
ghost use Rattle.pl_base.specs.Removal as spec;
ghost use Rattle.pl_base.specs.Rows.{HaveSums, IsSound, has_page, store_of};
ghost use Rattle.pl_marks.specs.Refreshed.{HaveCounts};
ghost use Rattle.pl_history.specs.Addresses.{HaveAddresses};
ghost use Rattle.pl_history.specs.Settled.{AreSettledBut, Drops};

use crate::find::is_place;
use pl_base::{Mark, NoMemory, PageId, Rows, Steps, View};
use pl_marks::{keep_mark, refresh};
use std::alloc::Global;
use std::sync::ledger::Ledger;

// Whether the page has a visit or an item.
fn is_standing<R: Rows, L: Ledger>(rows: &R, page: PageId, steps: &mut Steps<L>) -> bool
    ensures { result ≡ spec.is_standing (store_of (R.kept rows.now)) page }
{
    rows.latest(page, steps).is_some() || rows.first_reference(page, steps).is_some()
}

// A page that has neither a visit nor an item goes, once its origin's total has no share of it.
fn drop_page<R: Rows, L: Ledger>(rows: &mut R, page: PageId, steps: &mut Steps<L>)
    requires page { has_page (R.kept rows.old) page ≡ true }
    requires idle { spec.is_standing (store_of (R.kept rows.old)) page ≡ false }
    requires sums { HaveSums (R.kept rows.old) }
    ensures dropped { Drops page (R.kept rows.old) (R.kept rows.new) }
    ensures sums { HaveSums (R.kept rows.new) }
    ensures base { (bytes : List ℕ) → R.base rows.old bytes → R.base rows.new bytes }
{
    let none = Mark {
        frecency: 0,
        count: 0,
        typed: false,
        hidden: false,
    };
    keep_mark(rows, page, none, steps);
    rows.remove_page(page, steps);
}

/// A page that has neither a visit nor an item goes, and the answer is whether it does. What is
/// computed of any other is computed afresh.
pub fn settle_page<R: Rows, L: Ledger>(
    alloc: Global,
    rows: &mut R,
    views: &[View],
    page: PageId,
    steps: &mut Steps<L>,
) -> Result<bool, NoMemory>
    requires page { has_page (R.kept rows.old) page ≡ true }
    requires counts { HaveCounts (R.kept rows.old) }
    requires sums { HaveSums (R.kept rows.old) }
    requires views { HaveAddresses views.now (R.kept rows.old) }
    ensures store { OnOk result (spec.without_idle_pages (store_of (R.kept rows.new))
        ≡ spec.without_idle_pages (store_of (R.kept rows.old))) }
    ensures stays { OnOk result (spec.is_standing (store_of (R.kept rows.old)) page ≡ true
        → store_of (R.kept rows.new) ≡ store_of (R.kept rows.old)) }
    ensures goes { OnOk result (spec.is_standing (store_of (R.kept rows.old)) page ≡ false
        → Drops page (R.kept rows.old) (R.kept rows.new)) }
    ensures went { IfOk result (λ went. length (R.kept rows.old).pages
        ≡ length (R.kept rows.new).pages + (if went then 1 else 0)) }
    ensures settled { OnOk result ((rest : List PageId)
        → AreSettledBut (page ∷ rest) (R.kept rows.old) → AreSettledBut rest (R.kept rows.new)) }
    ensures views { OnOk result (HaveAddresses views.now (R.kept rows.new)) }
    ensures base { OnOk result ((bytes : List ℕ) → R.base rows.old bytes → R.base rows.new bytes) }
{
    if !is_standing(rows, page, steps) {
        drop_page(rows, page, steps);
        return Ok(true);
    }
    let mark = rows.page_at(page, steps).unwrap();
    let is_place = is_place(alloc, rows, views, page, steps)?;
    refresh(alloc, rows, page, mark, is_place, steps)?;
    Ok(false)
}

/// Each of the pages, which lost a visit or an item, is settled. The answer is how many went.
pub fn settle_all<R: Rows, L: Ledger>(
    alloc: Global,
    rows: &mut R,
    views: &[View],
    pages: &[PageId],
    steps: &mut Steps<L>,
) -> Result<u32, NoMemory>
    requires settled { AreSettledBut pages.now (R.kept rows.old) }
    requires views { HaveAddresses views.now (R.kept rows.old) }
    ensures store { OnOk result (store_of (R.kept rows.new)
        ≡ spec.without_idle_pages (store_of (R.kept rows.old))) }
    ensures went { IfOk result (λ went. length (R.kept rows.old).pages
        ≡ length (R.kept rows.new).pages + went) }
    ensures base { OnOk result ((bytes : List ℕ) → R.base rows.old bytes → R.base rows.new bytes) }
    ensures sound { OnOk result (IsSound (R.kept rows.new)) }
{
    let mut went = 0;
    for page in pages {
        went += u32::from(settle_page(alloc, rows, views, *page, steps)?);
    }
    Ok(went)
}
