// What is computed of the pages that got an item by an import.
ghost use Rattle.std.specs.Prelude.{◌≡◌, ◌≤◌, ◌++◌, ℕ, List, OnOk};
ghost use Rattle.std.specs.List.{All};
ghost use Rattle.std.specs.List.Sorted.{IsNonDecreasingBy};
ghost use Rattle.pl_base.specs.declared.id.PageId.{PageId};
ghost use Rattle.pl_base.specs.Removal.{without_idle_pages};
ghost use Rattle.pl_base.specs.Rows.{HaveSums, IsSound, store_of};
ghost use Rattle.pl_history.specs.Addresses.{HaveAddresses};
ghost use Rattle.pl_history.specs.Settled.{AreSettledBut};
ghost use Rattle.pl_editing.specs.NewPage as spec;
ghost use Rattle.pl_editing.specs.NewPage.{IsNew};

use pl_base::{Day, Mark, NoMemory, PageId, Rows, Steps, View};
use pl_history::{is_place, settle_all};
use pl_marks::keep_mark;
use pl_score::score;
use std::alloc::Global;
use std::sync::ledger::Ledger;

// The mark of a new page with an item.
fn new_mark(is_place: bool) -> Mark
    ensures { result ≡ spec.new_mark is_place }
{
    Mark {
        // Without visits it is the same on each day.
        frecency: score(&[], Day(0), 0, true, false, is_place),
        count: 0,
        typed: false,
        hidden: is_place,
    }
}

// New pages with items get their marks. No visit and no item is asked for.
fn mark_new<R: Rows, L: Ledger>(
    alloc: Global,
    rows: &mut R,
    views: &[View],
    pages: &[PageId],
    steps: &mut Steps<L>,
) -> Result<(), NoMemory>
    requires made { All (IsNew (store_of (R.kept rows.old))) pages.now }
    requires sums { HaveSums (R.kept rows.old) }
    requires views { HaveAddresses views.now (R.kept rows.old) }
    ensures store { OnOk result (store_of (R.kept rows.new) ≡ store_of (R.kept rows.old)) }
    ensures settled { OnOk result ((rest : List PageId) → AreSettledBut (pages.now ++ rest)
        (R.kept rows.old) → AreSettledBut rest (R.kept rows.new)) }
    ensures base { OnOk result ((bytes : List ℕ) → R.base rows.old bytes → R.base rows.new bytes) }
{
    for page in pages {
        let is_place = is_place(alloc, rows, views, *page, steps)?;
        keep_mark(rows, *page, new_mark(is_place), steps);
    }
    Ok(())
}

/// The pages, which got an item, are settled. Those from this id on are new.
pub fn settle_gained<R: Rows, L: Ledger>(
    alloc: Global,
    rows: &mut R,
    views: &[View],
    pages: &[PageId],
    first: u32,
    steps: &mut Steps<L>,
) -> Result<(), NoMemory>
    requires ascending { IsNonDecreasingBy (λ (page : PageId). page.0) pages.now }
    requires made { All (λ (page : PageId). first ≤ page.0
        → IsNew (store_of (R.kept rows.old)) page) pages.now }
    requires settled { AreSettledBut pages.now (R.kept rows.old) }
    requires views { HaveAddresses views.now (R.kept rows.old) }
    ensures store { OnOk result (store_of (R.kept rows.new)
        ≡ without_idle_pages (store_of (R.kept rows.old))) }
    ensures base { OnOk result ((bytes : List ℕ) → R.base rows.old bytes → R.base rows.new bytes) }
    ensures sound { OnOk result (IsSound (R.kept rows.new)) }
{
    let (known, made) = pages.split_at(pages.partition_point(|page| page.0 < first));
    mark_new(alloc, rows, views, made, steps)?;
    settle_all(alloc, rows, views, known, steps)?;
    Ok(())
}
