// The pages that lost their items while a tree is to come: one without a visit that the tree names
// waits for the items that it gets again, and each other is settled.
ghost use Rattle.std.specs.Prelude.{◌≡◌, ◌∷◌, true, Some, ℕ, List, [], IfOk, OnOk};
ghost use Rattle.pl_base.specs.declared.id.PageId.{PageId};
ghost use Rattle.pl_base.specs.Rows.{HaveSums, IsWellKept, KeptPage, has_page, page_at, store_of};
ghost use Rattle.pl_nbread.specs.declared.tree.Tree.{Tree};
ghost use Rattle.pl_marks.specs.Refreshed.{HaveCounts};
ghost use Rattle.pl_history.specs.Addresses.{HaveAddresses};
ghost use Rattle.pl_history.specs.Settled.{AreSettledBut};
ghost use Rattle.pl_graft.specs.Spared.{spared};
ghost use Rattle.pl_editing.specs.Waiting as spec;
ghost use Rattle.pl_editing.specs.Waiting.{AreSettledOrWait, AreUrlsOf};

use pl_base::{NoMemory, PageId, Rows, Steps, View};
use pl_history::settle_page;
use pl_keyed::Named;
use pl_nbread::Tree;
use std::alloc::Global;
use std::sync::ledger::Ledger;

// Whether the page has no visit, and its URL is among these.
fn waits<R: Rows, L: Ledger>(
    alloc: Global,
    rows: &R,
    page: PageId,
    named: &Named,
    steps: &mut Steps<L>,
) -> Result<bool, NoMemory>
    requires page { has_page (R.kept rows.now) page ≡ true }
    ensures waits { IfOk result (λ waits. (p : KeptPage) → page_at (R.kept rows.now) page ≡ Some p
        → waits ≡ spec.waits named.now (store_of (R.kept rows.now)) p.page) }
{
    if rows.latest(page, steps).is_some() {
        return Ok(false);
    }
    let url = rows.url(page, steps)?;
    named.has(alloc, url.as_str())
}

// The page is settled, unless it waits for the tree.
fn settle_unless_it_waits<R: Rows, L: Ledger>(
    alloc: Global,
    rows: &mut R,
    views: &[View],
    page: PageId,
    named: &Named,
    steps: &mut Steps<L>,
) -> Result<(), NoMemory>
    requires page { has_page (R.kept rows.old) page ≡ true }
    requires counts { HaveCounts (R.kept rows.old) }
    requires sums { HaveSums (R.kept rows.old) }
    requires views { HaveAddresses views.now (R.kept rows.old) }
    ensures store { OnOk result ((tree : Tree) → AreUrlsOf tree named.now
        → spared tree (store_of (R.kept rows.new)) ≡ spared tree (store_of (R.kept rows.old))) }
    ensures settled { OnOk result ((tree : Tree) (rest : List PageId) → AreUrlsOf tree named.now
        → AreSettledOrWait tree (page ∷ rest) (R.kept rows.old)
        → AreSettledOrWait tree rest (R.kept rows.new)) }
    ensures views { OnOk result (HaveAddresses views.now (R.kept rows.new)) }
    ensures base { OnOk result ((bytes : List ℕ) → R.base rows.old bytes → R.base rows.new bytes) }
{
    let is_waiting = waits(alloc, rows, page, named, steps)?;
    if is_waiting {
        return Ok(());
    }
    settle_page(alloc, rows, views, page, steps)?;
    Ok(())
}

/// Of the pages, which lost their items, those are settled that have a visit or that the tree does
/// not name; of these the ones without a visit go.
pub fn settle_spared<R: Rows, L: Ledger>(
    alloc: Global,
    rows: &mut R,
    views: &[View],
    pages: &[PageId],
    tree: &Tree,
    steps: &mut Steps<L>,
) -> Result<(), NoMemory>
    requires settled { AreSettledBut pages.now (R.kept rows.old) }
    requires views { HaveAddresses views.now (R.kept rows.old) }
    ensures store { OnOk result (store_of (R.kept rows.new)
        ≡ spared tree.now (store_of (R.kept rows.old))) }
    ensures settled { OnOk result (AreSettledOrWait tree.now [] (R.kept rows.new)) }
    ensures base { OnOk result ((bytes : List ℕ) → R.base rows.old bytes → R.base rows.new bytes) }
{
    let named = Named::of(alloc, tree)?;
    for page in pages {
        settle_unless_it_waits(alloc, rows, views, *page, &named, steps)?;
    }
    Ok(())
}
