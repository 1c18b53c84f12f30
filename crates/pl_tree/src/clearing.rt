// All bookmarks, folders, separators and tags go.
ghost use Rattle.std.specs.Prelude.{◌≡◌, ◌==◌, ℕ, List, map};
ghost use Rattle.std.specs.Prelude.{IfOk, OnOk};
ghost use Rattle.std.specs.List.{list_any};
ghost use Rattle.std.specs.List.Sorted.{IsStrictlyIncreasing};
ghost use Rattle.pl_base.specs.declared.id.PageId.{PageId};
ghost use Rattle.pl_base.specs.Good.{HasGoodItems, IsGood};
ghost use Rattle.pl_base.specs.Marks.{is_referenced};
ghost use Rattle.pl_base.specs.Rows.{store_of, with_items};
ghost use Rattle.pl_base.specs.Store.{roots};

use crate::removal::{put_in_order, remove_leaf};
use pl_base::{ItemId, NoMemory, PageId, Rows, Steps};
use std::alloc::Global;
use std::sync::ledger::Ledger;

/// All items below items 2 to 6 go: every bookmark, folder, separator and tag. The answer is the
/// pages that lost an item, by ascending id.
pub fn clear<R: Rows, L: Ledger>(
    alloc: Global,
    rows: &mut R,
    steps: &mut Steps<L>,
) -> Result<Vec<PageId>, NoMemory>
    requires good { IsGood (store_of (R.kept rows.old)) }
    ensures kept { OnOk result (R.kept rows.new ≡ with_items roots (R.kept rows.old)) }
    ensures ascending { IfOk result (λ pages. IsStrictlyIncreasing
        (map (λ (page : PageId). page.0) pages.items)) }
    ensures pages { IfOk result (λ pages. (page : PageId)
        → list_any (λ (lost : PageId). lost.0 == page.0) pages.items
        ≡ is_referenced (store_of (R.kept rows.old)) page) }
    ensures good { OnOk result (HasGoodItems (store_of (R.kept rows.new))) }
    ensures base { OnOk result ((bytes : List ℕ) → R.base rows.old bytes → R.base rows.new bytes) }
{
    let mut pages = Vec::new(alloc);
    let mut folder = 2;
    let mut at = ItemId(folder);
    loop {
        if let Some(child) = rows.first_child(at, steps) {
            at = child;
            continue;
        }
        if at != ItemId(folder) {
            at = remove_leaf(rows, at, &mut pages, steps)?.unwrap();
            continue;
        }
        if folder == 6 {
            break;
        }
        folder += 1;
        at = ItemId(folder);
    }
    put_in_order(&mut pages);
    Ok(pages)
}
