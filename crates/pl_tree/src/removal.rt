// An item that goes, with all below it.
ghost use Rattle.std.specs.Prelude.{◌≡◌, ◌==◌, ◌||◌, ℕ, List, [], Err, None, Some, true, map};
ghost use Rattle.std.specs.Prelude.{IfOk, OnOk};
ghost use Rattle.std.specs.List.{list_any};
ghost use Rattle.std.specs.List.Sorted.{IsStrictlyIncreasing};
ghost use Rattle.pl_base.specs.declared.id.PageId.{PageId};
ghost use Rattle.pl_base.specs.Good.{HasGoodItems};
ghost use Rattle.pl_base.specs.Rows.{store_of, with_items};
ghost use Rattle.pl_base.specs.Tree.{children_of, has_item, parent_of, removed};
ghost use Rattle.pl_tree.specs.Changes.{loses_item, with_removed};
ghost use Rattle.pl_tree.specs.LostPages.{has_lost, has_page_of};
ghost use Rattle.pl_tree.specs.Refused as refused;

use crate::refusals::may_change;
use crate::{TreeChange, TreeError};
use pl_base::{ItemId, NoMemory, PageId, Refusal, Rows, Steps};
use std::alloc::Global;
use std::sync::ledger::Ledger;

// The pages by ascending id, each once.
pub(crate) fn put_in_order(pages: &mut Vec<PageId>)
    ensures ascending { IsStrictlyIncreasing (map (λ (page : PageId). page.0) pages.new.items) }
    ensures same { (page : PageId)
        → has_lost page pages.new.items ≡ has_lost page pages.old.items }
{
    pages.sort_unstable();
    pages.dedup();
}

// An item without children goes, and its page, if it has one, joins the others. The answer is the
// item whose child it was.
pub(crate) fn remove_leaf<R: Rows, L: Ledger>(
    rows: &mut R,
    leaf: ItemId,
    pages: &mut Vec<PageId>,
    steps: &mut Steps<L>,
) -> Result<Option<ItemId>, NoMemory>
    requires there { has_item (R.kept rows.old).items leaf ≡ true }
    requires leaf { children_of (R.kept rows.old).items leaf ≡ [] }
    ensures parent { IfOk result (λ parent. parent ≡ parent_of (R.kept rows.old).items leaf) }
    ensures kept { OnOk result (R.kept rows.new
        ≡ with_items (removed leaf (R.kept rows.old).items) (R.kept rows.old)) }
    ensures pages { OnOk result ((page : PageId) → has_lost page pages.new.items
        ≡ (has_lost page pages.old.items || has_page_of (R.kept rows.old).items leaf page)) }
    ensures base { OnOk result ((bytes : List ℕ) → R.base rows.old bytes → R.base rows.new bytes) }
{
    let row = rows.item_at(leaf, steps).unwrap();
    if let Some(page) = row.page {
        pages.push(page)?;
    }
    rows.remove_item(leaf, steps);
    Ok(row.parent)
}

/// The item goes, with all below it. The answer is the pages that lost an item, by ascending id.
///
/// Refused is an item that is not there or stays as it is.
pub fn remove<R: Rows, L: Ledger>(
    alloc: Global,
    rows: &mut R,
    item: ItemId,
    steps: &mut Steps<L>,
) -> Result<Vec<PageId>, TreeError>
    requires good { HasGoodItems (store_of (R.kept rows.old)) }
    ensures allowed { IfOk result (λ pages. refused.refusal (R.kept rows.old).items
        (TreeChange.Remove item) ≡ None) }
    ensures kept { OnOk result (R.kept rows.new
        ≡ with_items (with_removed item (R.kept rows.old).items) (R.kept rows.old)) }
    ensures ascending { IfOk result (λ pages. IsStrictlyIncreasing
        (map (λ (page : PageId). page.0) pages.items)) }
    ensures pages { IfOk result (λ pages. (page : PageId)
        → list_any (λ (lost : PageId). lost.0 == page.0) pages.items
        ≡ loses_item (R.kept rows.old).items item page) }
    ensures refused { (refusal : Refusal) → result ≡ Err (TreeError.Refused refusal)
        → (refused.refusal (R.kept rows.old).items (TreeChange.Remove item) ≡ Some refusal)
        × (rows.new ≡ rows.old) }
    ensures no_memory { result ≡ Err TreeError.NoMemory
        → refused.refusal (R.kept rows.old).items (TreeChange.Remove item) ≡ None }
    ensures good { OnOk result (HasGoodItems (store_of (R.kept rows.new))) }
    ensures base { OnOk result ((bytes : List ℕ) → R.base rows.old bytes → R.base rows.new bytes) }
{
    may_change(rows, item, steps)?;
    let mut pages = Vec::new(alloc);
    let mut at = item;
    loop {
        if let Some(child) = rows.first_child(at, steps) {
            at = child;
            continue;
        }
        let parent = remove_leaf(rows, at, &mut pages, steps)?;
        if at == item {
            break;
        }
        at = parent.unwrap();
    }
    put_in_order(&mut pages);
    Ok(pages)
}
