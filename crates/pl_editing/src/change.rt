// An item that goes to another place, or has another title.
ghost use Rattle.std.specs.Prelude.{◌≡◌, ◌≤◌, ℕ, length, None, true, IfOk, IsErrOf};
ghost use Rattle.std.specs.Option.{option_to_list};
ghost use Rattle.pl_base.specs.Date.{IsDate};
ghost use Rattle.pl_base.specs.Good.{longest_title};
ghost use Rattle.pl_base.specs.Live.{slot_limit};
ghost use Rattle.pl_base.specs.Rows.{IsSound, live_with_item_title, store_of};
ghost use Rattle.pl_base.specs.Tree.{has_item};
ghost use Rattle.pl_changes.specs.CameFrom.{CameByItems};
ghost use Rattle.pl_done.specs.Performed.{Performs};
ghost use Rattle.pl_editing.specs.OwnPage.{own_page};
ghost use Rattle.pl_known.specs.Changes.{LeadTo};
ghost use Rattle.pl_known.specs.Known.{Knows};
ghost use Rattle.pl_step.specs.Step as spec;
ghost use Rattle.pl_tree.specs.Refused as tree;

use pl_base::{
    Change, ItemId, Micros, NoMemory, PageId, Refusal, Rows, Steps, Txt, chunks, cut_title,
};
use pl_changes::item_changes;
use pl_done::{Done, is_full};
use pl_known::Known;
use pl_step::{Command, Reply, StepError};
use pl_tree::{Place, TreeChange};
use std::alloc::Global;
use std::sync::ledger::Ledger;

// The page of the item.
fn page_of<R: Rows, L: Ledger>(rows: &R, item: ItemId, steps: &mut Steps<L>) -> Option<PageId>
    ensures { result ≡ own_page (R.kept rows.now).items item }
{
    rows.item_at(item, steps)?.page
}

// The same as a list, which is empty where the item has no page.
fn own_pages<R: Rows, L: Ledger>(
    alloc: Global,
    rows: &R,
    item: ItemId,
    steps: &mut Steps<L>,
) -> Result<Vec<PageId>, NoMemory>
    ensures { IfOk result (λ pages. pages.items
        ≡ option_to_list (own_page (R.kept rows.now).items item)) }
{
    let mut pages = Vec::new(alloc);
    if let Some(page) = page_of(rows, item, steps) {
        pages.push(page)?;
    }
    Ok(pages)
}

// What becomes of the view of that page, once the item changed.
fn own_changes<R: Rows, L: Ledger>(
    alloc: Global,
    rows: &R,
    known: &Known,
    item: ItemId,
    steps: &mut Steps<L>,
) -> Result<Vec<Change>, NoMemory>
    requires sound { IsSound (R.kept rows.now) }
    requires came { CameByItems (option_to_list (own_page (R.kept rows.now).items item)) known.now
        (store_of (R.kept rows.now)) }
    ensures { IfOk result (λ changes. LeadTo (store_of (R.kept rows.now))
        known.now.views.items changes.items) }
{
    let pages = own_pages(alloc, rows, item, steps)?;
    item_changes(alloc, rows, known, &pages, steps)
}

/// The item goes to a place among the children of a folder. The rows take no memory for it.
pub fn move_item<R: Rows, L: Ledger>(
    alloc: Global,
    rows: &mut R,
    known: &Known,
    item: ItemId,
    parent: ItemId,
    place: Place,
    date: Micros,
    steps: &mut Steps<L>,
) -> Result<Done, StepError>
    requires date { IsDate date }
    requires sound { IsSound (R.kept rows.old) }
    requires knows { Knows (store_of (R.kept rows.old)) known.now }
    ensures performs { (limit : ℕ) → Performs R.kept R.base
        (spec.perform limit (store_of (R.kept rows.old)) (Command.Move item parent place date))
        rows.old rows.new known.now result }

    // A move that is refused wants no memory.
    ensures no_memory { IsErrOf result StepError.NoMemory
        → tree.refusal (R.kept rows.old).items (TreeChange.Move item parent place) ≡ None }
{
    pl_tree::move_to(rows, item, parent, place, date, steps)?;
    let changes = own_changes(alloc, rows, known, item, steps)?;
    Ok(Done {
        reply: Reply::Done,
        changes,
    })
}

// How many slots the store takes once the item has the title.
fn slots_after<R: Rows, L: Ledger>(
    rows: &R,
    item: ItemId,
    title: &str,
    steps: &mut Steps<L>,
) -> Result<u64, NoMemory>
    requires item { has_item (R.kept rows.now).items item ≡ true }
    requires title { length title.now ≤ longest_title }
    ensures { IfOk result (λ slots. (date : Micros) → slots
        ≡ live_with_item_title item title.now date (R.kept rows.now)) }
{
    let old = rows.item_title(item, steps)?;
    Ok(rows.live(steps) - chunks(old.as_str()) + chunks(title))
}

/// A title for an item, on rows that may take so many slots.
pub fn retitle<R: Rows, L: Ledger>(
    alloc: Global,
    rows: &mut R,
    known: &Known,
    limit: u32,
    item: ItemId,
    title: &Txt,
    date: Micros,
    steps: &mut Steps<L>,
) -> Result<Done, StepError>
    requires date { IsDate date }
    requires sound { IsSound (R.kept rows.old) }
    requires most { limit ≤ slot_limit }
    requires knows { Knows (store_of (R.kept rows.old)) known.now }
    ensures performs { Performs R.kept R.base
        (spec.perform limit (store_of (R.kept rows.old)) (Command.Retitle item title.now date))
        rows.old rows.new known.now result }

    // A title that is refused for its item wants no memory.
    ensures no_memory { IsErrOf result StepError.NoMemory
        → tree.refusal (R.kept rows.old).items (TreeChange.Retitle item) ≡ None }
{
    let change = TreeChange::Retitle { item };
    if let Some(refusal) = pl_tree::refused(rows, &change, steps) {
        return Err(StepError::Refused(refusal));
    }
    let text = cut_title(title.as_str());
    let slots = slots_after(rows, item, text, steps)?;
    if is_full(limit, rows.live(steps), slots) {
        return Err(StepError::Refused(Refusal::Full(slots)));
    }
    pl_tree::retitle(rows, item, text, date, steps)?;
    let changes = own_changes(alloc, rows, known, item, steps)?;
    Ok(Done {
        reply: Reply::Done,
        changes,
    })
}
