// A tree in place of all bookmarks and tags.
ghost use Rattle.std.specs.Prelude.{◌≡◌, ◌≤◌, ◌++◌, ◌==◌, IfOk, None, OnOk, map};
ghost use Rattle.std.specs.List.{list_any};
ghost use Rattle.std.specs.List.Sorted.{IsStrictlyIncreasing};
ghost use Rattle.pl_base.specs.declared.id.PageId.{PageId};
ghost use Rattle.pl_base.specs.Live.{slot_limit};
ghost use Rattle.pl_base.specs.Rows.{IsSound, store_of};
ghost use Rattle.pl_graft.specs.Import.{imported};
ghost use Rattle.pl_graft.specs.Restored.{emptied, restored};
ghost use Rattle.pl_graft.specs.Spared.{spared};
ghost use Rattle.pl_nbread.specs.WellFormed.{AreWellFormed};
ghost use Rattle.pl_known.specs.Known.{Knows};
ghost use Rattle.pl_step.specs.Step as spec;
ghost use Rattle.pl_done.specs.Performed.{Performs};

use crate::awaiting::settle_spared;
use crate::gained::settle_gained;
use crate::imports::room_refusal;
use pl_base::{NoMemory, PageId, Refusal, Rows, Steps};
use pl_changes::item_changes;
use pl_done::Done;
use pl_graft::{MOST_ROWS, graft, needed_anew, row_count};
use pl_history::put_in_order;
use pl_known::Known;
use pl_nbread::Tree;
use pl_step::{Command, Reply, StepError};
use pl_tree::clear;
use std::alloc::Global;
use std::sync::ledger::Ledger;

// Why a tree may not take the place of all bookmarks and tags. All of it is asked for before
// anything changes.
fn refusal<R: Rows, L: Ledger>(
    alloc: Global,
    rows: &R,
    limit: u32,
    tree: &Tree,
    steps: &mut Steps<L>,
) -> Result<Option<Refusal>, NoMemory>
    requires formed { AreWellFormed tree.now }
    requires sound { IsSound (R.kept rows.now) }
    ensures refusal { IfOk result (λ refusal. refusal
        ≡ spec.import_refusal limit (store_of (R.kept rows.now)) tree.now
        (restored tree.now (store_of (R.kept rows.now)))) }

    // The pages that the tree does not name may go before it comes.
    ensures order { IfOk result (λ refusal. refusal ≡ None
        → restored tree.now (store_of (R.kept rows.now))
        ≡ imported tree.now (spared tree.now (emptied (store_of (R.kept rows.now))))) }
{
    let count = row_count(tree);
    if count > MOST_ROWS {
        return Ok(Some(Refusal::TooMany(count)));
    }
    let cost = needed_anew(alloc, rows, tree, steps)?;
    Ok(room_refusal(rows, limit, &cost, steps))
}

// These pages and those by ascending id, each once.
fn put_together(pages: &mut Vec<PageId>, more: &[PageId]) -> Result<(), NoMemory>
    ensures ascending { OnOk result (IsStrictlyIncreasing
        (map (λ (page : PageId). page.0) pages.new.items)) }
    ensures same { OnOk result ((page : PageId)
        → list_any (λ (id : PageId). page.0 == id.0) pages.new.items
        ≡ list_any (λ (id : PageId). page.0 == id.0) (pages.old.items ++ more.now)) }
{
    pages.extend_from_slice(more)?;
    put_in_order(pages);
    Ok(())
}

/// The restore of a tree, on rows that may take so many slots. A page that comes back keeps its id
/// and its typed mark.
pub fn restore<R: Rows, L: Ledger>(
    alloc: Global,
    rows: &mut R,
    known: &Known,
    limit: u32,
    tree: &Tree,
    steps: &mut Steps<L>,
) -> Result<Done, StepError>
    requires formed { AreWellFormed tree.now }
    requires sound { IsSound (R.kept rows.old) }
    requires most { limit ≤ slot_limit }
    requires knows { Knows (store_of (R.kept rows.old)) known.now }
    ensures performs { Performs R.kept R.base
        (spec.perform limit (store_of (R.kept rows.old)) (Command.Restore tree.now))
        rows.old rows.new known.now result }
{
    if let Some(refusal) = refusal(alloc, rows, limit, tree, steps)? {
        return Err(StepError::Refused(refusal));
    }
    let mut pages = clear(alloc, rows, steps)?;
    settle_spared(alloc, rows, &known.views, &pages, tree, steps)?;
    let first = rows.ids(steps).page;
    let grafted = graft(alloc, rows, tree, steps)?;
    let gained = grafted.pages.as_slice();
    settle_gained(alloc, rows, &known.views, gained, first, steps)?;
    put_together(&mut pages, gained)?;
    let changes = item_changes(alloc, rows, known, &pages, steps)?;
    Ok(Done {
        reply: Reply::Restored {
            items: grafted.items,
            tags: grafted.tags,
            skipped: tree.skipped,
        },
        changes,
    })
}
