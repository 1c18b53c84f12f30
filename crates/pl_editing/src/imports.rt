// The import of a tree of bookmarks.
ghost use Rattle.std.specs.Prelude.{◌≡◌, ◌≤◌, ◌+◌, IfOk};
ghost use Rattle.pl_base.specs.Live.{live_slots, slot_limit};
ghost use Rattle.pl_base.specs.Rows.{IsSound, store_of};
ghost use Rattle.pl_base.specs.Store.{Store};
ghost use Rattle.pl_graft.specs.Import.{imported};
ghost use Rattle.pl_nbread.specs.WellFormed.{AreWellFormed};
ghost use Rattle.pl_known.specs.Known.{Knows};
ghost use Rattle.pl_step.specs.Step as spec;
ghost use Rattle.pl_done.specs.Performed.{Performs};

use crate::gained::settle_gained;
use pl_base::{IdKind, Ids, NoMemory, Refusal, Rows, Steps};
use pl_changes::item_changes;
use pl_done::{Done, is_full};
use pl_graft::{Cost, MOST_ROWS, graft, needed, row_count};
use pl_known::Known;
use pl_nbread::Tree;
use pl_step::{Command, Reply, StepError};
use std::alloc::Global;
use std::sync::ledger::Ledger;

/// Why what a tree makes finds no room: the ids of pages and of items, the slots.
pub(crate) fn room_refusal<R: Rows, L: Ledger>(
    rows: &R,
    limit: u32,
    cost: &Cost,
    steps: &mut Steps<L>,
) -> Option<Refusal>
    requires sound { IsSound (R.kept rows.now) }
    ensures refusal { (after : Store) → cost.now.live ≡ live_slots after
        → (R.kept rows.now).ids.page + cost.now.pages ≡ after.ids.page
        → (R.kept rows.now).ids.item + cost.now.items ≡ after.ids.item
        → result ≡ spec.tree_room limit (store_of (R.kept rows.now)) after }
{
    let ids = rows.ids(steps);
    if cost.pages > u64::from(Ids::END - ids.page) {
        return Some(Refusal::NoIds(IdKind::Page));
    }
    if cost.items > u64::from(Ids::END - ids.item) {
        return Some(Refusal::NoIds(IdKind::Item));
    }
    if is_full(limit, rows.live(steps), cost.live) {
        return Some(Refusal::Full(cost.live));
    }
    None
}

// Why a tree may not be imported. All of it is asked for before anything changes.
fn refusal<R: Rows, L: Ledger>(
    alloc: Global,
    rows: &R,
    limit: u32,
    tree: &Tree,
    steps: &mut Steps<L>,
) -> Result<Option<Refusal>, NoMemory>
    requires formed { AreWellFormed tree.now }
    requires sound { IsSound (R.kept rows.now) }
    ensures { IfOk result (λ refusal. refusal
        ≡ spec.import_refusal limit (store_of (R.kept rows.now)) tree.now
        (imported tree.now (store_of (R.kept rows.now)))) }
{
    let count = row_count(tree);
    if count > MOST_ROWS {
        return Ok(Some(Refusal::TooMany(count)));
    }
    let cost = needed(alloc, rows, tree, steps)?;
    Ok(room_refusal(rows, limit, &cost, steps))
}

/// The import of a tree, on rows that may take so many slots.
pub fn import<R: Rows, L: Ledger>(
    alloc: Global,
    rows: &mut R,
    known: &Known,
    limit: u32,
    tree: &Tree,
    steps: &mut Steps<L>,
) -> Result<Done, StepError>
    requires formed { AreWellFormed tree.now }
    requires sound { IsSound (R.kept rows.old) }
    requires most { limit ≤ slot_limit }
    requires knows { Knows (store_of (R.kept rows.old)) known.now }
    ensures performs { Performs R.kept R.base
        (spec.perform limit (store_of (R.kept rows.old)) (Command.Import tree.now))
        rows.old rows.new known.now result }
{
    if let Some(refusal) = refusal(alloc, rows, limit, tree, steps)? {
        return Err(StepError::Refused(refusal));
    }
    let first = rows.ids(steps).page;
    let grafted = graft(alloc, rows, tree, steps)?;
    let pages = grafted.pages.as_slice();
    settle_gained(alloc, rows, &known.views, pages, first, steps)?;
    let changes = item_changes(alloc, rows, known, pages, steps)?;
    Ok(Done {
        reply: Reply::Imported {
            items: grafted.items,
            tags: grafted.tags,
            skipped: tree.skipped,
        },
        changes,
    })
}
