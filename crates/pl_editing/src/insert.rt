// A new folder or separator, and what any new item waits for.
ghost use Rattle.std.specs.Prelude.{◌≡◌, ◌≢◌, ◌≤◌, false, length};
ghost use Rattle.pl_base.specs.Date.{IsDate};
ghost use Rattle.pl_base.specs.Good.{longest_title};
ghost use Rattle.pl_base.specs.Live.{slot_limit};
ghost use Rattle.pl_base.specs.Rows.{IsSound, store_of};
ghost use Rattle.pl_known.specs.Known.{Knows};
ghost use Rattle.pl_step.specs.Step as spec;
ghost use Rattle.pl_done.specs.Performed.{Performs};
ghost use Rattle.pl_editing.specs.Room.{item_room, plain_item};

use pl_base::{
    IdKind, Ids, ItemId, ItemKind, Micros, Refusal, Rows, Steps, Txt, chunks, cut_title,
};
use pl_changes::item_changes;
use pl_done::{Done, is_full};
use pl_known::Known;
use pl_step::{Command, Reply, StepError};
use pl_tree::{NewItem, Place, TreeChange, insert_allowed};
use std::alloc::Global;
use std::sync::ledger::Ledger;

/// There have to be ids for a new item and its page, where that is new too, and slots for all that
/// the store holds then.
pub fn room_refusal<R: Rows, L: Ledger>(
    rows: &R,
    limit: u32,
    with_page: bool,
    slots: u64,
    steps: &mut Steps<L>,
) -> Option<Refusal>
    ensures { result ≡ item_room limit (store_of (R.kept rows.now)) with_page slots }
{
    let ids = rows.ids(steps);
    if with_page && ids.page == Ids::END {
        Some(Refusal::NoIds(IdKind::Page))
    } else if ids.item == Ids::END {
        Some(Refusal::NoIds(IdKind::Item))
    } else if is_full(limit, rows.live(steps), slots) {
        Some(Refusal::Full(slots))
    } else {
        None
    }
}

// A new item with no page.
fn insert_plain<R: Rows, L: Ledger>(
    alloc: Global,
    rows: &mut R,
    known: &Known,
    limit: u32,
    parent: ItemId,
    place: Place,
    kind: ItemKind,
    title: &str,
    date: Micros,
    steps: &mut Steps<L>,
) -> Result<Done, StepError>
    requires kind { kind ≢ ItemKind.Bookmark }
    requires title { length title.now ≤ longest_title }
    requires date { IsDate date }
    requires sound { IsSound (R.kept rows.old) }
    requires most { limit ≤ slot_limit }
    requires knows { Knows (store_of (R.kept rows.old)) known.now }
    ensures performs { Performs R.kept R.base
        (spec.insert_step limit (store_of (R.kept rows.old)) parent place false
        (spec.after_insert parent place (plain_item kind title.now date)
        (store_of (R.kept rows.old)))) rows.old rows.new known.now result }
{
    let change = TreeChange::Insert { parent, place };
    if let Some(refusal) = pl_tree::refused(rows, &change, steps) {
        return Err(StepError::Refused(refusal));
    }
    let slots = rows.live(steps) + 1 + chunks(title);
    if let Some(refusal) = room_refusal(rows, limit, false, slots, steps) {
        return Err(StepError::Refused(refusal));
    }
    let item = NewItem {
        kind,
        title: Txt::copied(alloc, title)?,
        page: None,
        date,
    };
    let id = insert_allowed(rows, parent, place, &item, steps)?;
    let changes = item_changes(alloc, rows, known, &[], steps)?;
    Ok(Done {
        reply: Reply::Item(id),
        changes,
    })
}

/// A new folder on rows that may take so many slots.
pub fn folder<R: Rows, L: Ledger>(
    alloc: Global,
    rows: &mut R,
    known: &Known,
    limit: u32,
    parent: ItemId,
    place: Place,
    title: &Txt,
    date: Micros,
    steps: &mut Steps<L>,
) -> Result<Done, StepError>
    requires date { IsDate date }
    requires sound { IsSound (R.kept rows.old) }
    requires most { limit ≤ slot_limit }
    requires knows { Knows (store_of (R.kept rows.old)) known.now }
    ensures performs { Performs R.kept R.base
        (spec.perform limit (store_of (R.kept rows.old))
        (Command.Folder parent place title.now date))
        rows.old rows.new known.now result }
{
    let text = cut_title(title.as_str());
    insert_plain(
        alloc,
        rows,
        known,
        limit,
        parent,
        place,
        ItemKind::Folder,
        text,
        date,
        steps,
    )
}

/// A new separator on rows that may take so many slots.
pub fn separator<R: Rows, L: Ledger>(
    alloc: Global,
    rows: &mut R,
    known: &Known,
    limit: u32,
    parent: ItemId,
    place: Place,
    date: Micros,
    steps: &mut Steps<L>,
) -> Result<Done, StepError>
    requires date { IsDate date }
    requires sound { IsSound (R.kept rows.old) }
    requires most { limit ≤ slot_limit }
    requires knows { Knows (store_of (R.kept rows.old)) known.now }
    ensures performs { Performs R.kept R.base
        (spec.perform limit (store_of (R.kept rows.old)) (Command.Separator parent place date))
        rows.old rows.new known.now result }
{
    insert_plain(
        alloc,
        rows,
        known,
        limit,
        parent,
        place,
        ItemKind::Separator,
        "",
        date,
        steps,
    )
}
