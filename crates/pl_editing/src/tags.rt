// Tags that the page of a URL gets and loses.
ghost use Rattle.std.specs.Prelude.{◌≡◌, ◌≤◌, ◌+◌, ℕ, if◌then◌else◌, IfOk};
ghost use Rattle.pl_base.specs.Date.{IsDate};
ghost use Rattle.pl_base.specs.Good.{HasGoodItems};
ghost use Rattle.pl_base.specs.Live as live;
ghost use Rattle.pl_base.specs.Live.{live_slots, slot_limit};
ghost use Rattle.pl_base.specs.Rows.{IsSound, store_of};
ghost use Rattle.pl_known.specs.Known.{Knows};
ghost use Rattle.pl_step.specs.Step as spec;
ghost use Rattle.pl_done.specs.Performed.{Performs};
ghost use Rattle.pl_editing.specs.Room.{tag_room};
ghost use Rattle.pl_history.specs.Target.{IsTargetOf};

use pl_base::{IdKind, Ids, Micros, NoMemory, Refusal, Rows, Steps, chunks};
use pl_changes::item_changes;
use pl_done::{Done, find_target, is_full};
use pl_history::{Target, add_tag, is_tagged, page_for, settle_all, slots_after};
use pl_known::Known;
use pl_link::Canon;
use pl_step::{Command, Reply, StepError};
use pl_tree::tag_folder;
use pl_words::TagName;
use std::alloc::Global;
use std::sync::ledger::Ledger;

// The slots of a folder for the tag, where it is new.
fn folder_slots(name: &TagName, is_new: bool) -> u64
    ensures slots { result ≡ (if is_new then 1 + live.chunks name.now else 0) }
    ensures few { result ≤ 2 }
{
    if is_new { 1 + chunks(name.text()) } else { 0 }
}

// There have to be ids for an entry, and for its page and its folder where they are new, and slots
// for all that the store holds then.
fn room_refusal<R: Rows, L: Ledger>(
    rows: &R,
    limit: u32,
    with_page: bool,
    with_folder: bool,
    slots: u64,
    steps: &mut Steps<L>,
) -> Option<Refusal>
    ensures { result ≡ tag_room limit (store_of (R.kept rows.now)) with_page with_folder slots }
{
    let ids = rows.ids(steps);
    let items = 1 + u32::from(with_folder);
    if with_page && ids.page == Ids::END {
        Some(Refusal::NoIds(IdKind::Page))
    } else if Ids::END - ids.item < items {
        Some(Refusal::NoIds(IdKind::Item))
    } else if is_full(limit, rows.live(steps), slots) {
        Some(Refusal::Full(slots))
    } else {
        None
    }
}

// Why the page of the URL may not get the tag.
fn tag_refusal<R: Rows, L: Ledger>(
    alloc: Global,
    rows: &R,
    limit: u32,
    url: &Canon,
    target: Target,
    name: &TagName,
    steps: &mut Steps<L>,
) -> Result<Option<Refusal>, NoMemory>
    requires good { HasGoodItems (store_of (R.kept rows.now)) }
    requires target { IsTargetOf (R.kept rows.now) url.now target }
    ensures { IfOk result (λ refusal. (date : Micros) → refusal
        ≡ spec.tag_refusal limit (store_of (R.kept rows.now)) url.now name.now (live_slots
        (spec.after_tag (store_of (R.kept rows.now)) url.now name.now date))) }
{
    if is_tagged(alloc, rows, target, name, steps)? {
        return Ok(Some(Refusal::DupTag));
    }
    let with_folder = tag_folder(alloc, rows, name, steps)?.is_none();
    // The entry takes as many slots as a visit.
    let slots = slots_after(rows, url, target, steps) + folder_slots(name, with_folder);
    Ok(room_refusal(rows, limit, target.is_new(), with_folder, slots, steps))
}

/// The page of the URL gets the tag, on rows that may take so many slots.
pub fn tag<R: Rows, L: Ledger>(
    alloc: Global,
    rows: &mut R,
    known: &Known,
    limit: u32,
    url: &Canon,
    name: &TagName,
    date: Micros,
    steps: &mut Steps<L>,
) -> Result<Done, StepError>
    requires date { IsDate date }
    requires sound { IsSound (R.kept rows.old) }
    requires most { limit ≤ slot_limit }
    requires knows { Knows (store_of (R.kept rows.old)) known.now }
    ensures performs { Performs R.kept R.base
        (spec.perform limit (store_of (R.kept rows.old)) (Command.Tag url.now name.now date))
        rows.old rows.new known.now result }
{
    let target = find_target(alloc, rows, known, url, steps)?;
    if let Some(refusal) = tag_refusal(alloc, rows, limit, url, target, name, steps)? {
        return Err(StepError::Refused(refusal));
    }
    let page = page_for(rows, url, target, steps)?;
    add_tag(alloc, rows, page, name, date, url.is_place(), steps)?;
    let changes = item_changes(alloc, rows, known, &[page], steps)?;
    Ok(Done {
        reply: Reply::Done,
        changes,
    })
}

/// The page of the URL loses the tag. A page that has neither a visit nor an item then goes too.
pub fn untag<R: Rows, L: Ledger>(
    alloc: Global,
    rows: &mut R,
    known: &Known,
    url: &Canon,
    name: &TagName,
    steps: &mut Steps<L>,
) -> Result<Done, StepError>
    requires sound { IsSound (R.kept rows.old) }
    requires knows { Knows (store_of (R.kept rows.old)) known.now }
    ensures performs { (limit : ℕ) → Performs R.kept R.base
        (spec.perform limit (store_of (R.kept rows.old)) (Command.Untag url.now name.now))
        rows.old rows.new known.now result }
{
    let Some(view) = known.find(url.text()) else {
        return Err(StepError::Refused(Refusal::NoPage));
    };
    pl_tree::untag(alloc, rows, view.id, name, steps)?;
    settle_all(alloc, rows, &known.views, &[view.id], steps)?;
    let changes = item_changes(alloc, rows, known, &[view.id], steps)?;
    Ok(Done {
        reply: Reply::Done,
        changes,
    })
}
