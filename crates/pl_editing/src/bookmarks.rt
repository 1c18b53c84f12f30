// A new bookmark, with a page for it.
ghost use Rattle.std.specs.Prelude.{◌≤◌};
ghost use Rattle.pl_base.specs.Date.{IsDate};
ghost use Rattle.pl_base.specs.Live.{slot_limit};
ghost use Rattle.pl_base.specs.Rows.{IsSound, store_of};
ghost use Rattle.pl_known.specs.Known.{Knows};
ghost use Rattle.pl_step.specs.Step as spec;
ghost use Rattle.pl_done.specs.Performed.{Performs};

use crate::insert::room_refusal;
use pl_base::{ItemId, Micros, Rows, Steps, Txt, chunks, cut_title};
use pl_changes::item_changes;
use pl_done::{Done, find_target};
use pl_history::{add_bookmark, page_for, slots_after};
use pl_known::Known;
use pl_link::Canon;
use pl_step::{Command, Reply, StepError};
use pl_tree::{Place, TreeChange};
use std::alloc::Global;
use std::sync::ledger::Ledger;

/// A new bookmark of the URL on rows that may take so many slots.
pub fn bookmark<R: Rows, L: Ledger>(
    alloc: Global,
    rows: &mut R,
    known: &Known,
    limit: u32,
    parent: ItemId,
    place: Place,
    url: &Canon,
    title: &Txt,
    date: Micros,
    steps: &mut Steps<L>,
) -> Result<Done, StepError>
    requires date { IsDate date }
    requires sound { IsSound (R.kept rows.old) }
    requires most { limit ≤ slot_limit }
    requires knows { Knows (store_of (R.kept rows.old)) known.now }
    ensures performs { Performs R.kept R.base
        (spec.perform limit (store_of (R.kept rows.old))
        (Command.Bookmark parent place url.now title.now date))
        rows.old rows.new known.now result }
{
    let change = TreeChange::Insert { parent, place };
    if let Some(refusal) = pl_tree::refused(rows, &change, steps) {
        return Err(StepError::Refused(refusal));
    }
    let target = find_target(alloc, rows, known, url, steps)?;
    let text = cut_title(title.as_str());
    // A bookmark takes as many slots as a visit, and those of its title.
    let slots = slots_after(rows, url, target, steps) + chunks(text);
    if let Some(refusal) = room_refusal(rows, limit, target.is_new(), slots, steps) {
        return Err(StepError::Refused(refusal));
    }
    let page = page_for(rows, url, target, steps)?;
    let id = add_bookmark(
        alloc,
        rows,
        parent,
        place,
        page,
        text,
        date,
        url.is_place(),
        steps,
    )?;
    let changes = item_changes(alloc, rows, known, &[page], steps)?;
    Ok(Done {
        reply: Reply::Item(id),
        changes,
    })
}
