// A tag that a page gets.
ghost use Rattle.std.specs.Prelude.{◌≡◌, ◌≤◌, ℕ, List, None, IfOk, OnOk};
ghost use Rattle.pl_base.specs.Date.{IsDate};
ghost use Rattle.pl_base.specs.Good.{HasGoodItems};
ghost use Rattle.pl_base.specs.Live.{live_slots, slot_limit};
ghost use Rattle.pl_base.specs.Rows.{IsSound, store_of};
ghost use Rattle.pl_tree.specs.Refused as refused;
ghost use Rattle.pl_tree.specs.Tagged as tagged;
ghost use Rattle.pl_history.specs.Marked.{has_tag};
ghost use Rattle.pl_history.specs.Ready.{IsReady};

use crate::Target;
use pl_base::{Micros, NoMemory, PageId, Rows, Steps};
use pl_marks::refresh;
use pl_tree::{tag_allowed, tag_entry};
use pl_words::TagName;
use std::alloc::Global;
use std::sync::ledger::Ledger;

/// Whether the page is known and has the tag.
pub fn is_tagged<R: Rows, L: Ledger>(
    alloc: Global,
    rows: &R,
    target: Target,
    name: &TagName,
    steps: &mut Steps<L>,
) -> Result<bool, NoMemory>
    requires good { HasGoodItems (store_of (R.kept rows.now)) }
    ensures { IfOk result (λ has. has ≡ has_tag target name.now (R.kept rows.now).items) }
{
    let Target::Known(page) = target else {
        return Ok(false);
    };
    let entry = tag_entry(alloc, rows, page, name, steps)?;
    Ok(entry.is_some())
}

/// The page gets the tag, and what is computed of it is computed afresh.
pub fn add_tag<R: Rows, L: Ledger>(
    alloc: Global,
    rows: &mut R,
    page: PageId,
    name: &TagName,
    date: Micros,
    is_place: bool,
    steps: &mut Steps<L>,
) -> Result<(), NoMemory>
    requires ready { IsReady page is_place (R.kept rows.old) }
    requires date { IsDate date }
    requires live { live_slots (store_of
        (tagged.with_tagged page name.now date (R.kept rows.old))) ≤ slot_limit }
    requires allowed { refused.tag_refusal page name.now (R.kept rows.old) ≡ None }
    ensures store { OnOk result (store_of (R.kept rows.new)
        ≡ store_of (tagged.with_tagged page name.now date (R.kept rows.old))) }
    ensures sound { OnOk result (IsSound (R.kept rows.new)) }
    ensures base { OnOk result ((bytes : List ℕ) → R.base rows.old bytes → R.base rows.new bytes) }
{
    tag_allowed(alloc, rows, page, name, date, steps)?;
    let mark = rows.page_at(page, steps).unwrap();
    refresh(alloc, rows, page, mark, is_place, steps)?;
    Ok(())
}
