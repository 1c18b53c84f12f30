// A bookmark that a page gets.
ghost use Rattle.std.specs.Prelude.{◌≡◌, ◌≤◌, ◌+◌, ℕ, List, None, length, IfOk, OnOk};
ghost use Rattle.pl_base.specs.Date.{IsDate};
ghost use Rattle.pl_base.specs.Good.{longest_title};
ghost use Rattle.pl_base.specs.Live as live;
ghost use Rattle.pl_base.specs.Live.{live_slots, slot_limit};
ghost use Rattle.pl_base.specs.Rows.{IsSound, store_of};
ghost use Rattle.pl_tree.specs.Changes.{with_inserted};
ghost use Rattle.pl_tree.specs.Refused.{insert_refusal};
ghost use Rattle.pl_history.specs.Marked.{page_item};
ghost use Rattle.pl_history.specs.Ready.{IsReady};

use pl_base::{ItemId, ItemKind, Micros, NoMemory, PageId, Rows, Steps, Txt};
use pl_marks::refresh;
use pl_tree::{NewItem, Place, insert_allowed};
use std::alloc::Global;
use std::sync::ledger::Ledger;

/// The bookmark of a page with the next id, and what is computed afresh of the page.
pub fn add_bookmark<R: Rows, L: Ledger>(
    alloc: Global,
    rows: &mut R,
    parent: ItemId,
    place: Place,
    page: PageId,
    title: &str,
    date: Micros,
    is_place: bool,
    steps: &mut Steps<L>,
) -> Result<ItemId, NoMemory>
    requires ready { IsReady page is_place (R.kept rows.old) }
    requires allowed { insert_refusal parent place (R.kept rows.old) ≡ None }
    requires title { length title.now ≤ longest_title }
    requires date { IsDate date }
    requires live { live_slots (store_of (R.kept rows.old)) + 1 + live.chunks title.now
        ≤ slot_limit }
    ensures item { IfOk result (λ id. id.0 ≡ (R.kept rows.old).ids.item) }
    ensures store { OnOk result (store_of (R.kept rows.new) ≡ store_of (with_inserted parent place
        (page_item page title.now date) (R.kept rows.old))) }
    ensures sound { OnOk result (IsSound (R.kept rows.new)) }
    ensures base { OnOk result ((bytes : List ℕ) → R.base rows.old bytes → R.base rows.new bytes) }
{
    let item = NewItem {
        kind: ItemKind::Bookmark,
        title: Txt::copied(alloc, title)?,
        page: Some(page),
        date,
    };
    let id = insert_allowed(rows, parent, place, &item, steps)?;
    let mark = rows.page_at(page, steps).unwrap();
    refresh(alloc, rows, page, mark, is_place, steps)?;
    Ok(id)
}
