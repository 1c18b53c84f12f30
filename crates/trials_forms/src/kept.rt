// Calls that leave the items of any rows those of a good store.
ghost use Rattle.std.specs.Prelude.{◌≡◌, ◌≤◌, ◌<◌, ◌+◌, ◌↔◌, true, false, length, None};
ghost use Rattle.std.specs.Prelude.{IfSome, IsSome, OnOk};
ghost use Rattle.pl_base.specs.Date.{IsDate, IsDay};
ghost use Rattle.pl_base.specs.Good.{HasGoodItems, end_of_ids, is_visited, longest_title};
ghost use Rattle.pl_base.specs.Live.{chunks, live_slots, slot_limit};
ghost use Rattle.pl_base.specs.Marks.{is_referenced};
ghost use Rattle.pl_base.specs.Rows.{has_page, has_visit, store_of};
ghost use Rattle.pl_base.specs.Tree.{has_item};
ghost use Rattle.pl_history.specs.Target.{IsTargetOf};
ghost use Rattle.pl_tree.specs.Refused.{refusal};

use pl_base::{
    Day, ItemId, ItemKind, Mark, Micros, NoMemory, PageId, Rows, Steps, VisitId, VisitRow,
};
use pl_history::{Target, page_for};
use pl_link::Canon;
use pl_tree::{NewItem, Place, TreeChange, TreeError, insert, retitle};
use std::sync::ledger::Ledger;

pub fn set_day<R: Rows, L: Ledger>(rows: &mut R, day: Day, steps: &mut Steps<L>)
    requires day { IsDay day }
    requires good { HasGoodItems (store_of (R.kept rows.old)) }
    ensures { HasGoodItems (store_of (R.kept rows.new)) }
{
    rows.set_day(day, steps);
}

pub fn insert_page<R: Rows, L: Ledger>(
    rows: &mut R,
    url: &Canon,
    target: Target,
    steps: &mut Steps<L>,
) -> Result<PageId, NoMemory>
    requires target { IsTargetOf (R.kept rows.old) url.now target }
    requires id { (R.kept rows.old).ids.page < end_of_ids }
    requires live { live_slots (store_of (R.kept rows.old)) + (chunks url.now + 2) ≤ slot_limit }
    requires good { HasGoodItems (store_of (R.kept rows.old)) }
    ensures { OnOk result (HasGoodItems (store_of (R.kept rows.new))) }
{
    let page = page_for(rows, url, target, steps)?;
    Ok(page)
}

pub fn remove_page<R: Rows, L: Ledger>(rows: &mut R, page: PageId, steps: &mut Steps<L>)
    requires page { has_page (R.kept rows.old) page ≡ true }
    requires unvisited { is_visited (store_of (R.kept rows.old)) page ≡ false }
    requires unreferenced { is_referenced (store_of (R.kept rows.old)) page ≡ false }
    requires good { HasGoodItems (store_of (R.kept rows.old)) }
    ensures { HasGoodItems (store_of (R.kept rows.new)) }
{
    rows.remove_page(page, steps);
}

pub fn set_title<R: Rows, L: Ledger>(
    rows: &mut R,
    page: PageId,
    title: &str,
    steps: &mut Steps<L>,
) -> Result<(), NoMemory>
    requires page { has_page (R.kept rows.old) page ≡ true }
    requires title { length title.now ≤ longest_title }
    requires live { live_slots (store_of (R.kept rows.old)) + chunks title.now ≤ slot_limit }
    requires good { HasGoodItems (store_of (R.kept rows.old)) }
    ensures { OnOk result (HasGoodItems (store_of (R.kept rows.new))) }
{
    rows.set_title(page, title, steps)?;
    Ok(())
}

pub fn set_mark<R: Rows, L: Ledger>(rows: &mut R, page: PageId, mark: Mark, steps: &mut Steps<L>)
    requires page { has_page (R.kept rows.old) page ≡ true }
    requires good { HasGoodItems (store_of (R.kept rows.old)) }
    ensures { HasGoodItems (store_of (R.kept rows.new)) }
{
    rows.set_mark(page, mark, steps);
}

/// The total of the page's origin.
pub fn set_total<R: Rows, L: Ledger>(rows: &mut R, page: PageId, total: u64, steps: &mut Steps<L>)
    requires page { has_page (R.kept rows.old) page ≡ true }
    requires good { HasGoodItems (store_of (R.kept rows.old)) }
    ensures { HasGoodItems (store_of (R.kept rows.new)) }
{
    let origin = rows.origin_of(page, steps);
    rows.set_total(origin, total, steps);
}

pub fn insert_visit<R: Rows, L: Ledger>(
    rows: &mut R,
    row: &VisitRow,
    steps: &mut Steps<L>,
) -> Result<VisitId, NoMemory>
    requires page { has_page (R.kept rows.old) row.now.page ≡ true }
    requires date { IsDate row.now.date }
    requires source { IfSome row.now.source (λ id. has_visit (R.kept rows.old) id ≡ true) }
    requires id { (R.kept rows.old).ids.visit < end_of_ids }
    requires live { live_slots (store_of (R.kept rows.old)) + 1 ≤ slot_limit }
    requires good { HasGoodItems (store_of (R.kept rows.old)) }
    ensures { OnOk result (HasGoodItems (store_of (R.kept rows.new))) }
{
    let visit = rows.insert_visit(row, steps)?;
    Ok(visit)
}

pub fn remove_visit<R: Rows, L: Ledger>(rows: &mut R, visit: VisitId, steps: &mut Steps<L>)
    requires visit { has_visit (R.kept rows.old) visit ≡ true }
    requires good { HasGoodItems (store_of (R.kept rows.old)) }
    ensures { HasGoodItems (store_of (R.kept rows.new)) }
{
    rows.remove_visit(visit, steps);
}

pub fn insert_item<R: Rows, L: Ledger>(
    rows: &mut R,
    parent: ItemId,
    place: Place,
    item: &NewItem,
    steps: &mut Steps<L>,
) -> Result<ItemId, TreeError>
    requires page { IfSome item.now.page (λ id. has_page (R.kept rows.old) id ≡ true) }
    requires bookmark { IsSome item.now.page ↔ (item.now.kind ≡ ItemKind.Bookmark) }
    requires title { length item.now.title ≤ longest_title }
    requires date { IsDate item.now.date }
    requires live { live_slots (store_of (R.kept rows.old)) + (chunks item.now.title + 1)
        ≤ slot_limit }
    requires good { HasGoodItems (store_of (R.kept rows.old)) }
    ensures { OnOk result (HasGoodItems (store_of (R.kept rows.new))) }
{
    let id = insert(rows, parent, place, item, steps)?;
    Ok(id)
}

pub fn set_item<R: Rows, L: Ledger>(
    rows: &mut R,
    item: ItemId,
    title: &str,
    date: Micros,
    steps: &mut Steps<L>,
) -> Result<(), TreeError>
    requires item { has_item (R.kept rows.old).items item ≡ true }
    requires title { length title.now ≤ longest_title }
    requires date { IsDate date }
    requires live { live_slots (store_of (R.kept rows.old)) + chunks title.now ≤ slot_limit }
    requires good { HasGoodItems (store_of (R.kept rows.old)) }
    ensures { OnOk result (HasGoodItems (store_of (R.kept rows.new))) }
{
    retitle(rows, item, title, date, steps)?;
    Ok(())
}

/// The modified date of an item that may have another title.
pub fn set_modified<R: Rows, L: Ledger>(
    rows: &mut R,
    item: ItemId,
    modified: Micros,
    steps: &mut Steps<L>,
)
    requires item { has_item (R.kept rows.old).items item ≡ true }
    requires allowed { refusal (R.kept rows.old).items (TreeChange.Retitle item) ≡ None }
    requires modified { IsDate modified }
    requires good { HasGoodItems (store_of (R.kept rows.old)) }
    ensures { HasGoodItems (store_of (R.kept rows.new)) }
{
    rows.set_modified(item, modified, steps);
}
