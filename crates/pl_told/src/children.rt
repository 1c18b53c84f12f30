// The children of a folder.
ghost use Rattle.std.specs.Prelude.{◌≡◌, ℕ, Some, true, IfOk, IfSome};
ghost use Rattle.std.specs.Option.{option_and_then, option_map};
ghost use Rattle.pl_base.specs.Good.{IsGood};
ghost use Rattle.pl_base.specs.Rows.{IsSound, has_page, store_of};
ghost use Rattle.pl_base.specs.Store.{page_url};
ghost use Rattle.pl_base.specs.Tree.{has_item, item_at};
ghost use Rattle.pl_step.specs.Step as spec;
ghost use Rattle.pl_step.specs.StepErrors.{Says};

use pl_base::{ItemId, NoMemory, PageId, Rows, Seq, Steps, Txt};
use pl_step::{Command, ListRow, Reply, StepError};
use pl_tree::folder_refusal;
use std::alloc::Global;
use std::sync::ledger::Ledger;

// The URL of an item's page, if it has one.
fn page_url<R: Rows, L: Ledger>(
    rows: &R,
    page: Option<PageId>,
    steps: &mut Steps<L>,
) -> Result<Option<Txt>, NoMemory>
    requires { IfSome page (λ id. has_page (R.kept rows.now) id ≡ true) }
    ensures { IfOk result (λ url. url
        ≡ option_and_then (page_url (store_of (R.kept rows.now))) page) }
{
    let Some(page) = page else {
        return Ok(None);
    };
    Ok(Some(rows.url(page, steps)?))
}

// What is listed of an item.
fn list_row<R: Rows, L: Ledger>(
    rows: &R,
    item: ItemId,
    steps: &mut Steps<L>,
) -> Result<ListRow, NoMemory>
    requires item { has_item (R.kept rows.now).items item ≡ true }
    requires good { IsGood (store_of (R.kept rows.now)) }
    ensures { IfOk result (λ row. Some row
        ≡ option_map (spec.list_row (store_of (R.kept rows.now)))
        (item_at (R.kept rows.now).items item)) }
{
    let row = rows.item_at(item, steps).unwrap();
    let title = rows.item_title(item, steps)?;
    let url = page_url(rows, row.page, steps)?;
    Ok(ListRow {
        kind: row.kind,
        id: item,
        title,
        url,
    })
}

// What is listed of the children of a folder.
fn children<R: Rows, L: Ledger>(
    alloc: Global,
    rows: &R,
    item: ItemId,
    steps: &mut Steps<L>,
) -> Result<Reply, NoMemory>
    requires good { IsGood (store_of (R.kept rows.now)) }
    ensures { IfOk result (λ reply. reply ≡ spec.list_reply (store_of (R.kept rows.now)) item) }
{
    let mut list = Vec::new(alloc);
    let mut next = rows.first_child(item, steps);
    while let Some(child) = next {
        list.push(list_row(rows, child, steps)?)?;
        next = rows.next_sibling(child, steps);
    }
    Ok(Reply::List(Seq::from(list)))
}

/// The children of a folder, in order.
pub fn list<R: Rows, L: Ledger>(
    alloc: Global,
    rows: &R,
    item: ItemId,
    steps: &mut Steps<L>,
) -> Result<Reply, StepError>
    requires sound { IsSound (R.kept rows.now) }
    ensures { (limit : ℕ) → Says
        (spec.perform limit (store_of (R.kept rows.now)) (Command.List item)).0 result }
{
    if let Some(refusal) = folder_refusal(rows, item, steps) {
        return Err(StepError::Refused(refusal));
    }
    Ok(children(alloc, rows, item, steps)?)
}
