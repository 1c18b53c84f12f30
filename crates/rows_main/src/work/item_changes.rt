ghost use Rattle.std.specs.Prelude.{OnOk};
ghost use Rattle.pl_base.specs.Good.{HasGoodItems};
ghost use Rattle.pl_base.specs.Rows.{store_of};

use crate::draw::Draw;
use crate::fault::Fault;
use crate::known::{known_item, with_room};
use crate::sum::Sum;
use pl_base::{ItemId, ItemKind, LONGEST_TITLE, Micros, PageId, Rows, Steps, Txt, chunks};
use pl_tree::{NewItem, Place, move_to, remove};
use std::alloc::Global;
use std::sync::ledger::Ledger;
use trials_forms::kept;

const TITLE: &str = "The title of a folder that is there for a while";

const OTHER_TITLE: &str = "Another title";

const DATE: Micros = Micros(1_700_000_000_000_000);

// The folder of a page's bookmark.
fn folder_of<R: Rows, L: Ledger>(
    rows: &R,
    page: PageId,
    steps: &mut Steps<L>,
) -> Result<ItemId, Fault> {
    let bookmark = rows.first_reference(page, steps).ok_or(Fault::NotHeld)?;
    let row = known_item(rows, bookmark, steps)?;
    row.parent.ok_or(Fault::NotHeld)
}

/// A folder comes at the end of another, moves to the front of a third, gets a title and goes.
pub fn round<R: Rows, L: Ledger>(
    alloc: Global,
    rows: &mut R,
    draw: &mut Draw,
    sum: &mut Sum,
    steps: &mut Steps<L>,
) -> Result<(), Fault>
    requires good { HasGoodItems (store_of (R.kept rows.old)) }
    ensures good { OnOk result (HasGoodItems (store_of (R.kept rows.new))) }
{
    let from = folder_of(rows, draw.page(), steps)?;
    let to = folder_of(rows, draw.page(), steps)?;
    let item = add_folder(alloc, rows, from, steps)?;
    sum.item(rows.last_child(from, steps));
    move_to(rows, item, to, Place::Number(0), DATE, steps)?;
    sum.item(rows.next_sibling(item, steps));
    give_title(rows, item, OTHER_TITLE, steps)?;
    let lost = remove(alloc, rows, item, steps)?;
    sum.add(lost.len() as u64);
    sum.item(rows.first_child(to, steps));
    Ok(())
}

// A new folder behind all that another one has.
fn add_folder<R: Rows, L: Ledger>(
    alloc: Global,
    rows: &mut R,
    parent: ItemId,
    steps: &mut Steps<L>,
) -> Result<ItemId, Fault>
    requires good { HasGoodItems (store_of (R.kept rows.old)) }
    ensures good { OnOk result (HasGoodItems (store_of (R.kept rows.new))) }
{
    let item = NewItem {
        kind: ItemKind::Folder,
        title: Txt::copied(alloc, TITLE)?,
        page: None,
        date: DATE,
    };
    with_room(rows, chunks(item.title.as_str()) + 1, steps)?;
    Ok(kept::insert_item(rows, parent, Place::End, &item, steps)?)
}

// The item has another title from then on.
fn give_title<R: Rows, L: Ledger>(
    rows: &mut R,
    item: ItemId,
    title: &str,
    steps: &mut Steps<L>,
) -> Result<(), Fault>
    requires good { HasGoodItems (store_of (R.kept rows.old)) }
    ensures good { OnOk result (HasGoodItems (store_of (R.kept rows.new))) }
{
    known_item(rows, item, steps)?;
    if title.len() > LONGEST_TITLE {
        return Err(Fault::NotHeld);
    }
    with_room(rows, chunks(title), steps)?;
    Ok(kept::set_item(rows, item, title, DATE, steps)?)
}
