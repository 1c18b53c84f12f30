// One call on any rows, chosen before, so that two forms of rows get the same.
use crate::good::Made;
use crate::{Address, GoodRows, Words};
use pl_base::{Day, ItemId, ItemKind, Mark, Micros, PageId, Rows, Steps, VisitId, VisitRow};
use pl_tree::Place;
use std::sync::ledger::Ledger;
use std::test::Fail;

/// A call, with what was drawn for it.
#[derive(Clone, Copy, Debug)]
pub enum Call {
    SetDay(Day),
    InsertPage(Address),
    RemovePage(PageId),
    SetTitle(PageId, Words),
    SetMark(PageId, Mark),
    SetTotal(PageId, u64),
    InsertVisit(VisitRow),
    RemoveVisit(VisitId),
    InsertItem(Draft),
    MoveItem(ItemId, Spot),
    SetItem(ItemId, Words, Micros),
    SetModified(ItemId, Micros),
    RemoveItem(ItemId),
}

/// A place in the tree, and the date on which an item comes there.
#[derive(Clone, Copy, Debug)]
pub struct Spot {
    pub parent: ItemId,
    pub place: Place,
    pub date: Micros,
}

/// A new item. Its page counts only where it is a bookmark.
#[derive(Clone, Copy, Debug)]
pub struct Draft {
    pub kind: ItemKind,
    pub page: PageId,
    pub title: Words,
    pub spot: Spot,
}

/// What rows answered to a call.
#[derive(Clone, Copy, Debug, PartialEq, Eq)]
pub enum Answer {
    /// The conditions of the call don't hold, and it was not made.
    Passed,
    Done,
    Page(PageId),
    Visit(VisitId),
    Item(ItemId),
}

impl<R: Rows + Drop> GoodRows<R> {
    /// The rows after the call, and their answer.
    pub fn apply<L: Ledger>(self, call: Call, steps: &mut Steps<L>) -> Result<Made<R>, Fail> {
        match call {
            Call::SetDay(day) => Ok(self.set_day(day, steps)),
            Call::InsertPage(address) => self.insert_page(address, steps),
            Call::RemovePage(page) => Ok(self.remove_page(page, steps)),
            Call::SetTitle(page, words) => self.set_title(page, words, steps),
            Call::SetMark(page, mark) => Ok(self.set_mark(page, mark, steps)),
            Call::SetTotal(page, total) => Ok(self.set_total(page, total, steps)),
            Call::InsertVisit(row) => self.insert_visit(row, steps),
            Call::RemoveVisit(visit) => Ok(self.remove_visit(visit, steps)),
            Call::InsertItem(draft) => self.insert_item(draft, steps),
            Call::MoveItem(item, spot) => self.move_item(item, spot, steps),
            Call::SetItem(item, words, date) => self.set_item(item, words, date, steps),
            Call::SetModified(item, date) => Ok(self.set_modified(item, date, steps)),
            Call::RemoveItem(item) => self.remove_item(item, steps),
        }
    }
}
