// Rows whose items stay those of a good store, and the calls on their pages and visits. A call
// whose conditions don't hold is not made.
ghost use Rattle.std.proofs.Props.{props};
ghost use Rattle.pl_base.specs.Good.{HasGoodItems};
ghost use Rattle.pl_base.specs.Rows.{store_of};

use crate::asked::{has_page, has_room, has_source, has_visit, is_idle};
use crate::{Address, Answer, Words, kept};
use pl_base::{
    Day, Ids, LONGEST_TITLE, Mark, Micros, PageId, Rows, Steps, VisitId, VisitRow, chunks,
};
use pl_link::split;
use std::alloc::Global;
use std::sync::ledger::Ledger;
use std::test::Fail;
use trials_trees::find_target;

/// Rows whose items are those of a good store, so that calls on the bookmark tree may follow.
#[derive(Drop)]
pub struct GoodRows<R: Rows> {
    pub alloc: Global,
    pub rows: R,
    ghost good: { HasGoodItems (store_of (R.kept rows)) } by { Prim.hlevel props },
}

/// The rows after a call, and what they answered.
pub type Made<R> = (GoodRows<R>, Answer);

impl<R: Rows + Drop> GoodRows<R> {
    pub fn over(alloc: Global, rows: R) -> Self
        requires { HasGoodItems (store_of (R.kept rows)) }
    {
        GoodRows { alloc, rows }
    }

    pub fn set_day<L: Ledger>(self, day: Day, steps: &mut Steps<L>) -> Made<R> {
        if day > Day::LAST {
            return (self, Answer::Passed);
        }
        let GoodRows { alloc, mut rows } = self;
        kept::set_day(&mut rows, day, steps);
        (GoodRows { alloc, rows }, Answer::Done)
    }

    /// A page of a URL that no page has.
    pub fn insert_page<L: Ledger>(
        self,
        address: Address,
        steps: &mut Steps<L>,
    ) -> Result<Made<R>, Fail> {
        let url = address.url(self.alloc)?;
        let parts = split(self.alloc, &url)?;
        let target = find_target(self.alloc, &self.rows, &url, &parts, steps)?;
        if !target.is_new()
            || self.rows.ids(steps).page >= Ids::END
            || !has_room(&self.rows, chunks(url.text()) + 2, steps)
        {
            return Ok((self, Answer::Passed));
        }
        let GoodRows { alloc, mut rows } = self;
        let page = kept::insert_page(&mut rows, &url, target, steps)?;
        Ok((GoodRows { alloc, rows }, Answer::Page(page)))
    }

    /// A page that has neither a visit nor an item goes.
    pub fn remove_page<L: Ledger>(self, page: PageId, steps: &mut Steps<L>) -> Made<R> {
        if !has_page(&self.rows, page, steps) || !is_idle(&self.rows, page, steps) {
            return (self, Answer::Passed);
        }
        let GoodRows { alloc, mut rows } = self;
        kept::remove_page(&mut rows, page, steps);
        (GoodRows { alloc, rows }, Answer::Done)
    }

    pub fn set_title<L: Ledger>(
        self,
        page: PageId,
        words: Words,
        steps: &mut Steps<L>,
    ) -> Result<Made<R>, Fail> {
        let text = words.text(self.alloc)?;
        let title = text.as_str();
        if !has_page(&self.rows, page, steps)
            || title.len() > LONGEST_TITLE
            || !has_room(&self.rows, chunks(title), steps)
        {
            return Ok((self, Answer::Passed));
        }
        let GoodRows { alloc, mut rows } = self;
        kept::set_title(&mut rows, page, title, steps)?;
        Ok((GoodRows { alloc, rows }, Answer::Done))
    }

    pub fn set_mark<L: Ledger>(self, page: PageId, mark: Mark, steps: &mut Steps<L>) -> Made<R> {
        if !has_page(&self.rows, page, steps) {
            return (self, Answer::Passed);
        }
        let GoodRows { alloc, mut rows } = self;
        kept::set_mark(&mut rows, page, mark, steps);
        (GoodRows { alloc, rows }, Answer::Done)
    }

    /// The total of the page's origin.
    pub fn set_total<L: Ledger>(self, page: PageId, total: u64, steps: &mut Steps<L>) -> Made<R> {
        if !has_page(&self.rows, page, steps) {
            return (self, Answer::Passed);
        }
        let GoodRows { alloc, mut rows } = self;
        kept::set_total(&mut rows, page, total, steps);
        (GoodRows { alloc, rows }, Answer::Done)
    }

    pub fn insert_visit<L: Ledger>(
        self,
        row: VisitRow,
        steps: &mut Steps<L>,
    ) -> Result<Made<R>, Fail> {
        if !has_page(&self.rows, row.page, steps)
            || row.date > Micros::LAST
            || !has_source(&self.rows, row.source, steps)
            || self.rows.ids(steps).visit >= Ids::END
            || !has_room(&self.rows, 1, steps)
        {
            return Ok((self, Answer::Passed));
        }
        let GoodRows { alloc, mut rows } = self;
        let visit = kept::insert_visit(&mut rows, &row, steps)?;
        Ok((GoodRows { alloc, rows }, Answer::Visit(visit)))
    }

    pub fn remove_visit<L: Ledger>(self, visit: VisitId, steps: &mut Steps<L>) -> Made<R> {
        if !has_visit(&self.rows, visit, steps) {
            return (self, Answer::Passed);
        }
        let GoodRows { alloc, mut rows } = self;
        kept::remove_visit(&mut rows, visit, steps);
        (GoodRows { alloc, rows }, Answer::Done)
    }
}
