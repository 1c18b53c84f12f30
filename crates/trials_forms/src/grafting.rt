// A bookmark file that is put into rows, and all that goes again.
ghost use Rattle.pl_nbread.specs.WellFormed.{AreWellFormed};

use crate::{Answer, GoodRows, ImportError};
use pl_base::{Ids, ItemId, NoMemory, Rows, SLOT_LIMIT, Steps, Touched};
use pl_graft::{MOST_ROWS, graft, needed, row_count};
use pl_nbread::{FILE_LIMIT, Tree, read};
use std::sync::ledger::Ledger;
use std::test::Fail;

impl<R: Rows + Drop> GoodRows<R> {
    /// With the bookmarks of a file.
    pub fn import<L: Ledger>(self, file: &str, steps: &mut Steps<L>) -> Result<Self, ImportError> {
        if file.len() >= FILE_LIMIT {
            return Err(ImportError::NoFile);
        }
        let tree = read(self.alloc, file.as_bytes())?;
        self.graft(&tree, steps)
    }

    fn graft<L: Ledger>(self, tree: &Tree, steps: &mut Steps<L>) -> Result<Self, ImportError>
        requires { AreWellFormed tree.now }
    {
        if row_count(tree) > MOST_ROWS {
            return Err(ImportError::NoFile);
        }
        let cost = needed(self.alloc, &self.rows, tree, steps)?;
        let ids = self.rows.ids(steps);
        if cost.pages > u64::from(Ids::END - ids.page)
            || cost.items > u64::from(Ids::END - ids.item)
            || cost.live > u64::from(SLOT_LIMIT)
        {
            return Err(ImportError::NoRoom);
        }
        let GoodRows { alloc, mut rows } = self;
        graft(alloc, &mut rows, tree, steps)?;
        Ok(GoodRows { alloc, rows })
    }

    /// Without what stands in a folder, where that is no more than so many.
    pub fn without_items<L: Ledger>(
        self,
        folder: ItemId,
        most: u32,
        steps: &mut Steps<L>,
    ) -> Result<Self, Fail> {
        let mut good = self;
        for _ in 0..most {
            let Some(item) = good.rows.first_child(folder, steps) else {
                return Ok(good);
            };
            good = good.without_item(item, steps)?;
        }
        Err("too many items".into())
    }

    fn without_item<L: Ledger>(self, item: ItemId, steps: &mut Steps<L>) -> Result<Self, Fail> {
        let (good, answer) = self.remove_item(item, steps)?;
        if answer != Answer::Done {
            return Err("an item that stays".into());
        }
        Ok(good)
    }

    /// Without any page, where there are no more than so many, and nothing keeps one.
    pub fn without_pages<L: Ledger>(self, most: u32, steps: &mut Steps<L>) -> Result<Self, Fail> {
        let mut good = self;
        for _ in 0..most {
            let Some(page) = good.rows.page_after(None, steps) else {
                return Ok(good);
            };
            let (rest, answer) = good.remove_page(page, steps);
            if answer != Answer::Done {
                return Err("a page that stays".into());
            }
            good = rest;
        }
        Err("too many pages".into())
    }

    /// The pages of the bytes that changed.
    pub fn touched<L: Ledger>(self, steps: &mut Steps<L>) -> Result<(Self, Touched), NoMemory> {
        let GoodRows { alloc, mut rows } = self;
        let change = rows.touched(steps)?;
        Ok((GoodRows { alloc, rows }, change))
    }
}
