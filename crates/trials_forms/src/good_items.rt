// The calls on the bookmark tree of rows whose items stay those of a good store. What the tree
// refuses is not called.
ghost use Rattle.std.specs.Prelude.{◌≡◌, ◌↔◌, false, None, IfOk, IsSome};
ghost use Rattle.pl_tree.specs.Refused.{refusal};

use crate::asked::{has_item, has_page_of, has_room};
use crate::good::Made;
use crate::{Answer, Draft, GoodRows, Spot, Words, kept};
use pl_base::{ItemId, ItemKind, LONGEST_TITLE, Micros, NoMemory, PageId, Rows, Steps, chunks};
use pl_tree::{NewItem, TreeChange, move_to, refused, remove};
use std::alloc::Global;
use std::sync::ledger::Ledger;
use std::test::Fail;

// The page of a bookmark.
fn page_of(draft: Draft) -> Option<PageId>
    ensures { IsSome result ↔ (draft.kind ≡ ItemKind.Bookmark) }
{
    match draft.kind {
        ItemKind::Bookmark => Some(draft.page),
        ItemKind::Folder | ItemKind::Separator => None,
    }
}

fn new_item(alloc: Global, draft: Draft) -> Result<NewItem, NoMemory>
    ensures { IfOk result (λ item. IsSome item.page ↔ (item.kind ≡ ItemKind.Bookmark)) }
{
    let title = draft.title.text(alloc)?;
    Ok(NewItem {
        kind: draft.kind,
        title,
        page: page_of(draft),
        date: draft.spot.date,
    })
}

impl<R: Rows + Drop> GoodRows<R> {
    fn is_refused<L: Ledger>(&self, change: TreeChange, steps: &mut Steps<L>) -> bool
        ensures { result ≡ false → refusal (R.kept self.now.rows).items change ≡ None }
    {
        refused(&self.rows, &change, steps).is_some()
    }

    pub fn insert_item<L: Ledger>(
        self,
        draft: Draft,
        steps: &mut Steps<L>,
    ) -> Result<Made<R>, Fail> {
        let item = new_item(self.alloc, draft)?;
        let Spot { parent, place, .. } = draft.spot;
        if self.is_refused(TreeChange::Insert { parent, place }, steps)
            || !has_page_of(&self.rows, item.page, steps)
            || item.title.as_str().len() > LONGEST_TITLE
            || item.date > Micros::LAST
            || !has_room(&self.rows, chunks(item.title.as_str()) + 1, steps)
        {
            return Ok((self, Answer::Passed));
        }
        let GoodRows { alloc, mut rows } = self;
        let id = kept::insert_item(&mut rows, parent, place, &item, steps)?;
        Ok((GoodRows { alloc, rows }, Answer::Item(id)))
    }

    pub fn move_item<L: Ledger>(
        self,
        item: ItemId,
        spot: Spot,
        steps: &mut Steps<L>,
    ) -> Result<Made<R>, Fail> {
        let Spot {
            parent,
            place,
            date,
        } = spot;
        let change = TreeChange::Move {
            item,
            parent,
            place,
        };
        if self.is_refused(change, steps) || date > Micros::LAST {
            return Ok((self, Answer::Passed));
        }
        let GoodRows { alloc, mut rows } = self;
        move_to(&mut rows, item, parent, place, date, steps)?;
        Ok((GoodRows { alloc, rows }, Answer::Done))
    }

    pub fn set_item<L: Ledger>(
        self,
        item: ItemId,
        words: Words,
        date: Micros,
        steps: &mut Steps<L>,
    ) -> Result<Made<R>, Fail> {
        let text = words.text(self.alloc)?;
        let title = text.as_str();
        if self.is_refused(TreeChange::Retitle { item }, steps)
            || !has_item(&self.rows, item, steps)
            || title.len() > LONGEST_TITLE
            || date > Micros::LAST
            || !has_room(&self.rows, chunks(title), steps)
        {
            return Ok((self, Answer::Passed));
        }
        let GoodRows { alloc, mut rows } = self;
        kept::set_item(&mut rows, item, title, date, steps)?;
        Ok((GoodRows { alloc, rows }, Answer::Done))
    }

    /// The modified date of an item that may have another title.
    pub fn set_modified<L: Ledger>(
        self,
        item: ItemId,
        date: Micros,
        steps: &mut Steps<L>,
    ) -> Made<R> {
        if self.is_refused(TreeChange::Retitle { item }, steps)
            || !has_item(&self.rows, item, steps)
            || date > Micros::LAST
        {
            return (self, Answer::Passed);
        }
        let GoodRows { alloc, mut rows } = self;
        kept::set_modified(&mut rows, item, date, steps);
        (GoodRows { alloc, rows }, Answer::Done)
    }

    /// The item goes, with all below it.
    pub fn remove_item<L: Ledger>(
        self,
        item: ItemId,
        steps: &mut Steps<L>,
    ) -> Result<Made<R>, Fail> {
        if self.is_refused(TreeChange::Remove { item }, steps) {
            return Ok((self, Answer::Passed));
        }
        let GoodRows { alloc, mut rows } = self;
        remove(alloc, &mut rows, item, steps)?;
        Ok((GoodRows { alloc, rows }, Answer::Done))
    }
}
