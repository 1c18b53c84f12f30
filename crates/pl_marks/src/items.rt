// What is computed of the items of a page.
ghost use Rattle.std.specs.Prelude.{◌≡◌, false, IfOk, []};
ghost use Rattle.pl_base.specs.Good.{IsGood};
ghost use Rattle.pl_base.specs.Rows.{store_of};
ghost use Rattle.pl_marks.specs.Figures.{AreItemFiguresOf};

use crate::bookmarks::mark_title;
use crate::mark::is_referenced;
use crate::tags::{is_bookmarked, tag_text};
use pl_base::{NoMemory, PageId, Rows, Steps, Txt};
use std::alloc::Global;
use std::sync::ledger::Ledger;

/// The part of a page's view that follows from the items that have it.
#[derive(Debug, Drop)]
pub struct ItemFigures {
    pub mark_title: Txt,
    pub tags: Txt,
    pub bookmarked: bool,
    pub referenced: bool,
}

impl ItemFigures {
    // Those of a page that no item has.
    fn none(alloc: Global) -> Result<ItemFigures, NoMemory>
        ensures { IfOk result (λ figures. figures ≡ record {
          mark_title = [];
          tags = [];
          bookmarked = false;
          referenced = false;
        }) }
    {
        Ok(ItemFigures {
            mark_title: Txt::copied(alloc, "")?,
            tags: Txt::copied(alloc, "")?,
            bookmarked: false,
            referenced: false,
        })
    }
}

/// What follows from the items of a page. Where it has none, nothing else is looked for.
pub fn item_figures<R: Rows, L: Ledger>(
    alloc: Global,
    rows: &R,
    page: PageId,
    steps: &mut Steps<L>,
) -> Result<ItemFigures, NoMemory>
    requires good { IsGood (store_of (R.kept rows.now)) }
    ensures { IfOk result (λ figures.
        AreItemFiguresOf (store_of (R.kept rows.now)) page figures) }
{
    if !is_referenced(rows, page, steps) {
        return ItemFigures::none(alloc);
    }
    Ok(ItemFigures {
        mark_title: mark_title(alloc, rows, page, steps)?,
        tags: tag_text(alloc, rows, page, steps)?,
        bookmarked: is_bookmarked(rows, page, steps),
        referenced: true,
    })
}
