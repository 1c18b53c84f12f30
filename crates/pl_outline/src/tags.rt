// The tags of pages, each asked for once: many bookmarks may have one page.
ghost use Rattle.std.specs.Prelude.{◌≡◌, IfOk, OnOk};
ghost use Rattle.pl_base.specs.Good.{IsGood};
ghost use Rattle.pl_base.specs.Rows.{store_of};
ghost use Rattle.pl_base.specs.Store.{Store};
ghost use Rattle.pl_base.specs.Tags as tags;
ghost use Rattle.pl_outline.specs.KnownTags.{KnowsTags};

use pl_base::{NoMemory, PageId, Rows, Seq, Steps};
use pl_marks::page_tags;
use pl_words::TagName;
use std::alloc::Global;
use std::collections::BTreeMap;
use std::sync::ledger::Ledger;

/// The tags of the pages that were asked for.
#[derive(Drop)]
pub(crate) struct KnownTags {
    by_page: BTreeMap<u32, Seq<TagName>>,
}

impl KnownTags {
    /// Those of no page yet.
    pub fn new(alloc: Global) -> KnownTags
        ensures { (store : Store) → KnowsTags store result }
    {
        KnownTags {
            by_page: BTreeMap::new(alloc),
        }
    }

    /// The tags of a page, in the order of their folds.
    pub fn of_page<R: Rows, L: Ledger>(
        &mut self,
        alloc: Global,
        rows: &R,
        page: PageId,
        steps: &mut Steps<L>,
    ) -> Result<Seq<TagName>, NoMemory>
        requires good { IsGood (store_of (R.kept rows.now)) }
        requires known { KnowsTags (store_of (R.kept rows.now)) self.old }
        ensures tags { IfOk result (λ names.
            names ≡ tags.page_tags (store_of (R.kept rows.now)) page) }
        ensures known { OnOk result (KnowsTags (store_of (R.kept rows.now)) self.new) }
    {
        if let Some(names) = self.by_page.get(&page.0) {
            return copied(alloc, names.as_slice());
        }
        let names = page_tags(alloc, rows, page, steps)?;
        let copy = copied(alloc, names.as_slice())?;
        self.by_page.insert(page.0, names)?;
        Ok(copy)
    }
}

fn copied(alloc: Global, names: &[TagName]) -> Result<Seq<TagName>, NoMemory>
    ensures { IfOk result (λ copy. copy ≡ names.now) }
{
    let mut copy = Vec::new(alloc);
    for name in names {
        copy.push(TagName::of(alloc, name.text())?)?;
    }
    Ok(Seq::from(copy))
}
