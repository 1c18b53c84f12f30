ghost use Rattle.std.specs.Prelude.{◌≡◌, List, IfOk};
ghost use Rattle.pl_base.specs.Store.{Item};
ghost use Rattle.pl_check.specs.Items.{AreReferences, has_reference, referenced_pages};

use crate::numbers::Numbers;
use pl_base::{NoMemory, PageId, TreeItem};
use std::alloc::Global;
use std::marker::Model;

/// The pages that items have, which contracts see as their numbers.
#[derive(Debug, Drop)]
pub struct References {
    pages: Numbers,
}

impl Model for References {
    ghost use Rattle.std.specs.Prelude.{ℕ, List};

    ghost Value = { List ℕ };

    ghost view = { λ r. r.pages };
}

impl References {
    pub fn of(alloc: Global, items: &[TreeItem]) -> Result<References, NoMemory>
        ensures { IfOk result (λ pages. AreReferences items.now pages) }
    {
        let pages = Numbers::of(referenced_pages(alloc, items)?);
        Ok(References { pages })
    }

    /// Whether one of the items has the page.
    pub fn has(&self, page: PageId) -> bool
        ensures { (items : List Item) → AreReferences items self.now
            → result ≡ has_reference items page }
    {
        self.pages.has(page.0)
    }
}

fn referenced_pages(alloc: Global, items: &[TreeItem]) -> Result<Vec<u32>, NoMemory>
    ensures { IfOk result (λ pages. pages.items ≡ referenced_pages items.now) }
{
    let pages = items.iter().filter_map(|item| item.page.map(|page| page.0));
    Ok(pages.collect(alloc)?)
}
