// What is kept of one origin.
ghost use Rattle.std.specs.Prelude.{◌≡◌, ◌+◌, ◌-◌, ◌<◌, ◌≤◌, ◌^◌, ◌↔◌, [], IsTrue, OnOk};
ghost use Rattle.pl_totals.specs.Held.{after, held_of, nothing};

use pl_base::{NoMemory, PageId};
use std::alloc::Global;
use std::collections::BTreeSet;

// The total of an origin, and its pages.
#[derive(Drop)]
pub struct Kept {
    pub total: u64,
    pub pages: BTreeSet<PageId>,
}

// What becomes of the pages of an origin.
#[derive(Clone, Copy)]
pub enum Pages {
    Comes(PageId),
    Goes(PageId),
    Stay,
}

// What a change of one page changes of its origin: of its total one share goes, and another comes.
#[derive(Clone, Copy)]
pub struct Step {
    pub pages: Pages,
    pub from: u64,
    pub to: u64,
}

impl Kept {
    pub fn none(alloc: Global) -> Kept
        ensures { held_of result ≡ nothing }
    {
        Kept {
            total: 0,
            pages: BTreeSet::new(alloc),
        }
    }

    pub fn is_empty(&self) -> bool
        ensures { IsTrue result ↔ (self.now.pages.keys ≡ []) }
    {
        self.pages.is_empty()
    }

    pub fn apply(&mut self, step: Step) -> Result<(), NoMemory>
        requires from { step.from ≤ self.old.total }
        requires fits { self.old.total - step.from + step.to < 2 ^ 64 }
        ensures { OnOk result (held_of self.new ≡ after step (held_of self.old)) }
    {
        self.total = self.total - step.from + step.to;
        match step.pages {
            Pages::Comes(page) => {
                self.pages.insert(page)?;
            }
            Pages::Goes(page) => {
                self.pages.remove(&page);
            }
            Pages::Stay => {}
        }
        Ok(())
    }
}
