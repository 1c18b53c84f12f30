// The titles of pages, set: the slots of the old one are given back before the new one is stored.
ghost use Rattle.std.specs.Prelude.{◌≡◌, ◌≤◌, ℕ, List, [], Some, OnOk, length, true};
ghost use Rattle.pl_base.specs.Good.{longest_title};
ghost use Rattle.pl_base.specs.Live.{slot_limit};
ghost use Rattle.pl_base.specs.Rows.{has_page, live_with_title, title_of, with_title};

use crate::slotted::Slotted;
use pl_base::{NoMemory, PageId, Steps};
use pl_record::{TextAt, put_title, read_place};
use pl_text::{free, store};
use std::sync::ledger::Ledger;

impl Slotted {
    ghost use Rattle.pl_slotted.specs.Slotted.{IsBase, kept_of};

    /// Without memory for the new title the page has an empty one.
    pub fn set_title<L: Ledger>(
        &mut self,
        page: PageId,
        title: &str,
        steps: &mut Steps<L>,
    ) -> Result<(), NoMemory>
        requires page { has_page (kept_of self.old) page ≡ true }
        requires title { length title.now ≤ longest_title }
        requires live { live_with_title page title.now (kept_of self.old) ≤ slot_limit }
        ensures kept { OnOk result (kept_of self.new
            ≡ with_title page title.now (kept_of self.old)) }
        ensures base { OnOk result ((bytes : List ℕ)
            → IsBase self.old bytes → IsBase self.new bytes) }
    {
        self.drop_title(page, steps);
        self.give_title(page, title, steps)
    }

    // The page has an empty title from then on, and its slots are free.
    fn drop_title<L: Ledger>(&mut self, page: PageId, steps: &mut Steps<L>)
        requires page { has_page (kept_of self.old) page ≡ true }
        ensures kept { kept_of self.new ≡ with_title page [] (kept_of self.old) }
        ensures base { (bytes : List ℕ) → IsBase self.old bytes → IsBase self.new bytes }
    {
        let slot = self.page_slot(page);
        let old = read_place(&self.arena, slot, steps).title;
        free(&mut self.arena, old.slot, steps);
        put_title(&mut self.arena, slot, TextAt::NONE, steps);
        let live = self.arena.live() - old.slots();
        self.arena.set_live(live);
    }

    // A page with an empty title gets this one.
    fn give_title<L: Ledger>(
        &mut self,
        page: PageId,
        title: &str,
        steps: &mut Steps<L>,
    ) -> Result<(), NoMemory>
        requires bare { title_of (kept_of self.old) page ≡ Some [] }
        requires title { length title.now ≤ longest_title }
        requires live { live_with_title page title.now (kept_of self.old) ≤ slot_limit }
        ensures kept { OnOk result (kept_of self.new
            ≡ with_title page title.now (kept_of self.old)) }
        ensures base { OnOk result ((bytes : List ℕ)
            → IsBase self.old bytes → IsBase self.new bytes) }
    {
        let slot = self.page_slot(page);
        let text = TextAt {
            slot: store(&mut self.arena, title.as_bytes(), steps)?,
            length: title.len() as u32,
        };
        put_title(&mut self.arena, slot, text, steps);
        let live = self.arena.live() + text.slots();
        self.arena.set_live(live);
        Ok(())
    }
}
