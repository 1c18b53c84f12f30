// The titles and dates of items, set: the slots of an old title are given back before the new one
// is stored.
ghost use Rattle.std.specs.Prelude.{◌≡◌, ◌≤◌, ℕ, List, [], Some, OnOk, length, true};
ghost use Rattle.pl_base.specs.Date.{IsDate};
ghost use Rattle.pl_base.specs.Good.{longest_title};
ghost use Rattle.pl_base.specs.Live.{live_slots, slot_limit};
ghost use Rattle.pl_base.specs.Rows.{live_with_item_title, store_of, with_items};
ghost use Rattle.pl_base.specs.Tree.{has_item, item_title, redated, retitled};
ghost use Rattle.pl_record.specs.ItemTitles.{entitled};

use crate::slotted::Slotted;
use pl_base::{ItemId, Micros, NoMemory, Steps};
use pl_record::{TextAt, put_item_title, put_modified, read_item};
use pl_text::{free, store};
use std::sync::ledger::Ledger;

impl Slotted {
    ghost use Rattle.pl_slotted.specs.Slotted.{IsBase, kept_of};

    /// Without memory for the new title the item has an empty one.
    pub fn set_item<L: Ledger>(
        &mut self,
        item: ItemId,
        title: &str,
        modified: Micros,
        steps: &mut Steps<L>,
    ) -> Result<(), NoMemory>
        requires item { has_item (kept_of self.old).items item ≡ true }
        requires title { length title.now ≤ longest_title }
        requires modified { IsDate modified }
        requires live { live_with_item_title item title.now modified (kept_of self.old)
            ≤ slot_limit }
        ensures kept { OnOk result (kept_of self.new
            ≡ with_items (retitled item title.now modified (kept_of self.old).items)
            (kept_of self.old)) }
        ensures base { OnOk result ((bytes : List ℕ)
            → IsBase self.old bytes → IsBase self.new bytes) }
    {
        self.drop_item_title(item, steps);
        self.give_item_title(item, title, steps)?;
        self.set_modified(item, modified, steps);
        Ok(())
    }

    pub fn set_modified<L: Ledger>(&mut self, item: ItemId, modified: Micros, steps: &mut Steps<L>)
        requires item { has_item (kept_of self.old).items item ≡ true }
        requires modified { IsDate modified }
        ensures kept { kept_of self.new
            ≡ with_items (redated item modified (kept_of self.old).items) (kept_of self.old) }
        ensures base { (bytes : List ℕ) → IsBase self.old bytes → IsBase self.new bytes }
    {
        let slot = self.item_slot(item);
        put_modified(&mut self.arena, slot, modified, steps);
    }

    // The item has an empty title from then on, and its slots are free.
    fn drop_item_title<L: Ledger>(&mut self, item: ItemId, steps: &mut Steps<L>)
        requires item { has_item (kept_of self.old).items item ≡ true }
        ensures kept { kept_of self.new
            ≡ with_items (entitled item [] (kept_of self.old).items) (kept_of self.old) }
        ensures base { (bytes : List ℕ) → IsBase self.old bytes → IsBase self.new bytes }
    {
        let slot = self.item_slot(item);
        let old = read_item(&self.arena, slot, steps).title;
        free(&mut self.arena, old.slot, steps);
        put_item_title(&mut self.arena, slot, TextAt::NONE, steps);
        let live = self.arena.live() - old.slots();
        self.arena.set_live(live);
    }

    // An item with an empty title gets this one.
    fn give_item_title<L: Ledger>(
        &mut self,
        item: ItemId,
        title: &str,
        steps: &mut Steps<L>,
    ) -> Result<(), NoMemory>
        requires bare { item_title (kept_of self.old).items item ≡ Some [] }
        requires title { length title.now ≤ longest_title }
        requires live { live_slots (store_of
            (with_items (entitled item title.now (kept_of self.old).items) (kept_of self.old)))
            ≤ slot_limit }
        ensures kept { OnOk result (kept_of self.new
            ≡ with_items (entitled item title.now (kept_of self.old).items) (kept_of self.old)) }
        ensures base { OnOk result ((bytes : List ℕ)
            → IsBase self.old bytes → IsBase self.new bytes) }
    {
        let slot = self.item_slot(item);
        let text = TextAt {
            slot: store(&mut self.arena, title.as_bytes(), steps)?,
            length: title.len() as u32,
        };
        put_item_title(&mut self.arena, slot, text, steps);
        let live = self.arena.live() + text.slots();
        self.arena.set_live(live);
        Ok(())
    }
}
