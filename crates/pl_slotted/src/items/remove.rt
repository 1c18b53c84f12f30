// An item that goes.
ghost use Rattle.std.specs.Prelude.{◌≡◌, ℕ, List, [], true};
ghost use Rattle.pl_base.specs.Rows.{with_items};
ghost use Rattle.pl_base.specs.Tree.{children_of, has_item, removed};

use crate::slotted::Slotted;
use pl_base::{ItemId, Steps};
use pl_record::{read_item, remove_item};
use std::sync::ledger::Ledger;

impl Slotted {
    ghost use Rattle.pl_slotted.specs.Slotted.{IsBase, kept_of};

    /// The item goes, which has no child. No memory is taken.
    pub fn remove_item<L: Ledger>(&mut self, item: ItemId, steps: &mut Steps<L>)
        requires item { has_item (kept_of self.old).items item ≡ true }
        requires leaf { children_of (kept_of self.old).items item ≡ [] }
        ensures kept { kept_of self.new
            ≡ with_items (removed item (kept_of self.old).items) (kept_of self.old) }
        ensures base { (bytes : List ℕ) → IsBase self.old bytes → IsBase self.new bytes }
    {
        let slot = self.item_slot(item);
        let title = read_item(&self.arena, slot, steps).title;
        remove_item(&mut self.arena, slot, steps);
        let gone = 1 + title.slots();
        let live = self.arena.live() - gone;
        self.arena.set_live(live);
        self.items.remove(item.0);
    }
}
