// An item that moves.
ghost use Rattle.std.specs.Prelude.{◌≡◌, ◌≢◌, ℕ, List, Some, true, false, IfSome};
ghost use Rattle.pl_base.specs.Rows.{with_items};
ghost use Rattle.pl_base.specs.Tree.{IsFolder, has_item, lies_in, moved, parent_of};

use crate::slotted::Slotted;
use pl_base::{ItemId, Steps};
use pl_record::move_item;
use std::sync::ledger::Ledger;

impl Slotted {
    ghost use Rattle.pl_slotted.specs.Slotted.{IsBase, kept_of};

    /// The item becomes a child of this parent, behind the given one, or the first child. No memory
    /// is taken.
    pub fn move_item<L: Ledger>(
        &mut self,
        item: ItemId,
        parent: ItemId,
        after: Option<ItemId>,
        steps: &mut Steps<L>,
    )
        requires item { has_item (kept_of self.old).items item ≡ true }
        requires parent { IsFolder (kept_of self.old).items parent }
        requires outside { lies_in (kept_of self.old).items item parent ≡ false }
        requires after { IfSome after (λ id.
            (id ≢ item) × (parent_of (kept_of self.old).items id ≡ Some parent)) }
        ensures kept { kept_of self.new
            ≡ with_items (moved item parent after (kept_of self.old).items) (kept_of self.old) }
        ensures base { (bytes : List ℕ) → IsBase self.old bytes → IsBase self.new bytes }
    {
        let slot = self.item_slot(item);
        let parent = self.item_slot(parent);
        let after = self.slot_after(after);
        move_item(&mut self.arena, slot, parent, after, steps);
    }
}
