// Items, changed.
mod changes;
mod insert;
mod moves;
mod remove;

ghost use Rattle.std.specs.Prelude.{◌≡◌, true, IfSome, Some};
ghost use Rattle.std.specs.Option.{option_and_then};
ghost use Rattle.pl_base.specs.declared.id.ItemId.{ItemId as Number};
ghost use Rattle.pl_base.specs.Tree.{has_item};
ghost use Rattle.pl_record.specs.LinkedRows as index;

use crate::slotted::Slotted;
use pl_base::{ItemId, Slot};

impl Slotted {
    ghost use Rattle.pl_slotted.specs.Slotted.{kept_of};

    // The slot of an item that is there.
    pub(crate) fn item_slot(&self, item: ItemId) -> Slot
        requires { has_item (kept_of self.now).items item ≡ true }
        ensures { index.slot_at self.now.items.entries item.0 ≡ Some result }
    {
        match self.items.slot_at(item.0) {
            Some(slot) => slot,
            None => unreachable!(),
        }
    }

    // The slot of an item that is there, if one is named.
    pub(crate) fn slot_after(&self, after: Option<ItemId>) -> Option<Slot>
        requires { IfSome after (λ id. has_item (kept_of self.now).items id ≡ true) }
        ensures { result ≡ option_and_then (λ (id : Number). index.slot_at
            self.now.items.entries id.0) after }
    {
        match after {
            Some(after) => Some(self.item_slot(after)),
            None => None,
        }
    }
}
