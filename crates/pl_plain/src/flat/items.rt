// Changes of the items, with the slots that they take.
ghost use Rattle.std.specs.Prelude.{◌≡◌, ◌≤◌, ◌<◌, [], length, true};
ghost use Rattle.std.specs.Prelude.{IfOk, IfSome, IsSomeAnd, OnOk};
ghost use Rattle.pl_base.specs.Good.{end_of_ids, longest_title};
ghost use Rattle.pl_base.specs.Live.{slot_limit};
ghost use Rattle.pl_base.specs.Rows.{live_with_item, live_with_item_title, with_item, with_items};
ghost use Rattle.pl_base.specs.Tree.{children_of, has_item, parent_of, removed, retitled};

use crate::Flat;
use pl_base::{ItemId, ItemRow, Micros, NoMemory, Txt, chunks};

impl Flat {
    ghost use Rattle.std.specs.Prelude.{ℕ, List};
    ghost use Rattle.pl_plain.specs.Flat.{kept_of};

    /// A new item, the child of its row's parent behind the given one, or the first child.
    pub(crate) fn add_item(
        &mut self,
        row: &ItemRow,
        title: &str,
        after: Option<ItemId>,
    ) -> Result<ItemId, NoMemory>
        requires parent { IsSomeAnd row.now.parent (λ id. has_item self.old.items id ≡ true) }
        requires after { IfSome after (λ id. parent_of self.old.items id ≡ row.now.parent) }
        requires title { length title.now ≤ longest_title }
        requires id { self.old.ids.item < end_of_ids }
        requires live { live_with_item row.now title.now after (kept_of self.old) ≤ slot_limit }
        ensures item { IfOk result (λ item. item.0 ≡ self.old.ids.item) }
        ensures kept { OnOk result (kept_of self.new
            ≡ with_item row.now title.now after (kept_of self.old)) }
    {
        let id = ItemId(self.ids.item);
        let text = Txt::copied(self.alloc, title)?;
        self.items.insert(id, row, text, after)?;
        self.ids.item += 1;
        self.live += 1 + chunks(title);
        Ok(id)
    }

    /// Gives an item its title and its modified date.
    pub(crate) fn retitle_item(
        &mut self,
        item: ItemId,
        title: &str,
        modified: Micros,
    ) -> Result<(), NoMemory>
        requires item { has_item self.old.items item ≡ true }
        requires title { length title.now ≤ longest_title }
        requires live { live_with_item_title item title.now modified (kept_of self.old)
            ≤ slot_limit }
        ensures kept { OnOk result (kept_of self.new
            ≡ with_items (retitled item title.now modified self.old.items) (kept_of self.old)) }
    {
        let text = Txt::copied(self.alloc, title)?;
        let old = chunks(self.items.title(item).unwrap());
        self.items.set(item, text, modified);
        self.live = self.live - old + chunks(title);
        Ok(())
    }

    /// Drops an item, which has no child.
    pub(crate) fn drop_item(&mut self, item: ItemId)
        requires item { has_item self.old.items item ≡ true }
        requires leaf { children_of self.old.items item ≡ [] }
        ensures kept { kept_of self.new
            ≡ with_items (removed item self.old.items) (kept_of self.old) }
    {
        let old = chunks(self.items.title(item).unwrap());
        self.items.remove(item);
        self.live -= 1 + old;
    }
}
