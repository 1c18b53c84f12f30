// An item that comes.
ghost use Rattle.std.specs.Prelude.{◌≡◌, ◌↔◌, ◌≤◌, ◌<◌, ◌+◌, ◌++◌, ◌∷◌, [], ◌^◌, ℕ, List, Some};
ghost use Rattle.std.specs.Prelude.{length, true, IfOk, IfSome, IsSome, IsSomeAnd, OnErr, OnOk};
ghost use Rattle.std.specs.List.{AllByRecursion};
ghost use Rattle.pl_base.specs.declared.id.Slot.{Slot as Number};
ghost use Rattle.pl_base.specs.Date.{IsDate};
ghost use Rattle.pl_base.specs.Good.{end_of_ids, longest_title};
ghost use Rattle.pl_base.specs.Live.{chunks, slot_limit};
ghost use Rattle.pl_base.specs.Rows.{has_page, live_with_item, with_item};
ghost use Rattle.pl_base.specs.Tree.{IsFolder, has_item, parent_of};
ghost use Rattle.pl_record.specs.ChainMap as maps;
ghost use Rattle.pl_record.specs.ItemChanges as spec;
ghost use Rattle.pl_record.specs.SlotChanges.{CountsItem, KeepsAll};
ghost use Rattle.pl_rail.specs.declared.owner.Owner.TheVariants as owners;
ghost use Rattle.pl_rail.specs.Rails as rails;
ghost use Rattle.pl_slot.specs.declared.kind.SlotKind.TheVariants as kinds;
ghost use Rattle.pl_slot.specs.declared.links.Rail.TheVariants.{Children, References};
ghost use Rattle.pl_slot.specs.Arena as slots;
ghost use Rattle.pl_slot.specs.Links.{kind_at};
ghost use Rattle.pl_text.specs.Chunks.{chunk_count};

use crate::slotted::Slotted;
use pl_base::{ItemId, ItemKind, ItemRow, NoMemory, Slot, Steps};
use pl_byid::SlotIndex;
use pl_record::{Item, TextAt, insert_item};
use pl_slot::Arena;
use std::sync::ledger::Ledger;

impl Slotted {
    ghost use Rattle.pl_slotted.specs.Slotted.{IsBase, kept_of};

    /// A new item with the next id, the child of its row's parent behind the given one, or the
    /// first child.
    pub fn insert_item<L: Ledger>(
        &mut self,
        row: &ItemRow,
        title: &str,
        after: Option<ItemId>,
        steps: &mut Steps<L>,
    ) -> Result<ItemId, NoMemory>
        requires parent { IsSomeAnd row.now.parent (IsFolder (kept_of self.old).items) }
        requires after { IfSome after (λ id.
            parent_of (kept_of self.old).items id ≡ row.now.parent) }
        requires bookmark { IsSome row.now.page ↔ (row.now.kind ≡ ItemKind.Bookmark) }
        requires page { IfSome row.now.page (λ id. has_page (kept_of self.old) id ≡ true) }
        requires title { length title.now ≤ longest_title }
        requires added { IsDate row.now.added }
        requires modified { IsDate row.now.modified }
        requires id { (kept_of self.old).ids.item < end_of_ids }
        requires live { live_with_item row.now title.now after (kept_of self.old) ≤ slot_limit }
        ensures item { IfOk result (λ item. item.0 ≡ (kept_of self.old).ids.item) }
        ensures kept { OnOk result (kept_of self.new
            ≡ with_item row.now title.now after (kept_of self.old)) }
        ensures base { OnOk result ((bytes : List ℕ)
            → IsBase self.old bytes → IsBase self.new bytes) }
    {
        let item = self.next_item(row);
        let after = self.slot_after(after);
        place_item(&mut self.arena, &mut self.items, item, title, after, steps)?;
        count_item(&mut self.arena, title.len() as u32);
        Ok(item.id)
    }

    // The item of a row, with the next id, the slots of its parent and its page, and no title.
    fn next_item(&self, row: &ItemRow) -> Item
        requires parent { IfSome row.now.parent (λ id.
            has_item (kept_of self.now).items id ≡ true) }
        requires page { IfSome row.now.page (λ id. has_page (kept_of self.now) id ≡ true) }
        ensures { spec.IsNextItem row.now self.now.pages.entries self.now.items.entries
            self.now.arena result }
    {
        Item {
            id: ItemId(self.arena.ids().item),
            kind: row.kind,
            parent: match row.parent {
                Some(parent) => self.item_slot(parent),
                None => Slot(0),
            },
            page: match row.page {
                Some(page) => self.page_slot(page),
                None => Slot(0),
            },
            title: TextAt::NONE,
            added: row.added,
            modified: row.modified,
        }
    }
}

// Puts a new item and its title into their slots, and its slot into the index, behind all others.
fn place_item<L: Ledger>(
    arena: &mut Arena,
    items: &mut SlotIndex,
    item: Item,
    title: &str,
    after: Option<Slot>,
    steps: &mut Steps<L>,
) -> Result<(), NoMemory>
    requires last { AllByRecursion (λ (e : ℕ × Number). e.0 < item.id.0) items.old.entries }
    requires parent { kind_at item.parent.0 arena.old ≡ Some kinds.Item }
    requires page { IfSome (rails.named item.page) (λ s.
        kind_at s.0 arena.old ≡ Some kinds.Place) }
    requires after { IfSome after (λ s.
        rails.HasMember Children (owners.At item.parent) s arena.old) }
    requires few { slots.live_count arena.old + 1 + chunks title.now ≤ slot_limit }
    requires chained { (chains : maps.ChainMap) × maps.AreChains chains arena.old
        × maps.AreApart Children chains × maps.AreApart References chains }
    ensures placed { OnOk result ((slot : Number)
        × spec.InsertsItem item title.now after slot arena.old arena.new
        × (items.new.entries ≡ items.old.entries ++ (item.id.0, slot) ∷ [])) }
    ensures err { OnErr result (KeepsAll arena.old arena.new) }
    ensures entries { OnErr result (items.new.entries ≡ items.old.entries) }
{
    items.push(item.id.0, Slot(0))?;
    match insert_item(arena, item, title, after, steps) {
        Ok(slot) => {
            items.set(item.id.0, slot);
            Ok(())
        }
        Err(error) => {
            items.remove(item.id.0);
            Err(error)
        }
    }
}

// The next id of an item, and the live slots with those of a new item.
fn count_item(arena: &mut Arena, length: u32)
    requires id { (slots.header_of arena.old).ids.item + 1 < 2 ^ 32 }
    requires live { (slots.header_of arena.old).live + 1 + chunk_count length < 2 ^ 32 }
    ensures { CountsItem (1 + chunk_count length) arena.old arena.new }
{
    prove!(arena.pages() > 0);
    let title = TextAt {
        slot: Slot(0),
        length,
    };
    let live = arena.live() + 1 + title.slots();
    let mut ids = arena.ids();
    ids.item += 1;
    arena.set_ids(&ids);
    arena.set_live(live);
}
