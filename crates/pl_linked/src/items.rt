// Items, read.
ghost use Rattle.std.specs.Prelude.{◌≡◌, ◌≤◌, ◌+◌, length, true, IfOk, IfSome, IsSomeAnd, Some};
ghost use Rattle.std.specs.Option.{option_and_then, option_map};
ghost use Rattle.pl_base.specs.Rows.{most_reads};
ghost use Rattle.pl_base.specs.Tree.{children_of, first_item, has_item, item_at, item_row};
ghost use Rattle.pl_base.specs.Tree.{item_title, last_item, reference_behind, references};
ghost use Rattle.pl_base.specs.Tree.{sibling_behind};
ghost use Rattle.pl_record.specs.LinkedRows as index;
ghost use Rattle.pl_record.specs.Rows as spec;
ghost use Rattle.pl_slot.specs.declared.kind.SlotKind.TheVariants as kinds;
ghost use Rattle.pl_slot.specs.Links.{kind_at};

use crate::linked::Linked;
use pl_base::{ItemId, ItemRow, NoMemory, PageId, Slot, Steps, Txt};
use pl_rail::{Owner, first, last, next};
use pl_record::{Item, named, read_item, read_place};
use pl_slot::{Arena, Rail};
use pl_text::load;
use std::sync::ledger::Ledger;

// The id of the item in a slot, if there is one.
fn id_in<L: Ledger>(arena: &Arena, slot: Option<Slot>, steps: &mut Steps<L>) -> Option<ItemId>
    requires item { IfSome slot (λ s. kind_at s.0 arena.now ≡ Some kinds.Item) }
    ensures id { result ≡ option_and_then (spec.item_in arena.now) slot }
    ensures few { steps.new ≤ steps.old + 1 }
{
    match slot {
        Some(slot) => Some(read_item(arena, slot, steps).id),
        None => None,
    }
}

// The id of the page in a slot, if there is one.
fn page_in<L: Ledger>(arena: &Arena, slot: Option<Slot>, steps: &mut Steps<L>) -> Option<PageId>
    requires page { IfSome slot (λ s. kind_at s.0 arena.now ≡ Some kinds.Place) }
    ensures id { result ≡ option_and_then (spec.page_in arena.now) slot }
    ensures few { steps.new ≤ steps.old + 1 }
{
    match slot {
        Some(slot) => Some(read_place(arena, slot, steps).id),
        None => None,
    }
}

impl Linked {
    ghost use Rattle.pl_linked.specs.Linked.{kept_of};

    /// How many items there are, the roots among them.
    pub fn items<L: Ledger>(&self, steps: &mut Steps<L>) -> u32
        ensures items { result ≡ length (kept_of self.now).items }
        ensures cost { steps.new ≤ steps.old + most_reads }
    {
        self.slots.items.len() as u32
    }

    pub fn item_at<L: Ledger>(&self, item: ItemId, steps: &mut Steps<L>) -> Option<ItemRow>
        ensures row { result ≡ option_map (item_row (kept_of self.now).items)
            (item_at (kept_of self.now).items item) }
        ensures cost { steps.new ≤ steps.old + most_reads }
    {
        let slot = self.slots.items.slot_at(item.0)?;
        let row = read_item(&self.slots.arena, slot, steps);
        Some(ItemRow {
            kind: row.kind,
            parent: id_in(&self.slots.arena, named(row.parent), steps),
            page: page_in(&self.slots.arena, named(row.page), steps),
            added: row.added,
            modified: row.modified,
        })
    }

    pub fn item_title<L: Ledger>(&self, item: ItemId, steps: &mut Steps<L>) -> Result<Txt, NoMemory>
        requires { has_item (kept_of self.now).items item ≡ true }
        ensures title { IfOk result (λ title.
            Some title ≡ item_title (kept_of self.now).items item) }
    {
        let title = self.row_of(item, steps).title;
        load(
            self.alloc,
            &self.slots.arena,
            title.slot,
            title.length,
            steps,
        )
    }

    // The row of an item that is there.
    fn row_of<L: Ledger>(&self, item: ItemId, steps: &mut Steps<L>) -> Item
        requires { has_item (kept_of self.now).items item ≡ true }
        ensures row { IsSomeAnd (index.slot_at self.now.slots.items.entries item.0) (λ slot.
            spec.row_in slot self.now.slots.arena ≡ Some (spec.item_row result)) }
        ensures counted { steps.new ≡ steps.old + 1 }
    {
        match self.slots.items.slot_at(item.0) {
            Some(slot) => read_item(&self.slots.arena, slot, steps),
            None => unreachable!(),
        }
    }

    pub fn first_child<L: Ledger>(&self, item: ItemId, steps: &mut Steps<L>) -> Option<ItemId>
        ensures first { result ≡ first_item (children_of (kept_of self.now).items item) }
        ensures cost { steps.new ≤ steps.old + most_reads }
    {
        let slot = self.slots.items.slot_at(item.0)?;
        let child = first(&self.slots.arena, Rail::Children, Owner::At(slot), steps);
        id_in(&self.slots.arena, child, steps)
    }

    pub fn last_child<L: Ledger>(&self, item: ItemId, steps: &mut Steps<L>) -> Option<ItemId>
        ensures last { result ≡ last_item (children_of (kept_of self.now).items item) }
        ensures cost { steps.new ≤ steps.old + most_reads }
    {
        let slot = self.slots.items.slot_at(item.0)?;
        let child = last(&self.slots.arena, Rail::Children, Owner::At(slot), steps);
        id_in(&self.slots.arena, child, steps)
    }

    /// The child of the same item that comes next.
    pub fn next_sibling<L: Ledger>(&self, item: ItemId, steps: &mut Steps<L>) -> Option<ItemId>
        ensures next { result ≡ sibling_behind (kept_of self.now).items item }
        ensures cost { steps.new ≤ steps.old + most_reads }
    {
        let slot = self.slots.items.slot_at(item.0)?;
        named(read_item(&self.slots.arena, slot, steps).parent)?;
        let sibling = next(&self.slots.arena, Rail::Children, slot, steps);
        id_in(&self.slots.arena, sibling, steps)
    }

    /// The first by id of the items that have this page.
    pub fn first_reference<L: Ledger>(&self, page: PageId, steps: &mut Steps<L>) -> Option<ItemId>
        ensures first { result ≡ first_item (references (kept_of self.now).items page) }
        ensures cost { steps.new ≤ steps.old + most_reads }
    {
        let slot = self.slots.pages.slot_at(page.0)?;
        let item = first(&self.slots.arena, Rail::References, Owner::At(slot), steps);
        id_in(&self.slots.arena, item, steps)
    }

    /// The next by id of the items that have the same page.
    pub fn next_reference<L: Ledger>(&self, item: ItemId, steps: &mut Steps<L>) -> Option<ItemId>
        ensures next { result ≡ reference_behind (kept_of self.now).items item }
        ensures cost { steps.new ≤ steps.old + most_reads }
    {
        let slot = self.slots.items.slot_at(item.0)?;
        named(read_item(&self.slots.arena, slot, steps).page)?;
        let other = next(&self.slots.arena, Rail::References, slot, steps);
        id_in(&self.slots.arena, other, steps)
    }
}
