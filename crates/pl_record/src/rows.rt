// What the rows of slots say beside their links. Each call reads one slot, and is inlined, so that
// a caller reads only the fields that it asks for.
ghost use Rattle.std.specs.Prelude.{◌≡◌, ◌+◌, Some};
ghost use Rattle.pl_record.specs.Rows as spec;
ghost use Rattle.pl_rail.specs.Rails as rails;
ghost use Rattle.pl_slot.specs.declared.kind.SlotKind.TheVariants as kinds;
ghost use Rattle.pl_slot.specs.Links.{kind_at};
ghost use Rattle.pl_text.specs.Chunks.{chunk_count};

use pl_base::{ItemId, ItemKind, Mark, Micros, PageId, Slot, Steps, Transition, VisitId};
use pl_slot::{Arena, PAYLOAD_SIZE, SlotRow};
use std::sync::ledger::Ledger;

/// A text: the slot of its first part, 0 for an empty one, and its length in bytes.
#[derive(Clone, Copy, Debug)]
pub struct TextAt {
    pub slot: Slot,
    pub length: u32,
}

impl TextAt {
    /// An empty one.
    pub const NONE: TextAt = TextAt {
        slot: Slot(0),
        length: 0,
    };

    /// How many slots it takes.
    pub fn slots(self) -> u32
        ensures { result ≡ chunk_count self.length }
    {
        self.length.div_ceil(PAYLOAD_SIZE as u32)
    }
}

/// A page, the slot of its origin, and its texts.
#[derive(Clone, Copy, Debug)]
pub struct Place {
    pub id: PageId,
    pub mark: Mark,
    pub origin: Slot,
    pub url: TextAt,
    pub title: TextAt,
}

/// A visit, with the slots of its page and of its source, 0 for none.
#[derive(Clone, Copy, Debug)]
pub struct Visit {
    pub id: VisitId,
    pub transition: Transition,
    pub page: Slot,
    pub source: Slot,
    pub date: Micros,
}

/// An item, with the slots of its parent and its page, 0 for none, and its title.
#[derive(Clone, Copy, Debug)]
pub struct Item {
    pub id: ItemId,
    pub kind: ItemKind,
    pub parent: Slot,
    pub page: Slot,
    pub title: TextAt,
    pub added: Micros,
    pub modified: Micros,
}

/// The slot, unless it is 0.
pub fn named(slot: Slot) -> Option<Slot>
    ensures { result ≡ rails.named slot }
{
    if slot.0 == 0 { None } else { Some(slot) }
}

/// The total of the origin in a slot.
#[inline(always)]
pub fn read_total<L: Ledger>(arena: &Arena, slot: Slot, steps: &mut Steps<L>) -> u64
    requires origin { kind_at slot.0 arena.now ≡ Some kinds.Origin }
    ensures row { spec.row_in slot arena.now ≡ Some (spec.origin_row result) }
    ensures counted { steps.new ≡ steps.old + 1 }
{
    match arena.read(slot, steps) {
        SlotRow::Origin { total, .. } => total,
        _ => unreachable!(),
    }
}

/// The page in a slot.
#[inline(always)]
pub fn read_place<L: Ledger>(arena: &Arena, slot: Slot, steps: &mut Steps<L>) -> Place
    requires place { kind_at slot.0 arena.now ≡ Some kinds.Place }
    ensures row { spec.row_in slot arena.now ≡ Some (spec.place_row result) }
    ensures counted { steps.new ≡ steps.old + 1 }
{
    match arena.read(slot, steps) {
        SlotRow::Place {
            typed,
            hidden,
            id,
            origin,
            url_text,
            url_length,
            title_text,
            title_length,
            frecency,
            count,
            ..
        } => Place {
            id,
            mark: Mark {
                frecency,
                count,
                typed,
                hidden,
            },
            origin,
            url: TextAt {
                slot: url_text,
                length: url_length,
            },
            title: TextAt {
                slot: title_text,
                length: title_length,
            },
        },
        _ => unreachable!(),
    }
}

/// The visit in a slot.
#[inline(always)]
pub fn read_visit<L: Ledger>(arena: &Arena, slot: Slot, steps: &mut Steps<L>) -> Visit
    requires visit { kind_at slot.0 arena.now ≡ Some kinds.Visit }
    ensures row { spec.row_in slot arena.now ≡ Some (spec.visit_row result) }
    ensures counted { steps.new ≡ steps.old + 1 }
{
    match arena.read(slot, steps) {
        SlotRow::Visit {
            transition,
            id,
            page,
            source,
            date,
            ..
        } => Visit {
            id,
            transition,
            page,
            source,
            date,
        },
        _ => unreachable!(),
    }
}

/// The item in a slot.
#[inline(always)]
pub fn read_item<L: Ledger>(arena: &Arena, slot: Slot, steps: &mut Steps<L>) -> Item
    requires item { kind_at slot.0 arena.now ≡ Some kinds.Item }
    ensures row { spec.row_in slot arena.now ≡ Some (spec.item_row result) }
    ensures counted { steps.new ≡ steps.old + 1 }
{
    match arena.read(slot, steps) {
        SlotRow::Item {
            kind,
            id,
            parent,
            page,
            title_text,
            title_length,
            added,
            modified,
            ..
        } => Item {
            id,
            kind,
            parent,
            page,
            title: TextAt {
                slot: title_text,
                length: title_length,
            },
            added,
            modified,
        },
        _ => unreachable!(),
    }
}
