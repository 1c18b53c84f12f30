// The slots of an item that comes.
ghost use Rattle.std.specs.Prelude.{◌≡◌, ◌≤◌, ◌<◌, ◌+◌, Some, IfOk, IfSome, OnErr};
ghost use Rattle.pl_base.specs.Live.{chunks, slot_limit};
ghost use Rattle.pl_record.specs.ChainMap as maps;
ghost use Rattle.pl_record.specs.ItemChanges as spec;
ghost use Rattle.pl_record.specs.Rows as row;
ghost use Rattle.pl_record.specs.SlotChanges.{KeepsAll};
ghost use Rattle.pl_rail.specs.declared.owner.Owner.TheVariants as owners;
ghost use Rattle.pl_rail.specs.Rails as rails;
ghost use Rattle.pl_slot.specs.declared.kind.SlotKind.TheVariants as kinds;
ghost use Rattle.pl_slot.specs.declared.links.Rail.TheVariants.{Children, References};
ghost use Rattle.pl_slot.specs.Arena as slots;
ghost use Rattle.pl_slot.specs.Links.{kind_at};

use crate::chains::append;
use crate::rows::{Item, TextAt, named};
use pl_base::{NoMemory, Slot, Steps};
use pl_rail::{Owner, insert_after, last};
use pl_slot::{Arena, LiveKind, Rail, SlotRow};
use pl_text::{free, store};
use std::sync::ledger::Ledger;

const NONE: Slot = Slot(0);

/// Takes the slots of a new item and its title: behind all items, among its parent's children
/// behind this one or in front, and behind all items of its page, if it has one. The item's own
/// text is passed over.
pub fn insert_item<L: Ledger>(
    arena: &mut Arena,
    item: Item,
    title: &str,
    after: Option<Slot>,
    steps: &mut Steps<L>,
) -> Result<Slot, NoMemory>
    requires parent { kind_at item.parent.0 arena.old ≡ Some kinds.Item }
    requires page { IfSome (rails.named item.page) (λ s.
        kind_at s.0 arena.old ≡ Some kinds.Place) }
    requires after { IfSome after (λ s.
        rails.HasMember Children (owners.At item.parent) s arena.old) }
    requires few { slots.live_count arena.old + 1 + chunks title.now ≤ slot_limit }
    requires chained { (chains : maps.ChainMap) × maps.AreChains chains arena.old
        × maps.AreApart Children chains × maps.AreApart References chains }
    ensures inserted { IfOk result (λ slot.
        spec.InsertsItem item title.now after slot arena.old arena.new) }
    ensures err { OnErr result (KeepsAll arena.old arena.new) }
{
    prove!(arena.pages() > 0);
    let text = TextAt {
        slot: store(arena, title.as_bytes(), steps)?,
        length: title.len() as u32,
    };
    let item = Item {
        title: text,
        ..item
    };
    match take_item(arena, item, after, steps) {
        Ok(slot) => Ok(slot),
        Err(error) => {
            free(arena, text.slot, steps);
            Err(error)
        }
    }
}

// Takes a slot for an item whose title is stored.
fn take_item<L: Ledger>(
    arena: &mut Arena,
    item: Item,
    after: Option<Slot>,
    steps: &mut Steps<L>,
) -> Result<Slot, NoMemory>
    requires parent { kind_at item.parent.0 arena.old ≡ Some kinds.Item }
    requires page { IfSome (rails.named item.page) (λ s.
        kind_at s.0 arena.old ≡ Some kinds.Place) }
    requires after { IfSome after (λ s.
        rails.HasMember Children (owners.At item.parent) s arena.old) }
    requires few { slots.live_count arena.old < slot_limit }
    requires chained { (chains : maps.ChainMap) × maps.AreChains chains arena.old
        × maps.AreApart Children chains × maps.AreApart References chains }
    ensures taken { IfOk result (λ slot. spec.TakesItem item after slot arena.old arena.new) }
    ensures err { OnErr result (arena.new ≡ arena.old) }
{
    let slot = arena.take(&new_item(item))?;
    append(
        arena,
        Rail::Live,
        Owner::Header(LiveKind::Item),
        slot,
        steps,
    );
    insert_after(
        arena,
        Rail::Children,
        Owner::At(item.parent),
        after,
        slot,
        steps,
    );
    put_reference(arena, item, slot, steps);
    Ok(slot)
}

// Puts the slot of an item behind all items of its page, if it has one.
fn put_reference<L: Ledger>(arena: &mut Arena, item: Item, slot: Slot, steps: &mut Steps<L>)
    requires page { IfSome (rails.named item.page) (λ s.
        kind_at s.0 arena.old ≡ Some kinds.Place) }
    requires member { kind_at slot.0 arena.old ≡ Some kinds.Item }
    requires chained { (chains : maps.ChainMap) × maps.AreChains chains arena.old
        × maps.AreApart References chains × maps.IsLoose References slot chains }
    ensures put { spec.PutsReference item slot arena.old arena.new }
{
    let Some(page) = named(item.page) else {
        return;
    };
    let after = last(arena, Rail::References, Owner::At(page), steps);
    insert_after(arena, Rail::References, Owner::At(page), after, slot, steps);
}

fn new_item(item: Item) -> SlotRow
    ensures { result ≡ row.item_row item }
{
    SlotRow::Item {
        kind: item.kind,
        live_previous: NONE,
        live_next: NONE,
        id: item.id,
        parent: item.parent,
        sibling_previous: NONE,
        sibling_next: NONE,
        first_child: NONE,
        last_child: NONE,
        page: item.page,
        reference_previous: NONE,
        reference_next: NONE,
        title_text: item.title.slot,
        title_length: item.title.length,
        added: item.added,
        modified: item.modified,
    }
}
