// What is written into the rows of slots. Each call reads the row first, and leaves its links.
ghost use Rattle.std.specs.Prelude.{◌≡◌, ◌+◌, Some};
ghost use Rattle.pl_record.specs.Rows as spec;
ghost use Rattle.pl_slot.specs.declared.kind.SlotKind.TheVariants as kinds;
ghost use Rattle.pl_slot.specs.Links.{kind_at};

use crate::rows::TextAt;
use pl_base::{Mark, Micros, Slot, Steps};
use pl_slot::{Arena, SlotRow};
use std::sync::ledger::Ledger;

/// Gives the page in a slot another mark.
pub fn put_mark<L: Ledger>(arena: &mut Arena, slot: Slot, mark: Mark, steps: &mut Steps<L>)
    requires place { kind_at slot.0 arena.old ≡ Some kinds.Place }
    ensures set { spec.SetsRow slot (spec.with_mark mark) arena.old arena.new }
    ensures counted { steps.new ≡ steps.old + 1 }
{
    let mut row = arena.read(slot, steps);
    mark_row(&mut row, mark);
    arena.write(slot, &row);
}

fn mark_row(row: &mut SlotRow, mark: Mark)
    ensures { row.new ≡ spec.with_mark mark row.old }
{
    if let SlotRow::Place { typed, .. } = row {
        *typed = mark.typed;
    }
    if let SlotRow::Place { hidden, .. } = row {
        *hidden = mark.hidden;
    }
    if let SlotRow::Place { frecency, .. } = row {
        *frecency = mark.frecency;
    }
    if let SlotRow::Place { count, .. } = row {
        *count = mark.count;
    }
}

/// Gives the page in a slot another title, which is stored already.
pub fn put_title<L: Ledger>(arena: &mut Arena, slot: Slot, title: TextAt, steps: &mut Steps<L>)
    requires place { kind_at slot.0 arena.old ≡ Some kinds.Place }
    ensures set { spec.SetsRow slot (spec.with_title title) arena.old arena.new }
    ensures counted { steps.new ≡ steps.old + 1 }
{
    let mut row = arena.read(slot, steps);
    title_row(&mut row, title);
    arena.write(slot, &row);
}

fn title_row(row: &mut SlotRow, title: TextAt)
    ensures { row.new ≡ spec.with_title title row.old }
{
    if let SlotRow::Place { title_text, .. } = row {
        *title_text = title.slot;
    }
    if let SlotRow::Place { title_length, .. } = row {
        *title_length = title.length;
    }
}

/// Gives the visit in a slot another source, 0 for none.
pub fn put_source<L: Ledger>(arena: &mut Arena, slot: Slot, source: Slot, steps: &mut Steps<L>)
    requires visit { kind_at slot.0 arena.old ≡ Some kinds.Visit }
    ensures set { spec.SetsRow slot (spec.with_source source) arena.old arena.new }
    ensures counted { steps.new ≡ steps.old + 1 }
{
    let mut row = arena.read(slot, steps);
    source_row(&mut row, source);
    arena.write(slot, &row);
}

fn source_row(row: &mut SlotRow, new: Slot)
    ensures { row.new ≡ spec.with_source new row.old }
{
    if let SlotRow::Visit { source, .. } = row {
        *source = new;
    }
}

/// Gives the item in a slot another parent.
pub fn put_parent<L: Ledger>(arena: &mut Arena, slot: Slot, parent: Slot, steps: &mut Steps<L>)
    requires item { kind_at slot.0 arena.old ≡ Some kinds.Item }
    ensures set { spec.SetsRow slot (spec.with_parent parent) arena.old arena.new }
    ensures counted { steps.new ≡ steps.old + 1 }
{
    let mut row = arena.read(slot, steps);
    parent_row(&mut row, parent);
    arena.write(slot, &row);
}

fn parent_row(row: &mut SlotRow, new: Slot)
    ensures { row.new ≡ spec.with_parent new row.old }
{
    if let SlotRow::Item { parent, .. } = row {
        *parent = new;
    }
}

/// Gives the item in a slot another title, which is stored already.
pub fn put_item_title<L: Ledger>(arena: &mut Arena, slot: Slot, title: TextAt, steps: &mut Steps<L>)
    requires item { kind_at slot.0 arena.old ≡ Some kinds.Item }
    ensures set { spec.SetsRow slot (spec.with_item_title title) arena.old arena.new }
    ensures counted { steps.new ≡ steps.old + 1 }
{
    let mut row = arena.read(slot, steps);
    item_title_row(&mut row, title);
    arena.write(slot, &row);
}

fn item_title_row(row: &mut SlotRow, title: TextAt)
    ensures { row.new ≡ spec.with_item_title title row.old }
{
    if let SlotRow::Item { title_text, .. } = row {
        *title_text = title.slot;
    }
    if let SlotRow::Item { title_length, .. } = row {
        *title_length = title.length;
    }
}

/// Gives the item in a slot another modified date.
pub fn put_modified<L: Ledger>(arena: &mut Arena, slot: Slot, date: Micros, steps: &mut Steps<L>)
    requires item { kind_at slot.0 arena.old ≡ Some kinds.Item }
    ensures set { spec.SetsRow slot (spec.with_modified date) arena.old arena.new }
    ensures counted { steps.new ≡ steps.old + 1 }
{
    let mut row = arena.read(slot, steps);
    modified_row(&mut row, date);
    arena.write(slot, &row);
}

fn modified_row(row: &mut SlotRow, date: Micros)
    ensures { row.new ≡ spec.with_modified date row.old }
{
    if let SlotRow::Item { modified, .. } = row {
        *modified = date;
    }
}

/// Gives the origin in a slot another total.
pub fn put_total<L: Ledger>(arena: &mut Arena, slot: Slot, total: u64, steps: &mut Steps<L>)
    requires origin { kind_at slot.0 arena.old ≡ Some kinds.Origin }
    ensures set { spec.SetsRow slot (spec.with_total total) arena.old arena.new }
    ensures counted { steps.new ≡ steps.old + 1 }
{
    let mut row = arena.read(slot, steps);
    total_row(&mut row, total);
    arena.write(slot, &row);
}

fn total_row(row: &mut SlotRow, new: u64)
    ensures { row.new ≡ spec.with_total new row.old }
{
    if let SlotRow::Origin { total, .. } = row {
        *total = new;
    }
}
