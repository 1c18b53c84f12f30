// What is read of slots that hold pages, and changed in them.
ghost use Rattle.std.specs.Prelude.{◌<◌, ◌≤◌};
ghost use Rattle.slots_main.specs.Places.{ArePlaces, IsPlace, KeepsKinds};

use crate::chance::Chance;
use crate::rows::{place, sum_of, with_further_visit};
use pl_base::{NoMemory, Slot, Steps, Touched};
use pl_slot::{Arena, Link, Rail};
use std::sync::ledger::Ledger;

/// The sum of what so many slots hold that are drawn.
pub fn drawn_sum<L: Ledger>(arena: &Arena, count: u32, times: u32, steps: &mut Steps<L>) -> u64
    requires some { 1 ≤ count }
    requires places { ArePlaces count arena.now }
{
    let mut chance = Chance::new();
    let mut sum = 0u64;
    for _ in 0..times {
        let slot = Slot(chance.below(count) + 1);
        sum = sum.wrapping_add(sum_of(&arena.read(slot, steps)));
    }
    sum
}

/// The sum of what all of the first so many slots hold.
pub fn whole_sum<L: Ledger>(arena: &Arena, count: u32, steps: &mut Steps<L>) -> u64
    requires places { ArePlaces count arena.now }
{
    let mut sum = 0u64;
    for number in 0..count {
        sum = sum.wrapping_add(sum_of(&arena.read(Slot(number + 1), steps)));
    }
    sum
}

/// Writes a row into a slot that is drawn, so many times.
pub fn write_drawn(arena: &mut Arena, count: u32, times: u32)
    requires some { 1 ≤ count }
    requires places { ArePlaces count arena.old }
    ensures places { ArePlaces count arena.new }
{
    let mut chance = Chance::new();
    for turn in 0..times {
        let slot = Slot(chance.below(count) + 1);
        put_place(arena, slot, turn);
    }
}

// Puts the row of a page into a slot that holds one.
fn put_place(arena: &mut Arena, slot: Slot, number: u32)
    requires place { IsPlace slot.0 arena.old }
    ensures kinds { KeepsKinds arena.old arena.new }
{
    arena.write(slot, &place(number, true));
}

/// Sets the first visit of a page that is drawn by a row, so many times.
pub fn visit_by_row<L: Ledger>(arena: &mut Arena, count: u32, times: u32, steps: &mut Steps<L>)
    requires some { 1 ≤ count }
    requires places { ArePlaces count arena.old }
    ensures places { ArePlaces count arena.new }
{
    let mut chance = Chance::new();
    for turn in 0..times {
        let slot = Slot(chance.below(count) + 1);
        set_row(arena, slot, turn, steps);
    }
}

fn set_row<L: Ledger>(arena: &mut Arena, slot: Slot, by: u32, steps: &mut Steps<L>)
    requires place { IsPlace slot.0 arena.old }
    ensures kinds { KeepsKinds arena.old arena.new }
{
    let row = arena.read(slot, steps);
    arena.write(slot, &with_further_visit(row, by));
}

/// Sets the first visit of a page that is drawn by a link, so many times.
pub fn visit_by_link<L: Ledger>(arena: &mut Arena, count: u32, times: u32, steps: &mut Steps<L>)
    requires some { 1 ≤ count }
    requires places { ArePlaces count arena.old }
    ensures places { ArePlaces count arena.new }
{
    let mut chance = Chance::new();
    for turn in 0..times {
        let slot = Slot(chance.below(count) + 1);
        set_link(arena, slot, turn, steps);
    }
}

fn set_link<L: Ledger>(arena: &mut Arena, slot: Slot, by: u32, steps: &mut Steps<L>)
    requires place { IsPlace slot.0 arena.old }
    ensures kinds { KeepsKinds arena.old arena.new }
{
    let first = arena.link(slot, Rail::PageVisits, Link::First, steps);
    let further = Slot(first.0.wrapping_add(by));
    arena.set_link(slot, Rail::PageVisits, Link::First, further);
}

/// Changes ten slots and has the changed pages listed, so many times: the sum of the numbers of
/// these pages.
pub fn touch(arena: &mut Arena, count: u32, times: u32) -> Result<u64, NoMemory>
    requires some { 1 ≤ count }
    requires places { ArePlaces count arena.old }
{
    let _all = listed(arena)?;
    let mut sum = 0u64;
    for turn in 0..times {
        change_ten(arena, count, turn);
        sum = sum.wrapping_add(listed(arena)?);
    }
    Ok(sum)
}

// Puts the row of a page into ten slots, which lie at equal distances.
fn change_ten(arena: &mut Arena, count: u32, number: u32)
    requires some { 1 ≤ count }
    requires places { ArePlaces count arena.old }
    ensures places { ArePlaces count arena.new }
{
    for part in 0..10 {
        put_place(arena, Slot(count / 10 * part + 1), number);
    }
}

// The sum of the numbers of the changed pages.
fn listed(arena: &mut Arena) -> Result<u64, NoMemory>
    ensures kinds { KeepsKinds arena.old arena.new }
{
    let touched = arena.touched()?;
    Ok(numbers(&touched))
}

fn numbers(touched: &Touched) -> u64 {
    let mut sum = 0u64;
    for index in 0..touched.count() {
        sum = sum.wrapping_add(u64::from(touched.page(index)));
    }
    sum
}
