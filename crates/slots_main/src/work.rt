// The kinds of work, each on an arena of its own.
ghost use Rattle.std.specs.Prelude.{◌≤◌};

use crate::changes::{drawn_sum, touch, visit_by_link, visit_by_row, whole_sum, write_drawn};
use crate::fault::Fault;
use crate::places::{arena_of, empty};
use crate::texts::{drawn_bytes, store_urls};
use pl_base::Steps;
use std::alloc::Global;
use std::sync::ledger::Ledger;

/// Reads a slot, so many times.
pub fn read<L: Ledger>(
    alloc: Global,
    count: u32,
    times: u32,
    steps: &mut Steps<L>,
) -> Result<u64, Fault>
    requires { 1 ≤ count }
{
    let arena = arena_of(alloc, count, steps)?;
    Ok(drawn_sum(&arena, count, times, steps))
}

/// Writes a row, so many times.
pub fn write<L: Ledger>(
    alloc: Global,
    count: u32,
    times: u32,
    steps: &mut Steps<L>,
) -> Result<u64, Fault>
    requires { 1 ≤ count }
{
    let mut arena = arena_of(alloc, count, steps)?;
    write_drawn(&mut arena, count, times);
    Ok(whole_sum(&arena, count, steps))
}

/// Sets a field of a row by reading and writing it, so many times.
pub fn field<L: Ledger>(
    alloc: Global,
    count: u32,
    times: u32,
    steps: &mut Steps<L>,
) -> Result<u64, Fault>
    requires { 1 ≤ count }
{
    let mut arena = arena_of(alloc, count, steps)?;
    visit_by_row(&mut arena, count, times, steps);
    Ok(whole_sum(&arena, count, steps))
}

/// Sets the same field as a link, so many times.
pub fn link<L: Ledger>(
    alloc: Global,
    count: u32,
    times: u32,
    steps: &mut Steps<L>,
) -> Result<u64, Fault>
    requires { 1 ≤ count }
{
    let mut arena = arena_of(alloc, count, steps)?;
    visit_by_link(&mut arena, count, times, steps);
    Ok(whole_sum(&arena, count, steps))
}

/// Changes ten slots and has the changed pages listed, so many times.
pub fn touched<L: Ledger>(
    alloc: Global,
    count: u32,
    times: u32,
    steps: &mut Steps<L>,
) -> Result<u64, Fault>
    requires { 1 ≤ count }
{
    let mut arena = arena_of(alloc, count, steps)?;
    Ok(touch(&mut arena, count, times)?)
}

/// Stores so many texts, and reads one of them, so many times.
pub fn texts<L: Ledger>(
    alloc: Global,
    count: u32,
    times: u32,
    steps: &mut Steps<L>,
) -> Result<u64, Fault>
    requires { 1 ≤ count }
{
    let mut arena = empty(alloc)?;
    let slots = store_urls(alloc, &mut arena, count, steps)?;
    Ok(drawn_bytes(alloc, &arena, &slots, times, steps)?)
}
