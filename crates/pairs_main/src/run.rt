// What the words ask for, each on stores of its own that nothing was done to before.
ghost use Rattle.std.specs.Prelude.{◌≤◌};
ghost use Rattle.pl_base.specs.Live.{slot_limit};

use crate::choice::Order;
use crate::fault::Fault;
use crate::pair::Pair;
use crate::work::{alone, side_by_side};
use pl_base::{NoMemory, Steps};
use pl_engine::Engine;
use pl_linked::Linked;
use pl_plain::Flat;
use std::alloc::Global;
use std::sync::ledger::Ledger;

fn linked_engine<L: Ledger>(
    alloc: Global,
    limit: u32,
    steps: &mut Steps<L>,
) -> Result<Engine<Linked>, NoMemory>
    requires { limit ≤ slot_limit }
{
    Engine::over(alloc, Linked::opening(alloc)?, limit, steps)
}

fn flat_engine<L: Ledger>(
    alloc: Global,
    limit: u32,
    steps: &mut Steps<L>,
) -> Result<Engine<Flat>, NoMemory>
    requires { limit ≤ slot_limit }
{
    Engine::over(alloc, Flat::opening(alloc)?, limit, steps)
}

/// Does the work on both engines, and prints how it ended; the exit status for that.
pub fn both<L: Ledger>(
    rt: &(impl Print + AllocGlobal),
    order: Order,
    input: &[u8],
    steps: &mut Steps<L>,
) -> Result<u8, Fault>
    requires { order.limit ≤ slot_limit }
{
    let left = linked_engine(rt.alloc(), order.limit, steps)?;
    let right = flat_engine(rt.alloc(), order.limit, steps)?;
    let pair = Pair { left, right };
    let outcome = side_by_side(rt.alloc(), order.work, pair, input, steps)?;
    outcome.say(rt)?;
    Ok(outcome.status())
}

/// Does the work on linked slots alone, and prints what it says.
pub fn linked<L: Ledger>(
    rt: &(impl Print + AllocGlobal),
    order: Order,
    input: &[u8],
    steps: &mut Steps<L>,
) -> Result<u8, Fault>
    requires { order.limit ≤ slot_limit }
{
    let engine = linked_engine(rt.alloc(), order.limit, steps)?;
    alone(rt, rt.alloc(), order.work, engine, input, steps)?;
    Ok(0)
}

/// Does the work on vectors alone, and prints what it says.
pub fn flat<L: Ledger>(
    rt: &(impl Print + AllocGlobal),
    order: Order,
    input: &[u8],
    steps: &mut Steps<L>,
) -> Result<u8, Fault>
    requires { order.limit ≤ slot_limit }
{
    let engine = flat_engine(rt.alloc(), order.limit, steps)?;
    alone(rt, rt.alloc(), order.work, engine, input, steps)?;
    Ok(0)
}
