// What is done with the input, on one engine and on two.
use crate::choice::Work;
use crate::fault::Fault;
use crate::imports::{say_export, say_import};
use crate::outcome::Outcome;
use crate::pair::Pair;
use crate::replies::say_replies;
use pl_base::{Rows, Steps};
use pl_engine::Engine;
use std::alloc::Global;
use std::sync::ledger::Ledger;

/// Does the work on one engine, and prints what it says.
pub fn alone<R: Rows + Drop, L: Ledger>(
    rt: &impl Print,
    alloc: Global,
    work: Work,
    engine: Engine<R>,
    input: &[u8],
    steps: &mut Steps<L>,
) -> Result<(), Fault> {
    match work {
        Work::Script => say_replies(rt, alloc, engine, input, steps),
        Work::Import => say_import(rt, alloc, engine, input, steps),
        Work::Export => say_export(rt, alloc, engine, input, steps),
    }
}

/// Does the work on two engines, and tells how it ended.
pub fn side_by_side<A: Rows + Drop, B: Rows + Drop, L: Ledger>(
    alloc: Global,
    work: Work,
    pair: Pair<A, B>,
    input: &[u8],
    steps: &mut Steps<L>,
) -> Result<Outcome, Fault> {
    match work {
        Work::Script => pair.run(alloc, input, steps),
        Work::Import => pair.import(alloc, input, steps),
        Work::Export => pair.export(alloc, input, steps),
    }
}
