// Queries that look drawn at random, each behind a line of a script that does too.
ghost use Rattle.std.specs.Prelude.{◌≡◌, ◌<◌};
ghost use Rattle.pl_base.specs.Rows.{IsSound};

use crate::beside::{Compared, expect_defined};
use crate::queries::query_of;
use pl_base::{Rows, SLOT_LIMIT, Steps};
use pl_engine::Engine;
use pl_linked::Linked;
use pl_plain::Flat;
use std::alloc::{AllocError, Global};
use std::marker::Brand;
use std::process::Abort;
use std::sync::ledger::{Blank, Ledger};
use std::test::Fail;
use trials_known::{After, Last, after_line, after_turn, date, one_of};

// How many lines the script has, and as many queries.
const TURNS: u32 = 300;

// The first three of twenty turns visit pages that are alike in all but their URLs.
const ALIKE: u32 = 3;

const ROUND: u32 = 20;

const TRANSITIONS: &[&str] = &["1", "2", "3"];

// A visit to one of the pages that are alike, of the same date and transition in a whole round.
fn visit_alike(alloc: Global, turn: u32) -> Result<String, AllocError> {
    let page = turn % ROUND;
    let first = turn.wrapping_sub(page);
    let transition = one_of(TRANSITIONS, first, 29);
    let date = date(first, 30);
    format!(in alloc; "visit\thttps://alike.example/{page}\t{transition}\t{date}")
}

fn after<R: Rows + Drop, L: Ledger>(
    alloc: Global,
    engine: Engine<R>,
    last: Last,
    turn: u32,
    steps: &mut Steps<L>,
) -> Result<After<R>, Fail> {
    if turn % ROUND >= ALIKE {
        return after_turn(alloc, engine, last, turn, steps);
    }
    let text = visit_alike(alloc, turn)?;
    Ok(after_line(alloc, engine, last, text.as_str(), steps)?)
}

fn expect_query<R: Rows + Drop, L: Ledger>(
    rt: &impl Abort,
    alloc: Global,
    engine: Engine<R>,
    turn: u32,
    steps: &mut Steps<L>,
) -> Result<Compared<R>, Fail> {
    let text = query_of(alloc, turn)?;
    expect_defined(rt, alloc, engine, text.as_str(), steps)
}

fn expect_queries<R: Rows + Drop, L: Ledger>(
    rt: &impl Abort,
    alloc: Global,
    rows: R,
    blank: Blank,
) -> Result<(), Fail>
    requires sound { IsSound (R.kept rows) }
    requires name { blank.name ≡ L.name }
    requires parts { blank.parts ≡ L.parts }
    requires some { 0 < blank.parts }
{
    let mut steps = Steps::<L>::none(blank);
    let mut engine = Engine::over(alloc, rows, SLOT_LIMIT, &mut steps)?;
    let mut count = 0u32;
    let mut last = Last { visit: 0, item: 6 };
    for turn in 0..TURNS {
        let after = after(alloc, engine, last, turn, &mut steps)?;
        last = after.last;
        let behind = expect_query(rt, alloc, after.engine, turn, &mut steps)?;
        count = count.wrapping_add(u32::from(behind.has_rows));
        engine = behind.engine;
    }
    assert!(rt; count > TURNS / 2, "{count}");
    Ok(())
}

#[test]
fn random_queries_have_their_rows_over_vectors(rt: HostRuntime) -> Result<(), Fail> {
    let alloc = rt.alloc();
    let rows = Flat::opening(alloc)?;
    expect_queries::<Flat, Brand>(&rt, alloc, rows, Blank::new(1))
}

#[test]
fn random_queries_have_their_rows_over_linked_slots(rt: HostRuntime) -> Result<(), Fail> {
    let alloc = rt.alloc();
    let rows = Linked::opening(alloc)?;
    expect_queries::<Linked, Brand>(&rt, alloc, rows, Blank::new(1))
}
