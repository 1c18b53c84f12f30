// What an engine answers to a query by what it keeps, beside what is defined over its rows.
use pl_base::{NoMemory, Rows, Steps};
use pl_engine::Engine;
use pl_place::{Query, read};
use pl_query::{ResultRow, answer};
use pl_step::{Command, Reply};
use std::alloc::Global;
use std::process::Abort;
use std::sync::ledger::Ledger;
use std::test::Fail;

/// An engine behind a query.
#[derive(Drop)]
pub struct Compared<R: Rows> {
    pub engine: Engine<R>,
    pub has_rows: bool,
    is_as_defined: bool,
}

fn query(alloc: Global, text: &str) -> Result<Query, Fail> {
    let query = read(alloc, text).map_err(|_| "no query")?;
    Ok(query)
}

fn tells(reply: &Reply, rows: &[ResultRow]) -> bool {
    match reply {
        Reply::Rows(told) => told.as_slice() == rows,
        _ => false,
    }
}

// The same engine, and the rows that are defined over its own.
fn defined_over<R: Rows + Drop, L: Ledger>(
    alloc: Global,
    engine: Engine<R>,
    query: &Query,
    steps: &mut Steps<L>,
) -> Result<(Engine<R>, Vec<ResultRow>), NoMemory> {
    let parts = engine.parts();
    let rows = answer(alloc, &parts.rows, query, steps)?;
    Ok((Engine::of(alloc, parts), rows))
}

// The engine behind a query, and whether it tells these rows.
fn answered<R: Rows + Drop, L: Ledger>(
    engine: Engine<R>,
    query: Query,
    rows: Vec<ResultRow>,
    steps: &mut Steps<L>,
) -> Result<Compared<R>, NoMemory> {
    let command = Command::Query { query };
    let done = engine.apply(&command, steps);
    drop(command);
    let (engine, reply) = done?;
    let is_as_defined = tells(&reply, &rows);
    drop(reply);
    Ok(Compared {
        engine,
        has_rows: !rows.is_empty(),
        is_as_defined,
    })
}

// The engine behind a query, and whether it tells the rows that are defined.
fn compare<R: Rows + Drop, L: Ledger>(
    alloc: Global,
    engine: Engine<R>,
    query: Query,
    steps: &mut Steps<L>,
) -> Result<Compared<R>, NoMemory> {
    let (engine, rows) = defined_over(alloc, engine, &query, steps)?;
    answered(engine, query, rows, steps)
}

/// The engine behind the query of a text, to which it tells the very rows that are defined.
pub fn expect_defined<R: Rows + Drop, L: Ledger>(
    rt: &impl Abort,
    alloc: Global,
    engine: Engine<R>,
    text: &str,
    steps: &mut Steps<L>,
) -> Result<Compared<R>, Fail> {
    let query = query(alloc, text)?;
    let behind = compare(alloc, engine, query, steps)?;
    assert!(rt; behind.is_as_defined, "{text}");
    Ok(behind)
}
