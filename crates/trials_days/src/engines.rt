// Engines that lines are given to, and what they keep of their pages.
ghost use Rattle.std.specs.Prelude.{IfOk};
ghost use Rattle.pl_base.specs.Rows.{IsSound};
ghost use Rattle.pl_step.specs.Commands.{HasDates};

use pl_base::{NoMemory, Rows, SLOT_LIMIT, Steps};
use pl_engine::{Engine, Parts};
use pl_known::Known;
use pl_script::{LineError, line};
use pl_step::{Command, Reply};
use std::alloc::Global;
use std::process::Abort;
use std::sync::ledger::Ledger;
use std::test::Fail;
use trials_known::are_alike;

fn command(alloc: Global, text: &str) -> Result<Command, Fail>
    ensures { IfOk result HasDates }
{
    match line(alloc, text.as_bytes()) {
        Ok(Some(command)) => Ok(command),
        Ok(None) | Err(LineError::Refused(_)) => Err("no command".into()),
        Err(LineError::NoMemory) => Err(NoMemory)?,
    }
}

/// The engine after a line, and the reply.
pub fn answered<R: Rows + Drop, L: Ledger>(
    alloc: Global,
    engine: Engine<R>,
    text: &str,
    steps: &mut Steps<L>,
) -> Result<(Engine<R>, Reply), Fail> {
    let command = command(alloc, text)?;
    let done = engine.apply(&command, steps);
    drop(command);
    Ok(done?)
}

// The engine after a line that is not refused.
fn after<R: Rows + Drop, L: Ledger>(
    alloc: Global,
    engine: Engine<R>,
    text: &str,
    steps: &mut Steps<L>,
) -> Result<Engine<R>, Fail> {
    let (engine, reply) = answered(alloc, engine, text, steps)?;
    let is_refused = matches!(reply, Reply::Refused(_));
    drop(reply);
    if is_refused {
        return Err("refused".into());
    }
    Ok(engine)
}

/// The engine after lines that are not refused.
pub fn filled<R: Rows + Drop, L: Ledger>(
    alloc: Global,
    engine: Engine<R>,
    lines: &[String],
    steps: &mut Steps<L>,
) -> Result<Engine<R>, Fail> {
    let mut engine = engine;
    for text in lines {
        engine = after(alloc, engine, text.as_str(), steps)?;
    }
    Ok(engine)
}

/// The engine on a day that comes.
pub fn on_day<R: Rows + Drop, L: Ledger>(
    alloc: Global,
    engine: Engine<R>,
    day: u32,
    steps: &mut Steps<L>,
) -> Result<Engine<R>, Fail> {
    let text = format!(in alloc; "day\t{day}")?;
    after(alloc, engine, text.as_str(), steps)
}

/// The same engine, taken apart and put together again.
pub fn put_together<R: Rows + Drop>(alloc: Global, engine: Engine<R>) -> Engine<R> {
    let Parts {
        rows,
        limit,
        views,
        urls,
        order,
        texts,
        calendar,
        totals,
    } = engine.parts();
    Engine::of(
        alloc,
        Parts {
            rows,
            limit,
            views,
            urls,
            order,
            texts,
            calendar,
            totals,
        },
    )
}

// What an engine keeps of its pages.
fn known_in<R: Rows + Drop>(engine: Engine<R>) -> Known {
    let Parts {
        rows,
        limit: _,
        views,
        urls,
        order,
        texts,
        calendar,
        totals,
    } = engine.parts();
    drop(rows);
    Known {
        views,
        urls,
        order,
        texts,
        calendar,
        totals,
    }
}

/// What a new engine keeps, over the rows of an opening store, that was at this day when it got the
/// lines.
pub fn known_on<R: Rows + Drop, L: Ledger>(
    alloc: Global,
    rows: R,
    day: u32,
    lines: &[String],
    steps: &mut Steps<L>,
) -> Result<Known, Fail>
    requires { IsSound (R.kept rows) }
{
    let engine = Engine::over(alloc, rows, SLOT_LIMIT, steps)?;
    let engine = on_day(alloc, engine, day, steps)?;
    let engine = filled(alloc, engine, lines, steps)?;
    Ok(known_in(engine))
}

/// The engine keeps the same of its pages as another one does.
pub fn expect_kept<R: Rows + Drop>(
    rt: &impl Abort,
    alloc: Global,
    engine: Engine<R>,
    made: &Known,
) -> Result<Engine<R>, Fail> {
    let parts = engine.parts();
    let alike = are_alike(alloc, &parts, made)?;
    assert!(rt; alike);
    Ok(Engine::of(alloc, parts))
}

/// It has the views of a new one over the same rows.
pub fn expect_as_over<R: Rows + Drop, L: Ledger>(
    rt: &impl Abort,
    alloc: Global,
    engine: Engine<R>,
    steps: &mut Steps<L>,
) -> Result<(), Fail> {
    let Parts {
        rows,
        limit,
        views,
        ..
    } = engine.parts();
    let made = known_in(Engine::over(alloc, rows, limit, steps)?);
    assert!(rt; views == made.views);
    Ok(())
}
