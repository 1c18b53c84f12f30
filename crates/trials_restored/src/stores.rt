// Rows behind lines that are given to an engine.
ghost use Rattle.std.specs.Prelude.{IfOk};
ghost use Rattle.pl_base.specs.Good.{IsGood};
ghost use Rattle.pl_base.specs.Rows.{IsSound, store_of};
ghost use Rattle.pl_step.specs.Commands.{HasDates};

use pl_base::{NoMemory, Rows, SLOT_LIMIT, Steps, Txt};
use pl_engine::{Engine, Parts};
use pl_script::{LineError, line, reply_text};
use pl_step::{Command, Reply};
use std::alloc::Global;
use std::sync::ledger::Ledger;
use std::test::Fail;

fn command(alloc: Global, text: &str) -> Result<Command, Fail>
    ensures { IfOk result HasDates }
{
    match line(alloc, text.as_bytes()) {
        Ok(Some(command)) => Ok(command),
        Ok(None) | Err(LineError::Refused(_)) => Err("no command".into()),
        Err(LineError::NoMemory) => Err(NoMemory)?,
    }
}

// The engine after a line that is not refused.
fn after<R: Rows + Drop, L: Ledger>(
    alloc: Global,
    engine: Engine<R>,
    text: &str,
    steps: &mut Steps<L>,
) -> Result<Engine<R>, Fail> {
    let command = command(alloc, text)?;
    let done = engine.apply(&command, steps);
    drop(command);
    let (engine, reply) = done?;
    let is_refused = matches!(reply, Reply::Refused(_));
    drop(reply);
    if is_refused {
        return Err("refused".into());
    }
    Ok(engine)
}

/// The engine over rows behind lines that are not refused.
pub fn engine_behind<R: Rows + Drop, L: Ledger>(
    alloc: Global,
    rows: R,
    lines: &[&str],
    steps: &mut Steps<L>,
) -> Result<Engine<R>, Fail>
    requires sound { IsSound (R.kept rows) }
{
    let mut engine = Engine::over(alloc, rows, SLOT_LIMIT, steps)?;
    for text in lines {
        engine = after(alloc, engine, text, steps)?;
    }
    Ok(engine)
}

/// The rows behind lines that are not refused.
pub fn rows_behind<R: Rows + Drop, L: Ledger>(
    alloc: Global,
    rows: R,
    lines: &[&str],
    steps: &mut Steps<L>,
) -> Result<R, Fail>
    requires sound { IsSound (R.kept rows) }
    ensures good { IfOk result (λ rows. IsGood (store_of (R.kept rows))) }
{
    let Parts { rows, .. } = engine_behind(alloc, rows, lines, steps)?.parts();
    Ok(rows)
}

/// The engine after a command, and the text of its reply.
pub fn told<R: Rows + Drop, L: Ledger>(
    alloc: Global,
    engine: Engine<R>,
    command: &Command,
    steps: &mut Steps<L>,
) -> Result<(Engine<R>, Txt), Fail>
    requires { HasDates command.now }
{
    let (engine, reply) = engine.apply(command, steps)?;
    let told = reply_text(alloc, &reply);
    drop(reply);
    Ok((engine, told?))
}

/// The engine after a line, and the text of the reply.
pub fn told_line<R: Rows + Drop, L: Ledger>(
    alloc: Global,
    engine: Engine<R>,
    text: &str,
    steps: &mut Steps<L>,
) -> Result<(Engine<R>, Txt), Fail> {
    let command = command(alloc, text)?;
    let told = told(alloc, engine, &command, steps);
    drop(command);
    told
}
