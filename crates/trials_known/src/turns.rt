// An engine that is given the lines of a script.
ghost use Rattle.std.specs.Prelude.{IfOk};
ghost use Rattle.pl_step.specs.Commands.{HasDates};

use crate::script::{FILE, Last, line_of};
use pl_base::{NoMemory, Rows, Steps};
use pl_engine::Engine;
use pl_nbread::{FILE_LIMIT, read};
use pl_script::{LineError, line};
use pl_step::{Command, Reply};
use std::alloc::Global;
use std::sync::ledger::Ledger;
use std::test::Fail;

// One turn in so many is an import.
const TURNS_TO_AN_IMPORT: u32 = 100;

/// An engine after a command.
#[derive(Drop)]
pub struct After<R: Rows> {
    pub engine: Engine<R>,
    pub is_performed: bool,
    pub last: Last,
}

// The last ids behind a reply.
fn last_behind(last: Last, reply: &Reply) -> Last {
    match reply {
        Reply::Visit { visit, .. } => Last {
            visit: visit.0,
            ..last
        },
        Reply::Item(item) => Last {
            item: item.0,
            ..last
        },
        _ => last,
    }
}

fn performed<R: Rows + Drop, L: Ledger>(
    engine: Engine<R>,
    last: Last,
    command: Command,
    steps: &mut Steps<L>,
) -> Result<After<R>, NoMemory>
    requires { HasDates command }
{
    let done = engine.apply(&command, steps);
    drop(command);
    let (engine, reply) = done?;
    let last = last_behind(last, &reply);
    let is_performed = !matches!(reply, Reply::Refused(_));
    drop(reply);
    Ok(After {
        engine,
        is_performed,
        last,
    })
}

/// The engine after a line, which may be refused.
pub fn after_line<R: Rows + Drop, L: Ledger>(
    alloc: Global,
    engine: Engine<R>,
    last: Last,
    text: &str,
    steps: &mut Steps<L>,
) -> Result<After<R>, NoMemory> {
    match line(alloc, text.as_bytes()) {
        Ok(Some(command)) => performed(engine, last, command, steps),
        Ok(None) | Err(LineError::Refused(_)) => Ok(After {
            engine,
            is_performed: false,
            last,
        }),
        Err(LineError::NoMemory) => Err(NoMemory),
    }
}

fn import(alloc: Global) -> Result<Command, Fail>
    ensures { IfOk result HasDates }
{
    if FILE.len() >= FILE_LIMIT {
        return Err("too long".into());
    }
    let tree = read(alloc, FILE.as_bytes()).map_err(|_| "no tree")?;
    Ok(Command::Import(tree))
}

/// The engine after the line of a turn, or after an import.
pub fn after_turn<R: Rows + Drop, L: Ledger>(
    alloc: Global,
    engine: Engine<R>,
    last: Last,
    turn: u32,
    steps: &mut Steps<L>,
) -> Result<After<R>, Fail> {
    if turn % TURNS_TO_AN_IMPORT == TURNS_TO_AN_IMPORT - 1 {
        let command = import(alloc)?;
        return Ok(performed(engine, last, command, steps)?);
    }
    let text = line_of(alloc, turn, last)?;
    Ok(after_line(alloc, engine, last, text.as_str(), steps)?)
}
