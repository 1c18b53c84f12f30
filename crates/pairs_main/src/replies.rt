// The replies of one engine. A command and a reply are dropped by name, which is cheaper to prove
// than that they go at a function's end.
ghost use Rattle.pl_step.specs.Commands.{HasDates};

use crate::fault::Fault;
use pl_base::{NoMemory, Refusal, Rows, Steps, Txt};
use pl_engine::Engine;
use pl_script::{LineError, line, reply_text};
use pl_step::{Command, Reply};
use std::alloc::Global;
use std::sync::ledger::Ledger;

/// The text of a reply.
pub fn text_of(alloc: Global, reply: Reply) -> Result<Txt, NoMemory> {
    let text = reply_text(alloc, &reply);
    drop(reply);
    text
}

fn refused(alloc: Global, refusal: Refusal) -> Result<Txt, NoMemory> {
    text_of(alloc, Reply::Refused(refusal))
}

/// The engine after a command, and its reply.
pub fn performed<R: Rows + Drop, L: Ledger>(
    engine: Engine<R>,
    command: Command,
    steps: &mut Steps<L>,
) -> Result<(Engine<R>, Reply), NoMemory>
    requires { HasDates command }
{
    let done = engine.apply(&command, steps);
    drop(command);
    done
}

/// The engine after a command, and the text of its reply.
pub fn told<R: Rows + Drop, L: Ledger>(
    alloc: Global,
    engine: Engine<R>,
    command: Command,
    steps: &mut Steps<L>,
) -> Result<(Engine<R>, Option<Txt>), Fault>
    requires { HasDates command }
{
    let (engine, reply) = performed(engine, command, steps)?;
    let text = text_of(alloc, reply)?;
    Ok((engine, Some(text)))
}

// The engine after a line, and the text of its reply, which a comment has not.
fn answered<R: Rows + Drop, L: Ledger>(
    alloc: Global,
    engine: Engine<R>,
    text: &[u8],
    steps: &mut Steps<L>,
) -> Result<(Engine<R>, Option<Txt>), Fault> {
    match line(alloc, text) {
        Ok(Some(command)) => told(alloc, engine, command, steps),
        Ok(None) => Ok((engine, None)),
        Err(LineError::Refused(refusal)) => Ok((engine, Some(refused(alloc, refusal)?))),
        Err(LineError::NoMemory) => Err(Fault::NoMemory),
    }
}

/// Prints a text, if there is one.
pub fn say(rt: &impl Print, text: Option<Txt>) -> Result<(), Fault> {
    match text {
        Some(text) => print!(rt; "{}", text.as_str()).map_err(|_| Fault::NotSaid),
        None => Ok(()),
    }
}

/// Performs the lines of a script, and prints the text of each reply.
pub fn say_replies<R: Rows + Drop, L: Ledger>(
    rt: &impl Print,
    alloc: Global,
    engine: Engine<R>,
    script: &[u8],
    steps: &mut Steps<L>,
) -> Result<(), Fault> {
    let mut engine = engine;
    for text in script.split(|byte| *byte == b'\n') {
        let (next, reply) = answered(alloc, engine, text, steps)?;
        engine = next;
        say(rt, reply)?;
    }
    Ok(())
}
