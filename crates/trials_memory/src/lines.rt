// A command and a reply are dropped by name, which is cheaper to prove than that they go at a
// function's end.
ghost use Rattle.pl_step.specs.Commands.{HasDates};

use crate::memory::Memory;
use pl_base::{NoMemory, Txt};
use pl_script::{LineError, line, reply_text};
use pl_step::{Command, Reply};
use std::alloc::Global;
use std::test::Fail;

/// The store after a command, and the reply.
pub fn stepped(memory: Memory, command: Command) -> Result<(Memory, Reply), Fail>
    requires { HasDates command }
{
    let stepped = memory.step(&command);
    drop(command);
    stepped
}

/// The text of a reply.
pub fn text_of(alloc: Global, reply: Reply) -> Result<Txt, NoMemory> {
    let text = reply_text(alloc, &reply);
    drop(reply);
    text
}

// The store after a command, and the reply, as those after a line.
fn performed(memory: Memory, command: Command) -> Result<(Memory, Option<Reply>), Fail>
    requires { HasDates command }
{
    let (memory, reply) = stepped(memory, command)?;
    Ok((memory, Some(reply)))
}

/// The store after a line, and the reply, which a comment has not.
pub fn replied(
    alloc: Global,
    memory: Memory,
    text: &[u8],
) -> Result<(Memory, Option<Reply>), Fail> {
    match line(alloc, text) {
        Ok(Some(command)) => performed(memory, command),
        Ok(None) => Ok((memory, None)),
        Err(LineError::Refused(refusal)) => Ok((memory, Some(Reply::Refused(refusal)))),
        Err(LineError::NoMemory) => Err(NoMemory)?,
    }
}

// The text of a reply, if there is one.
fn text_if_any(alloc: Global, reply: Option<Reply>) -> Result<Option<Txt>, Fail> {
    match reply {
        Some(reply) => Ok(Some(text_of(alloc, reply)?)),
        None => Ok(None),
    }
}

/// The store after a line, and the text of the reply, which a comment has not.
pub fn answered(alloc: Global, memory: Memory, text: &[u8]) -> Result<(Memory, Option<Txt>), Fail> {
    let (memory, reply) = replied(alloc, memory, text)?;
    let text = text_if_any(alloc, reply)?;
    Ok((memory, text))
}
