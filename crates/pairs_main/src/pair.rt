// Two engines that perform the same lines. A command and a reply are dropped by name, which is
// cheaper to prove than that they go at a function's end.
ghost use Rattle.pl_step.specs.Commands.{HasDates};

use crate::fault::Fault;
use crate::outcome::{Apart, Outcome};
use crate::replies::text_of;
use crate::tree::file_of;
use pl_base::{NoMemory, Rows, Steps};
use pl_engine::Engine;
use pl_script::{LineError, line};
use pl_step::{Command, Reply};
use std::alloc::Global;
use std::sync::ledger::Ledger;

/// Two engines.
#[derive(Drop)]
pub struct Pair<A: Rows + Drop, B: Rows + Drop> {
    pub left: Engine<A>,
    pub right: Engine<B>,
}

/// What two engines replied to a line.
#[derive(Debug, Drop)]
pub enum Replied {
    /// A comment has no reply.
    Nothing,
    Alike,
    Apart(Apart),
}

// Both texts of replies that differ.
fn texts(alloc: Global, left: Reply, right: Reply) -> Result<Apart, NoMemory> {
    let left = text_of(alloc, left);
    let right = text_of(alloc, right);
    Ok(Apart {
        left: left?,
        right: right?,
    })
}

// Whether two replies are the same.
fn compared(alloc: Global, left: Reply, right: Reply) -> Result<Replied, NoMemory> {
    if left == right {
        drop(left);
        drop(right);
        return Ok(Replied::Alike);
    }
    Ok(Replied::Apart(texts(alloc, left, right)?))
}

impl<A: Rows + Drop, B: Rows + Drop> Pair<A, B> {
    // The pair of an engine and the other one after its command, with the replies of both.
    fn joined(
        left: Engine<A>,
        reply: Reply,
        done: Result<(Engine<B>, Reply), NoMemory>,
    ) -> Result<(Pair<A, B>, Reply, Reply), NoMemory> {
        match done {
            Ok((right, other)) => Ok((Pair { left, right }, reply, other)),
            Err(error) => {
                drop(reply);
                Err(error)
            }
        }
    }

    fn apply<L: Ledger>(
        self,
        command: &Command,
        steps: &mut Steps<L>,
    ) -> Result<(Pair<A, B>, Reply, Reply), NoMemory>
        requires { HasDates command.now }
    {
        let Pair { left, right } = self;
        let (left, reply) = left.apply(command, steps)?;
        let done = right.apply(command, steps);
        Pair::joined(left, reply, done)
    }

    fn performed<L: Ledger>(
        self,
        command: Command,
        steps: &mut Steps<L>,
    ) -> Result<(Pair<A, B>, Reply, Reply), NoMemory>
        requires { HasDates command }
    {
        let done = self.apply(&command, steps);
        drop(command);
        done
    }

    /// The pair after a command, and whether the replies are the same.
    pub fn told<L: Ledger>(
        self,
        alloc: Global,
        command: Command,
        steps: &mut Steps<L>,
    ) -> Result<(Pair<A, B>, Replied), Fault>
        requires { HasDates command }
    {
        let (pair, left, right) = self.performed(command, steps)?;
        let replied = compared(alloc, left, right)?;
        Ok((pair, replied))
    }

    // The pair after a line, and whether the replies are the same. One that is refused unread has
    // the same reply on both.
    fn answered<L: Ledger>(
        self,
        alloc: Global,
        bytes: &[u8],
        steps: &mut Steps<L>,
    ) -> Result<(Pair<A, B>, Replied), Fault> {
        match line(alloc, bytes) {
            Ok(Some(command)) => self.told(alloc, command, steps),
            Ok(None) => Ok((self, Replied::Nothing)),
            Err(LineError::Refused(_)) => Ok((self, Replied::Alike)),
            Err(LineError::NoMemory) => Err(Fault::NoMemory),
        }
    }

    /// Whether the bookmarks are the same, behind so many lines whose replies are.
    pub fn bookmarks<L: Ledger>(
        &self,
        alloc: Global,
        count: u64,
        steps: &mut Steps<L>,
    ) -> Result<Outcome, Fault> {
        let left = file_of(alloc, &self.left, steps)?;
        let right = file_of(alloc, &self.right, steps)?;
        if left == right {
            return Ok(Outcome::Alike(count));
        }
        Ok(Outcome::Bookmarks(Apart { left, right }))
    }

    /// Performs the lines of a script, until replies differ.
    pub fn run<L: Ledger>(
        self,
        alloc: Global,
        script: &[u8],
        steps: &mut Steps<L>,
    ) -> Result<Outcome, Fault> {
        let mut pair = self;
        let mut number: u64 = 0;
        let mut count: u64 = 0;
        for bytes in script.split(|byte| *byte == b'\n') {
            let (next, replied) = pair.answered(alloc, bytes, steps)?;
            pair = next;
            number = number.saturating_add(1);
            match replied {
                Replied::Nothing => {}
                Replied::Alike => count = count.saturating_add(1),
                Replied::Apart(apart) => return Ok(Outcome::Replies(number, apart)),
            }
        }
        pair.bookmarks(alloc, count, steps)
    }
}
