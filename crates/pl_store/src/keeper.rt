// A store in memory alone, or in a file too.
ghost use Rattle.std.specs.Prelude.{◌≡◌, ◌≤◌, IfOk, IfSome};
ghost use Rattle.pl_desk.specs.Counts.{Counts, Writes};
ghost use Rattle.pl_gate.specs.FileCalls.{CallsFile};
ghost use Rattle.pl_step.specs.Commands.{HasDates};
ghost use Rattle.pl_step.specs.Step.{perform};
ghost use Rattle.pl_store.specs.Bounds.{most_bytes};
ghost use Rattle.pl_store.specs.Keeper.{IsReadyFrom, TakesStep, keeper_limit, keeper_store};
ghost use Rattle.pl_store.specs.Keeper.{ready_bytes, ready_limit, ready_store};

use crate::memory::Memory;
use crate::session::{Prepared, Session};
use pl_base::{DeviceFault, NoMemory};
use pl_desk::Desk;
use pl_step::{Command, Reply};

/// A store, between two commands.
#[derive(Drop)]
pub enum Keeper {
    Memory(Memory),
    File(Session),
}

/// A store after a command that the file does not hold yet.
#[derive(Drop)]
pub enum Ready {
    Memory(Memory),
    File(Prepared),
}

impl Keeper {
    /// Performs a command in memory. After `NoMemory` the store is gone, and the file is as it was.
    pub fn prepare(self, command: &Command) -> Result<(Ready, Reply), NoMemory>
        requires dates { HasDates command.now }
        ensures step { IfOk result (λ done. (done.1, ready_store done.0)
            ≡ perform (keeper_limit self) (keeper_store self) command.now) }
        ensures limit { IfOk result (λ done. ready_limit done.0 ≡ keeper_limit self) }
        ensures from { IfOk result (λ done. IsReadyFrom self done.0) }
        ensures few { IfOk result
            (λ done. IfSome (most_bytes (keeper_store self) command.now done.1)
            (λ most. ready_bytes done.0 ≤ most)) }
    {
        match self {
            Keeper::Memory(memory) => {
                let (next, reply) = memory.step(command)?;
                Ok((Ready::Memory(next), reply))
            }
            Keeper::File(session) => {
                let (prepared, reply) = session.prepare(command)?;
                Ok((Ready::File(prepared), reply))
            }
        }
    }
}

impl Ready {
    /// Writes the change to the file, if there is one. No memory is taken.
    pub fn commit<D: Desk>(self, desk: &mut D) -> Result<Keeper, DeviceFault>
        ensures store { IfOk result (λ keeper. keeper_store keeper ≡ ready_store self) }
        ensures limit { IfOk result (λ keeper. keeper_limit keeper ≡ ready_limit self) }
        ensures taken { (before : Keeper) → IsReadyFrom before self
            → TakesStep D.Desk before (ready_store self) result desk.old desk.new }
        ensures written { Writes result (ready_bytes self)
            (D.written desk.old) (D.written desk.new) }
        ensures calls { CallsFile D.Desk (Counts result) desk.old desk.new }
    {
        match self {
            Ready::Memory(memory) => Ok(Keeper::Memory(memory)),
            Ready::File(prepared) => Ok(Keeper::File(prepared.commit(desk)?)),
        }
    }
}
