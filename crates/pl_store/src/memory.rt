ghost use Rattle.std.specs.Prelude.{◌≡◌, ◌≤◌, IfOk};
ghost use Rattle.pl_base.specs.Store.{opening};
ghost use Rattle.pl_base.specs.Live.{slot_limit};
ghost use Rattle.pl_step.specs.Commands.{HasDates};
ghost use Rattle.pl_step.specs.Step.{perform};
ghost use Rattle.pl_store.specs.Session.{memory_limit, memory_store};

use crate::uncounted;
use pl_base::NoMemory;
use pl_engine::Engine;
use pl_linked::Linked;
use pl_step::{Command, Reply};
use std::alloc::Global;
use std::marker::Brand;
use std::sync::ledger::Blank;

/// A store in memory alone.
#[derive(Drop)]
pub struct Memory {
    pub(crate) engine: Engine<Linked>,
}

impl Memory {
    /// The store before its first command, which may take so many slots of 128 bytes.
    pub fn opening(alloc: Global, limit: u32) -> Result<Memory, NoMemory>
        requires { limit ≤ slot_limit }
        ensures store { IfOk result (λ memory. memory_store memory ≡ opening) }
        ensures limit { IfOk result (λ memory. memory_limit memory ≡ limit) }
    {
        let rows = Linked::opening(alloc)?;
        let engine = uncounted::over::<Brand>(Blank::new(1), alloc, rows, limit)?;
        Ok(Memory { engine })
    }

    /// One step of the machine. After `NoMemory` the store is gone.
    pub fn step(self, command: &Command) -> Result<(Memory, Reply), NoMemory>
        requires dates { HasDates command.now }
        ensures step { IfOk result (λ done. (done.1, memory_store done.0)
            ≡ perform (memory_limit self) (memory_store self) command.now) }
        ensures limit { IfOk result (λ done. memory_limit done.0 ≡ memory_limit self) }
    {
        let (engine, reply) = uncounted::apply::<Brand>(Blank::new(1), self.engine, command)?;
        Ok((Memory { engine }, reply))
    }
}
