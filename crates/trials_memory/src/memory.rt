// A store in memory with the plain program beside it.
ghost use Rattle.std.specs.Prelude.{◌≡◌, ◌≤◌, ◌<◌};
ghost use Rattle.pl_base.specs.Live.{slot_limit};
ghost use Rattle.pl_step.specs.Commands.{HasDates};

use pl_base::{NoMemory, Steps};
use pl_engine::Engine;
use pl_plain::Flat;
use pl_step::{Command, Reply};
use std::alloc::Global;
use std::marker::Brand;
use std::sync::ledger::{Blank, Ledger};
use std::test::Fail;

/// A store in memory as `try` has it, over linked slots, and an engine over the plain program's
/// rows, which take the same commands.
#[derive(Drop)]
pub struct Memory {
    linked: pl_store::Memory,
    plain: Engine<Flat>,
}

impl Memory {
    /// The store before its first command, which may take so many slots of 128 bytes.
    pub fn opening(alloc: Global, limit: u32) -> Result<Memory, NoMemory>
        requires { limit ≤ slot_limit }
    {
        Ok(Memory {
            linked: pl_store::Memory::opening(alloc, limit)?,
            plain: plain::<Brand>(Blank::new(1), alloc, limit)?,
        })
    }

    /// One step of both, which give the same reply.
    pub fn step(self, command: &Command) -> Result<(Memory, Reply), Fail>
        requires { HasDates command.now }
    {
        let Memory { linked, plain } = self;
        let (linked, reply) = linked.step(command)?;
        let (plain, other) = applied::<Brand>(Blank::new(1), plain, command)?;
        let same = reply == other;
        drop(other);
        if !same {
            drop(reply);
            return Err(Fail::new("the plain program gives another reply"));
        }
        Ok((Memory { linked, plain }, reply))
    }
}

fn plain<L: Ledger>(blank: Blank, alloc: Global, limit: u32) -> Result<Engine<Flat>, NoMemory>
    requires name { blank.name ≡ L.name }
    requires parts { blank.parts ≡ L.parts }
    requires some { 0 < blank.parts }
    requires limit { limit ≤ slot_limit }
{
    let mut steps = Steps::<L>::none(blank);
    Engine::over(alloc, Flat::opening(alloc)?, limit, &mut steps)
}

fn applied<L: Ledger>(
    blank: Blank,
    engine: Engine<Flat>,
    command: &Command,
) -> Result<(Engine<Flat>, Reply), NoMemory>
    requires name { blank.name ≡ L.name }
    requires parts { blank.parts ≡ L.parts }
    requires some { 0 < blank.parts }
    requires dates { HasDates command.now }
{
    engine.apply(command, &mut Steps::<L>::none(blank))
}
