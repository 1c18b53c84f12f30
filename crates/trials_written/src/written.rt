// The file that the lines of a script leave.
ghost use Rattle.pl_step.specs.Commands.{HasDates};

use pl_base::{NoMemory, PAGE_SIZE, SLOT_LIMIT, Steps, Touched};
use pl_engine::Engine;
use pl_linked::Linked;
use pl_script::{LineError, line};
use pl_step::Command;
use std::alloc::Global;
use std::sync::ledger::Ledger;

/// The bytes of the file after the lines of a script, from page 0 on. Lines that are refused do
/// nothing.
pub fn file_of<L: Ledger>(
    alloc: Global,
    script: &[u8],
    steps: &mut Steps<L>,
) -> Result<Vec<u8>, NoMemory> {
    let mut engine = Engine::over(alloc, Linked::opening(alloc)?, SLOT_LIMIT, steps)?;
    for text in script.split(|byte| *byte == b'\n') {
        engine = after_line(alloc, engine, text, steps)?;
    }
    let touched = engine.touched(steps)?;
    bytes_of(alloc, &touched)
}

// The engine after a line.
fn after_line<L: Ledger>(
    alloc: Global,
    engine: Engine<Linked>,
    text: &[u8],
    steps: &mut Steps<L>,
) -> Result<Engine<Linked>, NoMemory> {
    match line(alloc, text) {
        Ok(Some(command)) => performed(engine, command, steps),
        Ok(None) | Err(LineError::Refused(_)) => Ok(engine),
        Err(LineError::NoMemory) => Err(NoMemory),
    }
}

fn performed<L: Ledger>(
    engine: Engine<Linked>,
    command: Command,
    steps: &mut Steps<L>,
) -> Result<Engine<Linked>, NoMemory>
    requires { HasDates command }
{
    let done = engine.apply(&command, steps);
    drop(command);
    let (engine, reply) = done?;
    drop(reply);
    Ok(engine)
}

// A blank page 0, and the pages of a store of which nothing was written before.
fn bytes_of(alloc: Global, touched: &Touched) -> Result<Vec<u8>, NoMemory> {
    let mut bytes = Vec::new(alloc);
    bytes.resize(PAGE_SIZE, 0)?;
    for index in 0..touched.count() {
        bytes.extend_from_slice(touched.image(index))?;
    }
    Ok(bytes)
}
