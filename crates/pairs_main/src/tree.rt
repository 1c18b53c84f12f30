// Bookmark files: the import of one, and the one that an engine's bookmarks make.
ghost use Rattle.std.specs.Prelude.{IfOk};
ghost use Rattle.pl_step.specs.Commands.{HasDates};

use crate::fault::Fault;
use pl_base::{NoMemory, Rows, Steps, Txt};
use pl_engine::Engine;
use pl_nbread::{FILE_LIMIT, read};
use pl_nbwrite::text;
use pl_step::Command;
use std::alloc::Global;
use std::sync::ledger::Ledger;

/// The import of a bookmark file.
pub fn import_of(alloc: Global, file: &[u8]) -> Result<Command, Fault>
    ensures { IfOk result HasDates }
{
    if file.len() >= FILE_LIMIT {
        return Err(Fault::TooLong);
    }
    let tree = read(alloc, file)?;
    Ok(Command::Import(tree))
}

/// The bookmarks of an engine as a file, which tells all of their tree.
pub fn file_of<R: Rows + Drop, L: Ledger>(
    alloc: Global,
    engine: &Engine<R>,
    steps: &mut Steps<L>,
) -> Result<Txt, NoMemory> {
    let tree = engine.tree(steps)?;
    let file = text(alloc, &tree);
    drop(tree);
    file
}
