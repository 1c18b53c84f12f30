// Imports on one engine and on two, and exports behind them.
use crate::fault::Fault;
use crate::outcome::Outcome;
use crate::pair::{Pair, Replied};
use crate::replies::{performed, say, told};
use crate::tree::{file_of, import_of};
use pl_base::{Rows, Steps};
use pl_engine::Engine;
use pl_step::Reply;
use std::alloc::Global;
use std::sync::ledger::Ledger;

/// Imports a bookmark file, and prints the text of the reply.
pub fn say_import<R: Rows + Drop, L: Ledger>(
    rt: &impl Print,
    alloc: Global,
    engine: Engine<R>,
    file: &[u8],
    steps: &mut Steps<L>,
) -> Result<(), Fault> {
    let command = import_of(alloc, file)?;
    let (_, reply) = told(alloc, engine, command, steps)?;
    say(rt, reply)
}

/// Imports a bookmark file, and prints the one that the bookmarks make.
pub fn say_export<R: Rows + Drop, L: Ledger>(
    rt: &impl Print,
    alloc: Global,
    engine: Engine<R>,
    file: &[u8],
    steps: &mut Steps<L>,
) -> Result<(), Fault> {
    let engine = imported(alloc, engine, file, steps)?;
    let text = file_of(alloc, &engine, steps)?;
    say(rt, Some(text))
}

// The engine after an import that was not refused.
fn imported<R: Rows + Drop, L: Ledger>(
    alloc: Global,
    engine: Engine<R>,
    file: &[u8],
    steps: &mut Steps<L>,
) -> Result<Engine<R>, Fault> {
    let command = import_of(alloc, file)?;
    let (engine, reply) = performed(engine, command, steps)?;
    if is_refused(reply) {
        return Err(Fault::Refused);
    }
    Ok(engine)
}

fn is_refused(reply: Reply) -> bool {
    let refused = matches!(&reply, Reply::Refused(_));
    drop(reply);
    refused
}

impl<A: Rows + Drop, B: Rows + Drop> Pair<A, B> {
    /// Imports a bookmark file into both: whether the replies are the same.
    pub fn import<L: Ledger>(
        self,
        alloc: Global,
        file: &[u8],
        steps: &mut Steps<L>,
    ) -> Result<Outcome, Fault> {
        let (_, replied) = self.imported(alloc, file, steps)?;
        Ok(Outcome::from(replied))
    }

    /// The same, and whether the bookmarks are the same behind it.
    pub fn export<L: Ledger>(
        self,
        alloc: Global,
        file: &[u8],
        steps: &mut Steps<L>,
    ) -> Result<Outcome, Fault> {
        let (pair, replied) = self.imported(alloc, file, steps)?;
        match Outcome::from(replied) {
            Outcome::Alike(count) => pair.bookmarks(alloc, count, steps),
            apart => Ok(apart),
        }
    }

    fn imported<L: Ledger>(
        self,
        alloc: Global,
        file: &[u8],
        steps: &mut Steps<L>,
    ) -> Result<(Pair<A, B>, Replied), Fault> {
        let command = import_of(alloc, file)?;
        self.told(alloc, command, steps)
    }
}

impl From<Replied> for Outcome {
    fn from(replied: Replied) -> Self {
        match replied {
            Replied::Nothing => Outcome::Alike(0),
            Replied::Alike => Outcome::Alike(1),
            Replied::Apart(apart) => Outcome::Replies(1, apart),
        }
    }
}
