ghost use Rattle.std.specs.Prelude.{◌↔◌, IsTrue};
ghost use Rattle.std.proofs.Props.{props};
ghost use Rattle.pl_store.specs.OwnBase.{HasOwnBase};
ghost use Rattle.pl_store.specs.Unchanged.{ChangesNothing};

use crate::pending::Pending;
use crate::uncounted;
use pl_base::{NoMemory, Refusal};
use pl_engine::Engine;
use pl_linked::Linked;
use pl_nbread::Tree;
use pl_step::{Command, Reply};
use std::marker::Brand;
use std::sync::ledger::Blank;

/// An open store, between two commands. The file holds it, and is not read again.
#[derive(Drop)]
pub struct Session {
    pub(crate) engine: Engine<Linked>,
    // The next change is told against the bytes that the rows stand for now, and no others.
    ghost base: { HasOwnBase engine.rows } by { Prim.hlevel props },
}

/// A command that was performed in memory, and is not in the file yet.
#[derive(Drop)]
pub struct Prepared {
    pub(crate) engine: Engine<Linked>,
    // None where there is nothing to be written.
    pub(crate) change: Option<Pending>,
    ghost base: { HasOwnBase engine.rows } by { Prim.hlevel props },
}

impl Session {
    ghost use Rattle.std.specs.Prelude.{◌≡◌, ◌≤◌, ℕ, false, IfOk, IfSome};
    ghost use Rattle.pl_base.specs.Good.{IsGood};
    ghost use Rattle.pl_base.specs.Store.{Store};
    ghost use Rattle.pl_engine.specs.Idle.{IsIdle};
    ghost use Rattle.pl_engine.specs.Returns.{Returns};
    ghost use Rattle.pl_nbwrite.specs.Plain.{IsPlain};
    ghost use Rattle.pl_outline.specs.BroughtBack.{IsBroughtBack};
    ghost use Rattle.pl_outline.specs.Outline.{bookmarks, whole};
    ghost use Rattle.pl_outline.specs.Whole.{IsWhole};
    ghost use Rattle.pl_step.specs.Commands.{HasDates, is_change};
    ghost use Rattle.pl_step.specs.Step.{perform};
    ghost use Rattle.pl_store.specs.Bounds.{most_pages};
    ghost use Rattle.pl_store.specs.Session.{IsPreparedFrom, session_limit, next_limit, next_store};
    ghost use Rattle.pl_store.specs.Session.{pages_to_write, session_store, writes_nothing};

    /// The bookmarks of the store. The file is not read.
    pub fn tree(&self) -> Result<Tree, NoMemory>
        ensures tree { IfOk result (λ tree. tree ≡ bookmarks (session_store self.now)) }
        ensures plain { IfOk result IsPlain }
        ensures returns { IfOk result (λ tree. (limit : ℕ) → Returns limit tree) }
    {
        uncounted::tree::<Brand>(Blank::new(1), &self.engine)
    }

    /// The same with all that the store has of them. The file is not read.
    pub fn whole_tree(&self) -> Result<Tree, NoMemory>
        ensures tree { IfOk result (λ tree. tree ≡ whole (session_store self.now)) }
        ensures whole { IfOk result IsWhole }
        ensures restores { IfOk result (λ tree. (first : Store) → IsGood first → IsBroughtBack tree first) }
    {
        uncounted::whole_tree::<Brand>(Blank::new(1), &self.engine)
    }

    /// Performs a command in memory: no call of the file is made. A refusal is a reply, and leaves
    /// nothing to commit, as do a command of a kind that changes nothing and a title that stands
    /// already. After `NoMemory` the session is gone, and the file is as it was.
    pub fn prepare(self, command: &Command) -> Result<(Prepared, Reply), NoMemory>
        requires dates { HasDates command.now }
        ensures step { IfOk result (λ done. (done.1, next_store done.0)
            ≡ perform (session_limit self) (session_store self) command.now) }
        ensures limit { IfOk result (λ done. next_limit done.0 ≡ session_limit self) }
        ensures from { IfOk result (λ done. IsPreparedFrom self done.0) }
        ensures refused { IfOk result
            (λ done. (refusal : Refusal) → done.1 ≡ Reply.Refused refusal → writes_nothing done.0) }
        ensures unchanged { IfOk result
            (λ done. is_change command.now ≡ false → writes_nothing done.0) }
        // A visit is written in few pages.
        ensures few { IfOk result (λ done. IfSome (most_pages command.now (session_store self))
            (λ most. pages_to_write done.0 ≤ most)) }
        // A title that stands already leaves no page that may differ from the file's.
        ensures idle { IfOk result
            (λ done. IsIdle command.now (session_store self) → writes_nothing done.0) }
    {
        let (mut engine, reply) = uncounted::apply::<Brand>(Blank::new(1), self.engine, command)?;
        if changes_nothing(command, &reply) {
            return Ok((
                Prepared {
                    engine,
                    change: None,
                },
                reply,
            ));
        }
        let touched = uncounted::touched::<Brand>(Blank::new(1), &mut engine)?;
        let change = Pending::of(touched);
        Ok((Prepared { engine, change }, reply))
    }
}

// Whether a command with this reply leaves the very same rows.
fn changes_nothing(command: &Command, reply: &Reply) -> bool
    ensures { IsTrue result ↔ ChangesNothing command.now reply.now }
{
    matches!(reply, Reply::Refused(_)) || !command.is_change()
}
