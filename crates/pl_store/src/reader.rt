ghost use Rattle.std.proofs.Props.{props};
ghost use Rattle.pl_base.specs.Rows.{IsSound};
ghost use Rattle.pl_linked.specs.Linked.{kept_of};
ghost use Rattle.pl_store.specs.OwnBase.{HasOwnBase};

use crate::session::Session;
use crate::uncounted;
use pl_base::NoMemory;
use pl_linked::Linked;
use pl_nbread::Tree;
use std::alloc::Global;
use std::marker::Brand;
use std::sync::ledger::Blank;

/// A store that was opened to be read alone: in memory are its rows, and nothing beside them that
/// commands would want. The file holds it, and is not read again.
#[derive(Drop)]
pub struct Reader {
    pub(crate) alloc: Global,
    pub(crate) rows: Linked,
    ghost sound: { IsSound (kept_of rows) } by { Prim.hlevel props },
    ghost base: { HasOwnBase rows } by { Prim.hlevel props },
}

impl Reader {
    ghost use Rattle.std.specs.Prelude.{◌≡◌, ◌≤◌, ℕ, IfOk};
    ghost use Rattle.pl_base.specs.Good.{IsGood};
    ghost use Rattle.pl_base.specs.Live.{slot_limit};
    ghost use Rattle.pl_base.specs.Store.{Store};
    ghost use Rattle.pl_engine.specs.Returns.{Returns};
    ghost use Rattle.pl_nbwrite.specs.Plain.{IsPlain};
    ghost use Rattle.pl_outline.specs.BroughtBack.{IsBroughtBack};
    ghost use Rattle.pl_outline.specs.Outline.{bookmarks, whole};
    ghost use Rattle.pl_outline.specs.Whole.{IsWhole};
    ghost use Rattle.pl_store.specs.Session.{reader_store, session_limit};

    /// The bookmarks of the store.
    pub fn tree(&self) -> Result<Tree, NoMemory>
        ensures tree { IfOk result (λ tree. tree ≡ bookmarks (reader_store self.now)) }
        ensures plain { IfOk result IsPlain }
        ensures returns { IfOk result (λ tree. (limit : ℕ) → Returns limit tree) }
    {
        uncounted::tree_of::<Brand>(Blank::new(1), self.alloc, &self.rows)
    }

    /// The same with all that the store has of them.
    pub fn whole_tree(&self) -> Result<Tree, NoMemory>
        ensures tree { IfOk result (λ tree. tree ≡ whole (reader_store self.now)) }
        ensures whole { IfOk result IsWhole }
        ensures restores { IfOk result (λ tree. (first : Store) → IsGood first → IsBroughtBack tree first) }
    {
        uncounted::whole_tree_of::<Brand>(Blank::new(1), self.alloc, &self.rows)
    }

    /// The session of these rows, with a limit to the slots of 128 bytes that the store may take.
    pub(crate) fn session(self, limit: u32) -> Result<Session, NoMemory>
        requires most { limit ≤ slot_limit }
        ensures rows { IfOk result (λ session. session.engine.rows ≡ self.rows) }
        ensures limit { IfOk result (λ session. session_limit session ≡ limit) }
    {
        let Reader { alloc, rows } = self;
        let engine = uncounted::over::<Brand>(Blank::new(1), alloc, rows, limit)?;
        Ok(Session { engine })
    }
}
