ghost use Rattle.std.specs.Prelude.{◌≡◌, ℕ, List, IfOk, IsOk};
ghost use Rattle.pl_desk.specs.Shown.{AtAnyMoment};
ghost use Rattle.pl_desk.specs.Counts.{Counts, Writes};
ghost use Rattle.pl_gate.specs.FileCalls.{CallsFile};
ghost use Rattle.pl_store.specs.Session.{IsPreparedFrom, IsSettled, StandsForEither};
ghost use Rattle.pl_store.specs.Session.{bytes_to_write, session_limit, next_limit, next_store};
ghost use Rattle.pl_store.specs.Session.{session_store, writes_nothing};

use crate::session::{Prepared, Session};
use crate::write::write_change;
use pl_base::DeviceFault;
use pl_desk::Desk;

impl Prepared {
    /// Writes the change to the file, whole or not at all. No memory is taken, and no call is made
    /// where there is no change. After an `Err` the session is gone, and the file stands for the
    /// store before or for the one after.
    pub fn commit<D: Desk>(self, desk: &mut D) -> Result<Session, DeviceFault>
        ensures store { IfOk result (λ session. session_store session ≡ next_store self) }
        ensures limit { IfOk result (λ session. session_limit session ≡ next_limit self) }
        ensures settled { IfOk result (λ session. (before : Session) → IsPreparedFrom before self
            → IsSettled D.Desk before desk.old → IsSettled D.Desk session desk.new) }
        ensures any_moment { (before : Session) → IsPreparedFrom before self
            → IsSettled D.Desk before desk.old
            → AtAnyMoment D.Desk desk.old desk.new
            (StandsForEither (session_store before) (next_store self)) }
        ensures left { (before : Session) → IsPreparedFrom before self
            → IsSettled D.Desk before desk.old
            → (file : List ℕ) → D.may_leave desk.new file
            → StandsForEither (session_store before) (next_store self) file }
        ensures unasked { writes_nothing self → desk.new ≡ desk.old }
        ensures unasked_ok { writes_nothing self → IsOk result }
        ensures written { Writes result (bytes_to_write self)
            (D.written desk.old) (D.written desk.new) }
        ensures calls { CallsFile D.Desk (Counts result) desk.old desk.new }
    {
        let Prepared { engine, change } = self;
        let Some(pending) = change else {
            return Ok(Session { engine });
        };
        write_change(desk, &pending.touched)?;
        Ok(Session { engine })
    }
}
