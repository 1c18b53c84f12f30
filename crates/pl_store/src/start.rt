ghost use Rattle.std.specs.Prelude.{◌≡◌, ◌≤◌, ◌<◌, [], IfOk};
ghost use Rattle.pl_base.specs.Store.{opening};
ghost use Rattle.pl_base.specs.Touched.{IsWithin, changed};
ghost use Rattle.pl_base.specs.Live.{slot_limit};
ghost use Rattle.pl_record.specs.Form.{StandsFor};
ghost use Rattle.pl_store.specs.Session.{session_bytes, session_limit, session_store};

use crate::session::Session;
use crate::uncounted;
use pl_base::{NoMemory, Touched};
use pl_linked::Linked;
use std::alloc::Global;
use std::marker::Brand;
use std::sync::ledger::Blank;

/// A session of the store before its first command, and the change that writes it into an empty
/// file.
pub(crate) fn start(alloc: Global, limit: u32) -> Result<(Session, Touched), NoMemory>
    requires { limit ≤ slot_limit }
    ensures store { IfOk result (λ done. session_store done.0 ≡ opening) }
    ensures limit { IfOk result (λ done. session_limit done.0 ≡ limit) }
    ensures stands { IfOk result (λ done. StandsFor (session_bytes done.0) (session_store done.0)) }
    ensures whole { IfOk result (λ done. changed done.1 [] ≡ session_bytes done.0) }
    ensures within { IfOk result (λ done. IsWithin done.1) }
    ensures before { IfOk result (λ done. done.1.before ≡ 1) }
    ensures after { IfOk result (λ done. 1 < done.1.after) }
{
    let rows = Linked::opening(alloc)?;
    let mut engine = uncounted::over::<Brand>(Blank::new(1), alloc, rows, limit)?;
    let touched = uncounted::touched::<Brand>(Blank::new(1), &mut engine)?;
    Ok((Session { engine }, touched))
}
