// Engines over rows of any two forms.
ghost use Rattle.std.specs.Prelude.{◌≡◌, IfOk};
ghost use Rattle.pl_base.specs.Rows.{store_of};
ghost use Rattle.pl_step.specs.Commands.{HasDates};

use pl_base::{NoMemory, Rows, Steps};
use pl_engine::Engine;
use pl_step::{Command, Reply};
use std::sync::ledger::Ledger;

/// An engine after a command, and the reply.
pub type Stepped<R> = (Engine<R>, Reply);

/// The same command on two engines whose stores are the same: they give the same reply, and their
/// stores are the same behind it, by what an engine says of any rows.
pub fn alike<R: Rows + Drop, S: Rows + Drop, L: Ledger>(
    one: Engine<R>,
    other: Engine<S>,
    command: &Command,
    steps: &mut Steps<L>,
) -> Result<(Stepped<R>, Stepped<S>), NoMemory>
    requires dates { HasDates command.now }
    requires store { store_of (R.kept one.rows) ≡ store_of (S.kept other.rows) }
    requires limit { one.limit ≡ other.limit }
    ensures reply { IfOk result (λ done. done.0.1 ≡ done.1.1) }
    ensures store { IfOk result (λ done.
        store_of (R.kept done.0.0.rows) ≡ store_of (S.kept done.1.0.rows)) }
    ensures limit { IfOk result (λ done. done.0.0.limit ≡ done.1.0.limit) }
{
    let first = one.apply(command, steps)?;
    let second = other.apply(command, steps)?;
    Ok((first, second))
}
