// The lines of the address bar.
ghost use Rattle.std.specs.Prelude.{IfOk};
ghost use Rattle.pl_step.specs.Commands.{HasDates};
ghost use Rattle.pl_script.specs.LineError.{ReadsAs};
ghost use Rattle.pl_script.specs.Script as spec;

use crate::fields::Fields;
use crate::lines::LineError;
use pl_step::Command;
use std::alloc::Global;

pub fn bar_line(alloc: Global, mut fields: Fields<'_>) -> Result<Command, LineError>
    ensures command { ReadsAs (λ command. command) result (spec.bar_line fields.entry) }
    ensures dates { IfOk result HasDates }
{
    let max = fields.max()?;
    let text = fields.text(alloc)?;
    fields.end()?;
    Ok(Command::Bar { max, text })
}

pub fn fill_line(alloc: Global, mut fields: Fields<'_>) -> Result<Command, LineError>
    ensures command { ReadsAs (λ command. command) result (spec.fill_line fields.entry) }
    ensures dates { IfOk result HasDates }
{
    let text = fields.text(alloc)?;
    fields.end()?;
    Ok(Command::Fill { text })
}
