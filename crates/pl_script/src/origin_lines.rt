// The lines that ask for origins, and for what the store holds.
ghost use Rattle.std.specs.Prelude.{IfOk};
ghost use Rattle.pl_step.specs.Commands.{HasDates};
ghost use Rattle.pl_script.specs.LineError.{ReadsAs, ReadsInPlace};
ghost use Rattle.pl_script.specs.Script as spec;

use crate::fields::Fields;
use crate::lines::LineError;
use pl_link::Canon;
use pl_step::Command;
use std::alloc::Global;

pub fn origin_line(alloc: Global, mut fields: Fields<'_>) -> Result<Command, LineError>
    ensures command { ReadsAs (λ command. command) result (spec.origin_line fields.entry) }
    ensures dates { IfOk result HasDates }
{
    let address = fields.text(alloc)?;
    fields.end()?;
    let url = Canon::read(alloc, address.as_str())?;
    Ok(Command::Origin { url })
}

pub fn stats_line(fields: Fields<'_>) -> Result<Command, LineError>
    ensures command { ReadsInPlace (λ command. command) result (spec.stats_line fields.entry) }
    ensures dates { IfOk result HasDates }
{
    fields.end()?;
    Ok(Command::Stats)
}
