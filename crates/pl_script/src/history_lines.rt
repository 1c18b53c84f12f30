// The lines of the day, and of history that goes.
ghost use Rattle.std.specs.Prelude.{IfOk};
ghost use Rattle.pl_step.specs.Commands.{HasDates};
ghost use Rattle.pl_script.specs.LineError.{ReadsAs, ReadsInPlace};
ghost use Rattle.pl_script.specs.Script as spec;

use crate::fields::Fields;
use crate::lines::{LineError, day_in_range};
use pl_link::Canon;
use pl_step::Command;
use std::alloc::Global;

pub fn day_line(mut fields: Fields<'_>) -> Result<Command, LineError>
    ensures command { ReadsInPlace (λ command. command) result (spec.day_line fields.entry) }
    ensures dates { IfOk result HasDates }
{
    let named = fields.day()?;
    fields.end()?;
    let day = day_in_range(named)?;
    Ok(Command::Day { day })
}

pub fn unvisit_line(mut fields: Fields<'_>) -> Result<Command, LineError>
    ensures command { ReadsInPlace (λ command. command) result (spec.unvisit_line fields.entry) }
    ensures dates { IfOk result HasDates }
{
    let visit = fields.visit_id()?;
    fields.end()?;
    Ok(Command::Unvisit { visit })
}

pub fn forget_line(alloc: Global, mut fields: Fields<'_>) -> Result<Command, LineError>
    ensures command { ReadsAs (λ command. command) result (spec.forget_line fields.entry) }
    ensures dates { IfOk result HasDates }
{
    let address = fields.text(alloc)?;
    fields.end()?;
    let url = Canon::read(alloc, address.as_str())?;
    Ok(Command::Forget { url })
}

pub fn expire_line(mut fields: Fields<'_>) -> Result<Command, LineError>
    ensures command { ReadsInPlace (λ command. command) result (spec.expire_line fields.entry) }
    ensures dates { IfOk result HasDates }
{
    let named = fields.day()?;
    fields.end()?;
    let day = day_in_range(named)?;
    Ok(Command::Expire { day })
}

pub fn trim_line(mut fields: Fields<'_>) -> Result<Command, LineError>
    ensures command { ReadsInPlace (λ command. command) result (spec.trim_line fields.entry) }
    ensures dates { IfOk result HasDates }
{
    let n = fields.number()?;
    fields.end()?;
    Ok(Command::Trim { n })
}
