// The lines of queries.
ghost use Rattle.std.specs.Prelude.{IfOk};
ghost use Rattle.pl_step.specs.Commands.{HasDates};
ghost use Rattle.pl_script.specs.LineError.{ReadsAs};
ghost use Rattle.pl_script.specs.Script as spec;

use crate::fields::Fields;
use crate::lines::LineError;
use pl_base::Txt;
use pl_place::Query;
use pl_step::Command;
use std::alloc::Global;

pub fn query_line(alloc: Global, mut fields: Fields<'_>) -> Result<Command, LineError>
    ensures command { ReadsAs (λ command. command) result (spec.query_line fields.entry) }
    ensures dates { IfOk result HasDates }
{
    let text = fields.text(alloc)?;
    fields.end()?;
    let query = query(alloc, &text)?;
    Ok(Command::Query { query })
}

pub fn place_line(alloc: Global, mut fields: Fields<'_>) -> Result<Command, LineError>
    ensures command { ReadsAs (λ command. command) result (spec.place_line fields.entry) }
    ensures dates { IfOk result HasDates }
{
    let text = fields.text(alloc)?;
    fields.end()?;
    let query = query(alloc, &text)?;
    Ok(Command::Place { query })
}

// The query that a text reads as.
fn query(alloc: Global, text: &Txt) -> Result<Query, LineError>
    ensures { ReadsAs (λ query. query) result (spec.query_of text.now) }
{
    Ok(pl_place::read(alloc, text.as_str())?)
}
