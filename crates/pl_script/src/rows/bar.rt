// The pages that the address bar offers.
ghost use Rattle.std.specs.Prelude.{◌≡◌, IfOk};
ghost use Rattle.std.specs.List.{All};
ghost use Rattle.std.specs.String.{string_bytes};
ghost use Rattle.pl_script.specs.Reply as spec;

use crate::field::escaped;
use pl_base::NoMemory;
use pl_step::{BarRow, Reply};
use std::alloc::Global;

/// A line that says how many pages there are, and a line for each.
pub fn bar_text(alloc: Global, rows: &[BarRow]) -> Result<String, NoMemory>
    ensures exact { IfOk result (λ text.
        string_bytes text ≡ spec.reply_text (Reply.Bar rows.now)) }
    ensures read_again { IfOk result (λ _. All spec.IsOfferedAgain rows.now) }
{
    let mut text = format!(in alloc; "rows\t{}\n", rows.len())?;
    for row in rows {
        text.push_str(&row_text(alloc, row)?)?;
    }
    Ok(text)
}

fn row_text(alloc: Global, row: &BarRow) -> Result<String, NoMemory>
    ensures exact { IfOk result (λ text.
        string_bytes text ≡ spec.line_text (spec.bar_fields row.now)) }
    ensures read_again { IfOk result (λ _. spec.IsOfferedAgain row.now) }
{
    let frecency = row.frecency;
    let url = escaped(alloc, row.url.as_str())?;
    let title = escaped(alloc, row.title.as_str())?;
    Ok(format!(in alloc; "page\t{}\t{frecency}\t{url}\t{title}\n", row.id.0)?)
}
