// The rows that answer a query.
ghost use Rattle.std.specs.Prelude.{◌≡◌, ◌++◌, ◌∷◌, IfOk, OnOk};
ghost use Rattle.std.specs.List.{All};
ghost use Rattle.std.specs.String.{string_bytes};
ghost use Rattle.pl_script.specs.Reply as spec;
ghost use Rattle.pl_script.specs.Script.{escaped};

use crate::field::push_escaped;
use itoa::{Buffer, Integer};
use pl_base::{Micros, NoMemory};
use pl_query::ResultRow;
use pl_step::Reply;
use std::alloc::Global;

/// A line that says how many rows there are, and a line for each.
pub fn found_text(alloc: Global, rows: &[ResultRow]) -> Result<String, NoMemory>
    ensures exact { IfOk result (λ text.
        string_bytes text ≡ spec.reply_text (Reply.Rows rows.now)) }
    ensures read_again { IfOk result (λ _. All spec.IsFoundAgain rows.now) }
{
    let mut text = format!(in alloc; "rows\t{}\n", rows.len())?;
    for row in rows {
        push_row(&mut text, row)?;
    }
    Ok(text)
}

// The line of a row joins the text.
fn push_row(text: &mut String, row: &ResultRow) -> Result<(), NoMemory>
    ensures exact { OnOk result (string_bytes text.new
        ≡ string_bytes text.old ++ spec.line_text (spec.found_fields row.now)) }
    ensures read_again { OnOk result (spec.IsFoundAgain row.now) }
{
    text.push_str("row")?;
    push_number(text, row.id)?;
    push_text(text, row.url.as_str())?;
    push_text(text, row.title.as_str())?;
    push_date(text, row.date)?;
    push_number(text, row.count)?;
    push_number(text, row.frecency)?;
    push_text(text, row.tags.as_str())?;
    text.push('\n')?;
    Ok(())
}

// A field that is a text, and the TAB before it.
fn push_text(text: &mut String, field: &str) -> Result<(), NoMemory>
    ensures exact { OnOk result (string_bytes text.new
        ≡ string_bytes text.old ++ 9 ∷ escaped field.now) }
    ensures read_again { OnOk result (spec.IsReadAgain field.now) }
{
    text.push('\t')?;
    push_escaped(text, field)
}

// A date, and the TAB before it.
fn push_date(text: &mut String, date: Option<Micros>) -> Result<(), NoMemory>
    ensures { OnOk result (string_bytes text.new
        ≡ string_bytes text.old ++ 9 ∷ spec.date_text date) }
{
    match date {
        Some(date) => push_number(text, date.0),
        None => {
            text.push_str("\t-")?;
            Ok(())
        }
    }
}

// A number, and the TAB before it.
fn push_number<I: Integer>(text: &mut String, number: I) -> Result<(), NoMemory>
    ensures { OnOk result (string_bytes text.new ≡ string_bytes text.old ++ 9 ∷ I.text number) }
{
    let mut buffer = Buffer::new();
    text.push('\t')?;
    text.push_str(buffer.format(number))?;
    Ok(())
}
