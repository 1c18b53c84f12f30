// The items of a list.
ghost use Rattle.std.specs.Prelude.{◌≡◌, IfOk};
ghost use Rattle.std.specs.List.{All};
ghost use Rattle.std.specs.String.{string_bytes};
ghost use Rattle.pl_script.specs.Reply as spec;

use crate::field::escaped;
use pl_base::{ItemKind, NoMemory};
use pl_step::{ListRow, Reply};
use std::alloc::Global;

/// A line that says how many items there are, and a line for each.
pub fn list_text(alloc: Global, rows: &[ListRow]) -> Result<String, NoMemory>
    ensures exact { IfOk result (λ text.
        string_bytes text ≡ spec.reply_text (Reply.List rows.now)) }
    ensures read_again { IfOk result (λ _. All spec.IsToldAgain rows.now) }
{
    let mut text = format!(in alloc; "rows\t{}\n", rows.len())?;
    for row in rows {
        text.push_str(&row_text(alloc, row)?)?;
    }
    Ok(text)
}

fn row_text(alloc: Global, row: &ListRow) -> Result<String, NoMemory>
    ensures exact { IfOk result (λ text.
        string_bytes text ≡ spec.line_text (spec.row_fields row.now)) }
    ensures read_again { IfOk result (λ _. spec.IsToldAgain row.now) }
{
    let word = kind_word(row.kind);
    let title = escaped(alloc, told_title(row))?;
    let url = escaped(alloc, told_url(row))?;
    Ok(format!(in alloc; "{word}\t{}\t{title}\t{url}\n", row.id.0)?)
}

fn kind_word(kind: ItemKind) -> &'static str
    ensures { result.now ≡ spec.kind_word kind }
{
    match kind {
        ItemKind::Bookmark => "bookmark",
        ItemKind::Folder => "folder",
        ItemKind::Separator => "separator",
    }
}

// The title, which a separator may have too, but is not told.
fn told_title(row: &ListRow) -> &str
    ensures { result.now ≡ spec.told_title row.now.kind row.now.title }
{
    match row.kind {
        ItemKind::Bookmark | ItemKind::Folder => row.title.as_str(),
        ItemKind::Separator => "",
    }
}

// The address of a bookmark.
fn told_url(row: &ListRow) -> &str
    ensures { result.now ≡ spec.told_url row.now.kind row.now.url }
{
    match (row.kind, &row.url) {
        (ItemKind::Bookmark, Some(url)) => url.as_str(),
        _ => "",
    }
}
