// The lines of a file.
ghost use Rattle.std.specs.Prelude.{◌≡◌, ◌*◌, ◌++◌, [], OnOk, codes, replicate, unwrap_or};
ghost use Rattle.std.specs.String.{string_bytes};
ghost use Rattle.pl_base.specs.Tags.{comma_joined};
ghost use Rattle.pl_nbwrite.specs.BookmarkText as spec;
ghost use Rattle.pl_nbwrite.specs.BookmarkText.{dates, escaped, heading, link, list_end};
ghost use Rattle.pl_nbwrite.specs.BookmarkText.{lines_of, list_start, tags_text};
ghost use Rattle.pl_nbwrite.specs.Written.{comma_before};

use crate::escape::{push_escaped, push_title};
use pl_base::{ItemKind, MICROS_PER_SECOND, Micros, NoMemory};
use pl_nbread::Node;
use pl_words::TagName;

/// Appends the line of a node, and the start of a folder's list.
pub(crate) fn push_lines(file: &mut String, level: usize, node: &Node) -> Result<(), NoMemory>
    ensures { OnOk result (string_bytes file.new
        ≡ string_bytes file.old ++ lines_of node.now.kind level node.now) }
{
    match node.kind {
        ItemKind::Bookmark => push_link_line(file, level, node),
        ItemKind::Folder => {
            let title = node.title.as_str();
            push_list_head(file, level, node.added, node.modified, "", title)
        }
        ItemKind::Separator => push_rule(file, level),
    }
}

/// Appends the heading of a list, with what else its tag says, and the start of the list.
pub(crate) fn push_list_head(
    file: &mut String,
    level: usize,
    added: Micros,
    modified: Micros,
    more: &str,
    title: &str,
) -> Result<(), NoMemory>
    ensures { OnOk result (string_bytes file.new ≡ string_bytes file.old
        ++ (spec.line level (heading added modified more.now title.now) ++ list_start level)) }
{
    push_indent(file, level)?;
    push_heading(file, added, modified, more, title)?;
    file.push_str("\n")?;
    push_indent(file, level)?;
    file.push_str("<DL><p>\n")?;
    Ok(())
}

/// Appends the end of a list.
pub(crate) fn push_list_end(file: &mut String, level: usize) -> Result<(), NoMemory>
    ensures { OnOk result (string_bytes file.new ≡ string_bytes file.old ++ list_end level) }
{
    push_indent(file, level)?;
    file.push_str("</DL><p>\n")?;
    Ok(())
}

// Appends the line of a separator.
fn push_rule(file: &mut String, level: usize) -> Result<(), NoMemory>
    ensures { OnOk result (string_bytes file.new
        ≡ string_bytes file.old ++ spec.line level (codes "<HR>")) }
{
    push_indent(file, level)?;
    file.push_str("<HR>\n")?;
    Ok(())
}

// Appends the line of a bookmark.
fn push_link_line(file: &mut String, level: usize, node: &Node) -> Result<(), NoMemory>
    ensures { OnOk result (string_bytes file.new
        ≡ string_bytes file.old ++ spec.line level (link node.now)) }
{
    push_indent(file, level)?;
    push_link(file, node)?;
    file.push_str("\n")?;
    Ok(())
}

// Appends four spaces for each level.
fn push_indent(file: &mut String, level: usize) -> Result<(), NoMemory>
    ensures { OnOk result (string_bytes file.new
        ≡ string_bytes file.old ++ replicate (4 * level) 32) }
{
    for _i in 0..level {
        file.push_str("    ")?;
    }
    Ok(())
}

// Appends a bookmark.
fn push_link(file: &mut String, node: &Node) -> Result<(), NoMemory>
    ensures { OnOk result (string_bytes file.new ≡ string_bytes file.old ++ link node.now) }
{
    file.push_str("<DT><A HREF=\"")?;
    push_url(file, node)?;
    file.push_str("\"")?;
    push_dates(file, node.added, node.modified)?;
    push_tags(file, node.tags.as_slice())?;
    file.push_str(">")?;
    push_title(file, node.title.as_str())?;
    file.push_str("</A>")?;
    Ok(())
}

// Appends the address of a bookmark.
fn push_url(file: &mut String, node: &Node) -> Result<(), NoMemory>
    ensures { OnOk result (string_bytes file.new
        ≡ string_bytes file.old ++ escaped (unwrap_or node.now.url [])) }
{
    let Some(url) = &node.url else {
        return Ok(());
    };
    push_escaped(file, url.text())
}

// Appends the heading of a list, with what else its tag says.
fn push_heading(
    file: &mut String,
    added: Micros,
    modified: Micros,
    more: &str,
    title: &str,
) -> Result<(), NoMemory>
    ensures { OnOk result (string_bytes file.new
        ≡ string_bytes file.old ++ heading added modified more.now title.now) }
{
    file.push_str("<DT><H3")?;
    push_dates(file, added, modified)?;
    file.push_str(more)?;
    file.push_str(">")?;
    push_title(file, title)?;
    file.push_str("</H3>")?;
    Ok(())
}

// Appends two dates, in whole seconds.
fn push_dates(file: &mut String, added: Micros, modified: Micros) -> Result<(), NoMemory>
    ensures { OnOk result (string_bytes file.new ≡ string_bytes file.old ++ dates added modified) }
{
    let added = added.0 / MICROS_PER_SECOND;
    let modified = modified.0 / MICROS_PER_SECOND;
    write!(file, " ADD_DATE=\"{added}\" LAST_MODIFIED=\"{modified}\"")?;
    Ok(())
}

// Appends the tags of a bookmark, if it has any.
fn push_tags(file: &mut String, tags: &[TagName]) -> Result<(), NoMemory>
    ensures { OnOk result (string_bytes file.new ≡ string_bytes file.old ++ tags_text tags.now) }
{
    if tags.is_empty() {
        return Ok(());
    }
    file.push_str(" TAGS=\"")?;
    push_names(file, tags)?;
    file.push_str("\"")?;
    Ok(())
}

// Appends tags, apart by commas.
fn push_names(file: &mut String, tags: &[TagName]) -> Result<(), NoMemory>
    ensures { OnOk result (string_bytes file.new
        ≡ string_bytes file.old ++ escaped (comma_joined tags.now)) }
{
    let mut left = tags;
    while let Some((tag, behind)) = left.split_first() {
        push_escaped(file, tag.text())?;
        push_comma(file, behind)?;
        left = behind;
    }
    Ok(())
}

// Appends a comma before these tags, if there are any.
fn push_comma(file: &mut String, tags: &[TagName]) -> Result<(), NoMemory>
    ensures { OnOk result (string_bytes file.new ≡ string_bytes file.old ++ comma_before tags.now) }
{
    if tags.is_empty() {
        return Ok(());
    }
    file.push_str(",")?;
    Ok(())
}
