// The texts of nodes. `serde_json` writes each text and each date.
ghost use Rattle.std.specs.Prelude.{◌≡◌, ◌++◌, [], IfOk, OnOk, decimal, unwrap_or};
ghost use Rattle.std.specs.String.{string_bytes};
ghost use Rattle.json.specs.Print.{quoted};
ghost use Rattle.pl_base.specs.Tags.{comma_joined};
ghost use Rattle.pl_backup.specs.Written.{bookmark_text, comma_before, dates_text, folder_end};
ghost use Rattle.pl_backup.specs.Written.{separator_text, tags_text, titled_text};

use pl_base::{Micros, NoMemory};
use pl_link::Canon;
use pl_nbread::Node;
use pl_words::TagName;
use serde_json::Value;
use std::alloc::Global;

/// Appends a bookmark.
pub(crate) fn push_bookmark(alloc: Global, file: &mut String, node: &Node) -> Result<(), NoMemory>
    ensures { OnOk result (string_bytes file.new
        ≡ string_bytes file.old ++ bookmark_text node.now) }
{
    push_dates(alloc, file, "{", node.added, node.modified)?;
    push_tags(alloc, file, node.tags.as_slice())?;
    push_titled(alloc, file, node.title.as_str(), "text/x-moz-place", 1)?;
    push_text(alloc, file, ",\"uri\":", address(node))?;
    file.push_str("}")?;
    Ok(())
}

/// Appends a separator.
pub(crate) fn push_separator(alloc: Global, file: &mut String, node: &Node) -> Result<(), NoMemory>
    ensures { OnOk result (string_bytes file.new
        ≡ string_bytes file.old ++ separator_text node.now) }
{
    let title = node.title.as_str();
    push_dates(alloc, file, "{", node.added, node.modified)?;
    push_titled(alloc, file, title, "text/x-moz-place-separator", 3)?;
    file.push_str("}")?;
    Ok(())
}

/// Appends what stands behind the children of a folder.
pub(crate) fn push_folder_end(
    alloc: Global,
    file: &mut String,
    folder: &Node,
) -> Result<(), NoMemory>
    ensures { OnOk result (string_bytes file.new
        ≡ string_bytes file.old ++ folder_end folder.now) }
{
    let title = folder.title.as_str();
    push_dates(alloc, file, ",", folder.added, folder.modified)?;
    push_titled(alloc, file, title, "text/x-moz-place-container", 2)?;
    file.push_str("}")?;
    Ok(())
}

// The address of a bookmark.
fn address(node: &Node) -> &str
    ensures { result.now ≡ unwrap_or node.now.url [] }
{
    node.url.as_ref().map_or("", Canon::text)
}

// Appends two dates, behind what the first key begins with.
fn push_dates(
    alloc: Global,
    file: &mut String,
    start: &str,
    added: Micros,
    modified: Micros,
) -> Result<(), NoMemory>
    ensures { OnOk result (string_bytes file.new
        ≡ string_bytes file.old ++ dates_text start.now added modified) }
{
    file.push_str(start)?;
    file.push_str("\"dateAdded\":")?;
    push_number(alloc, file, added.0)?;
    file.push_str(",\"lastModified\":")?;
    push_number(alloc, file, modified.0)
}

fn push_number(alloc: Global, file: &mut String, number: u64) -> Result<(), NoMemory>
    ensures { OnOk result (string_bytes file.new ≡ string_bytes file.old ++ decimal number) }
{
    file.push_str(Value::from(number).to_string(alloc)?.as_str())?;
    Ok(())
}

// Appends the member of a bookmark's tags, if it has any.
fn push_tags(alloc: Global, file: &mut String, tags: &[TagName]) -> Result<(), NoMemory>
    ensures { OnOk result (string_bytes file.new ≡ string_bytes file.old ++ tags_text tags.now) }
{
    if tags.is_empty() {
        return Ok(());
    }
    let names = joined(alloc, tags)?;
    push_text(alloc, file, ",\"tags\":", names.as_str())
}

// Tags, apart by commas.
fn joined(alloc: Global, tags: &[TagName]) -> Result<String, NoMemory>
    ensures { IfOk result (λ names. string_bytes names ≡ comma_joined tags.now) }
{
    let mut names = String::new(alloc);
    let mut left = tags;
    while let Some((tag, behind)) = left.split_first() {
        names.push_str(tag.text())?;
        push_comma(&mut names, behind)?;
        left = behind;
    }
    Ok(names)
}

// Appends a comma before these tags, if there are any.
fn push_comma(names: &mut String, tags: &[TagName]) -> Result<(), NoMemory>
    ensures { OnOk result (string_bytes names.new
        ≡ string_bytes names.old ++ comma_before tags.now) }
{
    if tags.is_empty() {
        return Ok(());
    }
    names.push_str(",")?;
    Ok(())
}

// Appends a title, and the name and the number of a kind.
fn push_titled(
    alloc: Global,
    file: &mut String,
    title: &str,
    kind: &str,
    code: u8,
) -> Result<(), NoMemory>
    ensures { OnOk result (string_bytes file.new
        ≡ string_bytes file.old ++ titled_text title.now kind.now code) }
{
    push_text(alloc, file, ",\"title\":", title)?;
    write!(file, ",\"type\":\"{kind}\",\"typeCode\":{code}")?;
    Ok(())
}

// Appends a member's key, and its text.
fn push_text(alloc: Global, file: &mut String, key: &str, text: &str) -> Result<(), NoMemory>
    ensures { OnOk result (string_bytes file.new
        ≡ string_bytes file.old ++ (key.now ++ quoted text.now)) }
{
    let written = Value::try_from_str(alloc, text)?.to_string(alloc)?;
    file.push_str(key)?;
    file.push_str(written.as_str())?;
    Ok(())
}
