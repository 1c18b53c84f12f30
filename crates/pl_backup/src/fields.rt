// What the fields of an object say.
ghost use Rattle.std.specs.Prelude.{◌≡◌, ◌++◌, IfOk, OnOk, option_map};
ghost use Rattle.std.specs.Option.{option_to_list};
ghost use Rattle.pl_base.specs.Address.{canon};
ghost use Rattle.pl_base.specs.ItemKind.{item_kind_at};
ghost use Rattle.pl_backup.specs.BackupTree as spec;
ghost use Rattle.pl_backup.specs.BackupTree.{top};
ghost use Rattle.pl_backup.specs.Reading.{children as children_of, fields};
ghost use Rattle.pl_nbread.specs.BookmarkTree.{tags_in};
ghost use Rattle.pl_words.specs.TagName.{tag_named};
ghost use Rattle.serde_json.specs.View.{items_view, number_view, view};

use pl_base::{ItemKind, Micros, NoMemory, Seq, Txt};
use pl_link::{Canon, CanonError};
use pl_words::{TagError, TagName, first_tags};
use serde_json::{Number, Value};
use std::alloc::Global;

/// The values in an object's `children`.
pub(crate) fn children(value: &Value) -> Option<&[Value]>
    ensures { option_map (λ values. items_view values.now) result ≡ top (view value.now) }
{
    let values = value.get("children")?.as_array()?;
    Some(values.as_slice())
}

/// The same, none where there is no such array.
pub(crate) fn below(value: &Value) -> &[Value]
    ensures { items_view result.now ≡ children_of (view value.now) }
{
    match children(value) {
        Some(values) => values,
        None => &[],
    }
}

/// The text with this key.
pub(crate) fn text<'a>(value: &'a Value, key: &str) -> Option<&'a str>
    ensures { option_map (λ text. text.now) result
        ≡ spec.text key.now (fields (view value.now)) }
{
    value.get(key)?.as_str()
}

fn number<'a>(value: &'a Value, key: &str) -> Option<&'a Number>
    ensures { option_map (λ number. number_view number.now) result
        ≡ spec.num key.now (fields (view value.now)) }
{
    value.get(key)?.as_number()
}

/// What kind of node an object is. A whole number decides, else the name of a type.
pub(crate) fn kind(value: &Value) -> Option<ItemKind>
    ensures { result ≡ spec.kind (fields (view value.now)) }
{
    match number(value, "typeCode") {
        Some(code) if !code.is_f64() => kind_coded(code.as_u64()?),
        _ => kind_named(text(value, "type")?),
    }
}

fn kind_coded(code: u64) -> Option<ItemKind>
    ensures { result ≡ item_kind_at code }
{
    match code {
        1 => Some(ItemKind::Bookmark),
        2 => Some(ItemKind::Folder),
        3 => Some(ItemKind::Separator),
        _ => None,
    }
}

fn kind_named(name: &str) -> Option<ItemKind>
    ensures { result ≡ spec.kind_named name.now }
{
    match name {
        "text/x-moz-place" => Some(ItemKind::Bookmark),
        "text/x-moz-place-container" => Some(ItemKind::Folder),
        "text/x-moz-place-separator" => Some(ItemKind::Separator),
        _ => None,
    }
}

/// The date with this key.
pub(crate) fn date(value: &Value, key: &str) -> Option<Micros>
    ensures { result ≡ spec.date key.now (fields (view value.now)) }
{
    let micros = number(value, key)?.as_u64()?;
    if micros <= Micros::LAST.0 {
        Some(Micros(micros))
    } else {
        None
    }
}

/// The title.
pub(crate) fn title(alloc: Global, value: &Value) -> Result<Txt, NoMemory>
    ensures { IfOk result (λ title. title ≡ spec.title (fields (view value.now))) }
{
    Txt::copied(alloc, text(value, "title").unwrap_or(""))
}

/// The address, if it is a URL of the store.
pub(crate) fn url(alloc: Global, value: &Value) -> Result<Option<Canon>, NoMemory>
    ensures { IfOk result (λ url. url ≡ spec.url (fields (view value.now))) }
{
    match text(value, "uri") {
        Some(address) => url_at(alloc, address),
        None => Ok(None),
    }
}

fn url_at(alloc: Global, address: &str) -> Result<Option<Canon>, NoMemory>
    ensures { IfOk result (λ url. url ≡ canon address.now) }
{
    match Canon::read(alloc, address) {
        Ok(url) => Ok(Some(url)),
        Err(CanonError::BadUrl) => Ok(None),
        Err(CanonError::NoMemory) => Err(NoMemory),
    }
}

/// The tags.
pub(crate) fn tags(alloc: Global, value: &Value) -> Result<Seq<TagName>, NoMemory>
    ensures { IfOk result (λ tags. tags ≡ spec.tags (fields (view value.now))) }
{
    tags_in(alloc, text(value, "tags").unwrap_or(""))
}

// The tags that a text names, apart by commas, each once.
fn tags_in(alloc: Global, text: &str) -> Result<Seq<TagName>, NoMemory>
    ensures { IfOk result (λ tags. tags ≡ tags_in text.now) }
{
    let mut tags = Vec::new(alloc);
    for name in text.split(',') {
        push_tag(alloc, &mut tags, name)?;
    }
    first_tags(alloc, tags)
}

// Adds the tag that a text names, if it names one.
fn push_tag(alloc: Global, tags: &mut Vec<TagName>, name: &str) -> Result<(), NoMemory>
    ensures { OnOk result (tags.new.items ≡ tags.old.items ++ option_to_list (tag_named name.now)) }
{
    match TagName::read(alloc, name) {
        Ok(tag) => tags.push(tag)?,
        Err(TagError::BadTag) => {}
        Err(TagError::NoMemory) => return Err(NoMemory),
    }
    Ok(())
}
