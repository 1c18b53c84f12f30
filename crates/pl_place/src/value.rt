// The value of a key, read from its bytes. `None` says that it is not of its form.
ghost use Rattle.std.specs.Prelude.{◌≡◌, IfOk};
ghost use Rattle.std.specs.Option.{option_map};
ghost use Rattle.pl_words.specs.TagName.{tag_named};
ghost use Rattle.pl_place.specs.Values as spec;

use crate::kinds::{QueryType, ResultType, TimeRef};
use crate::sort::Sort;
use pl_base::{ItemId, NoMemory, Transition, Txt, number, number_32};
use pl_link::{Canon, CanonError};
use pl_words::{TagError, TagName};
use std::alloc::Global;

/// A number of microseconds, with or without a `-` before it.
pub(crate) fn time(text: &[u8]) -> Option<i64>
    ensures { result ≡ spec.time_of text.now }
{
    match text {
        [b'-', digits @ ..] => negative(number(digits)?),
        _ => i64::try_from(number(text)?).ok(),
    }
}

fn negative(number: u64) -> Option<i64>
    ensures { result ≡ spec.negative 64 number }
{
    0i64.checked_sub_unsigned(number)
}

/// A number of visits, with or without a `-` before it.
pub(crate) fn count(text: &[u8]) -> Option<i32>
    ensures { result ≡ spec.count_of text.now }
{
    match text {
        [b'-', digits @ ..] => negative_32(number(digits)?),
        _ => i32::try_from(number(text)?).ok(),
    }
}

fn negative_32(number: u64) -> Option<i32>
    ensures { result ≡ spec.negative 32 number }
{
    0i32.checked_sub_unsigned(u32::try_from(number).ok()?)
}

pub(crate) fn time_ref(text: &[u8]) -> Option<TimeRef>
    ensures { result ≡ spec.time_ref_of text.now }
{
    TimeRef::from_number(number(text)?)
}

pub(crate) fn transition(text: &[u8]) -> Option<Transition>
    ensures { result ≡ spec.transition_of text.now }
{
    Transition::from_number(number(text)?)
}

pub(crate) fn sort(text: &[u8]) -> Option<Sort>
    ensures { result ≡ spec.sort_of text.now }
{
    Sort::from_number(number(text)?)
}

pub(crate) fn result_type(text: &[u8]) -> Option<ResultType>
    ensures { result ≡ spec.result_type_of text.now }
{
    ResultType::from_number(number(text)?)
}

pub(crate) fn query_type(text: &[u8]) -> Option<QueryType>
    ensures { result ≡ spec.query_type_of text.now }
{
    QueryType::from_number(number(text)?)
}

/// `1` or `true`, and `0` or `false`.
pub(crate) fn truth(text: &[u8]) -> Option<bool>
    ensures { result ≡ spec.truth_of text.now }
{
    match text {
        b"1" | b"true" => Some(true),
        b"0" | b"false" => Some(false),
        _ => None,
    }
}

/// Any text.
pub(crate) fn text(alloc: Global, text: &[u8]) -> Result<Option<Txt>, NoMemory>
    ensures { IfOk result (λ read. read ≡ spec.text_of text.now) }
{
    match as_text(text) {
        Some(text) => Ok(Some(Txt::copied(alloc, text)?)),
        None => Ok(None),
    }
}

/// A domain, its letters of ASCII in lower case.
pub(crate) fn domain(alloc: Global, text: &[u8]) -> Result<Option<Txt>, NoMemory>
    ensures { IfOk result (λ read. read ≡ spec.domain_of text.now) }
{
    match as_text(text) {
        Some(text) => Ok(Some(Txt::from(text.to_ascii_lowercase(alloc)?))),
        None => Ok(None),
    }
}

/// A URL of the store.
pub(crate) fn uri(alloc: Global, text: &[u8]) -> Result<Option<Canon>, NoMemory>
    ensures { IfOk result (λ read. read ≡ spec.uri_of text.now) }
{
    let Some(text) = as_text(text) else {
        return Ok(None);
    };
    match Canon::read(alloc, text) {
        Ok(uri) => Ok(Some(uri)),
        Err(CanonError::BadUrl) => Ok(None),
        Err(CanonError::NoMemory) => Err(NoMemory),
    }
}

/// The name of a tag, which may have blanks at both ends.
pub(crate) fn tag(alloc: Global, text: &[u8]) -> Result<Option<TagName>, NoMemory>
    ensures { IfOk result (λ read. read ≡ tag_named text.now) }
{
    let Some(text) = as_text(text) else {
        return Ok(None);
    };
    match TagName::read(alloc, text) {
        Ok(name) => Ok(Some(name)),
        Err(TagError::BadTag) => Ok(None),
        Err(TagError::NoMemory) => Err(NoMemory),
    }
}

// The bytes as text, if they are UTF-8.
fn as_text(bytes: &[u8]) -> Option<&str>
    ensures { option_map (λ text. text.now) result ≡ spec.text_of bytes.now }
{
    str::from_utf8(bytes).ok()
}

/// A folder: the name of a root, or an id.
pub(crate) fn parent(text: &[u8]) -> Option<ItemId>
    ensures { result ≡ spec.parent_of text.now }
{
    match root(text) {
        Some(root) => Some(root),
        None => number_32(text).map(ItemId),
    }
}

fn root(text: &[u8]) -> Option<ItemId>
    ensures { result ≡ spec.root_named text.now }
{
    root_named(as_text(text)?)
}

// The root with this name, after the GUIDs of Mozilla Places.
fn root_named(name: &str) -> Option<ItemId>
    ensures { result ≡ spec.root_named name.now }
{
    match name {
        "root________" => Some(ItemId(1)),
        "menu________" => Some(ItemId(2)),
        "toolbar_____" => Some(ItemId(3)),
        "tags________" => Some(ItemId(4)),
        "unfiled_____" => Some(ItemId(5)),
        "mobile______" => Some(ItemId(6)),
        _ => None,
    }
}
