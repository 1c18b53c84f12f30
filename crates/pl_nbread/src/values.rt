// What the values of attributes say. A value that is missing is empty.
ghost use Rattle.std.specs.Prelude.{◌≡◌, ◌++◌, IfOk, OnOk};
ghost use Rattle.std.specs.Option.{option_to_list};
ghost use Rattle.std.specs.String.{string_bytes};
ghost use Rattle.pl_base.specs.Address.{canon};
ghost use Rattle.pl_nbread.specs.BookmarkTree as spec;
ghost use Rattle.pl_nbread.specs.BookmarkTree.{said};
ghost use Rattle.pl_nbread.specs.Scanned.{now};
ghost use Rattle.pl_words.specs.TagName.{tag_named};

use crate::references::decoded;
use pl_base::{NoMemory, Seq, Txt, number};
use pl_link::{Canon, CanonError};
use pl_words::{TagError, TagName, first_tags};
use std::alloc::Global;

/// The first second past 9999-12-31, since 1970.
const SECONDS_LIMIT: u64 = 253_402_300_800;

/// The URL of the store that a value is.
pub(crate) fn url(alloc: Global, value: Option<&str>) -> Result<Option<Canon>, NoMemory>
    ensures { IfOk result (λ url. url ≡ canon (said (now value.entry))) }
{
    let text = said(alloc, value)?;
    match Canon::read(alloc, text.as_str()) {
        Ok(url) => Ok(Some(url)),
        Err(CanonError::BadUrl) => Ok(None),
        Err(CanonError::NoMemory) => Err(NoMemory),
    }
}

/// The number of seconds since 1970 that a value is, up to the end of 9999.
pub(crate) fn seconds(alloc: Global, value: Option<&str>) -> Result<Option<u64>, NoMemory>
    ensures { IfOk result (λ seconds. seconds ≡ spec.seconds (said (now value.entry))) }
{
    let text = said(alloc, value)?;
    Ok(number(text.as_bytes()).filter(|seconds| *seconds < SECONDS_LIMIT))
}

/// The tags that a value names, apart by commas, each once.
pub(crate) fn tags(alloc: Global, value: Option<&str>) -> Result<Seq<TagName>, NoMemory>
    ensures { IfOk result (λ tags. tags ≡ spec.tags_in (said (now value.entry))) }
{
    let text = said(alloc, value)?;
    let mut tags = Vec::new(alloc);
    for name in text.as_str().split(',') {
        push_tag(alloc, &mut tags, name)?;
    }
    first_tags(alloc, tags)
}

// Adds the tag that a text names, if it names one.
fn push_tag(alloc: Global, tags: &mut Vec<TagName>, name: &str) -> Result<(), NoMemory>
    ensures { OnOk result (tags.new.items ≡ tags.old.items ++ option_to_list (tag_named name.now)) }
{
    match TagName::read(alloc, name) {
        Ok(tag) => tags.push(tag)?,
        Err(TagError::BadTag) => {}
        Err(TagError::NoMemory) => return Err(NoMemory),
    }
    Ok(())
}

/// Whether a value is `true`, its letters of either case.
pub(crate) fn is_true(alloc: Global, value: Option<&str>) -> Result<bool, NoMemory>
    ensures { IfOk result (λ is. is ≡ spec.says_true (said (now value.entry))) }
{
    let text = said(alloc, value)?;
    Ok(text.as_str().eq_ignore_ascii_case("true"))
}

/// A title: without the blanks at both ends, its references decoded.
pub(crate) fn title(alloc: Global, text: &str) -> Result<Txt, NoMemory>
    ensures { IfOk result (λ title. title ≡ spec.title_in text.now) }
{
    Ok(Txt::from(decoded(alloc, text.trim_ascii())?))
}

// A value with its references decoded.
fn said(alloc: Global, value: Option<&str>) -> Result<String, NoMemory>
    ensures { IfOk result (λ text. string_bytes text ≡ said (now value.entry)) }
{
    decoded(alloc, value.unwrap_or(""))
}
