ghost use Rattle.std.specs.Prelude.{◌≡◌, ◌↔◌, bytes_eq, IfOk, IsErrOf, IsTrue, None, Some};
ghost use Rattle.pl_base.specs.Good.{IsTagName};
ghost use Rattle.pl_words.specs.declared.tag_name.TagError.TheVariants as variants;
ghost use Rattle.pl_words.specs.TagLists.{is_same_tag};
ghost use Rattle.pl_words.specs.TagName.{tag_named, trimmed};

use crate::fold;
use pl_base::{NoMemory, Txt};
use std::alloc::Global;
use std::marker::Model;
use thiserror::Error;

/// The most bytes of a tag's name.
const LONGEST_TAG_NAME: usize = 100;

/// Why a text names no tag.
#[derive(Clone, Copy, Debug, PartialEq, Eq, Error)]
pub enum TagError {
    /// The text is nothing but blanks, has more than 100 bytes between them, or has a comma.
    #[error("no tag name")]
    BadTag,
    #[error("out of memory")]
    NoMemory,
}

impl From<NoMemory> for TagError {
    ghost from_gives = { λ _ e. e ≡ variants.NoMemory };

    fn from(_: NoMemory) -> Self {
        TagError::NoMemory
    }
}

/// The name of a tag. Contracts see it as its bytes.
#[derive(Debug, Drop)]
pub struct TagName {
    name: Txt,
}

impl Model for TagName {
    ghost use Rattle.std.specs.Prelude.{ℕ, List};
    ghost use Rattle.pl_base.specs.Good.{IsTagName};

    ghost Value = { List ℕ };

    ghost view = { λ t. t.name };

    ghost invariant = { λ t. IsTagName t.name };
}

impl TagName {
    /// The tag that a text names, which may have blanks at both ends.
    pub fn read(alloc: Global, text: &str) -> Result<TagName, TagError>
        ensures ok { IfOk result (λ name. tag_named text.now ≡ Some name) }
        ensures trimmed { IfOk result (λ name. name ≡ trimmed text.now) }
        ensures given { IfOk result IsTagName }
        ensures bad { IsErrOf result TagError.BadTag → tag_named text.now ≡ None }

        // Memory is wanted of a tag's name alone.
        ensures no_memory { IsErrOf result TagError.NoMemory → IsTagName (trimmed text.now) }
    {
        let name = text.trim_ascii();
        if !is_tag_name(name) {
            return Err(TagError::BadTag);
        }
        Ok(TagName::of(alloc, name)?)
    }

    /// The tag with this name.
    pub fn of(alloc: Global, name: &str) -> Result<TagName, NoMemory>
        requires { IsTagName name.now }
        ensures { IfOk result (λ tag. tag ≡ name.now) }
    {
        Ok(TagName {
            name: Txt::copied(alloc, name)?,
        })
    }

    pub fn text(&self) -> &str
        ensures value { result.now ≡ self.now }
        ensures given { IsTagName self.now }
    {
        self.name.as_str()
    }

    /// Whether both names are spelled alike, byte for byte. Names of one tag need not be.
    pub fn has_same_spelling(&self, other: &TagName) -> bool
        ensures { result ≡ bytes_eq self.now other.now }
    {
        self.name == other.name
    }

    /// Whether both names are of one tag: their folds are equal.
    pub fn is_same_tag(&self, alloc: Global, other: &TagName) -> Result<bool, NoMemory>
        ensures { IfOk result (λ same. same ≡ is_same_tag self.now other.now) }
    {
        Ok(fold(alloc, self.text())? == fold(alloc, other.text())?)
    }
}

/// Whether the text is the name of a tag: 1 to 100 bytes with no comma and no blank at either end.
pub fn is_tag_name(text: &str) -> bool
    ensures { IsTrue result ↔ IsTagName text.now }
{
    if text.is_empty() || text.len() > LONGEST_TAG_NAME {
        return false;
    }
    !text.as_bytes().contains(&b',') && text.trim_ascii().len() == text.len()
}
