// A bookmark file, read from its bytes.
ghost use Rattle.std.specs.Prelude.{◌≡◌, ◌<◌, ◌≤◌, ℕ, Some, None, Err, IfOk, MatchOption, drop};
ghost use Rattle.std.specs.Prelude.{false, length, true};
ghost use Rattle.pl_nbread.specs.BookmarkFile.{body, doctype, file_limit, from_doctype};
ghost use Rattle.pl_nbread.specs.BookmarkFile.{has_doctype, offset};
ghost use Rattle.pl_nbread.specs.BookmarkTree.{tree_in, tree_of};
ghost use Rattle.pl_nbread.specs.WellFormed.{AreWellFormed};
ghost use Rattle.pl_nbread.specs.declared.reader.ReadError.TheVariants as variants;

use crate::builder::Builder;
use crate::part::next_part;
use crate::tree::Tree;
use pl_base::NoMemory;
use std::alloc::Global;
use thiserror::Error;

/// A bookmark file has fewer bytes.
pub const FILE_LIMIT: usize = 16_777_216;

/// What a bookmark file begins with, its letters of either case.
const DOCTYPE: &str = "<!DOCTYPE NETSCAPE-Bookmark-file-1>";

/// Why bytes hold no bookmarks.
#[derive(Clone, Copy, Debug, PartialEq, Eq, Error)]
pub enum ReadError {
    /// The bytes are no UTF-8, from this offset on, or the doctype does not stand there.
    #[error("no bookmark file, at offset {0}")]
    NotBookmarks(u64),
    #[error("out of memory")]
    NoMemory,
}

impl From<NoMemory> for ReadError {
    ghost from_gives = { λ _ e. e ≡ variants.NoMemory };

    fn from(_: NoMemory) -> Self {
        ReadError::NoMemory
    }
}

/// The tree of bookmarks that a file in the Netscape format holds, as Firefox, Chromium and Safari
/// write it. Whatever stands behind the doctype gives a tree.
pub fn read(alloc: Global, bytes: &[u8]) -> Result<Tree, ReadError>
    requires short { length bytes.now < file_limit }
    ensures tree { IfOk result (λ tree. tree ≡ tree_of bytes.now) }
    ensures taken { IfOk result (λ _. offset bytes.now ≡ None) }
    ensures formed { IfOk result AreWellFormed }
    ensures refused { (at : ℕ) → result ≡ Err (variants.NotBookmarks at)
        → offset bytes.now ≡ Some at }
{
    let body = body(bytes)?;
    Ok(tree_in(alloc, body)?)
}

// What stands behind the doctype.
fn body(bytes: &[u8]) -> Result<&str, ReadError>
    ensures body { IfOk result (λ text. text.now ≡ body bytes.now) }
    ensures taken { IfOk result (λ _. offset bytes.now ≡ None) }
    ensures refused { (at : ℕ) → result ≡ Err (variants.NotBookmarks at)
        → offset bytes.now ≡ Some at }
    ensures shorter { IfOk result (λ text. length text.now ≤ length bytes.now) }
{
    let text = match str::from_utf8(bytes) {
        Ok(text) => text,
        Err(error) => return Err(ReadError::NotBookmarks(error.valid_up_to() as u64)),
    };
    let start = from_doctype(text);
    match behind_doctype(start) {
        Some(body) => Ok(body),
        None => Err(ReadError::NotBookmarks((text.len() - start.len()) as u64)),
    }
}

// What stands from the doctype on, if it is there: behind U+FEFF and blanks.
fn from_doctype(text: &str) -> &str
    ensures value { result.now ≡ from_doctype text.now }
    ensures shorter { length result.now ≤ length text.now }
{
    text.strip_prefix('\u{FEFF}')
        .unwrap_or(text)
        .trim_ascii_start()
}

// What stands behind the doctype, if the text begins with it.
fn behind_doctype(text: &str) -> Option<&str>
    ensures { MatchOption result (has_doctype text.now ≡ false) (λ behind.
        (has_doctype text.now ≡ true) × (behind.now ≡ drop (length doctype) text.now)) }
{
    let (front, behind) = text.split_at_checked(DOCTYPE.len())?;
    if front.eq_ignore_ascii_case(DOCTYPE) {
        Some(behind)
    } else {
        None
    }
}

fn tree_in(alloc: Global, body: &str) -> Result<Tree, NoMemory>
    requires short { length body.now < file_limit }
    ensures { IfOk result (λ tree. tree ≡ tree_in body.now) }
{
    let mut builder = Builder::new(alloc);
    let mut text = body;
    while !text.is_empty() {
        let (part, behind) = next_part(text);
        builder.take(alloc, &part)?;
        text = behind;
    }
    builder.finish(alloc)
}
