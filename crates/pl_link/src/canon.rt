ghost use Rattle.std.specs.Prelude.{◌≡◌, ◌<◌, ◌≤◌, length, nat_eq, None, Some};
ghost use Rattle.std.specs.Prelude.{Ok, IfOk, IsErr, IsErrOf, IsOkAnd, IsTrue};
ghost use Rattle.std.specs.List.{starts_with};
ghost use Rattle.pl_base.specs.Address.{canon, is_place, is_recorded, longest_url, record_of};
ghost use Rattle.pl_base.specs.Address.{text_limit};
ghost use Rattle.pl_base.specs.Address as address;
ghost use Rattle.url.specs.Host.{host_text};
ghost use Rattle.url.specs.Parts.{host_or_empty, serialize};

use crate::parts::prefix;
use std::alloc::Global;
use std::marker::Model;
use thiserror::Error;
use url::{ParseError, Position, Url};

/// A text of this many bytes or more is not read.
const TEXT_LIMIT: usize = 16_777_216;

/// The length of the longest URL of the store, in bytes.
const LONGEST_URL: usize = 65_536;

/// Why a text gives no URL of the store.
#[derive(Clone, Copy, Debug, PartialEq, Eq, Error)]
pub enum CanonError {
    /// The text is no absolute URL, or has 16,777,216 bytes or more, or its
    /// URL has more than 65,536.
    #[error("no URL of the store")]
    BadUrl,
    #[error("out of memory")]
    NoMemory,
}

/// A URL of the store. Contracts see it as its text, which is its identity.
#[derive(Debug, Drop)]
pub struct Canon {
    url: Url,
}

// The text parses to this URL, so the text alone tells its parts.
impl Model for Canon {
    ghost use Rattle.std.specs.Prelude.{◌≡◌, ◌≤◌, ℕ, List, length, Ok};
    ghost use Rattle.pl_base.specs.Address.{longest_url, record_of};
    ghost use Rattle.url.specs.Parts.{serialize};

    ghost Value = { List ℕ };

    ghost view = { λ c. serialize c.url };

    ghost invariant = { λ c. (record_of (serialize c.url) ≡ Ok c.url)
        × (length (serialize c.url) ≤ longest_url) };
}

impl Canon {
    /// The URL that an absolute address stands for, by the URL Standard.
    pub fn read(alloc: Global, text: &str) -> Result<Canon, CanonError>
        ensures url { IfOk result (λ c. canon text.now ≡ Some c) }
        ensures bad_url { IsErrOf result CanonError.BadUrl → canon text.now ≡ None }

        // A text that is too long is refused before any memory is wanted.
        ensures no_memory { IsErrOf result CanonError.NoMemory → length text.now < text_limit }
    {
        if text.len() >= TEXT_LIMIT {
            return Err(CanonError::BadUrl);
        }
        let url = parsed(alloc, text)?;
        if url.as_str().len() > LONGEST_URL {
            return Err(CanonError::BadUrl);
        }
        Ok(Canon { url })
    }

    /// The URL as the store keeps and shows it, in ASCII.
    pub fn text(&self) -> &str
        ensures value { result.now ≡ self.now }

        // A URL of the store names itself.
        ensures own { canon self.now ≡ Some self.now }
        ensures longest { length self.now ≤ longest_url }
    {
        self.url.as_str()
    }

    /// Whether visits to the URL are recorded.
    pub fn recorded(&self) -> bool
        ensures { IsOkAnd (record_of self.now) (λ found. result ≡ is_recorded found) }
    {
        !matches!(
            self.url.scheme(),
            "about"
                | "blob"
                | "chrome"
                | "data"
                | "imap"
                | "javascript"
                | "mailbox"
                | "moz-anno"
                | "news"
                | "page-icon"
                | "resource"
                | "view-source"
        )
    }

    /// Whether the URL holds a query of the store.
    pub fn is_place(&self) -> bool
        ensures { IsOkAnd (record_of self.now) (λ found. result ≡ is_place found) }
    {
        self.url.scheme() == "place"
    }

    /// The scheme with `://` where an authority follows, and with `:` elsewhere.
    pub fn prefix(&self) -> &str
        ensures value { IsOkAnd (record_of self.now) (λ found. result.now ≡ address.prefix found) }
        ensures start { IsTrue (starts_with nat_eq self.now result.now) }
    {
        prefix(self.record())
    }

    /// The host without its port. It is often empty.
    pub fn host(&self) -> &str
        ensures { IsOkAnd (record_of self.now) (λ found.
            result.now ≡ host_text (host_or_empty found)) }
    {
        self.url.slice(Position::BeforeHost, Position::AfterHost)
    }

    // The record of the text.
    pub(crate) fn record(&self) -> &Url
        ensures record { record_of self.now ≡ Ok result.now }
        ensures text { self.now ≡ serialize result.now }
    {
        &self.url
    }
}

// The URL record of the text. A text below the limit gives no URL of 4 GB, so no `Overflow`.
fn parsed(alloc: Global, text: &str) -> Result<Url, CanonError>
    ensures url { IfOk result (λ url. record_of text.now ≡ Ok url) }
    ensures bad_url { IsErrOf result CanonError.BadUrl → IsErr (record_of text.now) }
{
    match Url::parse(alloc, text) {
        Ok(url) => Ok(url),
        Err(ParseError::OutOfMemory | ParseError::Overflow) => Err(CanonError::NoMemory),
        Err(_) => Err(CanonError::BadUrl),
    }
}
