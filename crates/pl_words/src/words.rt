// The words of texts, and where a word stands in one.
ghost use Rattle.std.specs.Prelude.{◌≡◌, ◌<◌, IfOk, length, nat_eq, true};
ghost use Rattle.std.specs.List.{starts_with};
ghost use Rattle.pl_words.specs.Pieces as spec;
ghost use Rattle.pl_words.specs.Pieces.{is_boundary};

use crate::{Standing, fold};
use percent_encoding::percent_decode_str;
use pl_base::{NoMemory, Txt};
use std::alloc::Global;

/// The words of a text: what stands between its white space, as `char::is_whitespace` has it.
pub fn pieces(alloc: Global, text: &Txt) -> Result<Vec<Txt>, NoMemory>
    ensures { IfOk result (λ words. words.items ≡ spec.pieces text.now) }
{
    let mut words = Vec::new(alloc);
    for word in text.as_str().split_whitespace() {
        words.push(Txt::copied(alloc, word)?)?;
    }
    Ok(words)
}

/// A URL as it is searched: without this prefix of it, its percent-escapes decoded, with U+FFFD for
/// what is no UTF-8 then, and with its case folded. It has no spare room, as `fold` gives it.
pub fn searched(alloc: Global, url: &str, prefix: &str) -> Result<Txt, NoMemory>
    requires prefix { starts_with nat_eq url.now prefix.now ≡ true }
    ensures { IfOk result (λ text. text ≡ spec.searched url.now prefix.now) }
{
    let decoded = percent_decode_str(&url[prefix.len()..]).decode_utf8_lossy(alloc)?;
    fold(alloc, decoded.as_str())
}

/// Whether the place is at the front of the text, or behind a byte that is no ASCII letter.
fn is_boundary(text: &[u8], place: usize) -> bool
    requires within { place < length text.now }
    ensures { result ≡ is_boundary text.now place }
{
    place == 0 || !text[place - 1].is_ascii_alphabetic()
}

/// How well the word stands in the text, at its best place. The empty word stands on a boundary of
/// each text.
pub fn standing(text: &Txt, word: &Txt) -> Standing
    ensures { result ≡ spec.standing word.now text.now }
{
    let text = text.as_str().as_bytes();
    let [first, rest @ ..] = word.as_str().as_bytes() else {
        return Standing::Boundary;
    };
    let mut seen = Standing::Nowhere;
    for (place, byte) in text.iter().enumerate() {
        if byte == first && text[place + 1..].starts_with(rest) {
            if is_boundary(text, place) {
                return Standing::Boundary;
            }
            seen = Standing::Inside;
        }
    }
    seen
}

/// Whether the word stands in the text; on a boundary, where that is asked.
pub fn matches(text: &Txt, word: &Txt, boundary: bool) -> bool
    ensures { result ≡ spec.found boundary word.now text.now }
{
    let least = if boundary {
        Standing::Boundary
    } else {
        Standing::Inside
    };
    standing(text, word) >= least
}
