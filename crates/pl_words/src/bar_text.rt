// What is typed into the address bar.
ghost use Rattle.std.specs.Prelude.{◌≡◌, IfOk, bytes_eq};
ghost use Rattle.std.specs.List.{list_any};
ghost use Rattle.pl_words.specs.Bar.{AreTokens, is_mark};

use crate::pieces;
use pl_base::{NoMemory, Seq, Txt};
use std::alloc::Global;

/// What the address bar is asked for, besides the words.
#[derive(Clone, Copy, Debug, PartialEq, Eq)]
pub struct Marks {
    /// `^`: pages that were visited.
    pub history: bool,
    /// `*`: pages that are bookmarked.
    pub bookmark: bool,
    /// `+`: pages that have a tag.
    pub tag: bool,
    /// `#`: the words stand in the title or the tags.
    pub title: bool,
    /// `$`: the words stand in the address.
    pub address: bool,
}

/// A text of the address bar: its marks, and its words in their order.
#[derive(Debug, Drop)]
pub struct BarText {
    pub marks: Marks,
    pub words: Seq<Txt>,
}

/// Whether the mark is one of the pieces.
fn has(pieces: &[Txt], mark: &str) -> bool
    ensures { result ≡ list_any (bytes_eq mark.now) pieces.now }
{
    pieces.iter().any(|piece| mark == piece.as_str())
}

/// Whether the piece is a mark and nothing else.
fn is_mark(piece: &str) -> bool
    ensures { result ≡ is_mark piece.now }
{
    matches!(piece, "^" | "*" | "+" | "#" | "$")
}

/// The marks and the words of a text whose case is folded. A piece that is one of `^ * + # $` and
/// nothing else is a mark, and each other piece is a word.
pub fn tokens(alloc: Global, folded: &Txt) -> Result<BarText, NoMemory>
    ensures { IfOk result (AreTokens folded.now) }
{
    let mut pieces = pieces(alloc, folded)?;
    let marks = Marks {
        history: has(&pieces, "^"),
        bookmark: has(&pieces, "*"),
        tag: has(&pieces, "+"),
        title: has(&pieces, "#"),
        address: has(&pieces, "$"),
    };
    pieces.retain(|piece| !is_mark(piece.as_str()));
    Ok(BarText {
        marks,
        words: Seq::from(pieces),
    })
}
