// A query, read from its text.
ghost use Rattle.std.specs.Prelude.{◌≡◌, ◌++◌, ℕ, List, Some, Ok, Err, IfOk, OnOk};
ghost use Rattle.std.specs.Cow.{cow_slice_items};
ghost use Rattle.std.specs.Option.{option_map, option_to_list};
ghost use Rattle.percent_encoding.specs.Percent.{percent_decode};
ghost use Rattle.pl_place.specs.Canonical.{ReadsAlone, canonical};
ghost use Rattle.pl_place.specs.Draft.{Gathers, StandsBehind};
ghost use Rattle.pl_place.specs.PlaceText as spec;
ghost use Rattle.pl_place.specs.PlaceText.{Piece, Reads, place_prefix};
ghost use Rattle.pl_place.specs.ReadQuery.{read_as};
ghost use Rattle.pl_place.specs.declared.query.Query.{Query};
ghost use Rattle.pl_place.specs.declared.reader.QueryError.TheVariants as variants;

use crate::draft::Draft;
use crate::key::Key;
use crate::query::Query;
use percent_encoding::percent_decode_str;
use pl_base::NoMemory;
use std::alloc::Global;
use std::borrow::CowSlice;
use thiserror::Error;

/// Why a text holds no query.
#[derive(Clone, Copy, Debug, PartialEq, Eq, Error)]
pub enum QueryError {
    /// The value of this piece is not UTF-8 or not of its key's form; it is the first such one.
    /// Pieces count from 1 on, with those that are empty or have another key. 0 says that the text
    /// does not begin with `place:`.
    #[error("no query, at piece {0}")]
    BadQuery(u64),
    #[error("out of memory")]
    NoMemory,
}

impl From<NoMemory> for QueryError {
    ghost from_gives = { λ _ e. e ≡ variants.NoMemory };

    fn from(_: NoMemory) -> Self {
        QueryError::NoMemory
    }
}

/// The query that a text reads as: `place:`, and pieces apart by `&`, each a key, `=` and a value
/// with percent-escapes. A piece with a key that is not known is passed over, as an empty one is.
pub fn read(alloc: Global, text: &str) -> Result<Query, QueryError>
    ensures query { IfOk result (λ query. read_as text.now ≡ Ok query) }
    ensures reads { IfOk result (Reads text.now) }
    ensures bad { (piece : ℕ) → result ≡ Err (variants.BadQuery piece)
        → read_as text.now ≡ Err piece }

    // The canonical text of each query that the text reads as reads as that query alone: a law of
    // the definitions, whatever the result.
    ensures canonical { (query : Query) → Reads text.now query
        → ReadsAlone query (canonical query) }
{
    let Some(body) = body(text) else {
        return Err(QueryError::BadQuery(0));
    };
    Ok(gathered(alloc, body)?.query(alloc)?)
}

// What stands behind `place:`.
fn body(text: &str) -> Option<&str>
    ensures { StandsBehind place_prefix text.now (option_map (λ body. body.now) result) }
{
    text.strip_prefix("place:")
}

// What all pieces say.
fn gathered(alloc: Global, body: &str) -> Result<Draft, QueryError>
    ensures gathered { IfOk result (Gathers (spec.pieces_in body.now)) }
    ensures bad { (piece : ℕ) → result ≡ Err (variants.BadQuery piece)
        → spec.first_bad (spec.pieces_in body.now) ≡ Some piece }
{
    let mut draft = Draft::new(alloc);
    let mut number = 0;
    for piece in body.split('&') {
        number += 1;
        add_piece(alloc, &mut draft, number, piece)?;
    }
    Ok(draft)
}

// Adds what a piece says, which has this number.
fn add_piece(alloc: Global, draft: &mut Draft, number: u64, piece: &str) -> Result<(), QueryError>
    ensures added { (front : List Piece) → Gathers front draft.old → OnOk result
        (Gathers (front ++ option_to_list (spec.piece_of (number, piece.now))) draft.new) }
    ensures bad { (at : ℕ) → result ≡ Err (variants.BadQuery at)
        → spec.first_bad (option_to_list (spec.piece_of (number, piece.now))) ≡ Some at }
{
    let (name, value) = cut(piece);
    let Some(key) = Key::named(name) else {
        return Ok(());
    };
    let value = decoded(alloc, value)?;
    let formed = draft.add(alloc, key, value.as_slice())?;
    if !formed {
        return Err(QueryError::BadQuery(number));
    }
    Ok(())
}

// What stands before the first `=`, and what stands behind it.
fn cut(piece: &str) -> (&str, &str)
    ensures key { result.0.now ≡ spec.key_text piece.now }
    ensures value { result.1.now ≡ spec.value_text piece.now }
{
    piece.split_once('=').unwrap_or((piece, ""))
}

// The bytes that a text with percent-escapes stands for.
fn decoded(alloc: Global, text: &str) -> Result<CowSlice<'_, u8>, NoMemory>
    ensures { IfOk result (λ bytes. cow_slice_items bytes ≡ percent_decode text.now) }
{
    Ok(percent_decode_str(text).into_cow(alloc)?)
}
