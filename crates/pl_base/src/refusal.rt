ghost use Rattle.std.specs.Prelude.{◌≡◌};
ghost use Rattle.pl_base.specs.Refusal.{refusal_number};

use crate::{Day, IdKind, ItemId, VisitId};
use thiserror::Error;

/// Why a command was refused. A refused command changes nothing.
#[derive(Clone, Copy, Debug, PartialEq, Eq, Error)]
pub enum Refusal {
    /// The address is no URL of the store.
    #[error("no URL of the store")]
    BadUrl,
    /// Visits to this scheme are not recorded.
    #[error("visits to this scheme are not recorded")]
    NotRecorded,
    /// No visit has this id.
    #[error("no visit has this id")]
    NoVisit(VisitId),
    /// No page has the URL.
    #[error("no page has the URL")]
    NoPage,
    /// No item has this id.
    #[error("no item has this id")]
    NoItem(ItemId),
    /// The item that is named as a parent, or to be listed, is no folder.
    #[error("the item is no folder")]
    NotAFolder(ItemId),
    /// The item, which is to change or to take another one, stays as it is.
    #[error("the item stays as it is")]
    Fixed(ItemId),
    /// The position lies past the end of the folder's list, whose length is the second number.
    #[error("position {0} in a list of {1}")]
    BadPlace(u32, u32),
    /// The item would be moved into itself or below itself.
    #[error("the item would lie in itself")]
    Inside(ItemId),
    /// The day is before the store's, which is this one.
    #[error("the store's day is {}", .0.0)]
    DayBack(Day),
    /// The text holds no query. The number is that of the piece which is not of its form, counted
    /// from 1 on, and 0 where the text does not begin with `place:`.
    #[error("no query, at piece {0}")]
    BadQuery(u64),
    /// The store would take so many slots of 128 bytes, which is more than it may.
    #[error("the store would take {0} slots")]
    Full(u64),
    /// The next id of this kind is the one that is never given.
    #[error("no id is left")]
    NoIds(IdKind),
    /// The line is no command. Columns count its bytes from 1.
    #[error("no command, at column {0}")]
    BadLine(u32),
    /// The page has the tag.
    #[error("the page has the tag")]
    DupTag,
    /// A date or a day is out of its range.
    #[error("a date out of range")]
    BadDate,
    /// The text names no tag.
    #[error("no tag name")]
    BadTag,
    /// The page has not the tag.
    #[error("the page has not the tag")]
    NoTag,
    /// An import has so many bookmarks, folders and separators, which is more than it may.
    #[error("{0} rows to import")]
    TooMany(u64),
}

impl Refusal {
    /// The number by which replies name the refusal.
    pub fn number(&self) -> u8
        ensures { result ≡ refusal_number self.now }
    {
        match self {
            Refusal::BadUrl => 1,
            Refusal::NotRecorded => 2,
            Refusal::NoVisit(_) => 3,
            Refusal::NoPage => 4,
            Refusal::NoItem(_) => 5,
            Refusal::NotAFolder(_) => 6,
            Refusal::Fixed(_) => 7,
            Refusal::BadPlace(_, _) => 8,
            Refusal::Inside(_) => 9,
            Refusal::DayBack(_) => 10,
            Refusal::BadQuery(_) => 11,
            Refusal::Full(_) => 12,
            Refusal::NoIds(_) => 13,
            Refusal::BadLine(_) => 14,
            Refusal::DupTag => 15,
            Refusal::BadDate => 16,
            Refusal::BadTag => 17,
            Refusal::NoTag => 18,
            Refusal::TooMany(_) => 19,
        }
    }
}
