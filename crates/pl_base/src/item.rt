ghost use Rattle.std.specs.Prelude.{◌≡◌};
ghost use Rattle.pl_base.specs.ItemKind.{item_kind_at, item_kind_number};

use crate::{ItemId, Micros, PageId, Txt};
use std::marker::Model;

/// What an item of the bookmark tree is, by the numbers of `nsINavBookmarksService`.
#[derive(Clone, Copy, Debug, PartialEq, Eq, Hash)]
pub enum ItemKind {
    Bookmark = 1,
    Folder = 2,
    Separator = 3,
}

impl ItemKind {
    /// The kind with this number.
    pub fn from_number(number: u8) -> Option<Self>
        ensures { result ≡ item_kind_at number }
    {
        match number {
            1 => Some(ItemKind::Bookmark),
            2 => Some(ItemKind::Folder),
            3 => Some(ItemKind::Separator),
            _ => None,
        }
    }

    pub fn number(self) -> u8
        ensures { result ≡ item_kind_number self }
    {
        self as u8
    }
}

/// An item without its id, its title and its children.
#[derive(Clone, Copy, Debug, PartialEq, Eq)]
pub struct ItemRow {
    pub kind: ItemKind,
    /// The item whose child it is.
    pub parent: Option<ItemId>,
    /// The page of a bookmark.
    pub page: Option<PageId>,
    pub added: Micros,
    pub modified: Micros,
}

/// An item with the ids of its children in order, as a list of items has it.
#[derive(Debug, Drop)]
pub struct TreeItem {
    pub id: ItemId,
    pub kind: ItemKind,
    pub title: Txt,
    /// The page of a bookmark.
    pub page: Option<PageId>,
    pub added: Micros,
    pub modified: Micros,
    pub children: Vec<ItemId>,
}

impl Model for TreeItem {
    ghost use Rattle.pl_base.specs.Store.{Item};

    ghost Value = { Item };

    ghost view = { λ i. record {
      id = i.id;
      kind = i.kind;
      title = i.title;
      page = i.page;
      added = i.added;
      modified = i.modified;
      children = i.children.items;
    } };
}
