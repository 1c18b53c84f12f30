use pl_base::{ItemKind, Micros, PageId, Txt};

/// An item that is to be inserted.
#[derive(Debug, Drop)]
pub struct NewItem {
    pub kind: ItemKind,
    pub title: Txt,
    /// The page of a bookmark.
    pub page: Option<PageId>,
    /// When it is added, and modified last.
    pub date: Micros,
}
