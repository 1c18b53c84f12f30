use pl_base::{ItemKind, Micros, Seq, Txt};
use pl_link::Canon;
use pl_words::TagName;

/// A bookmark, a folder or a separator.
#[derive(Debug, Drop)]
pub struct Node {
    /// How many folders stand around it, the root not counted.
    pub depth: u32,
    pub kind: ItemKind,
    /// The address of a bookmark.
    pub url: Option<Canon>,
    /// A bookmark file gives none to a separator. It may be longer than a store keeps it.
    pub title: Txt,
    pub added: Micros,
    pub modified: Micros,
    /// The tags of a bookmark.
    pub tags: Seq<TagName>,
}

/// A tree of bookmarks: what stands in each of the four roots, in preorder.
#[derive(Debug, Drop)]
pub struct Tree {
    pub menu: Seq<Node>,
    pub toolbar: Seq<Node>,
    pub unfiled: Seq<Node>,
    pub mobile: Seq<Node>,
    /// How many bookmarks were left out, since their address is no URL of the store.
    pub skipped: u32,
}
