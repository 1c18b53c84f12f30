ghost use Rattle.std.specs.Prelude.{◌≡◌, ◌==◌, find};
ghost use Rattle.std.specs.List.{position};
ghost use Rattle.std.specs.Option.{option_copied};
ghost use Rattle.pl_base.specs.Tree.{is_page};
ghost use Rattle.pl_items.specs.Nodes.{is_parent};

use pl_base::{ItemId, ItemKind, Micros, PageId, Txt};

/// An item, and the item whose child it is.
#[derive(Debug, Drop)]
pub struct Node {
    pub id: ItemId,
    pub parent: Option<ItemId>,
    pub kind: ItemKind,
    pub title: Txt,
    /// The page of a bookmark.
    pub page: Option<PageId>,
    pub added: Micros,
    pub modified: Micros,
}

impl Node {
    pub fn is_child_of(&self, id: ItemId) -> bool
        ensures { result ≡ is_parent id self.now.parent }
    {
        self.parent == Some(id)
    }

    pub fn has_page(&self, page: PageId) -> bool
        ensures { result ≡ is_page page self.now.page }
    {
        self.page == Some(page)
    }
}

pub fn node_at(nodes: &[Node], id: ItemId) -> Option<&Node>
    ensures { option_copied result ≡ find (λ n. n.id.0 == id.0) nodes.now }
{
    nodes.iter().find(|node| node.id == id)
}

/// Where the node with this id stands.
pub fn place_of(nodes: &[Node], id: ItemId) -> Option<usize>
    ensures { result ≡ position (λ n. n.id.0 == id.0) nodes.now }
{
    nodes.iter().position(|node| node.id == id)
}
