// Looking up items.
ghost use Rattle.std.specs.Prelude.{◌≡◌};
ghost use Rattle.std.specs.Option.{option_and_then, option_map};
ghost use Rattle.pl_base.specs.Tree as tree;
ghost use Rattle.pl_items.specs.Nodes.{child_nodes};

use crate::Items;
use crate::node::{Node, node_at, place_of};
use pl_base::{ItemId, ItemRow, PageId};

impl Items {
    pub fn item_at(&self, id: ItemId) -> Option<ItemRow>
        ensures { result ≡ option_map (tree.item_row self.now) (tree.item_at self.now id) }
    {
        let node = node_at(&self.nodes, id)?;
        Some(ItemRow {
            kind: node.kind,
            parent: node.parent,
            page: node.page,
            added: node.added,
            modified: node.modified,
        })
    }

    pub fn title(&self, id: ItemId) -> Option<&str>
        ensures { option_map (λ t. t.now) result ≡ tree.item_title self.now id }
    {
        let node = node_at(&self.nodes, id)?;
        Some(node.title.as_str())
    }

    pub fn first_child(&self, id: ItemId) -> Option<ItemId>
        ensures { result ≡ tree.first_item (tree.children_of self.now id) }
    {
        first_child(&self.nodes, id)
    }

    pub fn last_child(&self, id: ItemId) -> Option<ItemId>
        ensures { result ≡ tree.last_item (tree.children_of self.now id) }
    {
        last_child(&self.nodes, Some(id))
    }

    /// The child of the same item that comes next.
    pub fn next_sibling(&self, id: ItemId) -> Option<ItemId>
        ensures { result ≡ tree.sibling_behind self.now id }
    {
        let place = place_of(&self.nodes, id)?;
        let parent = self.nodes[place].parent?;
        first_child(&self.nodes[place + 1..], parent)
    }

    /// The first by id of the items that have this page.
    pub fn first_reference(&self, page: PageId) -> Option<ItemId>
        ensures { result ≡ tree.first_item (tree.references self.now page) }
    {
        self.nodes
            .iter()
            .filter(|node| node.has_page(page))
            .map(|node| node.id)
            .min()
    }

    /// The next by id of the items that have the same page.
    pub fn next_reference(&self, id: ItemId) -> Option<ItemId>
        ensures { result ≡ tree.reference_behind self.now id }
    {
        let page = node_at(&self.nodes, id)?.page?;
        self.nodes
            .iter()
            .filter(|node| node.has_page(page) && node.id > id)
            .map(|node| node.id)
            .min()
    }
}

// The first of some nodes that is a child of the item.
fn first_child(nodes: &[Node], id: ItemId) -> Option<ItemId>
    ensures { result ≡ tree.first_item (child_nodes nodes.now id) }
{
    let node = nodes.iter().find(|node| node.is_child_of(id))?;
    Some(node.id)
}

// The last of some nodes that is a child of the parent.
pub fn last_child(nodes: &[Node], parent: Option<ItemId>) -> Option<ItemId>
    ensures { result ≡ option_and_then (λ p. tree.last_item (child_nodes nodes.now p)) parent }
{
    let parent = parent?;
    let node = nodes.iter().rev().find(|node| node.is_child_of(parent))?;
    Some(node.id)
}
