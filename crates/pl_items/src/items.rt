ghost use Rattle.std.specs.Prelude.{◌≡◌, ◌≤◌, length, IfOk};
ghost use Rattle.pl_base.specs.Good.{child_ids};
ghost use Rattle.pl_base.specs.Store.{roots};
ghost use Rattle.pl_items.specs.Nodes.{folder_node};

use crate::node::Node;
use pl_base::{ItemId, ItemKind, Micros, NoMemory, Txt};
use std::alloc::Global;
use std::marker::Model;

/// The items of a store, by ascending id, each with its children in order.
///
/// They are kept in one vector in which siblings stand in order, so that a move turns a part of it
/// in place.
#[derive(Debug, Drop)]
pub struct Items {
    pub(crate) alloc: Global,
    // Siblings in order.
    pub(crate) nodes: Vec<Node>,
}

impl Model for Items {
    ghost use Rattle.std.specs.Prelude.{List};
    ghost use Rattle.pl_base.specs.Store.{Item};
    ghost use Rattle.pl_items.specs.Nodes.{AreNodes, items_of};

    ghost Value = { List Item };

    ghost view = { λ t. items_of t.nodes.items };

    ghost invariant = { λ t. AreNodes t.nodes.items };
}

impl Items {
    /// The six roots.
    pub fn opening(alloc: Global) -> Result<Items, NoMemory>
        ensures { IfOk result (λ items. items ≡ roots) }
    {
        let root = Some(ItemId(1));
        let nodes = vec![in alloc;
            folder(alloc, 1, None),
            folder(alloc, 2, root),
            folder(alloc, 3, root),
            folder(alloc, 4, root),
            folder(alloc, 5, root),
            folder(alloc, 6, root),
        ]?;
        Ok(Items { alloc, nodes })
    }

    /// How many items there are.
    pub fn len(&self) -> usize
        ensures len { result ≡ length self.now }
        ensures children { length (child_ids self.now) ≤ length self.now }
    {
        self.nodes.len()
    }
}

// A folder without a title, with the first moment of 1970 as its dates.
fn folder(alloc: Global, id: u32, parent: Option<ItemId>) -> Node
    ensures { result ≡ folder_node id parent }
{
    Node {
        id: ItemId(id),
        parent,
        kind: ItemKind::Folder,
        title: Txt::from(String::new(alloc)),
        page: None,
        added: Micros(0),
        modified: Micros(0),
    }
}
