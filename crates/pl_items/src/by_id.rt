ghost use Rattle.std.specs.Prelude.{◌≡◌, ◌≢◌, ◌==◌, ◌<◌, ◌++◌, ◌∷◌, []};
ghost use Rattle.std.specs.Prelude.{length, map, IfOk, OnOk};
ghost use Rattle.std.specs.List.{filter, filter_map, slice_index_or, AllPairs};
ghost use Rattle.std.specs.List.Sorted.{IsNonDecreasingBy};
ghost use Rattle.pl_base.specs.Store.{Item};
ghost use Rattle.pl_items.specs.Nodes.{by_id, child_nodes, child_row, ids_under};

use crate::Items;
use crate::node::Node;
use pl_base::{ItemId, ItemKind, Micros, NoMemory, PageId};
use std::alloc::Global;
use std::marker::Model;

/// A child, with its parent.
#[derive(Clone, Copy, Debug)]
pub struct Child {
    pub parent: ItemId,
    pub id: ItemId,
}

/// An item with its children in order.
#[derive(Drop)]
pub struct Listed<'a> {
    pub id: ItemId,
    pub kind: ItemKind,
    pub title: &'a str,
    pub page: Option<PageId>,
    pub added: Micros,
    pub modified: Micros,
    pub children: &'a [Child],
}

impl<'a> Model for Listed<'a> {
    ghost use Rattle.std.specs.Prelude.{map};
    ghost use Rattle.pl_base.specs.Store.{Item};
    ghost use Rattle.pl_items.specs.declared.by_id.Child.{Child};

    ghost Value = { Item };

    ghost view = { λ i. record {
      id = i.id;
      kind = i.kind;
      title = i.title.now;
      page = i.page;
      added = i.added;
      modified = i.modified;
      children = map (λ (c : Child). c.id) i.children.now;
    } };
}

/// The items by ascending id.
#[derive(Drop)]
pub struct ById<'a> {
    nodes: Vec<&'a Node>,
    // By parent, and those of one in their order.
    children: Vec<Child>,
}

impl<'a> Model for ById<'a> {
    ghost use Rattle.std.specs.Prelude.{List, map};
    ghost use Rattle.std.specs.List.Sorted.{IsNonDecreasingBy};
    ghost use Rattle.pl_base.specs.Store.{Item};
    ghost use Rattle.pl_items.specs.Nodes.{listed_item};
    ghost use Rattle.pl_items.specs.declared.by_id.Child.{Child};

    ghost Value = { List Item };

    ghost view = { λ t. map (λ n. listed_item t.children.items n.now) t.nodes.items };

    ghost invariant = { λ t. IsNonDecreasingBy (λ (c : Child). c.parent.0) t.children.items };
}

impl Items {
    /// The items, which are not copied.
    pub fn by_id(&self) -> Result<ById<'_>, NoMemory>
        ensures { IfOk result (λ list. list ≡ self.now) }
    {
        let nodes = nodes_by_id(self.alloc, &self.nodes)?;
        let children = children_by_parent(self.alloc, &self.nodes)?;
        Ok(ById { nodes, children })
    }
}

impl ById<'_> {
    /// How many items there are.
    pub fn len(&self) -> usize
        ensures { result ≡ length self.now }
    {
        self.nodes.len()
    }

    /// The item at this place of the list.
    pub fn get(&self, index: usize) -> Listed<'_>
        requires index { index < length self.now }
        ensures { (d : Item) → result ≡ slice_index_or self.now index d }
    {
        let node = self.nodes[index];
        Listed {
            id: node.id,
            kind: node.kind,
            title: node.title.as_str(),
            page: node.page,
            added: node.added,
            modified: node.modified,
            children: children_of(&self.children, node.id),
        }
    }
}

/// The nodes by ascending id, which are not copied.
fn nodes_by_id(alloc: Global, nodes: &[Node]) -> Result<Vec<&Node>, NoMemory>
    requires distinct { AllPairs (λ (n m : Node). n.id ≢ m.id) nodes.now }
    ensures { IfOk result (λ sorted. map (λ n. n.now) sorted.items ≡ by_id nodes.now) }
{
    let mut sorted: Vec<&Node> = Vec::with_capacity(alloc, nodes.len())?;
    for node in nodes {
        sorted.push(node)?;
    }
    sorted.sort_unstable_by_key(|node| node.id.0);
    Ok(sorted)
}

/// The children by parent, and those of one in the order of the nodes.
fn children_by_parent(alloc: Global, nodes: &[Node]) -> Result<Vec<Child>, NoMemory>
    ensures ascending { IfOk result
        (λ children. IsNonDecreasingBy (λ (c : Child). c.parent.0) children.items) }
    ensures order { IfOk result (λ children. (id : ItemId)
        → ids_under children.items id ≡ child_nodes nodes.now id) }
{
    let mut children = Vec::new(alloc);
    for node in nodes {
        push_child(&mut children, node)?;
    }
    children.sort_by_key(|child: &Child| child.parent.0)?;
    Ok(children)
}

/// Adds the node at the end, if it has a parent.
fn push_child(children: &mut Vec<Child>, node: &Node) -> Result<(), NoMemory>
    ensures { OnOk result (children.new.items
        ≡ children.old.items ++ filter_map child_row (node.now ∷ [])) }
{
    if let Some(parent) = node.parent {
        let id = node.id;
        children.push(Child { parent, id })?;
    }
    Ok(())
}

/// The children of the parent, which stand together.
fn children_of(children: &[Child], parent: ItemId) -> &[Child]
    requires { IsNonDecreasingBy (λ (c : Child). c.parent.0) children.now }
    ensures { result.now ≡ filter (λ (c : Child). c.parent.0 == parent.0) children.now }
{
    let start = children.partition_point(|child| child.parent.0 < parent.0);
    let rest = &children[start..];
    let count = rest.partition_point(|child| child.parent.0 <= parent.0);
    &rest[..count]
}
