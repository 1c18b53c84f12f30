// Changes of one item. None of them goes through the tree by recursion.
ghost use Rattle.std.specs.Prelude.{◌≡◌, ◌≢◌, ◌<◌, ◌≤◌, [], length, true};
ghost use Rattle.std.specs.Prelude.{IfSome, IsSomeAnd, OnErr, OnOk, Some};
ghost use Rattle.std.specs.List.{All, insert, remove, slice_index_or};
ghost use Rattle.std.specs.Option.{option_and_then};
ghost use Rattle.pl_base.specs.Tree as tree;
ghost use Rattle.pl_items.specs.Nodes.{child_nodes, place_behind, place_then};

use crate::Items;
use crate::look::last_child;
use crate::node::{Node, place_of};
use pl_base::{ItemId, ItemRow, Micros, NoMemory, Txt};

impl Items {
    /// A new item, the child of its row's parent behind the given one, or the first child. Its id
    /// is the greatest.
    pub fn insert(
        &mut self,
        id: ItemId,
        row: &ItemRow,
        title: Txt,
        after: Option<ItemId>,
    ) -> Result<(), NoMemory>
        requires new { All (λ i. i.id.0 < id.0) self.old }
        requires parent { IsSomeAnd row.now.parent (λ p. tree.has_item self.old p ≡ true) }
        requires after { IfSome after (λ a. tree.parent_of self.old a ≡ row.now.parent) }
        ensures inserted { OnOk result
            (self.new ≡ tree.inserted id row.now title after self.old) }
        ensures err { OnErr result (self.new ≡ self.old) }
    {
        let place = place_for(&self.nodes, row.parent, after);
        let node = Node {
            id,
            parent: row.parent,
            kind: row.kind,
            title,
            page: row.page,
            added: row.added,
            modified: row.modified,
        };
        self.nodes.insert(place, node)?;
        Ok(())
    }

    /// The item becomes a child of this parent, behind the given one, or the first child. No memory
    /// is taken.
    pub fn move_to(&mut self, id: ItemId, parent: ItemId, after: Option<ItemId>)
        requires item { tree.has_item self.old id ≡ true }
        requires parent { tree.has_item self.old parent ≡ true }
        requires after { IfSome after (λ a.
            (a ≢ id) × (tree.parent_of self.old a ≡ Some parent)) }
        ensures { self.new ≡ tree.moved id parent after self.old }
    {
        if let Some(from) = place_of(&self.nodes, id) {
            let place = place_behind(&self.nodes, after);
            self.nodes[from].parent = Some(parent);
            turn(&mut self.nodes, from, place);
        }
    }

    pub fn set(&mut self, id: ItemId, title: Txt, modified: Micros)
        requires item { tree.has_item self.old id ≡ true }
        ensures { self.new ≡ tree.retitled id title modified self.old }
    {
        if let Some(place) = place_of(&self.nodes, id) {
            let node = &mut self.nodes[place];
            node.title = title;
            node.modified = modified;
        }
    }

    pub fn set_modified(&mut self, id: ItemId, modified: Micros)
        requires item { tree.has_item self.old id ≡ true }
        ensures { self.new ≡ tree.redated id modified self.old }
    {
        if let Some(place) = place_of(&self.nodes, id) {
            self.nodes[place].modified = modified;
        }
    }

    /// The item goes, which has no child.
    pub fn remove(&mut self, id: ItemId)
        requires item { tree.has_item self.old id ≡ true }
        requires leaf { tree.children_of self.old id ≡ [] }
        ensures { self.new ≡ tree.removed id self.old }
    {
        if let Some(place) = place_of(&self.nodes, id) {
            self.nodes.remove(place);
        }
    }
}

// The place of a new child of the parent, behind the node with this id or the first. The end of all
// nodes is the place of a new last child, so that no node moves.
fn place_for(nodes: &[Node], parent: Option<ItemId>, after: Option<ItemId>) -> usize
    ensures end { option_and_then (λ p. tree.last_item (child_nodes nodes.now p)) parent ≡ after
        → result ≡ length nodes.now }
    ensures behind { option_and_then (λ p. tree.last_item (child_nodes nodes.now p)) parent ≢ after
        → result ≡ place_behind after nodes.now }
{
    if last_child(nodes, parent) == after {
        nodes.len()
    } else {
        place_behind(nodes, after)
    }
}

// The place behind the node with this id, or the first place.
fn place_behind(nodes: &[Node], after: Option<ItemId>) -> usize
    ensures { result ≡ place_behind after nodes.now }
{
    let Some(after) = after else {
        return 0;
    };
    match place_of(nodes, after) {
        Some(place) => place + 1,
        None => nodes.len(),
    }
}

// Turns a part by one, so that the node at the one place stands directly before the other place.
fn turn(nodes: &mut [Node], from: usize, before: usize)
    requires from { from < length nodes.old }
    requires before { before ≤ length nodes.old }
    ensures { (d : Node) → nodes.new ≡ insert (remove nodes.old from) (place_then from before)
        (slice_index_or nodes.old from d) }
{
    if from < before {
        nodes[from..before].rotate_left(1);
    } else {
        nodes[before..=from].rotate_right(1);
    }
}
