// Items as a list has them, put into the tree that they make.
ghost use Rattle.std.specs.Prelude.{◌≡◌, ◌++◌, [], List, map, true, IfOk, IfSome, IsSome, OnOk};
ghost use Rattle.std.specs.List.{flat_map, list_all};
ghost use Rattle.std.specs.List.Sorted.{IsStrictlyIncreasing};
ghost use Rattle.std.specs.Option.{is_none, is_some, option_to_list};
ghost use Rattle.pl_base.specs.Good.{IsTree};
ghost use Rattle.pl_base.specs.Store.{Item, item_id};
ghost use Rattle.pl_base.specs.Tree.{has_item};
ghost use Rattle.pl_items.specs.TakenOut.{children_rows, item_waiting, node_of, taken_out};
ghost use Rattle.pl_items.specs.TakenOut.{waiting_ids, waiting_row, Plants};

use crate::Items;
use crate::by_id::Child;
use crate::node::Node;
use pl_base::{ItemId, NoMemory, TreeItem};
use std::alloc::Global;

impl Items {
    /// The items of a list by ascending id, or `None` where they are no tree with root 1.
    ///
    /// The tree is gone through level by level, so no stack grows with its depth.
    pub fn planted(alloc: Global, items: Vec<TreeItem>) -> Result<Option<Items>, NoMemory>
        requires ascending { IsStrictlyIncreasing (map (λ (i : Item). i.id.0) items.items) }
        ensures items { IfOk result (λ planted. IfSome planted (λ tree. tree ≡ items.items)) }
        ensures tree { IfOk result (λ planted. IfSome planted (λ _. IsTree items.items)) }
        ensures whole { IsTree items.items → has_item items.items (item_id 1) ≡ true
            → IfOk result IsSome }
    {
        let mut planting = Planting {
            waiting: waiting_rows(alloc, items)?,
            nodes: Vec::new(alloc),
            pending: Vec::new(alloc),
        };
        if !planting.plant()? {
            return Ok(None);
        }
        let Planting { nodes, .. } = planting;
        Ok(Some(Items { alloc, nodes }))
    }
}

/// The place of an item, where it waits until it is taken out.
#[derive(Drop)]
struct Waiting {
    id: ItemId,
    item: Option<TreeItem>,
}

/// A tree that grows by one item after another.
#[derive(Drop)]
struct Planting {
    // By ascending id.
    waiting: Vec<Waiting>,
    nodes: Vec<Node>,
    // The children of the nodes, in the order of the nodes: the next ones to become nodes.
    pending: Vec<Child>,
}

impl Planting {
    /// Whether the items that wait are one tree with root 1, whose nodes these then are.
    fn plant(&mut self) -> Result<bool, NoMemory>
        requires ascending { IsStrictlyIncreasing (waiting_ids self.old.waiting.items) }
        requires nodes { self.old.nodes.items ≡ [] }
        requires pending { self.old.pending.items ≡ [] }
        ensures { IfOk result (λ whole. (items : List Item)
            → self.old.waiting.items ≡ map waiting_row items
            → Plants items self.new.nodes.items whole) }
    {
        if !self.add(ItemId(1), None)? {
            return Ok(false);
        }
        let mut next = 0;
        while next < self.pending.len() {
            let child = self.pending[next];
            if !self.add(child.id, Some(child.parent))? {
                return Ok(false);
            }
            next += 1;
        }
        Ok(is_empty(&self.waiting))
    }

    /// Makes a node of the item with this id, if it waits, and tells whether it did.
    fn add(&mut self, id: ItemId, parent: Option<ItemId>) -> Result<bool, NoMemory>
        requires ascending { IsStrictlyIncreasing (waiting_ids self.old.waiting.items) }
        ensures there { IfOk result
            (λ there. there ≡ is_some (item_waiting self.old.waiting.items id)) }
        ensures waiting { IfOk result
            (λ _. self.new.waiting.items ≡ taken_out id self.old.waiting.items) }
        ensures nodes { IfOk result (λ _. self.new.nodes.items ≡ self.old.nodes.items
            ++ map (node_of parent) (option_to_list (item_waiting self.old.waiting.items id))) }
        ensures pending { IfOk result (λ _. self.new.pending.items ≡ self.old.pending.items
            ++ flat_map children_rows (option_to_list (item_waiting self.old.waiting.items id))) }
    {
        let Some(item) = take_out(&mut self.waiting, id) else {
            return Ok(false);
        };
        push_children(&mut self.pending, item.id, &item.children)?;
        self.nodes.push(Node {
            id: item.id,
            parent,
            kind: item.kind,
            title: item.title,
            page: item.page,
            added: item.added,
            modified: item.modified,
        })?;
        Ok(true)
    }
}

fn waiting_rows(alloc: Global, items: Vec<TreeItem>) -> Result<Vec<Waiting>, NoMemory>
    ensures { IfOk result (λ rows. rows.items ≡ map waiting_row items.items) }
{
    let mut rows = Vec::with_capacity(alloc, items.len())?;
    for item in items {
        rows.push(Waiting {
            id: item.id,
            item: Some(item),
        })?;
    }
    Ok(rows)
}

/// Takes the item with this id out, if it waits.
fn take_out(waiting: &mut [Waiting], id: ItemId) -> Option<TreeItem>
    requires ascending { IsStrictlyIncreasing (waiting_ids waiting.old) }
    ensures item { result ≡ item_waiting waiting.old id }
    ensures waiting { waiting.new ≡ taken_out id waiting.old }
{
    match waiting.binary_search_by_key(&id.0, |row| row.id.0) {
        Ok(place) => waiting[place].item.take(),
        Err(_) => None,
    }
}

/// Adds the children of the parent at the end.
fn push_children(
    pending: &mut Vec<Child>,
    parent: ItemId,
    children: &[ItemId],
) -> Result<(), NoMemory>
    ensures { OnOk result (pending.new.items ≡ pending.old.items
        ++ map (λ (c : ItemId). record { parent = parent; id = c }) children.now) }
{
    for child in children {
        pending.push(Child { parent, id: *child })?;
    }
    Ok(())
}

/// Whether no item waits any more.
fn is_empty(waiting: &[Waiting]) -> bool
    ensures { result ≡ list_all (λ (w : Waiting). is_none w.item) waiting.now }
{
    waiting.iter().all(|row| row.item.is_none())
}
