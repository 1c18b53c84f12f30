// The lists of an import. The folders that a node stands in are open, the root first.
ghost use Rattle.std.specs.Prelude.{◌≡◌, ◌<◌, ◌++◌, ◌∷◌, ℕ, true, List, OnOk, length, map};
ghost use Rattle.pl_base.specs.Rows.{store_of};
ghost use Rattle.pl_base.specs.Store.{item_id};
ghost use Rattle.pl_nbread.specs.WellFormed.{IsWellFormed, is_formed};
ghost use Rattle.pl_graft.specs.declared.grafting.Open.{Open};
ghost use Rattle.pl_graft.specs.Import.{folder_of, folders_behind, with_list, with_node};
ghost use Rattle.pl_graft.specs.OpenFolders.{AreOpen, inner_of, opened, root_of};
ghost use Rattle.pl_graft.specs.Ready.{Takes};
ghost use Rattle.pl_graft.specs.Standing.{GoesOn, HasRoom, IsStanding};

use super::{Grafting, Open};
use pl_base::{ItemId, ItemKind, NoMemory, Rows, Steps};
use pl_nbread::Node;
use std::sync::ledger::Ledger;

// One folder more is open, if the item is one.
fn open_folder(folders: &mut Vec<Open>, kind: ItemKind, id: ItemId) -> Result<(), NoMemory>
    ensures { OnOk result (folders.new.items ≡ folders.old.items ++ opened kind id) }
{
    if kind == ItemKind::Folder {
        folders.push(Open {
            folder: id,
            last: None,
        })?;
    }
    Ok(())
}

impl Grafting {
    // The next node of a list, at the end of the folder that it stands in.
    fn next_node<R: Rows, L: Ledger>(
        &mut self,
        rows: &mut R,
        node: &Node,
        folders: &mut Vec<Open>,
        steps: &mut Steps<L>,
    ) -> Result<(), NoMemory>
        requires standing { IsStanding (store_of (R.kept rows.old)) self.old }
        requires formed { is_formed node.now ≡ true }
        requires places { AreOpen (store_of (R.kept rows.old)) folders.old.items }
        requires depth { node.now.depth < length folders.old.items }
        requires room { HasRoom (with_node
            (folder_of (root_of folders.old.items) (inner_of folders.old.items) node.now) node.now
            (store_of (R.kept rows.old))) }
        ensures store { OnOk result (store_of (R.kept rows.new) ≡ with_node
            (folder_of (root_of folders.old.items) (inner_of folders.old.items) node.now) node.now
            (store_of (R.kept rows.old))) }
        ensures standing { OnOk result (IsStanding (store_of (R.kept rows.new)) self.new) }
        ensures goes_on { OnOk result
            (GoesOn (R.kept rows.old) (R.kept rows.new) self.old self.new) }
        ensures places { OnOk result (AreOpen (store_of (R.kept rows.new)) folders.new.items) }
        ensures inner { OnOk result (map (λ (o : Open). o.folder) folders.new.items
            ≡ root_of folders.old.items ∷ folders_behind (inner_of folders.old.items) node.now
            (item_id (R.kept rows.old).ids.item)) }
        ensures base { OnOk result
            ((bytes : List ℕ) → R.base rows.old bytes → R.base rows.new bytes) }
    {
        folders.truncate(node.depth as usize + 1);
        let mut top = folders.pop().unwrap();
        let id = self.node(rows, node, top, steps)?;
        top.last = Some(id);
        folders.push(top)?;
        open_folder(folders, node.kind, id)
    }

    // The nodes of a root's list, behind what the root has.
    pub(super) fn list<R: Rows, L: Ledger>(
        &mut self,
        rows: &mut R,
        root: ItemId,
        nodes: &[Node],
        steps: &mut Steps<L>,
    ) -> Result<(), NoMemory>
        requires standing { IsStanding (store_of (R.kept rows.old)) self.old }
        requires takes { Takes (store_of (R.kept rows.old)) root }
        requires formed { IsWellFormed nodes.now }
        requires room { HasRoom (with_list root nodes.now (store_of (R.kept rows.old))) }
        ensures store { OnOk result (store_of (R.kept rows.new)
            ≡ with_list root nodes.now (store_of (R.kept rows.old))) }
        ensures standing { OnOk result (IsStanding (store_of (R.kept rows.new)) self.new) }
        ensures goes_on { OnOk result
            (GoesOn (R.kept rows.old) (R.kept rows.new) self.old self.new) }
        ensures base { OnOk result
            ((bytes : List ℕ) → R.base rows.old bytes → R.base rows.new bytes) }
    {
        let mut folders = Vec::new(self.alloc);
        folders.push(Open {
            folder: root,
            last: rows.last_child(root, steps),
        })?;
        for node in nodes {
            self.next_node(rows, node, &mut folders, steps)?;
        }
        Ok(())
    }
}
