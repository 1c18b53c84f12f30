// What was found of each root.
ghost use Rattle.std.specs.Prelude.{◌≡◌, ◌+◌, ◌^◌, ◌<◌, ◌≤◌, IfOk, OnOk};
ghost use Rattle.pl_nbread.specs.declared.tree.Tree as declared;
ghost use Rattle.pl_backup.specs.BackupTree.{empty_tree, items_found, tree_of, with_child};
ghost use Rattle.pl_backup.specs.BackupTree.{with_front};
ghost use Rattle.pl_backup.specs.Reading.{before, skipped_in};
ghost use Rattle.pl_backup.specs.Weights.{items_weight, weight};
ghost use Rattle.serde_json.specs.View.{items_view, view};

use crate::fields::below;
use crate::found::Found;
use crate::root::Root;
use pl_base::{NoMemory, Seq};
use pl_nbread::Tree;
use serde_json::Value;
use std::alloc::Global;

/// The tree of the children of the top.
pub(crate) fn tree_of(alloc: Global, values: &[Value]) -> Result<Tree, NoMemory>
    requires room { items_weight (items_view values.now) < 2 ^ 32 }
    ensures { IfOk result (λ tree. tree ≡ tree_of (items_view values.now)) }
{
    let mut roots = Roots::new(alloc);
    let mut left = values;
    while let Some((value, behind)) = left.split_first() {
        roots.push_child(alloc, value)?;
        left = behind;
    }
    Ok(roots.finish())
}

#[derive(Drop)]
struct Roots {
    menu: Found,
    toolbar: Found,
    unfiled: Found,
    mobile: Found,
}

impl Roots {
    fn new(alloc: Global) -> Roots
        ensures none { skipped_in result ≡ 0 }
        ensures tree { (tree : declared.Tree) → before result tree ≡ tree }
    {
        Roots {
            menu: Found::new(alloc),
            toolbar: Found::new(alloc),
            unfiled: Found::new(alloc),
            mobile: Found::new(alloc),
        }
    }

    // Adds what stands in a child of the top, if it is a root.
    fn push_child(&mut self, alloc: Global, value: &Value) -> Result<(), NoMemory>
        requires room { skipped_in self.old + weight (view value.now) < 2 ^ 32 }
        ensures few { OnOk result
            (skipped_in self.new ≤ skipped_in self.old + weight (view value.now)) }
        ensures tree { OnOk result ((tree : declared.Tree)
            → before self.new tree ≡ before self.old (with_child (view value.now) tree)) }
    {
        match Root::of(value) {
            Some(root) => self.push_list(alloc, root, below(value)),
            None => Ok(()),
        }
    }

    // Adds what stands in the list of a root.
    fn push_list(&mut self, alloc: Global, root: Root, values: &[Value]) -> Result<(), NoMemory>
        requires room { skipped_in self.old + items_weight (items_view values.now) < 2 ^ 32 }
        ensures { OnOk result ((tree : declared.Tree) → before self.new tree
            ≡ before self.old (with_front root (items_found 0 (items_view values.now)) tree)) }
    {
        match root {
            Root::Menu => self.menu.push_values(alloc, values, 0),
            Root::Toolbar => self.toolbar.push_values(alloc, values, 0),
            Root::Unfiled => self.unfiled.push_values(alloc, values, 0),
            Root::Mobile => self.mobile.push_values(alloc, values, 0),
        }
    }

    fn finish(self) -> Tree
        requires room { skipped_in self < 2 ^ 32 }
        ensures { result ≡ before self empty_tree }
    {
        let skipped = self.menu.skipped
            + self.toolbar.skipped
            + self.unfiled.skipped
            + self.mobile.skipped;
        Tree {
            menu: Seq::from(self.menu.nodes),
            toolbar: Seq::from(self.toolbar.nodes),
            unfiled: Seq::from(self.unfiled.nodes),
            mobile: Seq::from(self.mobile.nodes),
            skipped,
        }
    }
}
