// Lists of nodes, each within the one around it.
ghost use Rattle.std.specs.Prelude.{◌≡◌, ◌≤◌, ◌++◌, [], ◌∷◌, List, false, IfOk, MatchOption, OnOk};
ghost use Rattle.std.specs.Prelude.{map};
ghost use Rattle.std.specs.String.{string_bytes};
ghost use Rattle.pl_nbread.specs.declared.tree.Node as declared;
ghost use Rattle.pl_backup.specs.BackupText.{Placed, items, values};
ghost use Rattle.pl_backup.specs.Written.{IsBelow, Starts, to_come};
ghost use Rattle.serde_json.specs.Written.{comma_if, items_text};

use crate::nodes::{push_bookmark, push_folder_end, push_separator};
use pl_base::{ItemKind, NoMemory};
use pl_nbread::Node;
use std::alloc::Global;

/// Appends nodes in preorder, and the end of their list. The folders around the next node lie on a
/// pile, the innermost on top, so that nothing recurs on depth.
pub(crate) fn push_nodes(alloc: Global, file: &mut String, nodes: &[Node]) -> Result<(), NoMemory>
    ensures { OnOk result (string_bytes file.new
        ≡ string_bytes file.old ++ items_text false (items (values nodes.now))) }
{
    let mut around = Vec::new(alloc);
    let mut later = false;
    let mut left = nodes;
    while let Some((node, behind)) = left.split_first() {
        later = push_ends(alloc, file, &mut around, node.depth, later)?;
        later = push_node(alloc, file, &mut around, node, later)?;
        left = behind;
    }
    push_ends(alloc, file, &mut around, 0, later)?;
    file.push_str("]")?;
    Ok(())
}

// Ends the lists of the folders below which a node at this depth does not stand. Tells whether
// something stands before it in its list.
fn push_ends(
    alloc: Global,
    file: &mut String,
    around: &mut Vec<&Node>,
    depth: u32,
    later: bool,
) -> Result<bool, NoMemory>
    ensures written { IfOk result (λ after. (left : List Placed) → Starts depth left
        → string_bytes file.new ++ to_come after (map (λ n. n.now) around.new.items) left
        ≡ string_bytes file.old ++ to_come later (map (λ n. n.now) around.old.items) left) }
    ensures below { OnOk result (IsBelow depth (map (λ n. n.now) around.new.items)) }
{
    let mut after = later;
    while let Some(folder) = pop_ended(around, depth) {
        file.push_str("]")?;
        push_folder_end(alloc, file, folder)?;
        after = true;
    }
    Ok(after)
}

// Takes the innermost folder, unless a node at this depth stands below it.
fn pop_ended<'a>(around: &mut Vec<&'a Node>, depth: u32) -> Option<&'a Node>
    ensures { MatchOption result ((around.new.items ≡ around.old.items)
        × IsBelow depth (map (λ n. n.now) around.old.items))
        (λ folder. (depth ≤ folder.now.depth)
        × (around.old.items ≡ around.new.items ++ folder ∷ [])) }
{
    let folder = *around.last()?;
    if folder.depth < depth {
        return None;
    }
    around.pop()
}

// Appends a node, of a folder the start. Tells whether something stands before the next node in
// its list.
fn push_node<'a>(
    alloc: Global,
    file: &mut String,
    around: &mut Vec<&'a Node>,
    node: &'a Node,
    later: bool,
) -> Result<bool, NoMemory>
    requires { IsBelow node.now.depth (map (λ n. n.now) around.old.items) }
    ensures { IfOk result (λ after. (left : List declared.Node)
        → string_bytes file.new
        ++ to_come after (map (λ n. n.now) around.new.items) (values left)
        ≡ string_bytes file.old
        ++ to_come later (map (λ n. n.now) around.old.items) (values (node.now ∷ left))) }
{
    push_comma(file, later)?;
    match node.kind {
        ItemKind::Bookmark => {
            push_bookmark(alloc, file, node)?;
            Ok(true)
        }
        ItemKind::Separator => {
            push_separator(alloc, file, node)?;
            Ok(true)
        }
        ItemKind::Folder => {
            file.push_str("{\"children\":[")?;
            around.push(node)?;
            Ok(false)
        }
    }
}

// Appends a comma where something stands before.
fn push_comma(file: &mut String, later: bool) -> Result<(), NoMemory>
    ensures { OnOk result (string_bytes file.new ≡ string_bytes file.old ++ comma_if later) }
{
    if later {
        file.push_str(",")?;
    }
    Ok(())
}
