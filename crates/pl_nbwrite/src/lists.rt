// The lists of a file.
ghost use Rattle.std.specs.Prelude.{◌≡◌, ◌≤◌, ◌<◌, ◌+◌, ◌^◌, ◌++◌, OnOk};
ghost use Rattle.std.specs.String.{string_bytes};
ghost use Rattle.pl_nbwrite.specs.BookmarkText as spec;
ghost use Rattle.pl_nbwrite.specs.BookmarkText.{list_ends, node_text, nodes_text};
ghost use Rattle.pl_nbwrite.specs.Written as written;
ghost use Rattle.pl_nbwrite.specs.Written.{root_list};

use crate::lines::{push_lines, push_list_end, push_list_head};
use pl_base::{ItemKind, Micros, NoMemory};
use pl_nbread::Node;

/// Appends another root than the menu, where it has a node, with what else its heading says.
pub(crate) fn push_root(
    file: &mut String,
    more: &str,
    title: &str,
    nodes: &[Node],
) -> Result<(), NoMemory>
    ensures { OnOk result (string_bytes file.new ≡ string_bytes file.old
        ++ root_list more.now title.now nodes.now) }
{
    if nodes.is_empty() {
        return Ok(());
    }
    push_list_head(file, 1, Micros(0), Micros(0), more, title)?;
    push_nodes(file, 2, nodes)?;
    push_list_end(file, 1)
}

/// Appends nodes in preorder, those of depth 0 at this level.
pub(crate) fn push_nodes(file: &mut String, level: usize, nodes: &[Node]) -> Result<(), NoMemory>
    requires { level ≤ 2 }
    ensures { OnOk result (string_bytes file.new
        ≡ string_bytes file.old ++ nodes_text level nodes.now) }
{
    let mut left = nodes;
    while let Some((node, behind)) = left.split_first() {
        push_node(file, level, node, next_depth(behind))?;
        left = behind;
    }
    Ok(())
}

// The depth of the next node, if there is one.
fn next_depth(nodes: &[Node]) -> usize
    ensures depth { result ≡ written.next_depth nodes.now }
    ensures small { result < 2 ^ 32 }
{
    nodes.first().map_or(0, |node| node.depth as usize)
}

// Appends a node, and the ends of lists before the next one, which has this depth.
fn push_node(file: &mut String, level: usize, node: &Node, next: usize) -> Result<(), NoMemory>
    requires level { level ≤ 2 }
    requires next { next < 2 ^ 32 }
    ensures { OnOk result (string_bytes file.new
        ≡ string_bytes file.old ++ node_text level node.now next) }
{
    push_lines(file, level + node.depth as usize, node)?;
    push_list_ends(file, level + next, lists_open(node).saturating_sub(next))
}

// How many lists are open behind a node.
fn lists_open(node: &Node) -> usize
    ensures lists { result ≡ spec.lists_open node.now }
    ensures small { result ≤ 2 ^ 32 }
{
    let depth = node.depth as usize;
    match node.kind {
        ItemKind::Folder => depth + 1,
        ItemKind::Bookmark | ItemKind::Separator => depth,
    }
}

// Appends the ends of so many lists, the last of them at this level.
fn push_list_ends(file: &mut String, level: usize, count: usize) -> Result<(), NoMemory>
    requires { level + count < 2 ^ 64 }
    ensures { OnOk result (string_bytes file.new
        ≡ string_bytes file.old ++ list_ends level count) }
{
    let mut left = count;
    while left > 0 {
        left -= 1;
        push_list_end(file, level + left)?;
    }
    Ok(())
}
