// The text of a tree.
ghost use Rattle.std.specs.Prelude.{◌≡◌, ◌++◌, IfOk, Ok, OnOk};
ghost use Rattle.std.specs.String.{string_bytes};
ghost use Rattle.pl_backup.specs.BackupText.{backup_text};
ghost use Rattle.pl_backup.specs.BackupTree.{backup_tree};
ghost use Rattle.pl_backup.specs.ReadsBack.{KeepsInJson};
ghost use Rattle.pl_backup.specs.Written.{backup_end, root_end, root_text};

use crate::lists::push_nodes;
use pl_base::{NoMemory, Seq, Txt};
use pl_nbread::{Node, Tree};
use std::alloc::Global;

// Where the children of a root stand.
const START: &str = "{\"children\":[";

/// The backup of a tree, as Firefox writes one. The stack stays small, however deep folders lie.
pub fn text(alloc: Global, tree: &Tree) -> Result<Txt, NoMemory>
    ensures text { IfOk result (λ text. text ≡ backup_text tree.now) }
    ensures reads_back { IfOk result (λ text. KeepsInJson tree.now
        → backup_tree text ≡ Ok tree.now) }
{
    let mut file = String::new(alloc);
    push_root(
        alloc,
        &mut file,
        START,
        "menu________",
        "bookmarksMenuFolder",
        &tree.menu,
    )?;
    push_root(
        alloc,
        &mut file,
        ",",
        "toolbar_____",
        "toolbarFolder",
        &tree.toolbar,
    )?;
    push_root(
        alloc,
        &mut file,
        ",",
        "unfiled_____",
        "unfiledBookmarksFolder",
        &tree.unfiled,
    )?;
    push_root(
        alloc,
        &mut file,
        ",",
        "mobile______",
        "mobileFolder",
        &tree.mobile,
    )?;
    push_end(&mut file)?;
    Ok(Txt::from(file))
}

// Appends what stands behind the last root.
fn push_end(file: &mut String) -> Result<(), NoMemory>
    ensures { OnOk result (string_bytes file.new ≡ string_bytes file.old ++ backup_end) }
{
    file.push_str("]")?;
    push_root_end(file, "root________", "placesRoot")?;
    file.push_str("\n")?;
    Ok(())
}

// Appends a root with its nodes, behind what stands before it.
fn push_root(
    alloc: Global,
    file: &mut String,
    before: &str,
    guid: &str,
    name: &str,
    nodes: &Seq<Node>,
) -> Result<(), NoMemory>
    ensures { OnOk result (string_bytes file.new
        ≡ string_bytes file.old ++ (before.now ++ root_text guid.now name.now nodes.now)) }
{
    file.push_str(before)?;
    file.push_str(START)?;
    push_nodes(alloc, file, nodes.as_slice())?;
    push_root_end(file, guid, name)
}

// Appends what stands behind the children of a root.
fn push_root_end(file: &mut String, guid: &str, name: &str) -> Result<(), NoMemory>
    ensures { OnOk result (string_bytes file.new
        ≡ string_bytes file.old ++ root_end guid.now name.now) }
{
    write!(
        file,
        ",\"dateAdded\":0,\"guid\":\"{guid}\",\"lastModified\":0,\"root\":\"{name}\",\
        \"title\":\"\",\"type\":\"text/x-moz-place-container\",\"typeCode\":2}}"
    )?;
    Ok(())
}
