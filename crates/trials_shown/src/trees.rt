ghost use Rattle.std.specs.Prelude.{◌<◌};

// Trees of bookmarks as texts, so that tables can tell them by hand.
use pl_base::{ItemKind, Micros};
use pl_nbread::{Node, Tree};
use std::alloc::Global;
use std::test::Fail;

// A list of the tree, each node behind a `|`: the root, the depth and the kind, the title in
// brackets, and where they say something the address, `+` and the date, `~` and that of the last
// change, and `#` and the tags. A unit of the dates has so many microseconds.
fn add_list(
    alloc: Global,
    text: &mut String,
    unit: u64,
    root: char,
    nodes: &[Node],
) -> Result<(), Fail>
    requires { 0 < unit }
{
    for node in nodes {
        text.push('|')?;
        text.push(root)?;
        add_node(alloc, text, node)?;
        add_dates(alloc, text, unit, node.added, node.modified)?;
        add_tags(text, node)?;
    }
    Ok(())
}

fn add_node(alloc: Global, text: &mut String, node: &Node) -> Result<(), Fail> {
    let kind = match node.kind {
        ItemKind::Bookmark => 'b',
        ItemKind::Folder => 'f',
        ItemKind::Separator => 's',
    };
    let title = node.title.as_str();
    let named = format!(in alloc; "{}{kind}[{title}]", node.depth)?;
    text.push_str(named.as_str())?;
    if let Some(url) = &node.url {
        text.push(' ')?;
        text.push_str(url.text())?;
    }
    Ok(())
}

fn add_dates(
    alloc: Global,
    text: &mut String,
    unit: u64,
    added: Micros,
    modified: Micros,
) -> Result<(), Fail>
    requires { 0 < unit }
{
    if added != Micros(0) {
        let date = format!(in alloc; " +{}", added.0 / unit)?;
        text.push_str(date.as_str())?;
    }
    if modified != added {
        let date = format!(in alloc; " ~{}", modified.0 / unit)?;
        text.push_str(date.as_str())?;
    }
    Ok(())
}

fn add_tags(text: &mut String, node: &Node) -> Result<(), Fail> {
    let mut sign = " #";
    for tag in node.tags.as_slice() {
        text.push_str(sign)?;
        text.push_str(tag.text())?;
        sign = ",";
    }
    Ok(())
}

/// The tree as a text, with its dates in units of so many microseconds: each node behind a `|`, as
/// `m0b[Title] https://a.example/ +1 ~2 #tag,other`, and in the end how many were skipped, if any.
pub fn shown(alloc: Global, unit: u64, tree: &Tree) -> Result<String, Fail>
    requires { 0 < unit }
{
    let mut text = String::new(alloc);
    add_list(alloc, &mut text, unit, 'm', tree.menu.as_slice())?;
    add_list(alloc, &mut text, unit, 't', tree.toolbar.as_slice())?;
    add_list(alloc, &mut text, unit, 'u', tree.unfiled.as_slice())?;
    add_list(alloc, &mut text, unit, 'o', tree.mobile.as_slice())?;
    if tree.skipped != 0 {
        let skipped = format!(in alloc; "|skipped {}", tree.skipped)?;
        text.push_str(skipped.as_str())?;
    }
    Ok(text)
}
