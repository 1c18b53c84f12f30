// The nodes that tags make, each with no title yet.
ghost use Rattle.std.specs.Prelude.{◌≡◌, ◌<◌, [], List, IfOk, unwrap_or};
ghost use Rattle.std.specs.Option.{option_map};
ghost use Rattle.pl_nbread.specs.BookmarkTree as spec;
ghost use Rattle.pl_nbread.specs.BookmarkTree.{said, seconds_limit};
ghost use Rattle.pl_nbread.specs.Scanned.{Tells, now};
ghost use Rattle.pl_nbread.specs.Tokens.{Attribute};

use crate::attributes::Attributes;
use crate::open_list::{OpenList, Root};
use crate::tree::Node;
use crate::values;
use pl_base::{ItemKind, MICROS_PER_SECOND, Micros, NoMemory, Seq, Txt};
use std::alloc::Global;

/// The root that a heading stands for. Only in the menu root may it stand for one.
pub(crate) fn root_at(
    alloc: Global,
    here: OpenList,
    attributes: &Attributes<'_>,
) -> Result<Option<Root>, NoMemory>
    ensures { (all : List Attribute) → Tells attributes.now all
        → IfOk result (λ root. root ≡ spec.root_at here all) }
{
    if here.root != Root::Menu || here.depth != 0 {
        return Ok(None);
    }
    if values::is_true(alloc, attributes.toolbar)? {
        return Ok(Some(Root::Toolbar));
    }
    if values::is_true(alloc, attributes.unfiled)? {
        return Ok(Some(Root::Unfiled));
    }
    if values::is_true(alloc, attributes.mobile)? {
        return Ok(Some(Root::Mobile));
    }
    Ok(None)
}

/// A folder.
pub(crate) fn folder(
    alloc: Global,
    here: OpenList,
    attributes: &Attributes<'_>,
) -> Result<Node, NoMemory>
    ensures { (all : List Attribute) → Tells attributes.now all
        → IfOk result (λ node. node ≡ spec.folder here all []) }
{
    let (added, modified) = dates(alloc, attributes)?;
    Ok(Node {
        depth: here.depth,
        kind: ItemKind::Folder,
        url: None,
        title: Txt::from(String::new(alloc)),
        added,
        modified,
        tags: Seq::from(Vec::new(alloc)),
    })
}

/// A bookmark. `None` where its address is no URL of the store.
pub(crate) fn bookmark(
    alloc: Global,
    here: OpenList,
    attributes: &Attributes<'_>,
) -> Result<Option<Node>, NoMemory>
    ensures { (all : List Attribute) → Tells attributes.now all → IfOk result (λ node.
        node ≡ option_map (λ url. spec.bookmark here url all []) (spec.url all)) }
{
    let Some(url) = values::url(alloc, attributes.href)? else {
        return Ok(None);
    };
    let (added, modified) = dates(alloc, attributes)?;
    Ok(Some(Node {
        depth: here.depth,
        kind: ItemKind::Bookmark,
        url: Some(url),
        title: Txt::from(String::new(alloc)),
        added,
        modified,
        tags: values::tags(alloc, attributes.tags)?,
    }))
}

/// A separator.
pub(crate) fn separator(alloc: Global, here: OpenList) -> Node
    ensures { result ≡ spec.separator here }
{
    Node {
        depth: here.depth,
        kind: ItemKind::Separator,
        url: None,
        title: Txt::from(String::new(alloc)),
        added: Micros(0),
        modified: Micros(0),
        tags: Seq::from(Vec::new(alloc)),
    }
}

// When a node was added, and when it was last modified.
fn dates(alloc: Global, attributes: &Attributes<'_>) -> Result<(Micros, Micros), NoMemory>
    ensures added { (all : List Attribute) → Tells attributes.now all
        → IfOk result (λ dates. dates.0 ≡ spec.added all) }
    ensures modified { (all : List Attribute) → Tells attributes.now all
        → IfOk result (λ dates. dates.1 ≡ spec.modified all) }
{
    let added = seconds_or(alloc, attributes.add_date, 0)?;
    let modified = seconds_or(alloc, attributes.last_modified, added)?;
    Ok((
        Micros(added * MICROS_PER_SECOND),
        Micros(modified * MICROS_PER_SECOND),
    ))
}

// The date that a value is, in seconds, and another one where it is none.
fn seconds_or(alloc: Global, value: Option<&str>, other: u64) -> Result<u64, NoMemory>
    requires short { other < seconds_limit }
    ensures date { IfOk result (λ s. s ≡ unwrap_or (spec.seconds (said (now value.entry))) other) }
    ensures short { IfOk result (λ s. s < seconds_limit) }
{
    let seconds = values::seconds(alloc, value)?;
    Ok(seconds.unwrap_or(other))
}
