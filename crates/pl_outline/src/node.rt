// The node of an item.
ghost use Rattle.std.specs.Prelude.{◌≡◌, Some, true, IfOk, IfSome, OnOk};
ghost use Rattle.std.specs.Option.{option_and_then, option_map};
ghost use Rattle.pl_base.specs.Good.{IsGood};
ghost use Rattle.pl_base.specs.Rows.{has_page, store_of};
ghost use Rattle.pl_base.specs.Store.{page_url};
ghost use Rattle.pl_base.specs.Tree.{has_item, item_at};
ghost use Rattle.pl_outline.specs.KnownTags.{KnowsTags};
ghost use Rattle.pl_outline.specs.Outline as spec;
ghost use Rattle.pl_outline.specs.Shown.{node_as};

use crate::tags::KnownTags;
use pl_base::{
    ItemId, ItemKind, MICROS_PER_SECOND, Micros, NoMemory, PageId, Rows, Seq, Steps, Txt,
};
use pl_link::Canon;
use pl_marks::canon_of;
use pl_nbread::Node;
use pl_words::TagName;
use std::alloc::Global;
use std::sync::ledger::Ledger;

/// What a tree shows of each item.
#[derive(Clone, Copy, Debug)]
pub(crate) enum Shown {
    /// What a bookmark file keeps.
    Kept,
    Whole,
}

fn whole_seconds(date: Micros) -> Micros
    ensures { result ≡ spec.whole_seconds date }
{
    Micros(date.0 / MICROS_PER_SECOND * MICROS_PER_SECOND)
}

// The address of a page, if there is one.
fn address<R: Rows, L: Ledger>(
    alloc: Global,
    rows: &R,
    page: Option<PageId>,
    steps: &mut Steps<L>,
) -> Result<Option<Canon>, NoMemory>
    requires page { IfSome page (λ id. has_page (R.kept rows.now) id ≡ true) }
    requires good { IsGood (store_of (R.kept rows.now)) }
    ensures { IfOk result (λ url. url
        ≡ option_and_then (page_url (store_of (R.kept rows.now))) page) }
{
    let Some(page) = page else {
        return Ok(None);
    };
    let url = rows.url(page, steps)?;
    Ok(Some(canon_of(alloc, url.as_str())?))
}

// The tags of a page, if there is one.
fn tags<R: Rows, L: Ledger>(
    alloc: Global,
    rows: &R,
    page: Option<PageId>,
    known: &mut KnownTags,
    steps: &mut Steps<L>,
) -> Result<Seq<TagName>, NoMemory>
    requires good { IsGood (store_of (R.kept rows.now)) }
    requires known { KnowsTags (store_of (R.kept rows.now)) known.old }
    ensures tags { IfOk result (λ tags. tags ≡ spec.tags_at (store_of (R.kept rows.now)) page) }
    ensures known { OnOk result (KnowsTags (store_of (R.kept rows.now)) known.new) }
{
    match page {
        Some(page) => known.of_page(alloc, rows, page, steps),
        None => Ok(Seq::from(Vec::new(alloc))),
    }
}

// What a bookmark file keeps of a separator.
fn separator(alloc: Global, depth: u32) -> Node
    ensures { result ≡ spec.separator_node depth }
{
    Node {
        depth,
        kind: ItemKind::Separator,
        url: None,
        title: Txt::from(String::new(alloc)),
        added: Micros(0),
        modified: Micros(0),
        tags: Seq::from(Vec::new(alloc)),
    }
}

// What a bookmark file keeps of a node.
fn kept(alloc: Global, mut node: Node) -> Node
    ensures { result ≡ spec.kept node }
{
    if node.kind == ItemKind::Separator {
        return separator(alloc, node.depth);
    }
    node.added = whole_seconds(node.added);
    node.modified = whole_seconds(node.modified);
    node
}

// All of an item at a depth.
fn whole_node<R: Rows, L: Ledger>(
    alloc: Global,
    rows: &R,
    item: ItemId,
    depth: u32,
    known: &mut KnownTags,
    steps: &mut Steps<L>,
) -> Result<Node, NoMemory>
    requires item { has_item (R.kept rows.now).items item ≡ true }
    requires good { IsGood (store_of (R.kept rows.now)) }
    requires known { KnowsTags (store_of (R.kept rows.now)) known.old }
    ensures known { OnOk result (KnowsTags (store_of (R.kept rows.now)) known.new) }
    ensures node { IfOk result (λ node. Some node
        ≡ option_map (spec.whole_node (store_of (R.kept rows.now)) depth)
        (item_at (R.kept rows.now).items item)) }
{
    let row = rows.item_at(item, steps).unwrap();
    Ok(Node {
        depth,
        kind: row.kind,
        url: address(alloc, rows, row.page, steps)?,
        title: rows.item_title(item, steps)?,
        added: row.added,
        modified: row.modified,
        tags: tags(alloc, rows, row.page, known, steps)?,
    })
}

/// What is shown of an item at a depth.
pub(crate) fn node<R: Rows, L: Ledger>(
    alloc: Global,
    rows: &R,
    item: ItemId,
    depth: u32,
    shown: Shown,
    known: &mut KnownTags,
    steps: &mut Steps<L>,
) -> Result<Node, NoMemory>
    requires item { has_item (R.kept rows.now).items item ≡ true }
    requires good { IsGood (store_of (R.kept rows.now)) }
    requires known { KnowsTags (store_of (R.kept rows.now)) known.old }
    ensures known { OnOk result (KnowsTags (store_of (R.kept rows.now)) known.new) }
    ensures node { IfOk result (λ node. Some node
        ≡ option_map (node_as shown (store_of (R.kept rows.now)) depth)
        (item_at (R.kept rows.now).items item)) }
{
    let node = whole_node(alloc, rows, item, depth, known, steps)?;
    Ok(match shown {
        Shown::Kept => kept(alloc, node),
        Shown::Whole => node,
    })
}
