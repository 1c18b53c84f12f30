// Whether the tags among a file's items are those of a good store.
ghost use Rattle.std.specs.Prelude.{◌≡◌, ◌↔◌, IfOk, IsTrue};
ghost use Rattle.std.specs.List.{All, filter_map, list_all};
ghost use Rattle.std.specs.List.Sorted.{IsStrictlyIncreasing};
ghost use Rattle.pl_base.specs.Tree as tree;
ghost use Rattle.pl_check.specs.Items.{item_ids};
ghost use Rattle.pl_check.specs.Tags as good;
ghost use Rattle.pl_check.specs.Tags.{targets};

use crate::distinct::{are_distinct, are_distinct_texts};
use crate::items::{find_item, is_bookmark, is_folder};
use pl_base::{ItemId, NoMemory, PageId, TreeItem, Txt};
use pl_words::{fold, is_tag_name};
use std::alloc::Global;

/// Whether the tags are folders of bookmarks, and no two fold alike.
pub fn have_good_tags(alloc: Global, items: &[TreeItem]) -> Result<bool, NoMemory>
    requires { IsStrictlyIncreasing (item_ids items.now) }
    ensures { IfOk result (λ pass. IsTrue pass ↔ good.HaveGoodTags items.now) }
{
    let tags = child_items(alloc, items, ItemId::TAGS)?;
    // However often a file names a tag, its entries are looked at once.
    if !are_distinct(item_numbers(alloc, &tags)?) {
        return Ok(false);
    }
    if !are_good_tags(alloc, items, &tags)? {
        return Ok(false);
    }
    let folds = folds(alloc, &tags)?;
    Ok(are_distinct_texts(texts(alloc, &folds)?))
}

fn are_good_tags(alloc: Global, items: &[TreeItem], tags: &[&TreeItem]) -> Result<bool, NoMemory>
    requires { IsStrictlyIncreasing (item_ids items.now) }
    ensures { IfOk result (λ pass. IsTrue pass
        ↔ All (good.IsGoodTag items.now) (targets tags.now)) }
{
    for tag in tags {
        if !is_good_tag(alloc, items, tag)? {
            return Ok(false);
        }
    }
    Ok(true)
}

fn is_good_tag(alloc: Global, items: &[TreeItem], tag: &TreeItem) -> Result<bool, NoMemory>
    requires { IsStrictlyIncreasing (item_ids items.now) }
    ensures { IfOk result (λ pass. IsTrue pass ↔ good.IsGoodTag items.now tag.now) }
{
    if !is_tag(tag) {
        return Ok(false);
    }
    let entries = child_items(alloc, items, tag.id)?;
    if !are_tag_entries(&entries) {
        return Ok(false);
    }
    Ok(are_distinct(page_numbers(alloc, &entries)?))
}

fn is_tag(tag: &TreeItem) -> bool
    ensures { IsTrue result ↔ good.IsTag tag.now }
{
    is_folder(tag.kind) && is_tag_name(tag.title.as_str()) && !tag.children.is_empty()
}

fn are_tag_entries(entries: &[&TreeItem]) -> bool
    ensures { result ≡ list_all good.is_tag_entry (targets entries.now) }
{
    entries.iter().all(|entry| is_tag_entry(entry))
}

fn is_tag_entry(item: &TreeItem) -> bool
    ensures { result ≡ good.is_tag_entry item.now }
{
    is_bookmark(item.kind) && item.title.as_str().is_empty()
}

// The children of an item. A child that is no item is passed over.
fn child_items<'a>(
    alloc: Global,
    items: &'a [TreeItem],
    id: ItemId,
) -> Result<Vec<&'a TreeItem>, NoMemory>
    requires { IsStrictlyIncreasing (item_ids items.now) }
    ensures { IfOk result (λ found. targets found.items ≡ tree.child_items items.now id) }
{
    let Some(parent) = find_item(items, id) else {
        return Ok(Vec::new(alloc));
    };
    found_items(alloc, items, &parent.children)
}

fn found_items<'a>(
    alloc: Global,
    items: &'a [TreeItem],
    ids: &[ItemId],
) -> Result<Vec<&'a TreeItem>, NoMemory>
    requires { IsStrictlyIncreasing (item_ids items.now) }
    ensures { IfOk result (λ found. targets found.items
        ≡ filter_map (tree.item_at items.now) ids.now) }
{
    let mut found = Vec::new(alloc);
    for id in ids {
        if let Some(item) = find_item(items, *id) {
            found.push(item)?;
        }
    }
    Ok(found)
}

fn item_numbers(alloc: Global, items: &[&TreeItem]) -> Result<Vec<u32>, NoMemory>
    ensures { IfOk result (λ numbers. numbers.items ≡ item_ids (targets items.now)) }
{
    let numbers = items.iter().map(|item| item.id.0);
    Ok(numbers.collect(alloc)?)
}

fn page_numbers(alloc: Global, items: &[&TreeItem]) -> Result<Vec<u32>, NoMemory>
    ensures { IfOk result (λ numbers. numbers.items ≡ good.page_numbers (targets items.now)) }
{
    let numbers = items.iter().map(|item| number_of(item.page));
    Ok(numbers.collect(alloc)?)
}

// The number of a page, and 0 of none.
fn number_of(page: Option<PageId>) -> u32
    ensures { result ≡ good.number_of page }
{
    page.map_or(0, |page| page.0)
}

// The folds of the tags' titles.
fn folds(alloc: Global, tags: &[&TreeItem]) -> Result<Vec<Txt>, NoMemory>
    ensures { IfOk result (λ folds. folds.items ≡ good.folds_of (targets tags.now)) }
{
    let mut folds = Vec::new(alloc);
    for tag in tags {
        folds.push(fold(alloc, tag.title.as_str())?)?;
    }
    Ok(folds)
}

fn texts(alloc: Global, folds: &[Txt]) -> Result<Vec<&str>, NoMemory>
    ensures { IfOk result (λ texts. targets texts.items ≡ folds.now) }
{
    let texts = folds.iter().map(|fold| fold.as_str());
    Ok(texts.collect(alloc)?)
}
