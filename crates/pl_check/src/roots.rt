// Whether the six roots of a file's items stand as they stood at first.
ghost use Rattle.std.specs.Prelude.{◌≡◌};
ghost use Rattle.std.specs.List.{list_all};
ghost use Rattle.std.specs.List.Sorted.{IsStrictlyIncreasing};
ghost use Rattle.pl_check.specs.Items as good;
ghost use Rattle.pl_check.specs.Items.{item_ids};

use crate::items::{find_item, is_folder};
use pl_base::{ItemId, TreeItem};

/// Whether the items have the roots.
pub fn have_roots(items: &[TreeItem]) -> bool
    requires { IsStrictlyIncreasing (item_ids items.now) }
    ensures { result ≡ good.have_roots items.now }
{
    has_root(items) && has_top_folders(items)
}

fn has_root(items: &[TreeItem]) -> bool
    requires { IsStrictlyIncreasing (item_ids items.now) }
    ensures { result ≡ good.has_root items.now }
{
    match find_item(items, ItemId(1)) {
        Some(item) => is_plain_folder(item) && are_top_folders(&item.children),
        None => false,
    }
}

// The roots below item 1 have the numbers from 2 to 6.
fn has_top_folders(items: &[TreeItem]) -> bool
    requires { IsStrictlyIncreasing (item_ids items.now) }
    ensures { result ≡ list_all (good.has_top_folder items.now) good.top_numbers }
{
    has_top_folder(items, 2)
        && has_top_folder(items, 3)
        && has_top_folder(items, 4)
        && has_top_folder(items, 5)
        && has_top_folder(items, 6)
}

fn has_top_folder(items: &[TreeItem], number: u32) -> bool
    requires { IsStrictlyIncreasing (item_ids items.now) }
    ensures { result ≡ good.has_top_folder items.now number }
{
    match find_item(items, ItemId(number)) {
        Some(item) => is_plain_folder(item),
        None => false,
    }
}

// Whether it is as a root stands at first, but for its id and its children.
fn is_plain_folder(item: &TreeItem) -> bool
    ensures { result ≡ good.is_plain_folder item.now }
{
    is_folder(item.kind)
        && item.title.as_str().is_empty()
        && item.page.is_none()
        && item.added.0 == 0
        && item.modified.0 == 0
}

fn are_top_folders(children: &[ItemId]) -> bool
    ensures { result ≡ good.are_top_folders children.now }
{
    match children {
        [a, b, c, d, e] => a.0 == 2 && b.0 == 3 && c.0 == 4 && d.0 == 5 && e.0 == 6,
        _ => false,
    }
}
