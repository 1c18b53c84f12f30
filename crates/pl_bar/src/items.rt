// What marks ask of the items of a page.
ghost use Rattle.std.specs.Prelude.{◌≡◌, ◌≤◌, ◌+◌, ◌*◌, ◌&&◌, ◌||◌, length, not};
ghost use Rattle.pl_base.specs.Rows.{store_of};
ghost use Rattle.pl_base.specs.Tags as tags;
ghost use Rattle.pl_base.specs.Tree.{references};
ghost use Rattle.pl_bar.specs.Cost.{items_cost};

use pl_base::{PageId, Rows, Steps};
use pl_marks::tag_folder;
use std::sync::ledger::Ledger;

/// What is asked for among the items of a page, and was not met yet.
#[derive(Clone, Copy)]
pub struct Wanted {
    /// An item that is in no tag folder.
    pub bookmark: bool,
    /// One that is in a tag folder.
    pub tag: bool,
}

impl Wanted {
    fn is_nothing(self) -> bool
        ensures { result ≡ (not self.bookmark && not self.tag) }
    {
        !self.bookmark && !self.tag
    }

    // Without an item that is met, which is in a tag folder or not.
    fn without(self, is_tag: bool) -> Wanted
        ensures bookmark { result.bookmark ≡ (self.bookmark && is_tag) }
        ensures tag { result.tag ≡ (self.tag && not is_tag) }
    {
        Wanted {
            bookmark: self.bookmark && is_tag,
            tag: self.tag && !is_tag,
        }
    }
}

/// Whether all that is wanted is among the items of the page. They are gone through until it is
/// met.
pub fn has_wanted<R: Rows, L: Ledger>(
    rows: &R,
    page: PageId,
    mut wanted: Wanted,
    steps: &mut Steps<L>,
) -> bool
    ensures found { result
        ≡ ((not wanted.bookmark || tags.is_bookmarked (store_of (R.kept rows.now)) page)
        && (not wanted.tag || tags.is_tagged (store_of (R.kept rows.now)) page)) }
    ensures cost { steps.new ≤ steps.old + items_cost (store_of (R.kept rows.now)) page }
{
    if wanted.is_nothing() {
        return true;
    }
    let mut next = rows.first_reference(page, steps);
    while let Some(item) = next {
        wanted = wanted.without(tag_folder(rows, item, steps).is_some());
        if wanted.is_nothing() {
            return true;
        }
        next = rows.next_reference(item, steps);
    }
    false
}
