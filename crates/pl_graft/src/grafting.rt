// The import of a tree: pages are found or made, and the rows of its lists are put behind those
// that are there.
ghost use Rattle.std.specs.Prelude.{◌≡◌, ◌≤◌, ℕ, List, [], IfOk, OnOk, map};
ghost use Rattle.std.specs.List.Sorted.{IsStrictlyIncreasing};
ghost use Rattle.pl_base.specs.declared.id.PageId.{PageId};
ghost use Rattle.pl_base.specs.Good.{HasGoodItems, end_of_ids};
ghost use Rattle.pl_base.specs.Live.{live_slots, slot_limit};
ghost use Rattle.pl_base.specs.Rows.{store_of};
ghost use Rattle.pl_nbread.specs.WellFormed.{AreWellFormed};
ghost use Rattle.pl_graft.specs.Gained.{Grows, gained};
ghost use Rattle.pl_graft.specs.Import as spec;
ghost use Rattle.pl_graft.specs.Import.{imported, most_rows, tags_made};
ghost use Rattle.pl_graft.specs.Standing.{GoesOn, HasRoom, IsStanding};

mod list;
mod node;
mod page;
mod tag;

use crate::cost::row_count;
use pl_base::{ItemId, NoMemory, PageId, Rows, Seq, Steps};
use pl_keyed::{Pages, Tags};
use pl_nbread::Tree;
use std::alloc::Global;
use std::collections::BTreeSet;
use std::sync::ledger::Ledger;

/// What an import made.
#[derive(Debug, Drop)]
pub struct Grafted {
    /// Bookmarks, folders and separators.
    pub items: u32,
    /// Tags that pages got.
    pub tags: u32,
    /// The pages that have an item more, by ascending id.
    pub pages: Seq<PageId>,
}

// A folder that takes nodes, and its last child.
#[derive(Clone, Copy)]
struct Open {
    folder: ItemId,
    last: Option<ItemId>,
}

// A store's rows that an import is going on in: what they are known by, and what was made.
#[derive(Drop)]
struct Grafting {
    alloc: Global,
    pages: Pages,
    tags: Tags,
    gained: BTreeSet<PageId>,
    made: u32,
}

impl Grafting {
    // An import into these rows that has made nothing yet.
    fn of<R: Rows, L: Ledger>(
        alloc: Global,
        rows: &R,
        steps: &mut Steps<L>,
    ) -> Result<Grafting, NoMemory>
        requires good { HasGoodItems (store_of (R.kept rows.now)) }
        ensures standing { IfOk result (IsStanding (store_of (R.kept rows.now))) }
        ensures tags { IfOk result (λ grafting. grafting.made ≡ 0) }
        ensures pages { IfOk result (λ grafting. grafting.gained.keys ≡ []) }
    {
        Ok(Grafting {
            alloc,
            pages: Pages::of(alloc, rows, steps)?,
            tags: Tags::of(alloc, rows, steps)?,
            gained: BTreeSet::new(alloc),
            made: 0,
        })
    }

    // The lists of a tree, each behind what its root has.
    fn lists<R: Rows, L: Ledger>(
        &mut self,
        rows: &mut R,
        tree: &Tree,
        steps: &mut Steps<L>,
    ) -> Result<(), NoMemory>
        requires standing { IsStanding (store_of (R.kept rows.old)) self.old }
        requires formed { AreWellFormed tree.now }
        requires room { HasRoom (imported tree.now (store_of (R.kept rows.old))) }
        ensures store { OnOk result (store_of (R.kept rows.new)
            ≡ imported tree.now (store_of (R.kept rows.old))) }
        ensures standing { OnOk result (IsStanding (store_of (R.kept rows.new)) self.new) }
        ensures goes_on { OnOk result
            (GoesOn (R.kept rows.old) (R.kept rows.new) self.old self.new) }
        ensures base { OnOk result
            ((bytes : List ℕ) → R.base rows.old bytes → R.base rows.new bytes) }
    {
        self.list(rows, ItemId(2), tree.menu.as_slice(), steps)?;
        self.list(rows, ItemId(3), tree.toolbar.as_slice(), steps)?;
        self.list(rows, ItemId(5), tree.unfiled.as_slice(), steps)?;
        self.list(rows, ItemId(6), tree.mobile.as_slice(), steps)
    }
}

// The pages by ascending id.
fn in_order(alloc: Global, pages: &BTreeSet<PageId>) -> Result<Vec<PageId>, NoMemory>
    ensures pages { IfOk result (λ listed. listed.items ≡ pages.now.keys) }
    ensures ascending { IfOk result (λ listed.
        IsStrictlyIncreasing (map (λ (page : PageId). page.0) listed.items)) }
{
    Ok(pages.iter().copied().collect(alloc)?)
}

/// The import of a tree: the rows of each list, in preorder, at the end of their root, each with
/// its own dates, and behind a bookmark its tags, added when it was. A page that is missing is
/// made, and a tag that a page has is passed over.
pub fn graft<R: Rows, L: Ledger>(
    alloc: Global,
    rows: &mut R,
    tree: &Tree,
    steps: &mut Steps<L>,
) -> Result<Grafted, NoMemory>
    requires good { HasGoodItems (store_of (R.kept rows.old)) }
    requires formed { AreWellFormed tree.now }
    requires few { spec.row_count tree.now ≤ most_rows }
    requires page_ids { (imported tree.now (store_of (R.kept rows.old))).ids.page ≤ end_of_ids }
    requires item_ids { (imported tree.now (store_of (R.kept rows.old))).ids.item ≤ end_of_ids }
    requires live { live_slots (imported tree.now (store_of (R.kept rows.old))) ≤ slot_limit }
    ensures store { OnOk result (store_of (R.kept rows.new)
        ≡ imported tree.now (store_of (R.kept rows.old))) }
    ensures items { IfOk result (λ grafted. grafted.items ≡ spec.row_count tree.now) }
    ensures tags { IfOk result (λ grafted.
        grafted.tags ≡ tags_made tree.now (store_of (R.kept rows.old))) }
    ensures pages { IfOk result (λ grafted. grafted.pages
        ≡ gained (store_of (R.kept rows.old)) (store_of (R.kept rows.new))) }
    ensures grows { OnOk result (Grows (R.kept rows.old) (R.kept rows.new)) }
    ensures good { OnOk result (HasGoodItems (store_of (R.kept rows.new))) }
    ensures base { OnOk result ((bytes : List ℕ) → R.base rows.old bytes → R.base rows.new bytes) }
{
    let mut grafting = Grafting::of(alloc, rows, steps)?;
    grafting.lists(rows, tree, steps)?;
    Ok(Grafted {
        items: row_count(tree) as u32,
        tags: grafting.made,
        pages: Seq::from(in_order(alloc, &grafting.gained)?),
    })
}
