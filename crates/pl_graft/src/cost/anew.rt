// What a restore takes, told beforehand.
ghost use Rattle.std.specs.Prelude.{◌≡◌, ◌≤◌, ◌+◌, ◌||◌, [], None, Some, true, length, IfOk};
ghost use Rattle.std.specs.Prelude.{OnOk};
ghost use Rattle.pl_base.specs.Address.{is_store_url};
ghost use Rattle.pl_base.specs.Good.{IsGood, longest_title};
ghost use Rattle.pl_base.specs.Live.{live_slots};
ghost use Rattle.pl_base.specs.Removal.{is_standing};
ghost use Rattle.pl_base.specs.Rows.{KeptPage, has_page, page_at, store_of};
ghost use Rattle.pl_base.specs.Store.{Page, Store};
ghost use Rattle.pl_base.specs.Visiting.{find_page};
ghost use Rattle.pl_nbread.specs.WellFormed.{AreWellFormed};
ghost use Rattle.pl_keyed.specs.KnownPages.{names};
ghost use Rattle.pl_graft.specs.Import as spec;
ghost use Rattle.pl_graft.specs.Import.{imported, most_rows};
ghost use Rattle.pl_graft.specs.Restored.{emptied, restored};
ghost use Rattle.pl_graft.specs.Spared.{spared, stays, with_last, with_pages};
ghost use Rattle.pl_graft.specs.Tally.{CanCount, CountsAtMost, IsTallyOf, first_weight, size};
ghost use Rattle.pl_graft.specs.Tally.{spared_weight, tree_weight};

use crate::cost::{Cost, Tally};
use pl_base::{NoMemory, PageId, Rows, Steps, chunks};
use pl_keyed::{Named, Pages, Tags};
use pl_nbread::Tree;
use std::alloc::Global;
use std::sync::ledger::Ledger;

// The slots of the items that stand in every store, which have no titles.
const ROOT_SLOTS: u64 = 6;

impl Tally {
    // The tally of rows without bookmarks and tags, and without the pages that have no visit and
    // that the tree does not name.
    fn anew<R: Rows, L: Ledger>(
        alloc: Global,
        rows: &R,
        tree: &Tree,
        steps: &mut Steps<L>,
    ) -> Result<Tally, NoMemory>
        requires good { IsGood (store_of (R.kept rows.now)) }
        ensures room { IfOk result (CanCount tree_weight) }
        ensures tally { IfOk result (λ tally. IsTallyOf tally
            (spared tree.now (emptied (store_of (R.kept rows.now))))) }
    {
        let named = Named::of(alloc, tree)?;
        let mut tally = Tally::without_pages(alloc, rows, steps);
        let mut next = rows.page_after(None, steps);
        while let Some(page) = next {
            tally.spare(rows, page, &named, steps)?;
            next = rows.page_after(Some(page), steps);
        }
        Ok(tally)
    }

    // The tally of rows without bookmarks, tags and pages.
    fn without_pages<R: Rows, L: Ledger>(alloc: Global, rows: &R, steps: &mut Steps<L>) -> Tally
        ensures few { size result ≤ first_weight }
        ensures tally { IsTallyOf result (with_pages [] (emptied (store_of (R.kept rows.now)))) }
    {
        let ids = rows.ids(steps);
        Tally {
            alloc,
            pages: Pages::none(alloc),
            tags: Tags::none(alloc),
            live: ROOT_SLOTS + u64::from(rows.visits(steps)),
            next_page: u64::from(ids.page),
            next_item: u64::from(ids.item),
        }
    }

    // A page of the rows more, if it has a visit or is named.
    fn spare<R: Rows, L: Ledger>(
        &mut self,
        rows: &R,
        page: PageId,
        named: &Named,
        steps: &mut Steps<L>,
    ) -> Result<(), NoMemory>
        requires page { has_page (R.kept rows.now) page ≡ true }
        requires room { CanCount spared_weight self.old }
        ensures few { OnOk result (CountsAtMost spared_weight self.old self.new) }
        ensures tally { OnOk result ((store : Store) (p : KeptPage) → IsTallyOf self.old store
            → page_at (R.kept rows.now) page ≡ Some p → find_page p.page.url store.pages ≡ None
            → IsTallyOf self.new
            (with_last (stays named.now (emptied (store_of (R.kept rows.now))) p.page)
            p.page store)) }
    {
        let url = rows.url(page, steps)?;
        if !is_spared(self.alloc, rows, page, url.as_str(), named, steps)? {
            return Ok(());
        }
        let title = rows.title(page, steps)?;
        self.add_page(url.as_str(), title.as_str(), u64::from(page.0))
    }

    // A page more, whose URL is that of no other.
    fn add_page(&mut self, url: &str, title: &str, page: u64) -> Result<(), NoMemory>
        requires url { is_store_url url.now ≡ true }
        requires title { length title.now ≤ longest_title }
        requires room { CanCount spared_weight self.old }
        ensures few { OnOk result (CountsAtMost spared_weight self.old self.new) }
        ensures tally { OnOk result ((store : Store) (p : Page) → IsTallyOf self.old store
            → find_page url.now store.pages ≡ None → p.url ≡ url.now → p.title ≡ title.now
            → p.id.0 ≡ page → IsTallyOf self.new (with_last true p store)) }
    {
        let other = self.pages.put(self.alloc, url, page)?;
        self.live += 1 + chunks(url) + chunks(title) + u64::from(other.is_none());
        Ok(())
    }
}

// Whether a page of the rows with this URL has a visit or is named.
fn is_spared<R: Rows, L: Ledger>(
    alloc: Global,
    rows: &R,
    page: PageId,
    url: &str,
    named: &Named,
    steps: &mut Steps<L>,
) -> Result<bool, NoMemory>
    ensures spared { IfOk result (λ spared. spared
        ≡ (is_standing (emptied (store_of (R.kept rows.now))) page || names named.now url.now)) }
{
    let is_named = named.has(alloc, url)?;
    Ok(rows.latest(page, steps).is_some() || is_named)
}

/// What the restore of a tree takes: the slots of 128 bytes of the store after it, and how many
/// pages and items it makes.
pub fn needed_anew<R: Rows, L: Ledger>(
    alloc: Global,
    rows: &R,
    tree: &Tree,
    steps: &mut Steps<L>,
) -> Result<Cost, NoMemory>
    requires good { IsGood (store_of (R.kept rows.now)) }
    requires formed { AreWellFormed tree.now }
    requires few { spec.row_count tree.now ≤ most_rows }
    ensures live { IfOk result (λ cost. cost.live
        ≡ live_slots (restored tree.now (store_of (R.kept rows.now)))) }
    ensures pages { IfOk result (λ cost. (R.kept rows.now).ids.page + cost.pages
        ≡ (restored tree.now (store_of (R.kept rows.now))).ids.page) }
    ensures items { IfOk result (λ cost. (R.kept rows.now).ids.item + cost.items
        ≡ (restored tree.now (store_of (R.kept rows.now))).ids.item) }
    ensures order { restored tree.now (store_of (R.kept rows.now))
        ≡ imported tree.now (spared tree.now (emptied (store_of (R.kept rows.now)))) }
{
    let ids = rows.ids(steps);
    let mut tally = Tally::anew(alloc, rows, tree, steps)?;
    tally.take_tree(tree)?;
    Ok(Cost {
        live: tally.live,
        pages: tally.next_page - u64::from(ids.page),
        items: tally.next_item - u64::from(ids.item),
    })
}
