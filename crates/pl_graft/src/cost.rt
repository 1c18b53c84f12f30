// What an import takes, told beforehand.
ghost use Rattle.std.specs.Prelude.{◌≡◌, ◌≤◌, ◌+◌, ◌*◌, length, IfOk, IsTrue, OnOk};
ghost use Rattle.std.specs.List.{list_all};
ghost use Rattle.pl_base.specs.declared.date.Micros.{Micros};
ghost use Rattle.pl_base.specs.declared.id.ItemId.{ItemId};
ghost use Rattle.pl_base.specs.declared.id.PageId.{PageId};
ghost use Rattle.pl_base.specs.Date.{IsDate};
ghost use Rattle.pl_base.specs.Good.{HasGoodItems, IsTitle, has_page_at};
ghost use Rattle.pl_base.specs.Live as live;
ghost use Rattle.pl_base.specs.Live.{live_slots};
ghost use Rattle.pl_base.specs.Rows.{store_of};
ghost use Rattle.pl_base.specs.Store.{Store};
ghost use Rattle.pl_base.specs.Title.{cut_title};
ghost use Rattle.pl_base.specs.Visiting.{page_for, with_page_for};
ghost use Rattle.pl_nbread.specs.WellFormed.{AreWellFormed, is_formed};
ghost use Rattle.pl_graft.specs.Import as spec;
ghost use Rattle.pl_graft.specs.Import.{imported, most_rows, with_list, with_node, with_tag};
ghost use Rattle.pl_graft.specs.Import.{with_tags};
ghost use Rattle.pl_graft.specs.Ready.{Takes};
ghost use Rattle.pl_graft.specs.Tally.{CanCount, CountsAtMost, IsTallyOf, node_weight};
ghost use Rattle.pl_graft.specs.Tally.{page_weight, tag_weight, tree_weight, weight};

mod anew;

pub use anew::needed_anew;
use pl_base::{NoMemory, Rows, Steps, chunks, cut_title};
use pl_keyed::{Entered, Entering, Pages, Tags};
use pl_link::Canon;
use pl_nbread::{Node, Tree};
use pl_words::{TagName, fold};
use std::alloc::Global;
use std::sync::ledger::Ledger;

/// No import has more rows.
pub const MOST_ROWS: u64 = 50_000;

/// How many bookmarks, folders and separators a tree has.
pub fn row_count(tree: &Tree) -> u64
    ensures { result ≡ spec.row_count tree.now }
{
    tree.menu.as_slice().len() as u64
        + tree.toolbar.as_slice().len() as u64
        + tree.unfiled.as_slice().len() as u64
        + tree.mobile.as_slice().len() as u64
}

/// What an import takes: the slots of 128 bytes of the store after it, and how many pages and items
/// it makes.
#[derive(Clone, Copy, Debug, PartialEq, Eq)]
pub struct Cost {
    pub live: u64,
    pub pages: u64,
    pub items: u64,
}

// A store with a part of a tree: what it is known by, its slots and its next ids.
#[derive(Drop)]
struct Tally {
    alloc: Global,
    pages: Pages,
    tags: Tags,
    live: u64,
    next_page: u64,
    next_item: u64,
}

impl Tally {
    // The tally of rows, before anything is counted.
    fn of<R: Rows, L: Ledger>(
        alloc: Global,
        rows: &R,
        steps: &mut Steps<L>,
    ) -> Result<Tally, NoMemory>
        requires good { HasGoodItems (store_of (R.kept rows.now)) }
        ensures room { IfOk result (CanCount tree_weight) }
        ensures tally { IfOk result (λ tally. IsTallyOf tally (store_of (R.kept rows.now))) }
    {
        let ids = rows.ids(steps);
        Ok(Tally {
            alloc,
            pages: Pages::of(alloc, rows, steps)?,
            tags: Tags::of(alloc, rows, steps)?,
            live: rows.live(steps),
            next_page: u64::from(ids.page),
            next_item: u64::from(ids.item),
        })
    }

    // The page of a URL, the next one where there is none yet.
    fn take_page(&mut self, url: &Canon) -> Result<u64, NoMemory>
        requires room { CanCount page_weight self.old }
        ensures few { OnOk result (CountsAtMost page_weight self.old self.new) }
        ensures page { IfOk result (λ page. (store : Store) → IsTallyOf self.old store
            → page ≡ (page_for store url.now).id.0) }
        ensures tally { OnOk result ((store : Store) → IsTallyOf self.old store
            → IsTallyOf self.new (with_page_for store url.now)) }
    {
        let entered = self.pages.enter(self.alloc, url, self.next_page)?;
        match entered {
            Entered::Found(page) => Ok(page),
            Entered::Added(other) => {
                let page = self.next_page;
                self.next_page += 1;
                self.live += 1 + chunks(url.text()) + u64::from(other.is_none());
                Ok(page)
            }
        }
    }

    // So many items more, and so many slots of titles.
    fn take_items(&mut self, items: u64, titles: u64)
        requires { CanCount (2 * items + titles) self.old }
        ensures { self.new ≡ record self.old {
          live = self.old.live + (items + titles);
          next_item = self.old.next_item + items;
        } }
    {
        self.next_item += items;
        self.live += items + titles;
    }

    // A tag for a page.
    fn take_tag(&mut self, page: u64, name: &TagName) -> Result<(), NoMemory>
        requires room { CanCount tag_weight self.old }
        ensures few { OnOk result (CountsAtMost tag_weight self.old self.new) }
        ensures tally { OnOk result ((store : Store) (id : PageId) (date : Micros)
            → IsTallyOf self.old store → id.0 ≡ page → IsTrue (has_page_at store id)
            → IsDate date → IsTallyOf self.new (with_tag id date name.now store)) }
    {
        let folds = fold(self.alloc, name.text())?;
        match self.tags.enter(self.alloc, page, &folds, self.next_item)? {
            Entering::Has => {}
            Entering::Known(_) => self.take_items(1, 0),
            Entering::New(_) => self.take_items(2, chunks(name.text())),
        }
        Ok(())
    }

    // Each of these tags for a page.
    fn take_tags(&mut self, page: u64, names: &[TagName]) -> Result<(), NoMemory>
        requires room { CanCount (tag_weight * length names.now) self.old }
        ensures few { OnOk result
            (CountsAtMost (tag_weight * length names.now) self.old self.new) }
        ensures tally { OnOk result ((store : Store) (id : PageId) (date : Micros)
            → IsTallyOf self.old store → id.0 ≡ page → IsTrue (has_page_at store id)
            → IsDate date → IsTallyOf self.new (with_tags id date names.now store)) }
    {
        for name in names {
            self.take_tag(page, name)?;
        }
        Ok(())
    }

    // A node, and behind a bookmark its tags.
    fn take_node(&mut self, node: &Node) -> Result<(), NoMemory>
        requires formed { IsTrue (is_formed node.now) }
        requires room { CanCount (node_weight node.now) self.old }
        ensures title { IsTitle (cut_title node.now.title) }
        ensures few { OnOk result (CountsAtMost (node_weight node.now) self.old self.new) }
        ensures tally { OnOk result ((store : Store) (parent : ItemId)
            → IsTallyOf self.old store → Takes store parent
            → IsTallyOf self.new (with_node parent node.now store)) }
    {
        let slots = title_slots(node);
        match &node.url {
            Some(url) => {
                let page = self.take_page(url)?;
                self.take_items(1, slots);
                self.take_tags(page, node.tags.as_slice())
            }
            None => {
                self.take_items(1, slots);
                Ok(())
            }
        }
    }

    // The list of a root.
    fn take_list(&mut self, nodes: &[Node]) -> Result<(), NoMemory>
        requires formed { IsTrue (list_all is_formed nodes.now) }
        requires room { CanCount (weight nodes.now) self.old }
        ensures few { OnOk result (CountsAtMost (weight nodes.now) self.old self.new) }
        ensures tally { OnOk result ((store : Store) (root : ItemId)
            → IsTallyOf self.old store → Takes store root
            → IsTallyOf self.new (with_list root nodes.now store)) }
    {
        for node in nodes {
            self.take_node(node)?;
        }
        Ok(())
    }

    // The lists of the four roots.
    fn take_tree(&mut self, tree: &Tree) -> Result<(), NoMemory>
        requires formed { AreWellFormed tree.now }
        requires few { spec.row_count tree.now ≤ most_rows }
        requires room { CanCount tree_weight self.old }
        ensures { OnOk result ((store : Store) → IsTallyOf self.old store
            → IsTallyOf self.new (imported tree.now store)) }
    {
        self.take_list(tree.menu.as_slice())?;
        self.take_list(tree.toolbar.as_slice())?;
        self.take_list(tree.unfiled.as_slice())?;
        self.take_list(tree.mobile.as_slice())
    }
}

// The slots of the title of a node's item.
fn title_slots(node: &Node) -> u64
    ensures slots { result ≡ live.chunks (cut_title node.now.title) }
    ensures few { result ≤ 35 }
    ensures title { IsTitle (cut_title node.now.title) }
{
    chunks(cut_title(node.title.as_str()))
}

/// What the import of a tree takes.
pub fn needed<R: Rows, L: Ledger>(
    alloc: Global,
    rows: &R,
    tree: &Tree,
    steps: &mut Steps<L>,
) -> Result<Cost, NoMemory>
    requires good { HasGoodItems (store_of (R.kept rows.now)) }
    requires formed { AreWellFormed tree.now }
    requires few { spec.row_count tree.now ≤ most_rows }
    ensures live { IfOk result (λ cost. cost.live
        ≡ live_slots (imported tree.now (store_of (R.kept rows.now)))) }
    ensures pages { IfOk result (λ cost. (R.kept rows.now).ids.page + cost.pages
        ≡ (imported tree.now (store_of (R.kept rows.now))).ids.page) }
    ensures items { IfOk result (λ cost. (R.kept rows.now).ids.item + cost.items
        ≡ (imported tree.now (store_of (R.kept rows.now))).ids.item) }
{
    let ids = rows.ids(steps);
    let mut tally = Tally::of(alloc, rows, steps)?;
    tally.take_tree(tree)?;
    Ok(Cost {
        live: tally.live,
        pages: tally.next_page - u64::from(ids.page),
        items: tally.next_item - u64::from(ids.item),
    })
}
