// The tags of a store, found by the folds of their names.
ghost use Rattle.std.specs.Prelude.{◌≡◌, ◌+◌, ◌<◌, ◌^◌, ◌++◌, ◌∷◌, [], ℕ, List, Some, None, true};
ghost use Rattle.std.specs.Prelude.{IfOk, OnOk};
ghost use Rattle.std.specs.BTreeMap.{get_by_text};
ghost use Rattle.std.specs.Option.{option_and_then};
ghost use Rattle.pl_base.specs.declared.id.PageId.{PageId};
ghost use Rattle.pl_base.specs.Fold.{folded};
ghost use Rattle.pl_base.specs.Good.{HasGoodItems};
ghost use Rattle.pl_base.specs.Rows.{store_of};
ghost use Rattle.pl_base.specs.Store.{Item};
ghost use Rattle.pl_base.specs.Tree.{has_item, is_page, item_at};
ghost use Rattle.pl_keyed.specs.KnownTags.{AreBelow, HasPairs, IsEntering, IsOther, KnowsTags};
ghost use Rattle.pl_keyed.specs.KnownTags.{has_entry, last_id};
ghost use Rattle.pl_keyed.specs.TagRows.{TagRow, entered, entries_of, tag_row, tag_rows};

use pl_base::{ItemId, NoMemory, PageId, Rows, Steps, Txt};
use pl_words::fold;
use std::alloc::Global;
use std::collections::{BTreeMap, BTreeSet};
use std::sync::ledger::Ledger;

/// A tag folder, and the last of its entries.
#[derive(Clone, Copy, Debug)]
pub struct TagFolder {
    pub id: u64,
    pub last: u64,
}

/// What a page wants to get a tag.
#[derive(Clone, Copy, Debug)]
pub enum Entering {
    /// Nothing, since it has the tag.
    Has,
    /// An entry in this folder.
    Known(TagFolder),
    /// A folder behind the last one, if there is one, and an entry in it.
    New(Option<u64>),
}

/// The tags of a store by the folds of their names, and which pages have them. Where they are only
/// counted, ids may go past the last one that is given.
#[derive(Drop)]
pub struct Tags {
    folders: BTreeMap<String, TagFolder>,
    // A page and the id of a tag folder that it stands in.
    entries: BTreeSet<(u64, u64)>,
    // The last tag folder.
    last: Option<u64>,
}

impl Tags {
    /// Those of the rows.
    pub fn of<R: Rows, L: Ledger>(
        alloc: Global,
        rows: &R,
        steps: &mut Steps<L>,
    ) -> Result<Tags, NoMemory>
        requires good { HasGoodItems (store_of (R.kept rows.now)) }
        ensures { IfOk result (λ tags. KnowsTags tags (tag_rows (R.kept rows.now).items)) }
    {
        let mut tags = Tags {
            folders: BTreeMap::new(alloc),
            entries: BTreeSet::new(alloc),
            last: None,
        };
        let mut next = rows.first_child(ItemId::TAGS, steps);
        while let Some(folder) = next {
            tags.add_folder(alloc, rows, folder, steps)?;
            next = rows.next_sibling(folder, steps);
        }
        Ok(tags)
    }

    /// None yet.
    pub fn none(alloc: Global) -> Tags
        ensures { KnowsTags result [] }
    {
        Tags {
            folders: BTreeMap::new(alloc),
            entries: BTreeSet::new(alloc),
            last: None,
        }
    }

    /// The page, which may have the tag already, gets it: an entry with the next id, or a folder
    /// with the next id and an entry with the one behind it.
    pub fn enter(
        &mut self,
        alloc: Global,
        page: u64,
        folds: &Txt,
        next: u64,
    ) -> Result<Entering, NoMemory>
        requires next { next + 2 < 2 ^ 64 }
        ensures step { IfOk result (λ entering. (rows : List TagRow) (id : PageId)
            → KnowsTags self.old rows → id.0 ≡ page → IsEntering id folds.now rows entering) }
        ensures tags { OnOk result ((rows : List TagRow) (id : PageId) (name : List ℕ)
            → KnowsTags self.old rows → AreBelow next rows → id.0 ≡ page
            → folded name ≡ folds.now → KnowsTags self.new (entered id name next rows)) }
    {
        let known = self.folders.get(folds.as_str()).copied();
        match known {
            Some(folder) => self.enter_folder(alloc, page, folds, folder, next),
            None => self.enter_new(alloc, page, folds, next),
        }
    }

    // An entry of the page in a folder, unless it stands there.
    fn enter_folder(
        &mut self,
        alloc: Global,
        page: u64,
        folds: &Txt,
        folder: TagFolder,
        next: u64,
    ) -> Result<Entering, NoMemory>
        requires { get_by_text self.old.folders folds.now ≡ Some folder }
        ensures step { IfOk result (λ entering. (rows : List TagRow) (id : PageId)
            → KnowsTags self.old rows → id.0 ≡ page → IsEntering id folds.now rows entering) }
        ensures tags { OnOk result ((rows : List TagRow) (id : PageId) (name : List ℕ)
            → KnowsTags self.old rows → AreBelow next rows → id.0 ≡ page
            → folded name ≡ folds.now → KnowsTags self.new (entered id name next rows)) }
    {
        if !self.entries.insert((page, folder.id))? {
            return Ok(Entering::Has);
        }
        let name = String::from_str(alloc, folds.as_str())?;
        self.folders.insert(
            name,
            TagFolder {
                id: folder.id,
                last: next,
            },
        )?;
        Ok(Entering::Known(folder))
    }

    // A folder with the next id, and an entry of the page in it.
    fn enter_new(
        &mut self,
        alloc: Global,
        page: u64,
        folds: &Txt,
        next: u64,
    ) -> Result<Entering, NoMemory>
        requires next { next + 2 < 2 ^ 64 }
        requires absent { get_by_text self.old.folders folds.now ≡ None }
        ensures step { IfOk result (λ entering. (rows : List TagRow) (id : PageId)
            → KnowsTags self.old rows → id.0 ≡ page → IsEntering id folds.now rows entering) }
        ensures tags { OnOk result ((rows : List TagRow) (id : PageId) (name : List ℕ)
            → KnowsTags self.old rows → AreBelow next rows → id.0 ≡ page
            → folded name ≡ folds.now → KnowsTags self.new (entered id name next rows)) }
    {
        let last = self.last;
        let name = String::from_str(alloc, folds.as_str())?;
        self.folders.insert(
            name,
            TagFolder {
                id: next,
                last: next + 1,
            },
        )?;
        self.entries.insert((page, next))?;
        self.last = Some(next);
        Ok(Entering::New(last))
    }

    // One tag folder of the rows more, with its entries.
    fn add_folder<R: Rows, L: Ledger>(
        &mut self,
        alloc: Global,
        rows: &R,
        folder: ItemId,
        steps: &mut Steps<L>,
    ) -> Result<(), NoMemory>
        requires good { HasGoodItems (store_of (R.kept rows.now)) }
        requires folder { has_item (R.kept rows.now).items folder ≡ true }
        ensures { OnOk result ((before : List TagRow) (t : Item) → KnowsTags self.old before
            → item_at (R.kept rows.now).items folder ≡ Some t
            → IsOther (tag_row (R.kept rows.now).items t) before
            → KnowsTags self.new (before ++ tag_row (R.kept rows.now).items t ∷ [])) }
    {
        let title = rows.item_title(folder, steps)?;
        let folds = fold(alloc, title.as_str())?;
        let last = add_entries(&mut self.entries, rows, folder, steps)?;
        let id = u64::from(folder.0);
        let name = String::from_str(alloc, folds.as_str())?;
        self.folders.insert(name, TagFolder { id, last })?;
        self.last = Some(id);
        Ok(())
    }
}

// The entries of a tag folder with their pages, and the id of the last one.
fn add_entries<R: Rows, L: Ledger>(
    entries: &mut BTreeSet<(u64, u64)>,
    rows: &R,
    folder: ItemId,
    steps: &mut Steps<L>,
) -> Result<u64, NoMemory>
    requires good { HasGoodItems (store_of (R.kept rows.now)) }
    ensures pairs { OnOk result (HasPairs folder.0
        (λ page. has_entry page (entries_of (R.kept rows.now).items folder))
        entries.old entries.new) }
    ensures last { IfOk result (λ last.
        last ≡ last_id (entries_of (R.kept rows.now).items folder)) }
{
    let mut last = 0;
    let mut next = rows.first_child(folder, steps);
    while let Some(entry) = next {
        add_entry(entries, page_of(rows, entry, steps), folder)?;
        last = u64::from(entry.0);
        next = rows.next_sibling(entry, steps);
    }
    Ok(last)
}

// An entry with this page, if it has one.
fn add_entry(
    entries: &mut BTreeSet<(u64, u64)>,
    page: Option<PageId>,
    folder: ItemId,
) -> Result<(), NoMemory>
    ensures { OnOk result
        (HasPairs folder.0 (λ other. is_page other page) entries.old entries.new) }
{
    if let Some(page) = page {
        entries.insert((u64::from(page.0), u64::from(folder.0)))?;
    }
    Ok(())
}

// The page of an item.
fn page_of<R: Rows, L: Ledger>(rows: &R, item: ItemId, steps: &mut Steps<L>) -> Option<PageId>
    ensures { result ≡ option_and_then (λ (i : Item). i.page)
        (item_at (R.kept rows.now).items item) }
{
    rows.item_at(item, steps)?.page
}
