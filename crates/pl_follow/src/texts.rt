// The folded texts of pages, which are searched.
ghost use Rattle.std.specs.Prelude.{◌≡◌, [], IfOk, List, OnOk, Some, false, nat_eq, true};
ghost use Rattle.std.specs.List.{Contains, starts_with};
ghost use Rattle.std.specs.Option.{option_copied};
ghost use Rattle.pl_base.specs.declared.view.View.{View};
ghost use Rattle.pl_base.specs.Fold.{folded};
ghost use Rattle.pl_words.specs.Pieces as pieces;
ghost use Rattle.pl_follow.specs.Changes.{IsChange, Suits, changed, has_view, with_view};
ghost use Rattle.pl_follow.specs.Changes.{without_id};
ghost use Rattle.pl_follow.specs.Texts.{KeepsTexts, folded_of, searched_title, texts_of};

use crate::Follow;
use pl_base::{NoMemory, PageId, Txt, View};
use pl_words::{fold, searched};
use std::alloc::Global;
use std::collections::HashMap;

/// What is searched of a page, with its case folded.
#[derive(Debug, PartialEq, Eq, Drop)]
pub struct Folded {
    /// The title of its bookmark, or its own where that is empty.
    pub title: Txt,
    /// Its URL without the prefix, with percent-escapes decoded.
    pub address: Txt,
    /// Its tags, joined by commas.
    pub tags: Txt,
}

/// The folded texts of each page, found in constant time by its id.
///
/// A change folds again only what it changes: a text that stays keeps its fold, under another id
/// too.
#[derive(Debug, Drop)]
pub struct FoldedTexts {
    pages: HashMap<PageId, Folded>,
}

impl FoldedTexts {
    /// Those of no page.
    pub fn new(alloc: Global) -> FoldedTexts
        ensures { KeepsTexts result [] }
    {
        FoldedTexts {
            pages: HashMap::new(alloc),
        }
    }

    /// The folded texts of the page; none where there is no such page.
    pub fn of(&self, page: PageId) -> Option<&Folded>
        ensures { (views : List View) → KeepsTexts self.now views
            → option_copied result ≡ texts_of page views }
    {
        self.pages.get(&page)
    }

    fn replace(&mut self, alloc: Global, old: &View, new: &View) -> Result<(), NoMemory>
        requires change { IsChange (KeepsTexts self.old) (Some old.now) (Some new.now) }
        ensures { OnOk result ((views : List View) → KeepsTexts self.old views
            → Suits (Some old.now) (Some new.now) views
            → KeepsTexts self.new (changed (Some old.now) (Some new.now) views)) }
    {
        if old.id == new.id && have_same_texts(old, new) {
            return Ok(());
        }
        let kept = self.pages.remove(&old.id).unwrap();
        let texts = refolded(alloc, kept, old, new)?;
        self.put_in(new, texts)
    }

    fn take_out(&mut self, old: &View)
        ensures { (views : List View) → KeepsTexts self.old views → Contains views old.now
            → KeepsTexts self.new (without_id old.now.id views) }
    {
        self.pages.remove(&old.id);
    }

    fn put_in(&mut self, new: &View, texts: Folded) -> Result<(), NoMemory>
        requires texts { texts ≡ folded_of new.now }
        ensures { OnOk result ((views : List View) → KeepsTexts self.old views
            → has_view new.now.id views ≡ false
            → KeepsTexts self.new (with_view new.now views)) }
    {
        self.pages.insert(new.id, texts)?;
        Ok(())
    }
}

impl Follow for FoldedTexts {
    ghost stands = { KeepsTexts };

    fn change(
        &mut self,
        alloc: Global,
        old: Option<&View>,
        new: Option<&View>,
    ) -> Result<(), NoMemory> {
        match (old, new) {
            (Some(old), Some(new)) => self.replace(alloc, old, new),
            (Some(old), None) => {
                self.take_out(old);
                Ok(())
            }
            (None, Some(new)) => {
                let texts = folded_texts(alloc, new)?;
                self.put_in(new, texts)
            }
            (None, None) => Ok(()),
        }
    }
}

/// The title by which the page is searched.
pub fn title_of(view: &View) -> &str
    ensures { result.now ≡ searched_title view.now }
{
    if view.mark_title.as_str().is_empty() {
        return view.title.as_str();
    }
    view.mark_title.as_str()
}

/// Whether the same texts of both are searched.
pub fn have_same_texts(old: &View, new: &View) -> bool
    ensures { result ≡ true → folded_of old.now ≡ folded_of new.now }
{
    title_of(old) == title_of(new) && has_same_address(old, new) && old.tags == new.tags
}

fn has_same_address(old: &View, new: &View) -> bool
    ensures { result ≡ true → pieces.searched old.now.url old.now.prefix
        ≡ pieces.searched new.now.url new.now.prefix }
{
    old.url == new.url && old.prefix == new.prefix
}

/// What is searched of a page, folded.
pub fn folded_texts(alloc: Global, view: &View) -> Result<Folded, NoMemory>
    requires prefix { starts_with nat_eq view.now.url view.now.prefix ≡ true }
    ensures { IfOk result (λ texts. texts ≡ folded_of view.now) }
{
    Ok(Folded {
        title: fold(alloc, title_of(view))?,
        address: searched(alloc, view.url.as_str(), view.prefix.as_str())?,
        tags: fold(alloc, view.tags.as_str())?,
    })
}

// The folded texts of the new view, where those of the old one are known.
fn refolded(alloc: Global, kept: Folded, old: &View, new: &View) -> Result<Folded, NoMemory>
    requires kept { kept ≡ folded_of old.now }
    requires prefix { starts_with nat_eq new.now.url new.now.prefix ≡ true }
    ensures { IfOk result (λ texts. texts ≡ folded_of new.now) }
{
    let Folded {
        title,
        address,
        tags,
    } = kept;
    Ok(Folded {
        title: refold(alloc, title, title_of(old), title_of(new))?,
        address: refold_address(alloc, address, old, new)?,
        tags: refold(alloc, tags, old.tags.as_str(), new.tags.as_str())?,
    })
}

fn refold(alloc: Global, kept: Txt, old: &str, new: &str) -> Result<Txt, NoMemory>
    requires kept { kept ≡ folded old.now }
    ensures { IfOk result (λ folds. folds ≡ folded new.now) }
{
    if old == new {
        return Ok(kept);
    }
    fold(alloc, new)
}

fn refold_address(alloc: Global, kept: Txt, old: &View, new: &View) -> Result<Txt, NoMemory>
    requires kept { kept ≡ pieces.searched old.now.url old.now.prefix }
    requires prefix { starts_with nat_eq new.now.url new.now.prefix ≡ true }
    ensures { IfOk result (λ folds. folds ≡ pieces.searched new.now.url new.now.prefix) }
{
    if has_same_address(old, new) {
        return Ok(kept);
    }
    searched(alloc, new.url.as_str(), new.prefix.as_str())
}
