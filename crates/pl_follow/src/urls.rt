// The ids of pages, found by their URLs.
ghost use Rattle.std.specs.Prelude.{◌≡◌, ◌≢◌, [], List, None, OnOk, Some, false};
ghost use Rattle.std.specs.BTreeMap.{get};
ghost use Rattle.std.specs.List.{AllPairs, Contains};
ghost use Rattle.std.specs.Ordering.{nat_cmp};
ghost use Rattle.pl_base.specs.declared.view.View.{View};
ghost use Rattle.pl_follow.specs.Changes.{Suits, changed, has_view, with_view, without_id};
ghost use Rattle.pl_follow.specs.Urls.{IndexesUrls, id_of_url, page_of};

use crate::Follow;
use pl_base::{NoMemory, PageId, View};
use pl_digest::digest;
use std::alloc::Global;
use std::collections::BTreeMap;
use std::collections::btree_map::Entry;

// A URL, and the page that has it.
#[derive(Debug, Drop)]
struct UrlPage {
    url: String,
    page: PageId,
}

/// The ids of the pages by their URLs.
///
/// A look-up compares digests, and one text where no two URLs have one digest. Where a file was
/// forged so that many have one, the texts that are compared grow as the logarithm of their number.
/// A change under which a page keeps its URL and its id compares these alone.
#[derive(Debug, Drop)]
pub struct UrlIndex {
    // By the digest of a URL, the first one that came with it.
    hashed: BTreeMap<u64, UrlPage>,
    // The URLs that came when another one of their digest was there.
    others: BTreeMap<String, PageId>,
}

impl UrlIndex {
    /// That of no page.
    pub fn new(alloc: Global) -> UrlIndex
        ensures { IndexesUrls result [] }
    {
        UrlIndex {
            hashed: BTreeMap::new(alloc),
            others: BTreeMap::new(alloc),
        }
    }

    /// The page with the URL; none where no page has it.
    pub fn find(&self, url: &str) -> Option<PageId>
        ensures { (views : List View) → IndexesUrls self.now views
            → result ≡ id_of_url url.now views }
    {
        let page = self.find_hashed(digest(url), url);
        if page.is_some() {
            return page;
        }
        self.others.get(url).copied()
    }

    fn find_hashed(&self, hash: u64, url: &str) -> Option<PageId>
        ensures { result ≡ page_of url.now (get nat_cmp self.now.hashed hash) }
    {
        let known = self.hashed.get(&hash)?;
        if known.url.as_str() == url {
            return Some(known.page);
        }
        None
    }

    fn replace(&mut self, alloc: Global, old: &View, new: &View) -> Result<(), NoMemory>
        ensures { OnOk result ((views : List View) → IndexesUrls self.old views
            → Suits (Some old.now) (Some new.now) views
            → IndexesUrls self.new (changed (Some old.now) (Some new.now) views)) }
    {
        if old.id == new.id && old.url == new.url {
            return Ok(());
        }
        self.take_out(old);
        self.put_in(alloc, new)
    }

    fn take_out(&mut self, old: &View)
        ensures { (views : List View) → IndexesUrls self.old views → Contains views old.now
            → IndexesUrls self.new (without_id old.now.id views) }
    {
        let url = old.url.as_str();
        let hash = digest(url);
        if self.find_hashed(hash, url).is_some() {
            self.hashed.remove(&hash);
        } else {
            self.others.remove(url);
        }
    }

    fn put_in(&mut self, alloc: Global, new: &View) -> Result<(), NoMemory>
        ensures { OnOk result ((views : List View) → IndexesUrls self.old views
            → has_view new.now.id views ≡ false
            → AllPairs (λ (v w : View). v.url ≢ w.url) (with_view new.now views)
            → IndexesUrls self.new (with_view new.now views)) }
    {
        let url = String::from_str(alloc, new.url.as_str())?;
        match self.hashed.entry(digest(new.url.as_str()))? {
            Entry::Vacant(entry) => {
                entry.insert(UrlPage { url, page: new.id });
            }
            Entry::Occupied(_) => {
                self.others.insert(url, new.id)?;
            }
        }
        Ok(())
    }
}

impl Follow for UrlIndex {
    ghost stands = { IndexesUrls };

    fn change(
        &mut self,
        alloc: Global,
        old: Option<&View>,
        new: Option<&View>,
    ) -> Result<(), NoMemory> {
        match (old, new) {
            (Some(old), Some(new)) => self.replace(alloc, old, new),
            (Some(old), None) => {
                self.take_out(old);
                Ok(())
            }
            (None, Some(new)) => self.put_in(alloc, new),
            (None, None) => Ok(()),
        }
    }
}
