// The pages of a store, found by their URLs.
ghost use Rattle.std.specs.Prelude.{◌≡◌, ◌∷◌, ◌++◌, [], List, None, IfOk, OnOk, string_bytes};
ghost use Rattle.std.specs.Prelude.{true};
ghost use Rattle.pl_base.specs.Address.{is_store_url};
ghost use Rattle.pl_base.specs.Rows.{store_of};
ghost use Rattle.pl_base.specs.Store.{Page};
ghost use Rattle.pl_base.specs.Visiting.{find_page};
ghost use Rattle.pl_digest.specs.Digest.{digest_of};
ghost use Rattle.pl_marks.specs.UrlParts.{HasParts};
ghost use Rattle.pl_keyed.specs.KnownPages.{EntersOrigin, EntersUrl, IsEntered, IsOriginPage};
ghost use Rattle.pl_keyed.specs.KnownPages.{KnowsPages};
ghost use Rattle.pl_keyed.specs.KnownPages.{page_of_origin, page_of_url, with_page};

mod urls;

use pl_base::{NoMemory, Rows, Steps};
use pl_digest::digest;
use pl_link::{Canon, Parts, split};
use pl_marks::parts_of;
use std::alloc::Global;
use std::collections::BTreeMap;
use std::collections::btree_map::Entry;
use std::sync::ledger::Ledger;
pub use urls::Named;

// A URL behind its digest, so that two are mostly told apart by one number.
#[derive(PartialEq, Eq, PartialOrd, Ord, Drop)]
struct Address {
    digest: u64,
    text: String,
}

// A scheme with what follows it, and a host with its port, behind the digest of the latter.
#[derive(PartialEq, Eq, PartialOrd, Ord, Drop)]
struct Origin {
    digest: u64,
    prefix: String,
    host: String,
}

/// What was done with a URL.
#[derive(Clone, Copy, Debug)]
pub enum Entered {
    /// Nothing, since this page has it.
    Found(u64),
    /// It got the next page; this one, if there is one, has the same origin.
    Added(Option<u64>),
}

/// The pages of a store by their URLs, and a page of each origin. Where pages are only counted,
/// their ids may go past the last one that is given.
///
/// Where many URLs are made to have one digest, their texts are compared, by as many as the
/// logarithm of their number.
#[derive(Drop)]
pub struct Pages {
    urls: BTreeMap<Address, u64>,
    origins: BTreeMap<Origin, u64>,
}

impl Pages {
    /// Those of the rows.
    pub fn of<R: Rows, L: Ledger>(
        alloc: Global,
        rows: &R,
        steps: &mut Steps<L>,
    ) -> Result<Pages, NoMemory>
        ensures { IfOk result (λ pages. KnowsPages pages (store_of (R.kept rows.now)).pages) }
    {
        let mut pages = Pages {
            urls: BTreeMap::new(alloc),
            origins: BTreeMap::new(alloc),
        };
        let mut next = rows.page_after(None, steps);
        while let Some(page) = next {
            let url = rows.url(page, steps)?;
            let parts = parts_of(alloc, url.as_str())?;
            pages.add(alloc, url.as_str(), &parts, u64::from(page.0))?;
            next = rows.page_after(Some(page), steps);
        }
        Ok(pages)
    }

    /// None yet.
    pub fn none(alloc: Global) -> Pages
        ensures { KnowsPages result [] }
    {
        Pages {
            urls: BTreeMap::new(alloc),
            origins: BTreeMap::new(alloc),
        }
    }

    /// A page more, whose URL is that of no other. A page that had its origin is the answer.
    pub fn put(&mut self, alloc: Global, url: &str, page: u64) -> Result<Option<u64>, NoMemory>
        requires url { is_store_url url.now ≡ true }
        ensures origin { IfOk result (λ other. (all : List Page) → KnowsPages self.old all
            → IsOriginPage all url.now other) }
        ensures pages { OnOk result ((all : List Page) (p : Page) → KnowsPages self.old all
            → find_page url.now all ≡ None → p.url ≡ url.now → p.id.0 ≡ page
            → KnowsPages self.new (all ++ p ∷ [])) }
    {
        let parts = parts_of(alloc, url)?;
        enter_url(&mut self.urls, alloc, url, page)?;
        let other = enter_origin(&mut self.origins, alloc, &parts, page)?;
        Ok(other)
    }

    // A page more, whose URL has these parts and is that of no other.
    fn add(&mut self, alloc: Global, url: &str, parts: &Parts, page: u64) -> Result<(), NoMemory>
        requires parts { HasParts url.now parts.now }
        ensures { OnOk result ((all : List Page) (p : Page) → KnowsPages self.old all
            → find_page url.now all ≡ None → p.url ≡ url.now → p.id.0 ≡ page
            → KnowsPages self.new (all ++ p ∷ [])) }
    {
        enter_url(&mut self.urls, alloc, url, page)?;
        enter_origin(&mut self.origins, alloc, parts, page)?;
        Ok(())
    }

    /// The URL gets the next page, unless a page has it.
    pub fn enter(&mut self, alloc: Global, url: &Canon, next: u64) -> Result<Entered, NoMemory>
        ensures entered { IfOk result (λ entered. (all : List Page) → KnowsPages self.old all
            → IsEntered all url.now entered) }
        ensures pages { OnOk result ((all : List Page) (p : Page) → KnowsPages self.old all
            → p.url ≡ url.now → p.id.0 ≡ next → KnowsPages self.new (with_page p all)) }
    {
        if let Some(page) = enter_url(&mut self.urls, alloc, url.text(), next)? {
            return Ok(Entered::Found(page));
        }
        let parts = split(alloc, url)?;
        let other = enter_origin(&mut self.origins, alloc, &parts, next)?;
        Ok(Entered::Added(other))
    }
}

// The URL gets the page, unless it has one, which is the answer.
fn enter_url(
    urls: &mut BTreeMap<Address, u64>,
    alloc: Global,
    url: &str,
    page: u64,
) -> Result<Option<u64>, NoMemory>
    ensures known { IfOk result (λ known. known ≡ page_of_url urls.old url.now) }
    ensures urls { OnOk result (EntersUrl url.now page urls.old urls.new) }
{
    let address = address_of(alloc, url)?;
    match urls.entry(address)? {
        Entry::Occupied(known) => Ok(Some(*known.get())),
        Entry::Vacant(place) => {
            place.insert(page);
            Ok(None)
        }
    }
}

// The page is kept of the origin with these parts; the one that was is the answer.
fn enter_origin(
    origins: &mut BTreeMap<Origin, u64>,
    alloc: Global,
    parts: &Parts,
    page: u64,
) -> Result<Option<u64>, NoMemory>
    ensures known { IfOk result (λ known.
        known ≡ page_of_origin origins.old (parts.now.prefix, parts.now.host)) }
    ensures origins { OnOk result
        (EntersOrigin (parts.now.prefix, parts.now.host) page origins.old origins.new) }
{
    let origin = origin_of(alloc, parts)?;
    Ok(origins.insert(origin, page)?)
}

fn address_of(alloc: Global, url: &str) -> Result<Address, NoMemory>
    ensures digest { IfOk result (λ address. address.digest ≡ digest_of url.now) }
    ensures text { IfOk result (λ address. string_bytes address.text ≡ url.now) }
{
    Ok(Address {
        digest: digest(url),
        text: String::from_str(alloc, url)?,
    })
}

// The origin of a URL with these parts.
fn origin_of(alloc: Global, parts: &Parts) -> Result<Origin, NoMemory>
    ensures digest { IfOk result (λ origin. origin.digest ≡ digest_of parts.now.host) }
    ensures prefix { IfOk result (λ origin. string_bytes origin.prefix ≡ parts.now.prefix) }
    ensures host { IfOk result (λ origin. string_bytes origin.host ≡ parts.now.host) }
{
    Ok(Origin {
        digest: digest(parts.host.as_str()),
        prefix: String::from_str(alloc, parts.prefix.as_str())?,
        host: String::from_str(alloc, parts.host.as_str())?,
    })
}
