// Whether names tell the origins of pages.
ghost use Rattle.std.specs.Prelude.{◌≡◌, ◌<◌, ◌^◌, length, map, IfNone, IfOk, IfSome, Some};
ghost use Rattle.pl_base.specs.Address.{origin_of_url};
ghost use Rattle.pl_base.specs.Live.{origin_count};
ghost use Rattle.pl_stored.specs.declared.stored.StoredPage.{StoredPage};
ghost use Rattle.pl_origins.specs.Keys.{key_of};
ghost use Rattle.pl_origins.specs.Names.{AreNamed, named};

use indexmap::IndexSet;
use pl_base::{NoMemory, Slot, Txt};
use pl_link::{Canon, split};
use pl_stored::StoredPage;
use std::alloc::Global;
use std::hash::{Hash, Hasher};

// The origin of a URL.
#[derive(PartialEq, Eq, Drop)]
struct Origin {
    prefix: Txt,
    host: Txt,
}

impl Hash for Origin {
    ghost use Rattle.std.specs.Prelude.{◌++◌};
    ghost use Rattle.std.specs.Hash as fed;
    ghost use Rattle.pl_origins.specs.Keys.{hashed};

    ghost hash_input = { λ o. fed.str o.prefix ++ fed.str o.host };

    ghost respects_eq = { hashed };

    fn hash<H: Hasher>(&self, state: &mut H) {
        self.prefix.as_str().hash(state);
        self.host.as_str().hash(state);
    }
}

impl Origin {
    fn of(alloc: Global, url: &Canon) -> Result<Origin, NoMemory>
        ensures { IfOk result (λ origin. origin_of_url url.now ≡ Some (key_of origin)) }
    {
        let parts = split(alloc, url)?;
        Ok(Origin {
            prefix: parts.prefix,
            host: parts.host,
        })
    }
}

/// How many origins the pages have, if any two pages have the same name of an origin exactly where
/// they have the same origin; `None` if not.
///
/// Origins and names are numbered apart, each in the order in which the pages first have them, and
/// the two numbers of each page are compared. That takes one pass with two look-ups for a page, and
/// no URL is parsed.
pub fn named_origins(
    alloc: Global,
    pages: &[StoredPage],
    names: &[Slot],
) -> Result<Option<u32>, NoMemory>
    requires as_many { length pages.now ≡ length names.now }
    requires few { length pages.now < 2 ^ 32 }
    ensures named { IfOk result (λ count.
        IfSome count (λ n. AreNamed (named pages.now names.now))) }
    ensures counted { IfOk result (λ count.
        IfSome count (λ n. n ≡ origin_count (map (λ (p : StoredPage). p.url) pages.now))) }
    ensures refused { IfOk result (λ count.
        IfNone count (AreNamed (named pages.now names.now) → ⊥)) }
{
    let mut origins = IndexSet::new(alloc);
    let mut known = IndexSet::new(alloc);
    for (page, name) in pages.iter().zip(names) {
        let (by_origin, _) = origins.insert_full(Origin::of(alloc, &page.url)?)?;
        let (by_name, _) = known.insert_full(*name)?;
        if by_origin != by_name {
            return Ok(None);
        }
    }
    Ok(Some(origins.len() as u32))
}
