// The URLs that a tree names.
ghost use Rattle.std.specs.Prelude.{◌≡◌, ◌||◌, List, ℕ, IfOk, OnOk};
ghost use Rattle.pl_keyed.specs.KnownPages.{names};
ghost use Rattle.pl_keyed.specs.NamedUrls.{has_url, is_named, is_url};

use crate::pages::{Address, address_of, enter_url};
use pl_base::NoMemory;
use pl_nbread::{Node, Tree};
use std::alloc::Global;
use std::collections::BTreeMap;

/// The URLs that a tree names, to look them up. The number beside each tells nothing.
#[derive(Drop)]
pub struct Named {
    urls: BTreeMap<Address, u64>,
}

impl Named {
    /// Those of a tree.
    pub fn of(alloc: Global, tree: &Tree) -> Result<Named, NoMemory>
        ensures named { IfOk result (λ named. (url : List ℕ)
            → names named url ≡ is_named tree.now url) }
    {
        let mut named = Named {
            urls: BTreeMap::new(alloc),
        };
        named.add_list(alloc, tree.menu.as_slice())?;
        named.add_list(alloc, tree.toolbar.as_slice())?;
        named.add_list(alloc, tree.unfiled.as_slice())?;
        named.add_list(alloc, tree.mobile.as_slice())?;
        Ok(named)
    }

    // The URLs of a list.
    fn add_list(&mut self, alloc: Global, nodes: &[Node]) -> Result<(), NoMemory>
        ensures named { OnOk result ((url : List ℕ)
            → names self.new url ≡ (names self.old url || has_url nodes.now url)) }
    {
        for node in nodes {
            self.add(alloc, node)?;
        }
        Ok(())
    }

    // The URL of a node, if it has one.
    fn add(&mut self, alloc: Global, node: &Node) -> Result<(), NoMemory>
        ensures named { OnOk result ((url : List ℕ)
            → names self.new url ≡ (names self.old url || is_url url node.now.url)) }
    {
        match &node.url {
            Some(url) => {
                enter_url(&mut self.urls, alloc, url.text(), 0)?;
                Ok(())
            }
            None => Ok(()),
        }
    }

    /// The tree names the URL.
    pub fn has(&self, alloc: Global, url: &str) -> Result<bool, NoMemory>
        ensures has { IfOk result (λ has. has ≡ names self.now url.now) }
    {
        let address = address_of(alloc, url)?;
        Ok(self.urls.contains_key(&address))
    }
}
