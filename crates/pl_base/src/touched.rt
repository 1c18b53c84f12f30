ghost use Rattle.std.specs.Prelude.{◌≡◌, ◌<◌, [], ◌∷◌, ◌++◌, length};
ghost use Rattle.std.specs.Prelude.{slice_index, OnOk, OnErr, true};
ghost use Rattle.std.specs.List.{slice_index_or};
ghost use Rattle.pl_base.specs.Touched.{ascends_above, page_images, page_numbers};
ghost use Rattle.pl_base.specs.Touched.{page_size, with_one_more, AreImages};

use crate::NoMemory;
use std::alloc::Global;
use std::marker::Model;

/// The bytes of a page.
pub const PAGE_SIZE: usize = 1024;

/// The pages of a store that a change touched, by ascending number, with what they are to
/// hold, and the store's lengths in pages before and after the change. Page 0, the
/// gate's, is never among them.
#[derive(Debug, Drop)]
pub struct Touched {
    before: u32,
    after: u32,
    pages: Vec<PageImage>,
}

impl Model for Touched {
    ghost use Rattle.std.specs.Prelude.{◌≡◌, true};
    ghost use Rattle.pl_base.specs.Touched.{Change, ascends_above, page_numbers, AreImages};

    ghost Value = { Change };

    ghost view = { λ t. record { before = t.before; after = t.after; pages = t.pages.items } };

    ghost invariant = { λ t. (ascends_above 0 (page_numbers t.pages.items) ≡ true)
        × AreImages t.pages.items };
}

impl Touched {
    /// No page, and these lengths.
    pub fn empty(alloc: Global, before: u32, after: u32) -> Self
        ensures { result ≡ record { before = before; after = after; pages = [] } }
    {
        Touched {
            before,
            after,
            pages: Vec::new(alloc),
        }
    }

    /// Adds a page at the end: its number is above the last one, and its image has 1,024 bytes.
    /// After an `Err` nothing has changed.
    pub fn push(&mut self, page: u32, image: &[u8]) -> Result<(), NoMemory>
        requires above { ascends_above 0 (page_numbers self.old.pages ++ page ∷ []) ≡ true }
        requires whole { length image.now ≡ page_size }
        ensures ok { OnOk result (self.new ≡ with_one_more page image.now self.old) }
        ensures err { OnErr result (self.new ≡ self.old) }
    {
        let image = Vec::from_slice(*self.pages.allocator(), image)?;
        self.pages.push(PageImage { page, image })?;
        Ok(())
    }

    /// How many pages there are.
    pub fn count(&self) -> usize
        ensures count { result ≡ length self.now.pages }
        ensures ascending { ascends_above 0 (page_numbers self.now.pages) ≡ true }
        ensures whole { AreImages self.now.pages }
    {
        self.pages.len()
    }

    /// The store's length in pages before the change.
    pub fn before(&self) -> u32
        ensures { result ≡ self.now.before }
    {
        self.before
    }

    /// The store's length in pages after the change.
    pub fn after(&self) -> u32
        ensures { result ≡ self.now.after }
    {
        self.after
    }

    /// The number of a page, by its place in the list.
    pub fn page(&self, index: usize) -> u32
        requires { index < length self.now.pages }
        ensures { result ≡ slice_index (page_numbers self.now.pages) index }
    {
        self.pages[index].page
    }

    /// What a page is to hold, by its place in the list.
    pub fn image(&self, index: usize) -> &[u8]
        requires { index < length self.now.pages }
        ensures image { result.now ≡ slice_index_or (page_images self.now.pages) index [] }
        ensures whole { length result.now ≡ page_size }
    {
        &self.pages[index].image
    }
}

/// A page's number, and what it is to hold.
#[derive(Debug, Drop)]
struct PageImage {
    page: u32,
    image: Vec<u8>,
}

impl Model for PageImage {
    ghost use Rattle.pl_base.specs.Touched as spec;

    ghost Value = { spec.PageImage };

    ghost view = { λ p. record { page = p.page; image = p.image.items } };
}
