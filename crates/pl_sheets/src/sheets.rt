ghost use Rattle.std.specs.Prelude.{◌≡◌, ◌+◌, ◌*◌, ◌/◌, ◌%◌, ◌^◌, ◌<◌, ◌≤◌};
ghost use Rattle.std.specs.Prelude.{length, IfOk, OnErr, OnOk};
ghost use Rattle.pl_base.specs.Touched.{page_size};
ghost use Rattle.pl_sheets.specs.Sheets.{ArePages, page_count, place_in, bytes_at, unchanged};
ghost use Rattle.pl_sheets.specs.Sheets.{with_bytes, with_blank, image_of, change_of, settled};

use crate::marks::Marks;
use pl_base::{NoMemory, PAGE_SIZE, Touched};
use std::marker::Model;

/// Pages of 1,024 bytes, of which each has a number from 0 on. They know which of them have
/// changed since the last `touched`, or since they were made: those into which `put` brought
/// another byte, also where it was put back, and those of `grow`. Page 0 never changes.
#[derive(Debug, Drop)]
pub struct Sheets {
    bytes: Vec<u8>,
    // A number for each page, marked where the page has changed.
    changed: Marks,
    before: u32,
}

impl Model for Sheets {
    ghost use Rattle.pl_sheets.specs.Sheets.{ArePages, Pages};

    ghost Value = { Pages };

    ghost view = { λ s. record { bytes = s.bytes.items; changed = s.changed; before = s.before } };

    ghost invariant = { λ s.
        ArePages (record { bytes = s.bytes.items; changed = s.changed; before = s.before }) };
}

impl Sheets {
    /// The pages that these bytes make, which are not copied. None has changed. The bytes are
    /// whole pages, at least one and fewer than 4,294,967,296. `NoMemory` comes where the marks
    /// of changed pages, little more than a bit a page, find no room.
    pub fn from_bytes(bytes: Vec<u8>) -> Result<Self, NoMemory>
        requires some_page { page_size ≤ length bytes.items }
        requires whole { length bytes.items % page_size ≡ 0 }
        requires few { length bytes.items < page_size * 2 ^ 32 }
        ensures { IfOk result (λ sheets. sheets ≡ unchanged bytes.items) }
    {
        let pages = bytes.len() / PAGE_SIZE;
        let changed = Marks::new(*bytes.allocator(), pages)?;
        Ok(Sheets {
            bytes,
            changed,
            before: pages as u32,
        })
    }

    /// How many pages there are.
    pub fn pages(&self) -> u32
        ensures count { result ≡ page_count self.now }
        ensures kept { ArePages self.now }
    {
        (self.bytes.len() / PAGE_SIZE) as u32
    }

    /// Gives the bytes from a place of a page on, within that page.
    #[inline(always)]
    pub fn get(&self, page: u32, at: usize, out: &mut [u8])
        requires there { page < page_count self.now }
        requires within { at + length out.old ≤ page_size }
        ensures { out.new ≡ bytes_at (place_in page at) (length out.old) self.now.bytes }
    {
        let place = PAGE_SIZE * page as usize + at;
        out.copy_from_slice(&self.bytes[place..place + out.len()]);
    }

    /// Puts bytes into a page other than page 0, from a place on and within that page. The page
    /// has changed unless the same bytes stood there. It takes no memory.
    pub fn put(&mut self, page: u32, at: usize, bytes: &[u8])
        requires gate { 1 ≤ page }
        requires there { page < page_count self.old }
        requires within { at + length bytes.now ≤ page_size }
        ensures { self.new ≡ with_bytes page at bytes.now self.old }
    {
        let place = PAGE_SIZE * page as usize + at;
        if &self.bytes[place..place + bytes.len()] == bytes {
            return;
        }
        self.bytes[place..place + bytes.len()].copy_from_slice(bytes);
        self.changed.insert(page as usize);
    }

    /// Adds a page of zeros, which has changed, and gives its number. There are fewer than
    /// 4,294,967,295 pages before. After an `Err` nothing has changed.
    pub fn grow(&mut self) -> Result<u32, NoMemory>
        requires few { page_count self.old + 1 < 2 ^ 32 }
        ensures number { IfOk result (λ page. page ≡ page_count self.old) }
        ensures ok { OnOk result (self.new ≡ with_blank self.old) }
        ensures err { OnErr result (self.new ≡ self.old) }
    {
        let len = self.bytes.len();
        self.bytes.extend_from_slice(&[0; PAGE_SIZE])?;
        if let Err(error) = self.changed.grow() {
            self.bytes.truncate(len);
            return Err(error);
        }
        Ok((len / PAGE_SIZE) as u32)
    }

    /// The pages that have changed since the last call, by ascending number, with what they hold,
    /// and how many pages there were then and are now; at the first call since the pages were
    /// made. Thereafter none has changed. After an `Err` all is as it was.
    pub fn touched(&mut self) -> Result<Touched, NoMemory>
        ensures listed { IfOk result (λ change. change ≡ change_of self.old) }
        ensures ok { OnOk result (self.new ≡ settled self.old) }
        ensures err { OnErr result (self.new ≡ self.old) }
    {
        let change = self.listed()?;
        self.changed.clear();
        self.before = change.after();
        Ok(change)
    }

    fn listed(&self) -> Result<Touched, NoMemory>
        ensures { IfOk result (λ change. change ≡ change_of self.now) }
    {
        let mut change = Touched::empty(*self.bytes.allocator(), self.before, self.pages());
        let mut from = 0;
        while let Some(page) = self.changed.next(from) {
            change.push(page as u32, self.image(page))?;
            from = page + 1;
        }
        Ok(change)
    }

    // What a page holds.
    fn image(&self, page: usize) -> &[u8]
        requires { page < page_count self.now }
        ensures { result.now ≡ (image_of self.now page).image }
    {
        &self.bytes[PAGE_SIZE * page..PAGE_SIZE * page + PAGE_SIZE]
    }
}
