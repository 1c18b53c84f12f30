ghost use Rattle.std.specs.Prelude.{◌≡◌, true, IfOk};
ghost use Rattle.pl_slot.specs.Arena.{IsLiveRow, is_live};

use pl_base::{NoMemory, PAGE_SIZE, Slot};
use pl_sheets::Sheets;
use pl_slot::{Arena, SlotRow};
use std::alloc::Global;
use std::test::Fail;

// The most pages that a test has: those of the longest store.
const MOST_PAGES: u32 = 524_290;

/// Puts a field to its place in bytes.
pub fn put(bytes: &mut [u8], at: usize, field: &[u8]) -> Result<(), Fail> {
    if at > bytes.len() || field.len() > bytes.len() - at {
        return Err(Fail::new("a field past the bytes"));
    }
    bytes[at..at + field.len()].copy_from_slice(field);
    Ok(())
}

/// The bytes of so many pages of zeros, beside a header that has their number and names the first
/// free slot.
pub fn blank(alloc: Global, pages: u32, first_free: u32) -> Result<Vec<u8>, Fail> {
    if pages < 2 || pages > MOST_PAGES {
        return Err(Fail::new("too few pages or too many"));
    }
    let mut bytes = vec![in alloc; 0; PAGE_SIZE * pages as usize]?;
    put(&mut bytes, 1032, &pages.to_le_bytes())?;
    put(&mut bytes, 1052, &first_free.to_le_bytes())?;
    Ok(bytes)
}

/// Pages with these bytes.
pub fn sheets_of(bytes: Vec<u8>) -> Result<Sheets, Fail> {
    let len = bytes.len();
    if len < PAGE_SIZE || len % PAGE_SIZE != 0 || len >= 1 << 30 {
        return Err(Fail::new("no whole pages"));
    }
    Ok(Sheets::from_bytes(bytes)?)
}

/// An arena over pages whose header has their number; none if they are no arena.
pub fn over(sheets: Sheets) -> Result<Option<Arena>, Fail> {
    let pages = sheets.pages();
    if pages < 2 || pages > MOST_PAGES || Arena::length_in(&sheets) != pages {
        return Err(Fail::new("no number of pages"));
    }
    Ok(Arena::over(sheets).ok())
}

/// The arena that these bytes make.
pub fn arena_with(bytes: Vec<u8>) -> Result<Arena, Fail> {
    match over(sheets_of(bytes)?)? {
        Some(arena) => Ok(arena),
        None => Err(Fail::new("no arena")),
    }
}

/// Takes a slot of an arena that has few pages.
pub fn take(arena: &mut Arena, row: &SlotRow) -> Result<Slot, Fail>
    requires row { IsLiveRow row.now }
    ensures live { IfOk result (λ slot. is_live slot.0 arena.new ≡ true) }
{
    if arena.pages() >= 100_000 {
        return Err(Fail::new("too many pages"));
    }
    Ok(arena.take(row)?)
}
