// Which bytes of a file are those of its store.
ghost use Rattle.std.specs.Prelude.{◌≡◌, ◌++◌, ◌*◌, ◌≤◌, drop, length, replicate, take, IfOk};
ghost use Rattle.std.specs.Prelude.{IfSome, IsErrOf, None, true, false};
ghost use Rattle.pl_base.specs.Touched.{behind_gate, bytes_before, page_size};
ghost use Rattle.pl_reading.specs.File as spec;
ghost use Rattle.pl_slot.specs.Header.{header_in};

use pl_base::{CheckError, PAGE_SIZE};
use pl_sheets::Sheets;
use pl_slot::Arena;

// The text at the beginning of the header.
const FORM_NAME: &[u8; 8] = b"PLSTORE1";

// The byte of the header at which the length in pages stands, and the one behind its fields.
const LENGTH: usize = 8;

const FIELDS_END: usize = 68;

// No store has more pages, with the gate's and the header's.
const MOST_PAGES: u32 = 524_290;

/// The slots of the store in a file, which takes the bytes over. Page 0 and what lies behind the
/// store's pages are not looked at. `NotAStore` comes exactly where the header is none of this
/// form, the file has fewer pages than it says, a slot holds no row, or the free slots are in no
/// chain.
pub fn arena_in(bytes: Vec<u8>) -> Result<Arena, CheckError>
    ensures arena { IfOk result (λ arena. arena ≡ spec.stored_pages bytes.items) }
    ensures named { IfOk result (λ arena. spec.HasSlots bytes.items) }
    ensures none { IsErrOf result CheckError.NotAStore → spec.HasSlots bytes.items → ⊥ }
{
    let Some(pages) = whole_pages(&bytes) else {
        return Err(CheckError::NotAStore);
    };
    let sheets = Sheets::from_bytes(stored_bytes(bytes, pages))?;
    Arena::over(sheets)
}

// How many pages the store has by its header, if the file has so many.
fn whole_pages(bytes: &[u8]) -> Option<u32>
    ensures some { IfSome result (λ pages. pages ≡ (spec.file_header bytes.now).pages) }
    ensures named { IfSome result (λ pages. spec.IsNamed (spec.file_header bytes.now)) }
    ensures whole { IfSome result (λ pages. page_size * pages ≤ length bytes.now) }
    ensures none { result ≡ None → spec.HasSlots bytes.now → ⊥ }
{
    if bytes.len() < 2 * PAGE_SIZE {
        return None;
    }
    let pages = named_pages(&bytes[PAGE_SIZE..2 * PAGE_SIZE])?;
    if bytes.len() < PAGE_SIZE * pages as usize {
        return None;
    }
    Some(pages)
}

/// How many pages a store has, with the gate's and the header's, as its header page tells. `None`
/// comes where the page is no header of a store.
pub fn named_pages(header: &[u8]) -> Option<u32>
    requires { length header.now ≡ page_size }
    ensures some { IfSome result (λ pages. pages ≡ (header_in header.now).pages) }
    ensures named { IfSome result (λ pages. spec.IsNamed (header_in header.now)) }
    ensures none { result ≡ None → spec.IsNamed (header_in header.now) → ⊥ }
{
    if &header[..FORM_NAME.len()] != FORM_NAME.as_slice() || !is_blank(&header[FIELDS_END..]) {
        return None;
    }
    let pages = length_in(header);
    if pages < 2 || pages > MOST_PAGES {
        return None;
    }
    Some(pages)
}

// Whether all of the bytes are 0.
fn is_blank(bytes: &[u8]) -> bool
    ensures yes { result ≡ true → bytes.now ≡ replicate (length bytes.now) 0 }
    ensures no { result ≡ false → bytes.now ≡ replicate (length bytes.now) 0 → ⊥ }
{
    bytes.iter().all(|byte| *byte == 0)
}

// The length in pages that a header page has.
fn length_in(header: &[u8]) -> u32
    requires { length header.now ≡ page_size }
    ensures { result ≡ (header_in header.now).pages }
{
    let mut number = [0; 4];
    number.copy_from_slice(&header[LENGTH..LENGTH + 4]);
    u32::from_le_bytes(number)
}

// The bytes of so many pages, of which page 0 is blank.
fn stored_bytes(bytes: Vec<u8>, pages: u32) -> Vec<u8>
    requires some { 1 ≤ pages }
    requires whole { page_size * pages ≤ length bytes.items }
    ensures { result.items
        ≡ replicate page_size 0 ++ take (bytes_before pages) (behind_gate bytes.items) }
{
    let mut bytes = bytes;
    bytes.truncate(PAGE_SIZE * pages as usize);
    blank_gate(&mut bytes);
    bytes
}

// Sets the bytes of page 0 to 0.
fn blank_gate(bytes: &mut [u8])
    requires { page_size ≤ length bytes.old }
    ensures { bytes.new ≡ replicate page_size 0 ++ drop page_size bytes.old }
{
    bytes[..PAGE_SIZE].fill(0);
}
