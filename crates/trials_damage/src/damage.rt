// Files that runs leave, with bytes that are changed, and what a run over them ends in.
mod gates;
mod journals;
mod rows;

use Place::{At, Header, Slot};
use pl_base::PAGE_SIZE;
use pl_desk::MemDesk;
use places::Status;
use std::alloc::{AllocError, Global};
use std::process::Abort;
use std::test::Fail;
use trials_desks::{done, new_store, run_on};

// A typed visit, a redirect from it, and what is said of the first page then. Items 1 to 6 stand in
// the slots 1 to 6; the origin of page 1, its URL, the page and visit 1 in 7 to 10; those of page 2
// and visit 2 in 11 to 14. Slots 15 and 16 are free.
//
// Page 0 says that the journal of the last commit begins at 4,096, with the pages 1, 2 and 3. Its
// entries begin there, at 5,128 and at 6,160, and the file ends at 7,192.
const SHORT: &[u8] = b"visit\thttps://a.example/\t2\t0\n\
    visit\thttps://b.example/\t5\t1\t1\n";

const OF_SHORT: &[u8] = b"page\t1\t25\t1\t0\t1\t1\t0\thttps://a.example/\t\t\n";

// And more behind it: visit 3, to page 1, in slot 15; the URL of page 3, the page and visit 4 in 16
// to 18; the origin of page 4, its URL, the page and visit 5 in 19 to 22; the name of the tag, its
// folder and its entry, items 7 and 8, in 23 to 25; the title of item 9 and the item in 26 and 27.
// Slots 28 to 32 are free. The store has the pages 0 to 5.
const MORE: &[u8] = b"visit\thttps://a.example/\t1\t2\n\
    visit\thttps://a.example/x\t1\t3\n\
    visit\thttps://c.example/y\t1\t4\n\
    tag\thttps://a.example/\tRed\t0\n\
    folder\t2\tend\tF\t0\n";

const OF_MORE: &[u8] = b"page\t1\t275\t2\t2\t1\t0\t0\thttps://a.example/\t\tRed\n";

const ASK: &[u8] = b"page\thttps://a.example/\n";

// A byte of the file, one of the header, or one of a slot.
#[derive(Clone, Copy)]
enum Place {
    At(usize),
    Header(u8),
    Slot(u8, u8),
}

impl Place {
    // Where it stands in the file: the header on page 1, and eight slots a page from page 2 on.
    fn byte(self) -> usize {
        match self {
            At(at) => at,
            Header(at) => PAGE_SIZE + usize::from(at),
            Slot(slot, at) => 2 * PAGE_SIZE - 128 + 128 * usize::from(slot) + usize::from(at),
        }
    }
}

type Change = (Place, u8);

// The file behind the first lines, and behind all of them.
fn short_file(alloc: Global) -> Result<MemDesk, Fail> {
    let new = new_store(alloc, &[])?;
    done(alloc, &new, &["run", "s"], SHORT)
}

fn longer_file(alloc: Global) -> Result<MemDesk, Fail> {
    let short = short_file(alloc)?;
    done(alloc, &short, &["run", "s"], MORE)
}

// The bytes with these changes.
fn changed(alloc: Global, file: &[u8], changes: &[Change]) -> Result<Vec<u8>, AllocError> {
    let mut bytes = file.to_vec(alloc)?;
    for (place, to) in changes {
        if let Some(byte) = bytes.get_mut(place.byte()) {
            *byte = *to;
        }
    }
    Ok(bytes)
}

// A run that asks for the first page ends so, says this, and leaves these bytes.
fn expect_run(
    rt: &impl Abort,
    alloc: Global,
    what: &str,
    file: &[u8],
    ends: Status,
    said: &[u8],
    left: &[u8],
) -> Result<(), Fail> {
    let mut desk = MemDesk::holding(alloc, file, &[])?;
    let status = run_on(alloc, &["run", "s"], ASK, &mut desk);
    assert_eq!(rt; status, ends, "{what}");
    assert_eq!(rt; desk.said(), said, "{what}");
    assert!(rt; desk.bytes() == left, "{what}: another file");
    Ok(())
}

// The file is refused, and left as it was.
fn expect_refused(rt: &impl Abort, alloc: Global, what: &str, file: &[u8]) -> Result<(), Fail> {
    expect_run(rt, alloc, what, file, Status::NotAStore, b"", file)
}

// The file is opened, and left as it was.
fn expect_opened(
    rt: &impl Abort,
    alloc: Global,
    what: &str,
    file: &[u8],
    said: &[u8],
) -> Result<(), Fail> {
    expect_run(rt, alloc, what, file, Status::Done, said, file)
}
