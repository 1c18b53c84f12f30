// A gate that is set, over a journal that is installed, or that breaks the format.
use super::*;

// The journal of the last commit of the file behind the first lines, with these changes.
const BROKEN: &[(&str, &[Change])] = &[
    ("entries out of order", &[(At(4_096), 2), (At(5_128), 1)]),
    ("a page twice", &[(At(5_128), 1)]),
    ("page 0", &[(At(4_096), 0)]),
    ("a page at the store's end", &[(At(6_160), 4)]),
    ("a page behind the end of the file", &[(At(6_161), 1)]),
    ("a page of a number that none has", &[(At(6_164), 1)]),
    ("an entry more than the file has", &[(At(16), 4)]),
    ("a last entry that ends behind it", &[(At(8), 1)]),
    ("a journal behind it", &[(At(9), 29)]),
    ("a journal within the store's pages", &[(At(9), 12)]),
    ("a store that reaches into the journal", &[(At(20), 5)]),
    ("a store without its last page", &[(At(20), 3)]),
    ("a store without a page", &[(At(20), 0)]),
];

// While the gate is not set the same journal is nothing.
#[test]
fn a_broken_journal_is_refused(rt: HostRuntime) -> Result<(), Fail> {
    let alloc = rt.alloc();
    let short = short_file(alloc)?;
    for (what, changes) in BROKEN {
        let free = changed(alloc, short.bytes(), changes)?;
        expect_opened(&rt, alloc, what, &free, OF_SHORT)?;
        let set = changed(alloc, &free, &[(At(0), 1)])?;
        expect_refused(&rt, alloc, what, &set)?;
    }
    Ok(())
}

// Bytes of its images, the same bytes in their places, and how a run ends that installs it.
const CHANGED: &[(&str, &[Change], &[Change], Status, &[u8])] = &[
    ("the last commit", &[], &[], Status::Done, OF_SHORT),
    (
        "another day",
        &[(At(4_116), 1)],
        &[(Header(12), 1)],
        Status::Done,
        OF_SHORT,
    ),
    (
        "a live slot more",
        &[(At(4_168), 15)],
        &[(Header(64), 15)],
        Status::NotAStore,
        b"",
    ),
    (
        "a frecency that is one more",
        &[(At(6_232), 26)],
        &[(Slot(9, 64), 26)],
        Status::NotAStore,
        b"",
    ),
];

#[test]
fn a_changed_journal_is_installed(rt: HostRuntime) -> Result<(), Fail> {
    let alloc = rt.alloc();
    let short = short_file(alloc)?;
    for (what, images, pages, ends, said) in CHANGED {
        let free = changed(alloc, short.bytes(), images)?;
        let set = changed(alloc, &free, &[(At(0), 1)])?;
        let left = changed(alloc, &free, pages)?;
        expect_run(&rt, alloc, what, &set, *ends, said, &left)?;
    }
    Ok(())
}

// The bytes from one page of the file on, up to another.
fn between(file: &[u8], from: u8, to: u8) -> &[u8] {
    let (start, end) = (usize::from(from) * PAGE_SIZE, usize::from(to) * PAGE_SIZE);
    file.get(start..end).unwrap_or(&[])
}

// The pages of the store behind all lines.
const PAGES: u8 = 6;

// A gate, the pages of a store, and a journal that begins behind six pages and brings the first
// ones of another store.
fn with_journal(
    alloc: Global,
    gate: u8,
    store: &[u8],
    other: &[u8],
    pages: u8,
) -> Result<Vec<u8>, AllocError> {
    let entries = pages.saturating_sub(1);
    let mut bytes = Vec::from_slice(alloc, &[gate, 0, 0, 0, 0, 0, 0, 0])?;
    bytes.extend_from_slice(b"\0\x18\0\0\0\0\0\0")?;
    bytes.extend_from_slice(&[entries, 0, 0, 0, pages, 0, 0, 0])?;
    bytes.resize(PAGE_SIZE, 7)?;
    bytes.extend_from_slice(store)?;
    bytes.resize(usize::from(PAGES) * PAGE_SIZE, 7)?;
    for page in 1..pages {
        bytes.extend_from_slice(&[page, 0, 0, 0, 0, 0, 0, 0])?;
        bytes.extend_from_slice(between(other, page, page.saturating_add(1)))?;
    }
    Ok(bytes)
}

#[test]
fn a_journal_brings_a_longer_store(rt: HostRuntime) -> Result<(), Fail> {
    let alloc = rt.alloc();
    let (short, longer) = (short_file(alloc)?, longer_file(alloc)?);
    let old = between(short.bytes(), 1, 4);
    let new = between(longer.bytes(), 1, PAGES);
    let set = with_journal(alloc, 1, old, longer.bytes(), PAGES)?;
    let left = with_journal(alloc, 0, new, longer.bytes(), PAGES)?;
    let what = "a longer store";
    expect_run(&rt, alloc, what, &set, Status::Done, OF_MORE, &left)
}

#[test]
fn a_journal_brings_a_shorter_store(rt: HostRuntime) -> Result<(), Fail> {
    let alloc = rt.alloc();
    let (short, longer) = (short_file(alloc)?, longer_file(alloc)?);
    let old = between(longer.bytes(), 1, PAGES);
    let mut new = between(short.bytes(), 1, 4).to_vec(alloc)?;
    new.extend_from_slice(between(longer.bytes(), 4, PAGES))?;
    let set = with_journal(alloc, 1, old, short.bytes(), 4)?;
    let left = with_journal(alloc, 0, &new, short.bytes(), 4)?;
    let what = "a shorter store";
    expect_run(&rt, alloc, what, &set, Status::Done, OF_SHORT, &left)
}
