// A file by hand with bookmarks and tags: what `page` tells of them, and what they count in a
// frecency.
use pl_base::NoMemory;
use pl_desk::{MemDesk, MemSource};
use places::Status;
use std::alloc::Global;
use std::test::Fail;
use trials_desks::in_memory;

// The form's name, 6 pages, day 0, the next ids, the first free slot, the ends of the chains of
// origins, pages, visits and items, and 27 live slots.
const HEADER: &[u8; 68] = b"\
    PLSTORE1\x06\0\0\0\0\0\0\0\x04\0\0\0\x02\0\0\0\x0e\0\0\0\x1c\0\0\0\x01\0\0\0\
    \x03\0\0\0\x04\0\0\0\x06\0\0\0\x07\0\0\0\x07\0\0\0\x08\0\0\0\x14\0\0\0\x1b\0\0\0";

// What the slots hold, but for the zeros behind it. The first page was visited and has a bookmark
// and two tags, the second has a tag alone, and the third, which was typed once, a bookmark.
const SLOTS: &[&[u8]] = &[
    // The origins of the pages, each with its total.
    b"\x01\0\0\0\0\0\0\0\x02\0\0\0\x04\0\0\0\x04\0\0\0\0\0\0\0\xaf",
    b"\x01\0\0\0\x01\0\0\0\x03\0\0\0\x05\0\0\0\x05\0\0\0\0\0\0\0\x8c",
    b"\x01\0\0\0\x02\0\0\0\0\0\0\0\x06\0\0\0\x06\0\0\0\0\0\0\0T\x01",
    // The pages.
    b"\
        \x02\0\0\0\0\0\0\0\x05\0\0\0\x01\0\0\0\x01\0\0\0\0\0\0\0\0\0\0\0\x07\0\0\0\x07\0\0\0\
        \x0e\0\0\0\x14\0\0\0\x15\0\0\0\x12\0\0\0\0\0\0\0\0\0\0\0\0\0\0\0\xaf\0\0\0\0\0\0\0\
        \x01",
    b"\
        \x02\0\0\0\x04\0\0\0\x06\0\0\0\x02\0\0\0\x02\0\0\0\0\0\0\0\0\0\0\0\0\0\0\0\0\0\0\0\
        \x13\0\0\0\x13\0\0\0\x16\0\0\0\x12\0\0\0\0\0\0\0\0\0\0\0\0\0\0\0\x8c",
    b"\
        \x02\x01\0\0\x05\0\0\0\0\0\0\0\x03\0\0\0\x03\0\0\0\0\0\0\0\0\0\0\0\0\0\0\0\0\0\0\0\
        \x0f\0\0\0\x0f\0\0\0\x17\0\0\0\x12\0\0\0\0\0\0\0\0\0\0\0\0\0\0\0T\x01",
    // A link to the first page.
    b"\x03\x01\0\0\0\0\0\0\0\0\0\0\x01\0\0\0\x04",
    // The roots: items 7 and 8 are in the menu, and the tags are items 10 and 9.
    b"\x04\x02\0\0\0\0\0\0\x09\0\0\0\x01\0\0\0\0\0\0\0\0\0\0\0\0\0\0\0\x09\0\0\0\x0d",
    b"\x04\x02\0\0\x08\0\0\0\x0a\0\0\0\x02\0\0\0\x08\0\0\0\0\0\0\0\x0a\0\0\0\x0e\0\0\0\x0f",
    b"\x04\x02\0\0\x09\0\0\0\x0b\0\0\0\x03\0\0\0\x08\0\0\0\x09\0\0\0\x0b",
    b"\
        \x04\x02\0\0\x0a\0\0\0\x0c\0\0\0\x04\0\0\0\x08\0\0\0\x0a\0\0\0\x0c\0\0\0\x11\0\0\0\
        \x10",
    b"\x04\x02\0\0\x0b\0\0\0\x0d\0\0\0\x05\0\0\0\x08\0\0\0\x0b\0\0\0\x0d",
    b"\x04\x02\0\0\x0c\0\0\0\x0e\0\0\0\x06\0\0\0\x08\0\0\0\x0c",
    // A bookmark of the first page and one of the third.
    b"\
        \x04\x01\0\0\x0d\0\0\0\x0f\0\0\0\x07\0\0\0\x09\0\0\0\0\0\0\0\x0f\0\0\0\0\0\0\0\
        \0\0\0\0\x04\0\0\0\0\0\0\0\x12\0\0\0\x18\0\0\0\x01",
    b"\
        \x04\x01\0\0\x0e\0\0\0\x10\0\0\0\x08\0\0\0\x09\0\0\0\x0e\0\0\0\0\0\0\0\0\0\0\0\
        \0\0\0\0\x06\0\0\0\0\0\0\0\0\0\0\0\x19\0\0\0\x01",
    // `Red` with an entry of the first page and one of the second, `blue` with one of the first.
    b"\
        \x04\x02\0\0\x0f\0\0\0\x11\0\0\0\x09\0\0\0\x0b\0\0\0\x11\0\0\0\0\0\0\0\x12\0\0\0\
        \x13\0\0\0\0\0\0\0\0\0\0\0\0\0\0\0\x1a\0\0\0\x03",
    b"\
        \x04\x02\0\0\x10\0\0\0\x12\0\0\0\x0a\0\0\0\x0b\0\0\0\0\0\0\0\x10\0\0\0\x14\0\0\0\
        \x14\0\0\0\0\0\0\0\0\0\0\0\0\0\0\0\x1b\0\0\0\x04",
    b"\
        \x04\x01\0\0\x11\0\0\0\x13\0\0\0\x0b\0\0\0\x10\0\0\0\0\0\0\0\x13\0\0\0\0\0\0\0\
        \0\0\0\0\x04\0\0\0\x0e\0\0\0\x14",
    b"\
        \x04\x01\0\0\x12\0\0\0\x14\0\0\0\x0c\0\0\0\x10\0\0\0\x12\0\0\0\0\0\0\0\0\0\0\0\
        \0\0\0\0\x05",
    b"\
        \x04\x01\0\0\x13\0\0\0\0\0\0\0\x0d\0\0\0\x11\0\0\0\0\0\0\0\0\0\0\0\0\0\0\0\0\0\0\0\
        \x04\0\0\0\x12",
    // The URLs, and the titles of items 7 to 10.
    b"\x05\x12\0\0\0\0\0\0https://a.example/",
    b"\x05\x12\0\0\0\0\0\0https://b.example/",
    b"\x05\x12\0\0\0\0\0\0https://c.example/",
    b"\x05\x01\0\0\0\0\0\0A",
    b"\x05\x01\0\0\0\0\0\0C",
    b"\x05\x03\0\0\0\0\0\0Red",
    b"\x05\x04\0\0\0\0\0\0blue",
    // Five free slots.
    b"\0\0\0\0\x1d",
    b"\0\0\0\0\x1e",
    b"\0\0\0\0\x1f",
    b"\0\0\0\0\x20",
    b"",
];

fn file(alloc: Global) -> Result<Vec<u8>, Fail> {
    let mut bytes = Vec::new(alloc);
    bytes.resize(1024, 0)?;
    bytes.extend_from_slice(HEADER)?;
    bytes.resize(2048, 0)?;
    for slot in SLOTS {
        let end = bytes.len() + 128;
        bytes.extend_from_slice(slot)?;
        bytes.resize(end, 0)?;
    }
    Ok(bytes)
}

const ASKED: &[u8] = b"page\thttps://a.example/\n\
    page\thttps://b.example/\n\
    page\thttps://c.example/\n";

const TOLD: &[u8] = b"page\t1\t175\t1\t0\t0\t0\t1\thttps://a.example/\t\tblue,Red\n\
    page\t2\t140\t0\t-\t0\t0\t0\thttps://b.example/\t\tRed\n\
    page\t3\t340\t0\t-\t1\t0\t1\thttps://c.example/\t\t\n";

// Typed visits of the first page and of the third, and a link to the second. 75 is added to the
// bonus of each.
const VISITED: &[u8] = b"visit\thttps://a.example/\t2\t1\n\
    visit\thttps://b.example/\t1\t2\n\
    visit\thttps://c.example/\t2\t3\n\
    page\thttps://c.example/\n";

const COUNTED: &[u8] = b"visit\t2\tpage\t1\tfrecency\t2250\n\
    visit\t3\tpage\t2\tfrecency\t175\n\
    visit\t4\tpage\t3\tfrecency\t2075\n\
    page\t3\t2075\t1\t3\t1\t0\t1\thttps://c.example/\t\t\n";

// How a run of the script on the desk ends.
fn run_on(alloc: Global, script: &[u8], desk: &mut MemDesk) -> Status {
    match MemSource::over(alloc, script, 64, &[]) {
        Ok(mut input) => in_memory(alloc, &["run", "s"], &mut input, desk),
        Err(NoMemory) => Status::NoMemory,
    }
}

#[test]
fn tells_bookmarks_and_tags(rt: HostRuntime) -> Result<(), Fail> {
    let alloc = rt.alloc();
    let bytes = file(alloc)?;
    let mut desk = MemDesk::holding(alloc, &bytes, &[])?;
    let status = run_on(alloc, ASKED, &mut desk);
    assert_eq!(rt; status, Status::Done);
    assert_eq!(rt; desk.said(), TOLD);
    assert_eq!(rt; desk.bytes(), bytes.as_slice());
    Ok(())
}

#[test]
fn counts_bookmarks_and_tags(rt: HostRuntime) -> Result<(), Fail> {
    let alloc = rt.alloc();
    let bytes = file(alloc)?;
    let mut desk = MemDesk::holding(alloc, &bytes, &[])?;
    let status = run_on(alloc, VISITED, &mut desk);
    assert_eq!(rt; status, Status::Done);
    assert_eq!(rt; desk.said(), COUNTED);
    let mut again = MemDesk::holding(alloc, desk.bytes(), &[])?;
    let status = run_on(alloc, b"page\thttps://b.example/\n", &mut again);
    assert_eq!(rt; status, Status::Done);
    assert_eq!(rt;
        again.said(),
        b"page\t2\t175\t1\t2\t0\t0\t0\thttps://b.example/\t\tRed\n".as_slice()
    );
    Ok(())
}

// What is tagged stays as it is, and can be listed; the last bookmark of a page that was typed goes
// with it, and one of a page that has tags does not.
const CHANGED: &[u8] = b"list\t4\nlist\t9\n\
    retitle\t9\tBlue\t0\n\
    retitle\t11\tA\t0\n\
    remove\t10\n\
    remove\t13\n\
    move\t12\t2\tend\t0\n\
    move\t9\t2\tend\t0\n\
    move\t7\t9\tend\t0\n\
    folder\t9\t9\tF\t0\n\
    bookmark\t10\tend\thttps://c.example/\tC\t0\n\
    separator\t11\tend\t0\n\
    remove\t8\n\
    page\thttps://c.example/\n\
    remove\t7\n\
    page\thttps://a.example/\n";

const ANSWERED: &[u8] = b"rows\t2\nfolder\t10\tblue\t\nfolder\t9\tRed\t\n\
    rows\t2\nbookmark\t11\t\thttps://a.example/\nbookmark\t12\t\thttps://b.example/\n\
    refused\t7\t9\n\
    refused\t7\t11\n\
    refused\t7\t10\n\
    refused\t7\t13\n\
    refused\t7\t12\n\
    refused\t7\t9\n\
    refused\t7\t9\n\
    refused\t7\t9\n\
    refused\t7\t10\n\
    refused\t6\t11\n\
    ok\n\
    refused\t4\n\
    ok\n\
    page\t1\t175\t1\t0\t0\t0\t0\thttps://a.example/\t\tblue,Red\n";

#[test]
fn keeps_tags_as_they_are(rt: HostRuntime) -> Result<(), Fail> {
    let alloc = rt.alloc();
    let bytes = file(alloc)?;
    let mut desk = MemDesk::holding(alloc, &bytes, &[])?;
    let status = run_on(alloc, CHANGED, &mut desk);
    assert_eq!(rt; status, Status::Done);
    assert_eq!(rt; desk.said(), ANSWERED);
    let mut again = MemDesk::holding(alloc, desk.bytes(), &[])?;
    let status = run_on(alloc, b"page\thttps://c.example/\nlist\t2\n", &mut again);
    assert_eq!(rt; status, Status::Done);
    assert_eq!(rt; again.said(), b"refused\t4\nrows\t0\n".as_slice());
    Ok(())
}
