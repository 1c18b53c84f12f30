// What an import refuses, and what it leaves then: nothing was said, and the file is as it was.
use crate::desks::goes_on;
use pl_base::Refusal;
use pl_desk::MemDesk;
use places::Status;
use std::alloc::Global;
use std::process::Abort;
use std::test::Fail;
use trials_desks::{WORKED, copied, done, new_store, run_on, said_text};

const IMPORT: &[&str] = &["import", "s"];

fn expect_refused(
    rt: &impl Abort,
    alloc: Global,
    desk: &MemDesk,
    bytes: &[u8],
    ends: Status,
) -> Result<(), Fail> {
    let mut next = copied(alloc, desk, &[])?;
    let status = run_on(alloc, IMPORT, bytes, &mut next);
    assert_eq!(rt; status, ends);
    assert_eq!(rt; next.said(), b"".as_slice());
    assert_eq!(rt; next.bytes(), desk.bytes());
    Ok(())
}

// Bytes, and the offset at which they are refused.
const NO_BOOKMARKS: &[(&[u8], u64)] = &[
    (b"<HTML>", 0),
    (b"", 0),
    (b" \n", 2),
    (b"<!DOCTYPE NETSCAPE-Bookmark-file-1>\xff", 35),
];

#[test]
fn refuses_what_holds_no_bookmarks(rt: HostRuntime) -> Result<(), Fail> {
    let alloc = rt.alloc();
    let desk = new_store(alloc, &[])?;
    for (bytes, at) in NO_BOOKMARKS {
        expect_refused(&rt, alloc, &desk, bytes, Status::NotBookmarks(*at))?;
    }
    Ok(())
}

// The worked file begins with a doctype of so many bytes.
const DOCTYPE_LEN: usize = 35;

// A front without its whole doctype is refused, and each longer one is imported.
#[test]
fn takes_each_front_that_has_the_doctype(rt: HostRuntime) -> Result<(), Fail> {
    let alloc = rt.alloc();
    let desk = new_store(alloc, &[])?;
    let file = WORKED.as_bytes();
    for (len, _) in file.iter().enumerate() {
        let front = &file[..len];
        if len < DOCTYPE_LEN {
            expect_refused(&rt, alloc, &desk, front, Status::NotBookmarks(0))?;
        } else {
            let next = done(alloc, &desk, IMPORT, front)?;
            assert!(rt;
                said_text(&next).starts_with("imported\titems\t"),
                "{len} bytes"
            );
        }
    }
    Ok(())
}

// One blank fewer is read, and then holds no bookmarks.
#[test]
fn refuses_long_files(rt: HostRuntime) -> Result<(), Fail> {
    let alloc = rt.alloc();
    let desk = new_store(alloc, &[])?;
    let blanks = " ".repeat(alloc, 16_777_216)?;
    let bytes = blanks.as_bytes();
    expect_refused(&rt, alloc, &desk, bytes, Status::TooLong(16_777_216))?;
    expect_refused(
        &rt,
        alloc,
        &desk,
        &bytes[1..],
        Status::NotBookmarks(16_777_215),
    )
}

fn folders(alloc: Global, count: usize) -> Result<String, Fail> {
    let body = "<H3>a".repeat(alloc, count)?;
    Ok(format!(in alloc; "<!DOCTYPE NETSCAPE-Bookmark-file-1>{body}")?)
}

#[test]
fn refuses_more_rows_than_fifty_thousand(rt: HostRuntime) -> Result<(), Fail> {
    let alloc = rt.alloc();
    let desk = new_store(alloc, &[])?;
    let text = folders(alloc, 50_001)?;
    let ends = Status::ImportRefused(Refusal::TooMany(50_001));
    assert_eq!(rt; ends.number(), 11);
    assert_eq!(rt; ends.value(), Some(19));
    expect_refused(&rt, alloc, &desk, text.as_bytes(), ends)
}

#[test]
fn takes_fifty_thousand_rows(rt: HostRuntime) -> Result<(), Fail> {
    let alloc = rt.alloc();
    let desk = new_store(alloc, &[])?;
    let text = folders(alloc, 50_000)?;
    let said = b"imported\titems\t50000\ttags\t0\tskipped\t0\n";
    let next = goes_on(&rt, alloc, &desk, IMPORT, text.as_bytes(), said)?;
    let told = b"stats\tpages\t0\tvisits\t0\titems\t50006\torigins\t0\tsum\t0\tslots\t100006\n";
    goes_on(&rt, alloc, &next, &["run", "s"], b"stats\n", told)?;
    Ok(())
}

// Words that are none, and files that are no stores.
const OTHERS: &[(&[&str], &[u8], Status)] = &[
    (&["import"], b"", Status::Usage),
    (&["import", "s", "t"], b"", Status::Usage),
    (&["import", "s"], b"", Status::NotAStore),
    (&["import", "s"], &[0; 4096], Status::NotAStore),
];

#[test]
fn refuses_other_words_and_files(rt: HostRuntime) -> Result<(), Fail> {
    let alloc = rt.alloc();
    for (words, bytes, ends) in OTHERS {
        let mut desk = MemDesk::holding(alloc, bytes, &[])?;
        let status = run_on(alloc, words, b"", &mut desk);
        assert_eq!(rt; status, *ends);
        assert_eq!(rt; desk.bytes(), *bytes);
        assert_eq!(rt; desk.said(), b"".as_slice());
    }
    Ok(())
}
