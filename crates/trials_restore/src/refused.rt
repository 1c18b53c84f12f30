// What a restore refuses, and what it leaves then: nothing was said, and the file is as it was.
use crate::desks::{BACKUP, RESTORE, first_store};
use pl_base::Refusal;
use pl_desk::MemDesk;
use places::Status;
use std::alloc::Global;
use std::process::Abort;
use std::test::Fail;
use trials_desks::{copied, run_on};

// How a run of these words on the store ends, which leaves it as it was.
fn refused(
    rt: &impl Abort,
    alloc: Global,
    desk: &MemDesk,
    words: &[&str],
    bytes: &[u8],
) -> Result<Status, Fail> {
    let mut next = copied(alloc, desk, &[])?;
    let status = run_on(alloc, words, bytes, &mut next);
    assert_eq!(rt; next.said(), b"".as_slice());
    assert_eq!(rt; next.bytes(), desk.bytes());
    Ok(status)
}

// Bytes, and the value that the status tells of them.
const NO_BACKUPS: &[(&[u8], u64)] = &[
    (b"", 1),
    (b"{", 1),
    (b"\xff", 1),
    (b"{\"children\":[]} x", 1),
    (b"{\"children\":1e999}", 1),
    (b"<!DOCTYPE NETSCAPE-Bookmark-file-1>", 1),
    (b"[1]", 2),
    (b"null", 2),
    (b"{}", 2),
    (b"{\"children\":{}}", 2),
    (b"{\"children\":[],\"children\":0}", 2),
];

#[test]
fn refuses_what_is_no_backup(rt: HostRuntime) -> Result<(), Fail> {
    let alloc = rt.alloc();
    let desk = first_store(&rt, alloc)?;
    for (bytes, value) in NO_BACKUPS {
        let status = refused(&rt, alloc, &desk, RESTORE, bytes)?;
        assert_eq!(rt; status.number(), 13);
        assert_eq!(rt; status.value(), Some(*value));
    }
    Ok(())
}

// A backup is no bookmark file.
#[test]
fn an_import_takes_no_backup(rt: HostRuntime) -> Result<(), Fail> {
    let alloc = rt.alloc();
    let desk = first_store(&rt, alloc)?;
    let status = refused(&rt, alloc, &desk, &["import", "s"], BACKUP.as_bytes())?;
    assert_eq!(rt; status, Status::NotBookmarks(0));
    Ok(())
}

// One letter fewer is read, and then is no JSON.
#[test]
fn refuses_long_backups(rt: HostRuntime) -> Result<(), Fail> {
    let alloc = rt.alloc();
    let desk = first_store(&rt, alloc)?;
    let letters = "x".repeat(alloc, 16_777_216)?;
    let bytes = letters.as_bytes();
    let status = refused(&rt, alloc, &desk, RESTORE, bytes)?;
    assert_eq!(rt; status, Status::TooLong(16_777_216));
    let status = refused(&rt, alloc, &desk, RESTORE, &bytes[1..])?;
    assert_eq!(rt; status.number(), 13);
    assert_eq!(rt; status.value(), Some(1));
    Ok(())
}

#[test]
fn refuses_more_rows_than_fifty_thousand(rt: HostRuntime) -> Result<(), Fail> {
    let alloc = rt.alloc();
    let desk = first_store(&rt, alloc)?;
    let rows = ",{\"typeCode\":3}".repeat(alloc, 50_000)?;
    let text = format!(in alloc;
        "{{\"children\":[{{\"root\":\"mobileFolder\",\"children\":[{{\"typeCode\":3}}{rows}]}}]}}"
    )?;
    let status = refused(&rt, alloc, &desk, RESTORE, text.as_str().as_bytes())?;
    assert_eq!(rt; status, Status::ImportRefused(Refusal::TooMany(50_001)));
    Ok(())
}

// Words that are none, and files that are no stores.
const OTHERS: &[(&[&str], &[u8], Status)] = &[
    (&["restore"], b"", Status::Usage),
    (&["restore", "s", "t"], b"", Status::Usage),
    (&["Restore", "s"], b"", Status::Usage),
    (&["restore", "s"], b"", Status::NotAStore),
    (&["restore", "s"], &[0; 4096], Status::NotAStore),
];

#[test]
fn refuses_other_words_and_files(rt: HostRuntime) -> Result<(), Fail> {
    let alloc = rt.alloc();
    for (words, bytes, ends) in OTHERS {
        let desk = MemDesk::holding(alloc, bytes, &[])?;
        assert_eq!(rt;
            refused(&rt, alloc, &desk, words, BACKUP.as_bytes())?,
            *ends
        );
    }
    Ok(())
}
