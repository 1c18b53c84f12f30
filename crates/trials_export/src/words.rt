// The words that the program knows; exports of the worked store, and of one without a bookmark.
use crate::desks::{WORKED_LINES, expect_lines, imported};
use pl_desk::MemDesk;
use places::Status;
use std::test::Fail;
use trials_desks::{WORKED, new_store, run_on};

// Words, the bytes of a file, and how a run of these words on it ends, which says nothing.
const WORDS: &[(&[&str], &[u8], Status)] = &[
    (&["new", "s"], b"x", Status::NotEmpty(1)),
    (&["run"], b"", Status::Usage),
    (&["run", "s"], b"", Status::NotAStore),
    (&["export"], b"", Status::Usage),
    (&["export", "s", "t"], b"", Status::Usage),
    (&["Export", "s"], b"", Status::Usage),
    (&["export", "s"], b"", Status::NotAStore),
    (&["export", "s"], &[0; 4096], Status::NotAStore),
];

#[test]
fn refuses_other_words_and_files(rt: HostRuntime) -> Result<(), Fail> {
    let alloc = rt.alloc();
    for (words, bytes, ends) in WORDS {
        let mut desk = MemDesk::holding(alloc, bytes, &[])?;
        let status = run_on(alloc, words, b"stats\n", &mut desk);
        assert_eq!(rt; status, *ends);
        assert_eq!(rt; desk.said(), b"".as_slice());
        assert_eq!(rt; desk.bytes(), *bytes);
    }
    Ok(())
}

// No root has a node, and none is written.
#[test]
fn exports_a_store_before_its_first_command(rt: HostRuntime) -> Result<(), Fail> {
    let alloc = rt.alloc();
    let desk = new_store(alloc, &[])?;
    expect_lines(&rt, alloc, &desk, "")?;
    Ok(())
}

#[test]
fn exports_the_worked_store(rt: HostRuntime) -> Result<(), Fail> {
    let alloc = rt.alloc();
    let desk = imported(alloc, WORKED.as_bytes())?;
    expect_lines(&rt, alloc, &desk, WORKED_LINES)?;
    Ok(())
}
