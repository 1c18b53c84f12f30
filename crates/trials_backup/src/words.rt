// The words of a backup, and a store without a bookmark.
use crate::desks::expect_roots;
use pl_desk::MemDesk;
use places::Status;
use std::test::Fail;
use trials_desks::{new_store, run_on};

// Words, the bytes of a file, and how a run of these words on it ends, which says nothing.
const WORDS: &[(&[&str], &[u8], Status)] = &[
    (&["backup"], b"", Status::Usage),
    (&["backup", "s", "t"], b"", Status::Usage),
    (&["Backup", "s"], b"", Status::Usage),
    (&["backup", "s"], b"", Status::NotAStore),
    (&["backup", "s"], &[0; 4096], Status::NotAStore),
];

#[test]
fn refuses_other_words_and_files(rt: HostRuntime) -> Result<(), Fail> {
    let alloc = rt.alloc();
    for (words, bytes, ends) in WORDS {
        let mut desk = MemDesk::holding(alloc, bytes, &[])?;
        let status = run_on(alloc, words, b"stats\n", &mut desk);
        assert_eq!(rt; status, *ends);
        assert_eq!(rt; desk.said(), b"".as_slice());
        assert_eq!(rt; desk.bytes(), *bytes);
    }
    Ok(())
}

// No root has a node, and each is written.
#[test]
fn backs_up_a_store_before_its_first_command(rt: HostRuntime) -> Result<(), Fail> {
    let alloc = rt.alloc();
    let desk = new_store(alloc, &[])?;
    expect_roots(&rt, alloc, &desk, ("", "", "", ""))?;
    Ok(())
}
