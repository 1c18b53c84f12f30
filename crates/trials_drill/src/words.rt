// The words of the drill.
use pl_desk::MemDesk;
use places::Status;
use std::test::Fail;
use trials_desks::{new_store, run_on};

// No form of words: numbers of lines and seeds with a sign, a leading zero, a blank or another
// character, too small or too great, and words too few or too many.
const FAULTY: &[&[&str]] = &[
    &["drill"],
    &["drill", "s"],
    &["drill", "s", "1"],
    &["drill", "s", "1", "1", "1"],
    &["Drill", "s", "1", "1"],
    &["drill", "s", "0", "1"],
    &["drill", "s", "100001", "1"],
    &["drill", "s", "01", "1"],
    &["drill", "s", "+1", "1"],
    &["drill", "s", "-1", "1"],
    &["drill", "s", "4294967297", "1"],
    &["drill", "s", "", "1"],
    &["drill", "s", "1 ", "1"],
    &["drill", "s", "0x1", "1"],
    &["drill", "s", "1", ""],
    &["drill", "s", "1", "00"],
    &["drill", "s", "1", "+1"],
    &["drill", "s", "1", "-1"],
    &["drill", "s", "1", "18446744073709551616"],
    &["drill", "s", "1", "1e3"],
];

#[test]
fn refuses_faulty_words(rt: HostRuntime) -> Result<(), Fail> {
    let alloc = rt.alloc();
    let mut desk = new_store(alloc, &[])?;
    for words in FAULTY {
        let status = run_on(alloc, words, b"", &mut desk);
        assert_eq!(rt; status, Status::Usage);
    }
    assert_eq!(rt; desk.calls(), 0);
    Ok(())
}

#[test]
fn refuses_what_is_no_store(rt: HostRuntime) -> Result<(), Fail> {
    let alloc = rt.alloc();
    let mut desk = MemDesk::holding(alloc, &[], &[])?;
    let status = run_on(alloc, &["drill", "s", "100000", "0"], b"", &mut desk);
    assert_eq!(rt; status, Status::NotAStore);
    assert!(rt; desk.said().is_empty());
    Ok(())
}
