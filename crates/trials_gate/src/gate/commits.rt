// What a commit leaves, to the byte.
use super::*;
use std::test::Fail;

#[test]
fn a_commit_writes_the_journal_and_the_pages(rt: HostRuntime) -> Result<(), Fail> {
    let alloc = rt.alloc();
    // From an empty file to pages 1 and 2, whose journal begins at 3,072.
    let case = Case {
        before: 1,
        after: 3,
        old: &[],
        armed: 5,
        calls: 11,
    };
    let touched = touched_by(&rt, alloc, &case)?;
    let mut desk = MemDesk::holding(alloc, &[], &[])?;
    assert_eq!(rt; commit(&mut desk, &touched), Ok(()));
    let parts: [&[u8]; 8] = [
        b"\0\0\0\0\0\0\0\0\0\x0c\0\0\0\0\0\0\x02\0\0\0\x03\0\0\0",
        &[0; 1000],
        &new_page(1),
        &new_page(2),
        b"\x01\0\0\0\0\0\0\0",
        &new_page(1),
        b"\x02\0\0\0\0\0\0\0",
        &new_page(2),
    ];
    let mut file = Vec::new(alloc);
    for part in parts {
        file.extend_from_slice(part)?;
    }
    assert_eq!(rt; desk.bytes(), file.as_slice());
    assert_eq!(rt; desk.calls(), case.calls);
    Ok(())
}
