// A call of a commit or of a recovery that fails, and the recovery after it.
use super::*;
use std::test::Fail;

// A recovery of a file of these bytes gives these pages.
fn expect_pages(
    rt: &impl Abort,
    alloc: Global,
    bytes: &[u8],
    pages: &[u8],
) -> Result<(), NoMemory> {
    let mut desk = MemDesk::holding(alloc, bytes, &[])?;
    assert_eq!(rt; recover(&mut desk), Ok(()));
    assert!(rt; holds(&desk, pages));
    Ok(())
}

// Each call of the commit fails in turn. The pages are those after the change once the gate's byte
// was written.
fn expect_commit_faults(rt: &impl Abort, alloc: Global, case: &Case) -> Result<(), NoMemory> {
    let touched = touched_by(rt, alloc, case)?;
    let file = file_before(alloc, case)?;
    let before = pages_before(alloc, case)?;
    let after = pages_after(alloc, case)?;
    for call in 0..case.calls {
        let mut desk = MemDesk::holding(alloc, &file, &[call])?;
        assert_eq!(rt;
            commit(&mut desk, &touched),
            Err(DeviceFault),
            "call {call}"
        );
        let pages = if call < case.armed { &before } else { &after };
        expect_pages(rt, alloc, desk.bytes(), pages)?;
    }
    Ok(())
}

#[test]
fn a_commit_fails_with_the_device(rt: HostRuntime) -> Result<(), Fail> {
    for case in &FEW_PAGES {
        expect_commit_faults(&rt, rt.alloc(), case)?;
    }
    Ok(())
}

// The bytes of a file whose gate is set over the journal of the change.
fn armed_file(rt: &impl Abort, alloc: Global, case: &Case) -> Result<Vec<u8>, NoMemory> {
    let touched = touched_by(rt, alloc, case)?;
    let file = file_before(alloc, case)?;
    let mut desk = MemDesk::holding(alloc, &file, &[case.armed])?;
    assert_eq!(rt; commit(&mut desk, &touched), Err(DeviceFault));
    assert!(rt; desk.bytes().starts_with(&[1]));
    Ok(Vec::from_slice(alloc, desk.bytes())?)
}

// Each call of the recovery of such a file fails in turn.
fn expect_recovery_faults(rt: &impl Abort, alloc: Global, case: &Case) -> Result<(), NoMemory> {
    let file = armed_file(rt, alloc, case)?;
    let after = pages_after(alloc, case)?;
    let mut whole = MemDesk::holding(alloc, &file, &[])?;
    assert_eq!(rt; recover(&mut whole), Ok(()));
    for call in 0..whole.calls() {
        let mut desk = MemDesk::holding(alloc, &file, &[call])?;
        let answer = recover(&mut desk);
        assert_eq!(rt; answer, Err(GateError::DeviceFault), "call {call}");
        expect_pages(rt, alloc, desk.bytes(), &after)?;
    }
    Ok(())
}

#[test]
fn a_recovery_fails_with_the_device(rt: HostRuntime) -> Result<(), Fail> {
    for case in &FEW_PAGES {
        expect_recovery_faults(&rt, rt.alloc(), case)?;
    }
    Ok(())
}
