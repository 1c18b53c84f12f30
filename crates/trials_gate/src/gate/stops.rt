// A stop of the machine within each call of a commit, and within each call of the recovery after
// it.
use super::*;
use std::test::Fail;

// What a stop leaves in the bytes that may hold anything.
const FILLERS: [u8; 3] = [0, 1, 255];

// A stop within this call of a recovery, with each filler, leaves these pages to the next recovery.
fn expect_recovered(
    rt: &impl Abort,
    alloc: Global,
    desk: &MemDesk,
    call: u32,
    pages: &[u8],
) -> Result<(), NoMemory> {
    assert!(rt; call < desk.calls());
    for filler in FILLERS {
        let mut stopped = desk.stopped(alloc, call, filler)?;
        assert_eq!(rt; recover(&mut stopped), Ok(()));
        assert!(rt;
            holds(&stopped, pages),
            "call {call} of a recovery, filler {filler}"
        );
    }
    Ok(())
}

// A stop within this call of a commit leaves these pages to the recovery, and so does a stop within
// that.
fn expect_settled(
    rt: &impl Abort,
    alloc: Global,
    desk: &MemDesk,
    call: u32,
    filler: u8,
    pages: &[u8],
) -> Result<(), NoMemory> {
    assert!(rt; call < desk.calls());
    let mut stopped = desk.stopped(alloc, call, filler)?;
    assert_eq!(rt; recover(&mut stopped), Ok(()));
    assert!(rt; holds(&stopped, pages), "call {call}, filler {filler}");
    for later in 0..stopped.calls() {
        expect_recovered(rt, alloc, &stopped, later, pages)?;
    }
    Ok(())
}

// A stop within this call of a commit leaves the pages after the change once the set gate is on the
// disk, and where the filler sets it, and else those before.
fn expect_either(
    rt: &impl Abort,
    alloc: Global,
    case: &Case,
    desk: &MemDesk,
    call: u32,
) -> Result<(), NoMemory> {
    let before = pages_before(alloc, case)?;
    let after = pages_after(alloc, case)?;
    for filler in FILLERS {
        let is_set = call > case.armed || filler == 1 && call.saturating_add(1) >= case.armed;
        let pages = if is_set { &after } else { &before };
        expect_settled(rt, alloc, desk, call, filler, pages)?;
    }
    Ok(())
}

// The commit of the change, and a stop within each of its calls.
fn expect_whole(rt: &impl Abort, alloc: Global, case: &Case) -> Result<(), NoMemory> {
    let touched = touched_by(rt, alloc, case)?;
    let file = file_before(alloc, case)?;
    let mut desk = MemDesk::holding(alloc, &file, &[])?;
    assert_eq!(rt; commit(&mut desk, &touched), Ok(()));
    assert_eq!(rt; desk.calls(), case.calls);
    assert!(rt; holds(&desk, &pages_after(alloc, case)?));
    assert!(rt; !desk.bytes().starts_with(&[1]));
    for call in 0..desk.calls() {
        expect_either(rt, alloc, case, &desk, call)?;
    }
    Ok(())
}

#[test]
fn a_stop_leaves_the_pages_before_or_after(rt: HostRuntime) -> Result<(), Fail> {
    for case in &FEW_PAGES {
        expect_whole(&rt, rt.alloc(), case)?;
    }
    Ok(())
}

#[test]
fn a_stop_leaves_five_pages_before_or_after(rt: HostRuntime) -> Result<(), Fail> {
    expect_whole(&rt, rt.alloc(), &FIVE_PAGES)?;
    Ok(())
}

#[test]
fn a_stop_leaves_five_pages_of_a_longer_store(rt: HostRuntime) -> Result<(), Fail> {
    expect_whole(&rt, rt.alloc(), &FIVE_PAGES_LONGER)?;
    Ok(())
}
