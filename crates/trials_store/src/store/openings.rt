// How an opening of a file ends.
use super::*;

#[derive(Clone, Copy)]
enum Opening {
    New,
    Old,
}

fn ended(alloc: Global, desk: &mut MemDesk, opening: Opening) -> Option<Ended> {
    match opening {
        Opening::New => create(alloc, desk).err(),
        Opening::Old => reopen(alloc, desk, SLOT_LIMIT).err(),
    }
}

// An opening of a file of these bytes ends so, and with a fault where one of its calls fails.
fn expect_ended(
    rt: &impl Abort,
    alloc: Global,
    opening: Opening,
    bytes: &[u8],
    want: Option<Ended>,
) -> Result<(), NoMemory> {
    let mut desk = MemDesk::holding(alloc, bytes, &[])?;
    assert_eq!(rt; ended(alloc, &mut desk, opening), want);
    for call in 0..desk.calls() {
        let mut failing = MemDesk::holding(alloc, bytes, &[call])?;
        let fault = ended(alloc, &mut failing, opening);
        assert_eq!(rt; fault, Some(Ended::DeviceFault), "call {call}");
    }
    Ok(())
}

#[test]
fn a_file_with_bytes_is_left_alone(rt: HostRuntime) -> Result<(), Fail> {
    let alloc = rt.alloc();
    let mut desk = MemDesk::holding(alloc, b"x", &[])?;
    let end = ended(alloc, &mut desk, Opening::New);
    assert_eq!(rt; end, Some(Ended::NotEmpty(1)));
    assert_eq!(rt; desk.bytes(), b"x".as_slice());
    assert_eq!(rt; desk.calls(), 1);
    Ok(())
}

#[test]
fn an_opening_fails_with_the_device(rt: HostRuntime) -> Result<(), Fail> {
    let alloc = rt.alloc();
    let not_a_store = Some(Ended::NotAStore);
    expect_ended(&rt, alloc, Opening::New, &[], None)?;
    expect_ended(&rt, alloc, Opening::New, b"x", Some(Ended::NotEmpty(1)))?;
    expect_ended(&rt, alloc, Opening::Old, &[], not_a_store)?;
    expect_ended(&rt, alloc, Opening::Old, &[0; PAGE_SIZE], not_a_store)?;
    Ok(())
}

#[test]
fn a_new_store_opens_with_each_call(rt: HostRuntime) -> Result<(), Fail> {
    let alloc = rt.alloc();
    let mut desk = MemDesk::holding(alloc, &[], &[])?;
    let _ = create(alloc, &mut desk)?;
    expect_ended(&rt, alloc, Opening::Old, desk.bytes(), None)?;
    Ok(())
}

// How many calls a session over the file makes in all for the second command.
fn calls_for_second(rt: &impl Abort, alloc: Global, bytes: &[u8]) -> Result<u32, Fail> {
    let mut desk = MemDesk::holding(alloc, bytes, &[])?;
    let session = reopen(alloc, &mut desk, SLOT_LIMIT)?;
    let _ = perform_second(rt, alloc, session, &mut desk)?;
    Ok(desk.calls())
}

// What lies behind a store's pages changes neither the answer nor the calls.
#[test]
fn a_store_opens_before_a_tail(rt: HostRuntime) -> Result<(), Fail> {
    let alloc = rt.alloc();
    let mut desk = MemDesk::holding(alloc, &[], &[])?;
    let session = create(alloc, &mut desk)?;
    let _ = perform_first(&rt, alloc, session, &FIRST_REPLY, &mut desk)?;
    let mut bytes = desk.bytes().to_vec(alloc)?;
    let calls = calls_for_second(&rt, alloc, &bytes)?;
    bytes.extend_from_slice(&[0x5a; 3 * PAGE_SIZE + 1])?;
    assert_eq!(rt; calls_for_second(&rt, alloc, &bytes)?, calls);
    Ok(())
}

// A new store has three pages, and a file that is cut within them is none.
#[test]
fn a_cut_store_is_none(rt: HostRuntime) -> Result<(), Fail> {
    let alloc = rt.alloc();
    let mut desk = MemDesk::holding(alloc, &[], &[])?;
    let _ = create(alloc, &mut desk)?;
    let bytes = desk.bytes();
    for len in [PAGE_SIZE + 20, 2 * PAGE_SIZE, 3 * PAGE_SIZE - 1] {
        let cut = bytes.get(..len).ok_or("a store of fewer pages")?;
        expect_ended(&rt, alloc, Opening::Old, cut, Some(Ended::NotAStore))?;
    }
    let whole = bytes.get(..3 * PAGE_SIZE).ok_or("a store of fewer pages")?;
    expect_ended(&rt, alloc, Opening::Old, whole, None)?;
    Ok(())
}
