// A stop of the machine in each call of a restore, and each call failing: the store before or the
// one after, and the latter once a byte of the reply was said.
use crate::desks::{AFTER, BACKUP, BEFORE, RESTORE, RUN, SAID, first_store};
use pl_base::NoMemory;
use pl_desk::{MemDesk, MemSource};
use places::Status;
use std::alloc::Global;
use std::process::Abort;
use std::test::Fail;
use trials_desks::{copied, in_memory, run_on};

// What a stop leaves in the bytes that may hold anything.
const FILLERS: [u8; 3] = [0, 1, 255];

// The file holds one of the two, and the later one where something was said.
fn expect_either(
    rt: &impl Abort,
    alloc: Global,
    desk: &mut MemDesk,
    begun: usize,
) -> Result<(), NoMemory> {
    let status = run_on(alloc, RUN, b"stats\n", desk);
    assert_eq!(rt; status, Status::Done);
    let told = desk.said();
    assert!(rt;
        told == AFTER || (told == BEFORE && begun == 0),
        "{begun} bytes said"
    );
    Ok(())
}

#[test]
fn a_stop_leaves_all_of_it_or_none(rt: HostRuntime) -> Result<(), Fail> {
    let alloc = rt.alloc();
    let mut desk = copied(alloc, &first_store(&rt, alloc)?, &[])?;
    let status = run_on(alloc, RESTORE, BACKUP.as_bytes(), &mut desk);
    assert_eq!(rt; status, Status::Done);
    assert_eq!(rt; desk.said(), SAID);
    for call in 0..desk.calls() {
        for filler in FILLERS {
            let begun = desk.said_at(call);
            let mut stopped = desk.stopped(alloc, call, filler)?;
            expect_either(&rt, alloc, &mut stopped, begun)?;
        }
    }
    Ok(())
}

fn failed(rt: &impl Abort, alloc: Global, store: &MemDesk, call: u32) -> Result<Status, Fail> {
    let mut desk = copied(alloc, store, &[call])?;
    let status = run_on(alloc, RESTORE, BACKUP.as_bytes(), &mut desk);
    let begun = desk.said().len();
    let mut again = copied(alloc, &desk, &[])?;
    expect_either(rt, alloc, &mut again, begun)?;
    Ok(status)
}

// The opening makes the first nine calls and the commit fifteen, of the header and three pages of
// slots; the last says the reply.
const CALLS: u32 = 25;

#[test]
fn a_call_that_fails_leaves_all_of_it_or_none(rt: HostRuntime) -> Result<(), Fail> {
    let alloc = rt.alloc();
    let store = first_store(&rt, alloc)?;
    for call in 0..CALLS + 1 {
        let ends = if call < CALLS - 1 {
            Status::DeviceFault
        } else if call == CALLS - 1 {
            Status::SayFault
        } else {
            Status::Done
        };
        assert_eq!(rt; failed(&rt, alloc, &store, call)?, ends, "call {call}");
    }
    Ok(())
}

// In pieces of 64 bytes six reads take the 348 bytes, and one more finds the end.
const READS: u32 = 7;

#[test]
fn a_read_that_fails_leaves_none_of_it(rt: HostRuntime) -> Result<(), Fail> {
    let alloc = rt.alloc();
    let store = first_store(&rt, alloc)?;
    for call in 0..READS + 1 {
        let mut input = MemSource::over(alloc, BACKUP.as_bytes(), 64, &[call])?;
        let mut desk = copied(alloc, &store, &[])?;
        let status = in_memory(alloc, RESTORE, &mut input, &mut desk);
        if call < READS {
            assert_eq!(rt; status, Status::ReadFault, "read {call}");
            assert!(rt; desk.said().is_empty(), "read {call}");
            assert!(rt; desk.bytes() == store.bytes(), "read {call}");
        } else {
            assert_eq!(rt; status, Status::Done);
            assert_eq!(rt; desk.said(), SAID);
        }
    }
    Ok(())
}
