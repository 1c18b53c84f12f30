// A stop of the machine in each call of an import, and each call failing: the store before or the
// one after, and the latter once a byte of the reply was said.
ghost use Rattle.std.specs.Prelude.{◌<◌};

use crate::desks::SAID;
use pl_base::NoMemory;
use pl_desk::{MemDesk, MemSource};
use places::Status;
use std::alloc::Global;
use std::process::Abort;
use std::test::Fail;
use trials_desks::{WORKED, copied, in_memory, new_store, run_on};

const IMPORT: &[&str] = &["import", "s"];

// What `stats` tells of the store before, and of the store after.
const BEFORE: &[u8] = b"stats\tpages\t0\tvisits\t0\titems\t6\torigins\t0\tsum\t0\tslots\t6\n";

const AFTER: &[u8] = b"stats\tpages\t3\tvisits\t0\titems\t14\torigins\t3\tsum\t420\tslots\t29\n";

// What a stop leaves in the bytes that may hold anything.
const FILLERS: [u8; 3] = [0, 1, 255];

// The file holds one of the two, and the later one where something was said.
fn expect_either(
    rt: &impl Abort,
    alloc: Global,
    desk: &mut MemDesk,
    begun: usize,
) -> Result<(), NoMemory> {
    let status = run_on(alloc, &["run", "s"], b"stats\n", desk);
    assert_eq!(rt; status, Status::Done);
    let told = desk.said();
    assert!(rt;
        told == AFTER || (told == BEFORE && begun == 0),
        "{begun} bytes said"
    );
    Ok(())
}

#[test]
fn a_stop_leaves_all_of_it_or_none(rt: HostRuntime) -> Result<(), Fail> {
    let alloc = rt.alloc();
    let mut desk = new_store(alloc, &[])?;
    let status = run_on(alloc, IMPORT, WORKED.as_bytes(), &mut desk);
    assert_eq!(rt; status, Status::Done);
    assert_eq!(rt; desk.said(), SAID);
    for call in 0..desk.calls() {
        for filler in FILLERS {
            let begun = desk.said_at(call);
            let mut stopped = desk.stopped(alloc, call, filler)?;
            expect_either(&rt, alloc, &mut stopped, begun)?;
        }
    }
    Ok(())
}

fn failed(rt: &impl Abort, alloc: Global, call: u32) -> Result<Status, Fail> {
    let mut desk = new_store(alloc, &[call])?;
    let status = run_on(alloc, IMPORT, WORKED.as_bytes(), &mut desk);
    let begun = desk.said().len();
    let mut again = copied(alloc, &desk, &[])?;
    expect_either(rt, alloc, &mut again, begun)?;
    Ok(status)
}

// Of the 27 calls the opening makes the first nine and the commit seventeen, of the header and four
// pages of slots; the last says the reply.
#[test]
fn a_call_that_fails_leaves_all_of_it_or_none(rt: HostRuntime) -> Result<(), Fail> {
    let alloc = rt.alloc();
    for call in 0..28 {
        let ends = if call < 26 {
            Status::DeviceFault
        } else if call == 26 {
            Status::SayFault
        } else {
            Status::Done
        };
        assert_eq!(rt; failed(&rt, alloc, call)?, ends, "call {call}");
    }
    Ok(())
}

// In pieces of 64 bytes twelve reads take the 740 bytes, and one more finds the end.
const READS: u32 = 13;

#[test]
fn a_read_that_fails_leaves_none_of_it(rt: HostRuntime) -> Result<(), Fail> {
    let alloc = rt.alloc();
    let store = new_store(alloc, &[])?;
    for call in 0..READS + 1 {
        let mut input = MemSource::over(alloc, WORKED.as_bytes(), 64, &[call])?;
        let mut desk = copied(alloc, &store, &[])?;
        let status = in_memory(alloc, IMPORT, &mut input, &mut desk);
        if call < READS {
            assert_eq!(rt; status, Status::ReadFault, "read {call}");
            assert!(rt; desk.said().is_empty(), "read {call}");
            assert!(rt; desk.bytes() == store.bytes(), "read {call}");
        } else {
            assert_eq!(rt; status, Status::Done);
            assert_eq!(rt; desk.said(), SAID);
        }
    }
    Ok(())
}
