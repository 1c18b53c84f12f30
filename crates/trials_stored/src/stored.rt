// A store in a file: its words, faults of the device, and a stop of the machine in each call.
ghost use Rattle.std.specs.Prelude.{◌<◌};

use pl_base::NoMemory;
use pl_desk::{MemDesk, MemSource};
use places::Status;
use std::alloc::Global;
use std::process::Abort;
use std::test::Fail;
use trials_desks::in_memory;

const SCRIPT: &[u8] = b"visit\thttps://a.example/\t2\t0\nfrob\nvisit\thttps://b.example/\t1\t1\n";

const SAID: &[u8] =
    b"visit\t1\tpage\t1\tfrecency\t2000\nrefused\t14\t1\nvisit\t2\tpage\t2\tfrecency\t100\n";

// A visit to the first page of the script: its id tells how many visits the file holds.
const ONE_MORE: &[u8] = b"visit\thttps://a.example/\t1\t0\n";

// What a run of one more visit says where the file holds no visit of the script, one, and both.
const HELD: [&[u8]; 3] = [
    b"visit\t1\tpage\t1\tfrecency\t100\n",
    b"visit\t2\tpage\t1\tfrecency\t2100\n",
    b"visit\t3\tpage\t1\tfrecency\t2100\n",
];

// The bytes said once no visit, one, and both have their replies begun.
const BEGUN: [usize; 3] = [0, 1, 43];

// What a stop leaves in the bytes that may hold anything.
const FILLERS: [u8; 3] = [0, 1, 255];

// How a run on the desk ends.
fn run_on(alloc: Global, words: &[&str], script: &[u8], desk: &mut MemDesk) -> Status {
    match MemSource::over(alloc, script, 64, &[]) {
        Ok(mut input) => in_memory(alloc, words, &mut input, desk),
        Err(NoMemory) => Status::NoMemory,
    }
}

// A desk with these bytes, on which nothing was said yet.
fn copied(alloc: Global, desk: &MemDesk, fails: &[u32]) -> Result<MemDesk, NoMemory> {
    MemDesk::holding(alloc, desk.bytes(), fails)
}

fn new_store(rt: &impl Abort, alloc: Global, fails: &[u32]) -> Result<MemDesk, NoMemory> {
    let mut desk = MemDesk::holding(alloc, &[], &[])?;
    let status = run_on(alloc, &["new", "s"], b"", &mut desk);
    assert_eq!(rt; status, Status::Done);
    assert_eq!(rt; desk.said(), b"new\n".as_slice());
    copied(alloc, &desk, fails)
}

const WORDS: &[(&[&str], &[u8], Status)] = &[
    (&["new", "s"], b"x", Status::NotEmpty(1)),
    (&["run", "s"], b"", Status::NotAStore),
    (&["run", "s"], &[0; 4096], Status::NotAStore),
];

#[test]
fn answers_by_its_words(rt: HostRuntime) -> Result<(), Fail> {
    let alloc = rt.alloc();
    for (words, bytes, ends) in WORDS {
        let mut desk = MemDesk::holding(alloc, bytes, &[])?;
        let status = run_on(alloc, words, SCRIPT, &mut desk);
        assert_eq!(rt; status, *ends);
        assert_eq!(rt; desk.said(), b"".as_slice());
        assert_eq!(rt; desk.bytes(), *bytes);
    }
    Ok(())
}

#[test]
fn keeps_what_it_acknowledged(rt: HostRuntime) -> Result<(), Fail> {
    let alloc = rt.alloc();
    let mut desk = new_store(&rt, alloc, &[])?;
    let status = run_on(alloc, &["run", "s"], SCRIPT, &mut desk);
    assert_eq!(rt; status, Status::Done);
    assert_eq!(rt; desk.said(), SAID);
    let mut again = copied(alloc, &desk, &[])?;
    let status = run_on(alloc, &["run", "s"], ONE_MORE, &mut again);
    assert_eq!(rt; status, Status::Done);
    assert_eq!(rt; again.said(), HELD[2]);
    Ok(())
}

// The file holds so many visits of the script, or one more of both.
fn expect_held(
    rt: &impl Abort,
    alloc: Global,
    desk: &mut MemDesk,
    begun: usize,
) -> Result<(), NoMemory> {
    let status = run_on(alloc, &["run", "s"], ONE_MORE, desk);
    assert_eq!(rt; status, Status::Done);
    let fewest = BEGUN.iter().filter(|least| **least <= begun).count();
    let held = HELD.iter().position(|text| *text == desk.said());
    let visits = held.map_or(0, |visits| visits + 1);
    assert!(rt;
        visits == fewest || visits == fewest + 1,
        "{begun} bytes said"
    );
    Ok(())
}

#[test]
fn a_stop_leaves_what_was_answered(rt: HostRuntime) -> Result<(), Fail> {
    let alloc = rt.alloc();
    let mut desk = new_store(&rt, alloc, &[])?;
    run_on(alloc, &["run", "s"], SCRIPT, &mut desk);
    for call in 0..desk.calls() {
        for filler in FILLERS {
            let begun = desk.said_at(call);
            let mut stopped = desk.stopped(alloc, call, filler)?;
            expect_held(&rt, alloc, &mut stopped, begun)?;
        }
    }
    Ok(())
}

// Each read takes 40 bytes: the first has two lines and a part of the third, and the third read
// finds the end.
#[test]
fn a_read_that_fails_leaves_the_lines_before_it(rt: HostRuntime) -> Result<(), Fail> {
    let alloc = rt.alloc();
    let cases: [(u32, usize, &[u8]); 3] = [(0, 0, HELD[0]), (1, 42, HELD[1]), (2, 70, HELD[2])];
    for (call, said, held) in cases {
        let mut desk = new_store(&rt, alloc, &[])?;
        let mut input = MemSource::over(alloc, SCRIPT, 40, &[call])?;
        let status = in_memory(alloc, &["run", "s"], &mut input, &mut desk);
        assert_eq!(rt; status, Status::ReadFault, "read {call}");
        assert_eq!(rt; Some(desk.said()), SAID.get(..said));
        let mut again = copied(alloc, &desk, &[])?;
        let status = run_on(alloc, &["run", "s"], ONE_MORE, &mut again);
        assert_eq!(rt; status, Status::Done);
        assert_eq!(rt; again.said(), held);
    }
    Ok(())
}

// How a run ends whose call of the desk with this number fails.
fn failed(rt: &impl Abort, alloc: Global, call: u32) -> Result<Status, NoMemory> {
    let mut desk = new_store(rt, alloc, &[call])?;
    let status = run_on(alloc, &["run", "s"], SCRIPT, &mut desk);
    let begun = desk.said().len();
    let mut again = copied(alloc, &desk, &[])?;
    expect_held(rt, alloc, &mut again, begun)?;
    Ok(status)
}

// Of the 38 calls of the script's run the opening makes the first nine, and each commit thirteen,
// of the header and two pages of slots. These say a reply.
const SAYS: [u32; 3] = [22, 23, 37];

#[test]
fn stops_at_a_call_of_the_desk_that_fails(rt: HostRuntime) -> Result<(), Fail> {
    let alloc = rt.alloc();
    for call in 0..39 {
        let ends = if SAYS.contains(&call) {
            Status::SayFault
        } else if call < 38 {
            Status::DeviceFault
        } else {
            Status::Done
        };
        assert_eq!(rt; failed(&rt, alloc, call)?, ends, "call {call}");
    }
    Ok(())
}

#[test]
fn makes_no_store_where_the_device_fails(rt: HostRuntime) -> Result<(), Fail> {
    let alloc = rt.alloc();
    let mut whole = MemDesk::holding(alloc, &[], &[])?;
    run_on(alloc, &["new", "s"], b"", &mut whole);
    for call in 0..whole.calls() {
        let mut desk = MemDesk::holding(alloc, &[], &[call])?;
        let status = run_on(alloc, &["new", "s"], b"", &mut desk);
        let is_last = call + 1 == whole.calls();
        let ends = if is_last {
            Status::SayFault
        } else {
            Status::DeviceFault
        };
        assert_eq!(rt; status, ends, "call {call}");
        assert_eq!(rt; desk.said(), b"".as_slice());
    }
    Ok(())
}
